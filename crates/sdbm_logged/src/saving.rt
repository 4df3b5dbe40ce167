// Saves in an open log.
ghost use Rattle.std.specs.Prelude.{◌≡◌, ◌⊎◌, ◌<◌, ◌≤◌, length, IfOk};
ghost use Rattle.sdbm_saves.specs.Disk.{Image, LeavesOnly, HasCause};
ghost use Rattle.sdbm_saves.specs.Redo.{files, renewed_files, IsPlan, Knows};
ghost use Rattle.sdbm_saves.specs.declared.disk.DiskError.TheVariants.{Failed};
ghost use Rattle.sdbm_log.specs.Log.{Holds, IsReady};
ghost use Rattle.sdbm_logged.specs.declared.saving.LogSave.TheVariants.{Done, Pending};

use sdbm_log::{Log, make_steps, save_steps};
use sdbm_saves::{Disk, DiskError};
use std::alloc::Global;
use std::marker::Brand;

/// The least length in bytes of a plan that is too long to be saved.
pub const PLAN_LIMIT: usize = 3_000_000_000;

/// The outcome of a save that is committed.
#[derive(Clone, Copy, Debug, PartialEq, Eq)]
pub enum LogSave {
    /// Both data files are written, and the log is ready for the next save.
    Done,
    /// The save is durable, but a data file or the log could not be written: open the files again.
    Pending(DiskError),
}

/// Saves a plan in an open log: commits the plan with one sync, and applies it to both data files. A log without room for the plan is
/// emptied or replaced first.
///
/// # Errors
///
/// `Memory` if allocation fails, otherwise the error of the disk. The save may be committed or not: open the files again.
pub fn save_by<D: Disk>(
    alloc: Global,
    disk: &mut D,
    log: &mut Log,
    plan: &[u8],
) -> Result<LogSave, DiskError>
    requires plan { IsPlan plan.now }
    requires short { length plan.now < 3000000000 }
    requires near { log.old.end ≤ 4000000000 }
    requires ready { IsReady log.old.end log.old.room log.old.count (D.seen disk.old) (D.may_leave disk.old) }
    requires knows { Knows plan.now (files (D.seen disk.old)) }

    ensures ready { IfOk result (λ outcome. outcome ≡ Done → IsReady log.new.end log.new.room log.new.count (D.seen disk.new) (D.may_leave disk.new)) }
    ensures done { IfOk result (λ outcome. outcome ≡ Done → files (D.seen disk.new) ≡ renewed_files plan.now (D.seen disk.old)) }

    // After `Ok`, a crash leaves the files with the plan applied.
    ensures durable { IfOk result (λ outcome. (c : Image) → D.may_leave disk.new c → Holds (renewed_files plan.now (D.seen disk.old)) c) }

    // A crash during the call leaves the files with or without the plan applied.
    ensures any_moment { LeavesOnly D.moment D.left_since disk.old disk.new
        (λ c. Holds (files (D.seen disk.old)) c ⊎ Holds (renewed_files plan.now (D.seen disk.old)) c) }

    // `Failed`, alone or in `Pending`, is returned only if the disk has failed.
    ensures cause { HasCause (D.has_failed disk.old) (D.has_failed disk.new) result }
    ensures pending { IfOk result (λ outcome. outcome ≡ Pending Failed → D.has_failed disk.new) }
{
    let save = save_steps::<Brand>(alloc, *log, plan)?;
    let bytes = save.bytes.as_slice();
    make_steps(alloc, disk, bytes, save.commit.as_slice())?;
    match make_steps(alloc, disk, bytes, save.apply.as_slice()) {
        Ok(()) => {
            *log = save.log;
            Ok(LogSave::Done)
        }
        Err(fault) => Ok(LogSave::Pending(fault)),
    }
}
