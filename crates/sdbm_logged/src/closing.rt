// Closes a log.
ghost use Rattle.std.specs.Prelude.{◌≡◌, OnOk};
ghost use Rattle.sdbm_saves.specs.Disk.{LeavesOnly, HasCause};
ghost use Rattle.sdbm_saves.specs.Redo.{files};
ghost use Rattle.sdbm_log.specs.Log.{Holds, IsAtRest, IsReady};

use sdbm_log::{Log, close_steps, make_steps};
use sdbm_saves::{Disk, DiskError};
use std::alloc::Global;
use std::marker::Brand;

/// Closes a log: syncs both data files, then clears the commit byte. Afterwards the records of the log are invalid.
///
/// # Errors
///
/// `Memory` if allocation fails, otherwise the error of the disk. After an error, open the files again.
pub fn close_log<D: Disk>(alloc: Global, disk: &mut D, log: Log) -> Result<(), DiskError>
    requires ready { IsReady log.end log.room log.count (D.seen disk.old) (D.may_leave disk.old) }

    ensures rest { OnOk result (IsAtRest (D.seen disk.new) (D.may_leave disk.new)) }
    ensures same { OnOk result (files (D.seen disk.new) ≡ files (D.seen disk.old)) }

    // A crash during the call leaves the same files.
    ensures any_moment { LeavesOnly D.moment D.left_since disk.old disk.new (λ c. Holds (files (D.seen disk.old)) c) }

    // `Failed` is returned only if the disk has failed.
    ensures cause { HasCause (D.has_failed disk.old) (D.has_failed disk.new) result }
{
    let _log = log;
    let steps = close_steps::<Brand>(alloc)?;
    make_steps(alloc, disk, &[], steps.as_slice())?;
    Ok(())
}
