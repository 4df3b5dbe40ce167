// Opens a log.
ghost use Rattle.std.specs.Prelude.{◌≡◌, ◌⊎◌, ◌≤◌, OnOk, IfOk, IfErr};
ghost use Rattle.sdbm_saves.specs.Disk.{Image, LeavesOnly};
ghost use Rattle.sdbm_saves.specs.Redo.{files};
ghost use Rattle.sdbm_saves.specs.declared.disk.DiskError.TheVariants.{Failed};
ghost use Rattle.sdbm_log.specs.Log.{files_of, Holds, CanRecover, IsReady};
ghost use Rattle.sdbm_log.specs.Saving.{image_in, Reads};
ghost use Rattle.sdbm_log.specs.declared.records.LogFault.TheVariants.{Foreign, Damaged};
ghost use Rattle.sdbm_logged.specs.declared.fault.OpenFault.TheVariants as fault;

use crate::fault::OpenFault;
use sdbm_log::{Log, LogFiles, make_steps, open_steps};
use sdbm_saves::Disk;
use std::alloc::Global;
use std::marker::Brand;

/// Opens the log of files that were read. Syncs the files, recovers them if the commit byte of the redo file is 1, and makes the redo file
/// an empty log with at least `room` bytes after the header. The bytes of the data files are needed only if the commit byte is 1.
///
/// # Errors
///
/// `Files` if the files cannot be recovered, or if the steps cannot be allocated; no call was made then. `Disk` if a call fails, or if the
/// bytes that it writes cannot be allocated: open the files again.
pub fn open_log<D: Disk>(
    alloc: Global,
    disk: &mut D,
    found: LogFiles<'_>,
    room: usize,
) -> Result<Log, OpenFault>
    requires reads { Reads found (D.seen disk.old) }
    requires small { room ≤ 1073741824 }

    ensures ready { IfOk result (λ log. IsReady log.end log.room log.count (D.seen disk.new) (D.may_leave disk.new)) }
    ensures same { OnOk result (files (D.seen disk.new) ≡ files_of (D.seen disk.old)) }

    // A crash during the call leaves an image that it might have left before, or files that represent the same data and can be recovered.
    ensures any_moment { LeavesOnly D.moment D.left_since disk.old disk.new (λ c. D.may_leave disk.old c ⊎ Holds (files_of (D.seen disk.old)) c) }

    ensures foreign { IfErr result (λ why. why ≡ fault.Files Foreign → CanRecover (image_in found.entry) → ⊥) }
    ensures damaged { IfErr result (λ why. why ≡ fault.Files Damaged → CanRecover (image_in found.entry) → ⊥) }

    // `Failed` is returned only if the disk has failed. A failed disk stays failed.
    ensures cause { IfErr result (λ why. why ≡ fault.Disk Failed → D.has_failed disk.new) }
    ensures stays { D.has_failed disk.old → D.has_failed disk.new }
{
    let opened = open_steps::<Brand>(alloc, found, room)?;
    let bytes = opened.bytes.as_slice();
    make_steps(alloc, disk, bytes, opened.steps.as_slice())?;
    Ok(opened.log)
}
