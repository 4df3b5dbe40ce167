// Recovers the files after an interrupted save: on the disk, or in the memory of a reader that may not write.
ghost use Rattle.std.specs.Prelude.{◌≡◌, ◌⊎◌, [], OnOk, IfOk, IfErr, IfSome, IsNone};
ghost use Rattle.sdbm_saves.specs.Disk.{Image, LeavesOnly};
ghost use Rattle.sdbm_saves.specs.Recording.{image_of};
ghost use Rattle.sdbm_saves.specs.Redo.{files, IsPlan};
ghost use Rattle.sdbm_saves.specs.declared.disk.DiskError.TheVariants.{Failed};
ghost use Rattle.sdbm_log.specs.Log.{files_of, Holds, CanRecover, IsAtRest};
ghost use Rattle.sdbm_log.specs.Saving.{image_in, HasNoPlan, IsRedoPlan, Reads};
ghost use Rattle.sdbm_log.specs.declared.records.LogFault.TheVariants.{Foreign, Damaged};
ghost use Rattle.sdbm_logged.specs.Keeping.{bytes_of};
ghost use Rattle.sdbm_logged.specs.declared.fault.OpenFault.TheVariants as fault;

use crate::fault::OpenFault;
use crate::keeping::DataBytes;
use crate::once::remove;
use sdbm_log::{LogFiles, make_steps, recover_steps};
use sdbm_saves::{Disk, DiskFile, Found, lay_over};
use std::alloc::{AllocError, Global};
use std::marker::Brand;

/// Recovers files that were read: syncs them, applies the plans of the redo file to both data files, clears the commit byte, and removes the
/// redo file.
///
/// # Errors
///
/// Those of `open_log`.
pub fn recover_log<D: Disk>(
    alloc: Global,
    disk: &mut D,
    found: LogFiles<'_>,
) -> Result<(), OpenFault>
    requires reads { Reads found (D.seen disk.old) }

    // Afterwards the data files are durable, and are those that the three files represented. There is no redo file.
    ensures rest { OnOk result (IsAtRest (D.seen disk.new) (D.may_leave disk.new)) }
    ensures same { OnOk result (files (D.seen disk.new) ≡ files_of (D.seen disk.old)) }
    ensures removed { OnOk result ((D.seen disk.new).redo ≡ []) }

    // A crash during the call leaves an image that it might have left before, or files that represent the same data and can be recovered.
    ensures any_moment { LeavesOnly D.moment D.left_since disk.old disk.new (λ c. D.may_leave disk.old c ⊎ Holds (files_of (D.seen disk.old)) c) }

    ensures foreign { IfErr result (λ why. why ≡ fault.Files Foreign → CanRecover (image_in found.entry) → ⊥) }
    ensures damaged { IfErr result (λ why. why ≡ fault.Files Damaged → CanRecover (image_in found.entry) → ⊥) }

    // `Failed` is returned only if the disk has failed. A failed disk stays failed.
    ensures cause { IfErr result (λ why. why ≡ fault.Disk Failed → D.has_failed disk.new) }
    ensures stays { D.has_failed disk.old → D.has_failed disk.new }
{
    replay_log(alloc, disk, found)?;
    remove(disk)?;
    Ok(())
}

// Recovers files like `recover_log`, but leaves the redo file, whose commit byte is not 1 afterwards.
fn replay_log<D: Disk>(alloc: Global, disk: &mut D, found: LogFiles<'_>) -> Result<(), OpenFault>
    requires reads { Reads found (D.seen disk.old) }

    ensures rest { OnOk result (IsAtRest (D.seen disk.new) (D.may_leave disk.new)) }
    ensures same { OnOk result (files (D.seen disk.new) ≡ files_of (D.seen disk.old)) }
    ensures any_moment { LeavesOnly D.moment D.left_since disk.old disk.new (λ c. D.may_leave disk.old c ⊎ Holds (files_of (D.seen disk.old)) c) }
    ensures foreign { IfErr result (λ why. why ≡ fault.Files Foreign → CanRecover (image_in found.entry) → ⊥) }
    ensures damaged { IfErr result (λ why. why ≡ fault.Files Damaged → CanRecover (image_in found.entry) → ⊥) }
    ensures cause { IfErr result (λ why. why ≡ fault.Disk Failed → D.has_failed disk.new) }
    ensures stays { D.has_failed disk.old → D.has_failed disk.new }
{
    let made = recover_steps::<Brand>(alloc, found)?;
    let bytes = made.bytes.as_slice();
    make_steps(alloc, disk, bytes, made.steps.as_slice())?;
    Ok(())
}

/// Returns the data files that three files represent. `plan` is the plan that `plan_of` (`sdbm_log`) returns for these files.
///
/// # Errors
///
/// `AllocError` if allocation fails.
pub fn lay_both(alloc: Global, found: Found, plan: Option<Vec<u8>>) -> Result<DataBytes, AllocError>
    requires some { IfSome plan (λ plan. IsRedoPlan (image_of found) plan.items) }
    requires plan { IfSome plan (λ plan. IsPlan plan.items) }
    requires none { IsNone plan → HasNoPlan (image_of found) }

    ensures { IfOk result (λ both. bytes_of both ≡ files_of (image_of found)) }
{
    let Found {
        pages: old_pages,
        directory: old_directory,
        redo,
    } = found;
    drop(redo);
    let Some(plan) = plan else {
        return Ok(DataBytes {
            pages: old_pages,
            directory: old_directory,
        });
    };
    let plan = plan.as_slice();
    let pages = lay_over(alloc, plan, DiskFile::Pages, old_pages.as_slice())?;
    drop(old_pages);
    let directory = lay_over(alloc, plan, DiskFile::Directory, old_directory.as_slice())?;
    Ok(DataBytes { pages, directory })
}
