// Saves with a log that is open for one save only.
ghost use Rattle.std.specs.Prelude.{◌≡◌, ◌≢◌, ◌⊎◌, ◌<◌, ◌≤◌, [], length, get_or, OnOk, IfOk};
ghost use Rattle.sdbm_saves.specs.Disk.{Image, Through, LeavesOnly, HasCause};
ghost use Rattle.sdbm_saves.specs.Redo.{files, renewed_files, IsPlan, Knows, StaysUnmarked};
ghost use Rattle.sdbm_saves.specs.declared.disk.DiskError.TheVariants.{Failed};
ghost use Rattle.sdbm_log.specs.Log.{Holds, IsAtRest, IsReady};
ghost use Rattle.sdbm_logged.specs.declared.saving.LogSave.TheVariants.{Done, Pending};

use crate::closing::close_log;
use crate::fault::OpenFault;
use crate::opening::open_log;
use crate::room::try_room;
use crate::saving::{LogSave, save_by};
use crate::settling::settle;
use sdbm_log::{Log, LogFault, LogFiles};
use sdbm_saves::{Disk, DiskError, DiskFile};
use std::alloc::Global;

// The length of the header of a log, in bytes.
const HEADER: usize = 4096;

// The least room in bytes of a log for one save. Most later saves can then reuse the log.
const LEAST_ROOM: usize = 28_672;

// A log with more room than this, in bytes, is removed after the save.
const MOST_ROOM: usize = 258_048;

// The greatest room, in bytes, of a log that is opened for a save. For a longer record, `save_by` makes a longer log.
const LONGEST: usize = 1 << 30;

/// Saves a plan that knows the current files; the commit byte of the redo file must not be 1. `redo` has the bytes of the redo file. The
/// save opens a log, commits the plan, applies it to both data files, and closes the log. If the plan may need new blocks of the disk, the
/// save first checks whether the disk has room.
///
/// `Done` means that the database is at rest again. The redo file then stays as an empty log that the next save can reuse; but the log is
/// removed if it is long or other users could not use it. `Pending` means that the save is durable, but a call failed after the commit:
/// open the files again, which finishes the save.
///
/// # Errors
///
/// `Memory` if allocation fails, otherwise the error of the disk. The save may be committed or not: open the files again.
pub fn save_once<D: Disk>(
    alloc: Global,
    disk: &mut D,
    redo: &[u8],
    plan: &[u8],
) -> Result<LogSave, DiskError>
    requires read { redo.now ≡ (D.seen disk.old).redo }
    requires unmarked { get_or redo.now 0 0 ≢ 1 }
    requires plan { IsPlan plan.now }
    requires short { length plan.now < 3000000000 }
    requires knows { Knows plan.now (files (D.seen disk.old)) }

    ensures rest { IfOk result (λ outcome. outcome ≡ Done → IsAtRest (D.seen disk.new) (D.may_leave disk.new)) }
    ensures done { IfOk result (λ outcome. outcome ≡ Done → files (D.seen disk.new) ≡ renewed_files plan.now (D.seen disk.old)) }

    // After `Ok`, a crash leaves the files with the plan applied.
    ensures durable { OnOk result ((c : Image) → D.may_leave disk.new c → Holds (renewed_files plan.now (D.seen disk.old)) c) }

    // A crash during the call leaves an image that it might have left before, or the files that were read, with or without the plan
    // applied.
    ensures any_moment { LeavesOnly D.moment D.left_since disk.old disk.new
        (λ c. D.may_leave disk.old c ⊎ (Holds (files (D.seen disk.old)) c ⊎ Holds (renewed_files plan.now (D.seen disk.old)) c)) }

    // `Failed`, alone or in `Pending`, is returned only if the disk has failed.
    ensures cause { HasCause (D.has_failed disk.old) (D.has_failed disk.new) result }
    ensures pending { IfOk result (λ outcome. outcome ≡ Pending Failed → D.has_failed disk.new) }
{
    let mut log = open_for(alloc, disk, redo, plan, LEAST_ROOM)?;
    match save_by(alloc, disk, &mut log, plan)? {
        LogSave::Done => Ok(end_once(alloc, disk, log)),
        LogSave::Pending(fault) => Ok(LogSave::Pending(fault)),
    }
}

/// Opens a log with room for this plan and at least `least` bytes (at most 1 GiB). The commit byte of the redo file must not be 1, and
/// `redo` has the bytes of this file. If the plan may need new blocks of the disk, first checks whether the disk has room.
///
/// # Errors
///
/// `Memory` if allocation fails, otherwise the error of the disk. After an error, open the files again.
pub fn open_for<D: Disk>(
    alloc: Global,
    disk: &mut D,
    redo: &[u8],
    plan: &[u8],
    least: usize,
) -> Result<Log, DiskError>
    requires read { redo.now ≡ (D.seen disk.old).redo }
    requires unmarked { get_or redo.now 0 0 ≢ 1 }
    requires plan { IsPlan plan.now }

    ensures ready { IfOk result (λ log. IsReady log.end log.room log.count (D.seen disk.new) (D.may_leave disk.new)) }
    ensures first { IfOk result (λ log. log.end ≤ 4000000000) }
    ensures same { OnOk result (files (D.seen disk.new) ≡ files (D.seen disk.old)) }
    ensures any_moment { LeavesOnly D.moment D.left_since disk.old disk.new (λ c. D.may_leave disk.old c ⊎ Holds (files (D.seen disk.old)) c) }
    ensures cause { HasCause (D.has_failed disk.old) (D.has_failed disk.new) result }
{
    settle(disk)?;
    let room = plan.len().saturating_add(8).max(least).min(LONGEST);
    let left = try_room(disk, redo, plan, HEADER + room)?;
    open_rest(alloc, disk, left, room)
}

// Opens a log of at least `room` bytes for files at rest.
fn open_rest<D: Disk>(
    alloc: Global,
    disk: &mut D,
    redo: &[u8],
    room: usize,
) -> Result<Log, DiskError>
    requires read { redo.now ≡ (D.seen disk.old).redo }
    requires rest { IsAtRest (D.seen disk.old) (D.may_leave disk.old) }
    requires small { room ≤ 1073741824 }

    ensures ready { IfOk result (λ log. IsReady log.end log.room log.count (D.seen disk.new) (D.may_leave disk.new)) }
    ensures first { IfOk result (λ log. log.end ≤ 4000000000) }
    ensures same { OnOk result (files (D.seen disk.new) ≡ files (D.seen disk.old)) }
    ensures any_moment { LeavesOnly D.moment D.left_since disk.old disk.new (λ c. Holds (files (D.seen disk.old)) c) }
    ensures cause { HasCause (D.has_failed disk.old) (D.has_failed disk.new) result }
{
    let found = LogFiles {
        pages: &[],
        directory: &[],
        redo,
    };
    match open_log(alloc, disk, found, room) {
        Ok(log) => Ok(log),
        Err(OpenFault::Disk(fault)) => Err(fault),
        Err(OpenFault::Files(LogFault::NoMemory)) => Err(DiskError::Memory),
        Err(OpenFault::Files(LogFault::Foreign | LogFault::Damaged)) => unreachable!(),
    }
}

// Closes the log of a single save, then clears the records of the log or removes the log.
fn end_once<D: Disk>(alloc: Global, disk: &mut D, log: Log) -> LogSave
    requires ready { IsReady log.end log.room log.count (D.seen disk.old) (D.may_leave disk.old) }

    ensures rest { result ≡ Done → IsAtRest (D.seen disk.new) (D.may_leave disk.new) }
    ensures same { result ≡ Done → files (D.seen disk.new) ≡ files (D.seen disk.old) }
    ensures durable { (c : Image) → D.may_leave disk.new c → Holds (files (D.seen disk.old)) c }
    ensures any_moment { LeavesOnly D.moment D.left_since disk.old disk.new (λ c. Holds (files (D.seen disk.old)) c) }
    ensures stays { D.has_failed disk.old → D.has_failed disk.new }
    ensures pending { result ≡ Pending Failed → D.has_failed disk.new }
{
    match close_kept(alloc, disk, log) {
        Ok(()) => LogSave::Done,
        Err(fault) => LogSave::Pending(fault),
    }
}

/// Closes a log: syncs both data files and clears the commit byte. Then clears the records, or removes the log if it is long or other users
/// could not use it.
///
/// # Errors
///
/// `Memory` if allocation fails, otherwise the error of the disk. After an error, open the files again.
pub fn close_kept<D: Disk>(alloc: Global, disk: &mut D, log: Log) -> Result<(), DiskError>
    requires ready { IsReady log.end log.room log.count (D.seen disk.old) (D.may_leave disk.old) }

    ensures rest { OnOk result (IsAtRest (D.seen disk.new) (D.may_leave disk.new)) }
    ensures same { OnOk result (files (D.seen disk.new) ≡ files (D.seen disk.old)) }
    ensures any_moment { LeavesOnly D.moment D.left_since disk.old disk.new (λ c. Holds (files (D.seen disk.old)) c) }
    ensures cause { HasCause (D.has_failed disk.old) (D.has_failed disk.new) result }
{
    let Log { end, room, .. } = log;
    close_log(alloc, disk, log)?;
    clear_records(alloc, disk, end, room)
}

// Clears the records of a closed log, which end at `end`, or removes the log if it is long or other users could not use it.
fn clear_records<D: Disk>(
    alloc: Global,
    disk: &mut D,
    end: usize,
    room: usize,
) -> Result<(), DiskError>
    requires rest { IsAtRest (D.seen disk.old) (D.may_leave disk.old) }
    requires near { room ≤ 4000000000 }

    ensures rest { OnOk result (IsAtRest (D.seen disk.new) (D.may_leave disk.new)) }
    ensures same { OnOk result (files (D.seen disk.new) ≡ files (D.seen disk.old)) }
    ensures any_moment { LeavesOnly D.moment D.left_since disk.old disk.new (λ c. Holds (files (D.seen disk.old)) c) }
    ensures cause { HasCause (D.has_failed disk.old) (D.has_failed disk.new) result }
{
    if room > MOST_ROOM || !disk.keeps_redo() {
        return remove(disk);
    }
    let zeros = vec![in alloc; 0u8; end.min(room)]?;
    write_zeros(disk, room, zeros.as_slice())
}

// Removes the redo file of files at rest.
pub(crate) fn remove<D: Disk>(disk: &mut D) -> Result<(), DiskError>
    requires rest { IsAtRest (D.seen disk.old) (D.may_leave disk.old) }

    ensures removed { OnOk result ((D.seen disk.new).redo ≡ []) }
    ensures rest { OnOk result (IsAtRest (D.seen disk.new) (D.may_leave disk.new)) }
    ensures same { OnOk result (files (D.seen disk.new) ≡ files (D.seen disk.old)) }
    ensures any_moment { LeavesOnly D.moment D.left_since disk.old disk.new (λ c. Holds (files (D.seen disk.old)) c) }
    ensures cause { HasCause (D.has_failed disk.old) (D.has_failed disk.new) result }
{
    disk.clear()
}

// Sets the room of a closed log to `room` bytes and writes `zeros` after the header.
fn write_zeros<D: Disk>(disk: &mut D, room: usize, zeros: &[u8]) -> Result<(), DiskError>
    requires rest { IsAtRest (D.seen disk.old) (D.may_leave disk.old) }
    requires near { room ≤ 4000000000 }

    ensures rest { OnOk result (IsAtRest (D.seen disk.new) (D.may_leave disk.new)) }
    ensures same { OnOk result (files (D.seen disk.new) ≡ files (D.seen disk.old)) }
    ensures any_moment { LeavesOnly D.moment D.left_since disk.old disk.new (λ c. Holds (files (D.seen disk.old)) c) }
    ensures cause { HasCause (D.has_failed disk.old) (D.has_failed disk.new) result }
{
    disk.resize(DiskFile::Redo, HEADER + room)?;
    disk.write_at(DiskFile::Redo, HEADER, zeros)
}
