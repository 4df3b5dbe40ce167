//! A save, and the lines that report it.
ghost use Rattle.std.specs.Prelude.{◌≡◌, ◌≢◌, ◌⊎◌, get_or, None, OnOk, IfOk, IfErr, IsErrOf};
ghost use Rattle.std.specs.Io.KnownBytes.{Appends};
ghost use Rattle.byte_text.specs.Writing.{WritesPart};
ghost use Rattle.sdbm_saves.specs.Disk.{LeavesOnly};
ghost use Rattle.sdbm_saves.specs.Redo.{files, renewed_files, IsPlan, Knows};
ghost use Rattle.sdbm_log.specs.Log.{Holds, IsAtRest};
ghost use Rattle.dbm_files.specs.Saving.{IsOldOrSaved, IsSaved, LeavesFiles};
ghost use Rattle.dbm_places.specs.declared.fault.FilesFault.TheVariants as fault;
ghost use Rattle.dbm_files.specs.declared.saving.SaveOutcome.TheVariants as saved;

use byte_text::write_all;
use dbm_places::FilesFault;
use sdbm_files::Image;
use sdbm_logged::{LogSave, PLAN_LIMIT, save_once};
use sdbm_saves::{Disk, ReadFiles, plan_read};
use std::alloc::Global;
use std::io::Write;

/// The outcome of a save without a fault.
#[derive(Clone, Copy, Debug, PartialEq, Eq)]
pub enum SaveOutcome {
    /// The files already were those of the database. Nothing was written.
    Unchanged,
    /// The save is complete in both data files.
    Whole,
    /// The save is durable in the redo file, but a data file could not be written. The next writing run finishes the save.
    Pending,
}

/// The change of a save: both data files as read, the bytes of the redo file, and the database to be saved.
#[derive(Clone, Copy)]
pub struct Change<'a> {
    pub before: ReadFiles<'a, Global>,
    pub redo: &'a [u8],
    pub after: &'a Image<Global>,
}

/// Saves a change, releases the lock, and then prints `lines`, which report the change. So a reader of the lines can take the lock, and the
/// change is durable. After a crash at any time, the files can be recovered to the old files or to the files of the new database. After
/// `Ok`, only the latter is possible. If the files already are those of the database, the disk is not used. Allocates the plan, the steps
/// of the save, and the memory of the disk's calls.
///
/// Before the commit, the save checks that the disk has room for the files. A failure after the commit is not an error: the save is
/// `Pending`, and the next writing run finishes it.
///
/// # Errors
/// - `FileTooLong` if a file has, or would have, 2^32 bytes or more; `NoMemory` if allocation fails; `WriteFile` if the disk failed.
///   Nothing is printed, and the lock is still held. If the disk failed during the commit, the change may or may not be committed.
/// - `Write` if the lines could not be printed completely. The change is committed, and the lock is released.
pub fn save_change<D: Disk, W: Write, L: Drop>(
    alloc: Global,
    disk: &mut D,
    change: Change<'_>,
    lines: &[u8],
    writer: &mut W,
    lock: &mut Option<L>,
) -> Result<SaveOutcome, FilesFault>
    requires read { D.seen disk.old ≡ record { pages = change.before.pages.now.bytes; directory = change.before.directory.now; redo = change.redo.now } }
    requires unmarked { get_or change.redo.now 0 0 ≢ 1 }

    ensures saved { OnOk result (IsSaved change.entry.after.now (change.entry.before.pages.now.bytes, change.entry.before.directory.now) D.may_leave disk.old disk.new) }
    ensures printed { OnOk result (Appends (W.contents writer.old) (W.contents writer.new) lines.now) }

    // After `Whole`, the commit byte is not 1, and both data files are durable.
    ensures whole { IfOk result (λ how. how ≡ saved.Whole → IsAtRest (D.seen disk.new) (D.may_leave disk.new)) }

    // Lines are printed only if the change is saved.
    ensures stands { IsErrOf result fault.Write → IsSaved change.entry.after.now (change.entry.before.pages.now.bytes, change.entry.before.directory.now) D.may_leave disk.old disk.new }
    ensures part { IsErrOf result fault.Write → WritesPart (W.contents writer.old) (W.contents writer.new) lines.now }
    ensures unprinted { IfErr result (λ why. why ≢ fault.Write → W.contents writer.new ≡ W.contents writer.old) }

    // The lock is released after `Ok` and `Write`, and still held after any other fault.
    ensures released { OnOk result (lock.new ≡ None) }
    ensures unprinted_released { IsErrOf result fault.Write → lock.new ≡ None }
    ensures held { IfErr result (λ why. why ≢ fault.Write → lock.new ≡ lock.old) }

    // A crash during the call leaves files that a crash before the call could have left, or files that can be recovered to the database
    // before the change or after it.
    ensures any_moment { LeavesOnly D.moment D.left_since disk.old disk.new
        (λ c. D.may_leave disk.old c ⊎ IsOldOrSaved (change.entry.before.pages.now.bytes, change.entry.before.directory.now) change.entry.after.now c) }
{
    match plan_read(alloc, change.before, change.after)? {
        Some(plan) => {
            let planned = Planned {
                redo: change.redo,
                plan: plan.as_slice(),
            };
            save_plan(alloc, disk, planned, lines, writer, lock)
        }
        None => {
            *lock = None;
            print(writer, lines, lock)?;
            Ok(SaveOutcome::Unchanged)
        }
    }
}

// Prints the lines of a change, after the lock was released.
fn print<W: Write, L>(writer: &mut W, lines: &[u8], _lock: &Option<L>) -> Result<(), FilesFault>
    requires released { _lock.now ≡ None }
    ensures printed { OnOk result (Appends (W.contents writer.old) (W.contents writer.new) lines.now) }
    ensures part { IfErr result (λ why. (why ≡ fault.Write) × WritesPart (W.contents writer.old) (W.contents writer.new) lines.now) }
{
    match write_all(writer, lines) {
        Ok(()) => Ok(()),
        Err(_) => Err(FilesFault::Write),
    }
}

/// The bytes of a redo file whose commit byte is not 1, and a plan that was made for the data files (`Knows`).
#[derive(Clone, Copy)]
pub struct Planned<'a> {
    pub redo: &'a [u8],
    pub plan: &'a [u8],
}

/// Like `save_change`, for a change that is given as a plan.
///
/// # Errors
/// The errors of `save_change`, and `FileTooLong` if the plan has 3,000,000,000 bytes or more.
pub fn save_plan<D: Disk, W: Write, L: Drop>(
    alloc: Global,
    disk: &mut D,
    planned: Planned<'_>,
    lines: &[u8],
    writer: &mut W,
    lock: &mut Option<L>,
) -> Result<SaveOutcome, FilesFault>
    requires read { planned.redo.now ≡ (D.seen disk.old).redo }
    requires unmarked { get_or planned.redo.now 0 0 ≢ 1 }
    requires plan { IsPlan planned.plan.now }
    requires knows { Knows planned.plan.now (files (D.seen disk.old)) }

    ensures saved { OnOk result (LeavesFiles (renewed_files planned.entry.plan.now (D.seen disk.old)) D.may_leave disk.new) }
    ensures printed { OnOk result (Appends (W.contents writer.old) (W.contents writer.new) lines.now) }
    ensures whole { IfOk result (λ how. how ≡ saved.Whole → IsAtRest (D.seen disk.new) (D.may_leave disk.new)) }
    ensures stands { IsErrOf result fault.Write → LeavesFiles (renewed_files planned.entry.plan.now (D.seen disk.old)) D.may_leave disk.new }
    ensures part { IsErrOf result fault.Write → WritesPart (W.contents writer.old) (W.contents writer.new) lines.now }
    ensures unprinted { IfErr result (λ why. why ≢ fault.Write → W.contents writer.new ≡ W.contents writer.old) }
    ensures released { OnOk result (lock.new ≡ None) }
    ensures unprinted_released { IsErrOf result fault.Write → lock.new ≡ None }
    ensures held { IfErr result (λ why. why ≢ fault.Write → lock.new ≡ lock.old) }
    ensures any_moment { LeavesOnly D.moment D.left_since disk.old disk.new
        (λ c. D.may_leave disk.old c ⊎ (Holds (files (D.seen disk.old)) c ⊎ Holds (renewed_files planned.entry.plan.now (D.seen disk.old)) c)) }
{
    let saved = commit_plan(alloc, disk, planned)?;
    *lock = None;
    print(writer, lines, lock)?;
    Ok(saved)
}

// Commits a plan, and applies it to both data files. The fault is `NoMemory`, `WriteFile` or `FileTooLong`.
fn commit_plan<D: Disk>(
    alloc: Global,
    disk: &mut D,
    planned: Planned<'_>,
) -> Result<SaveOutcome, FilesFault>
    requires read { planned.redo.now ≡ (D.seen disk.old).redo }
    requires unmarked { get_or planned.redo.now 0 0 ≢ 1 }
    requires plan { IsPlan planned.plan.now }
    requires knows { Knows planned.plan.now (files (D.seen disk.old)) }

    ensures saved { OnOk result (LeavesFiles (renewed_files planned.entry.plan.now (D.seen disk.old)) D.may_leave disk.new) }
    ensures whole { IfOk result (λ how. how ≡ saved.Whole → IsAtRest (D.seen disk.new) (D.may_leave disk.new)) }
    ensures fault { IfErr result (λ why. why ≢ fault.Write) }
    ensures any_moment { LeavesOnly D.moment D.left_since disk.old disk.new
        (λ c. D.may_leave disk.old c ⊎ (Holds (files (D.seen disk.old)) c ⊎ Holds (renewed_files planned.entry.plan.now (D.seen disk.old)) c)) }
{
    if planned.plan.len() >= PLAN_LIMIT {
        return Err(FilesFault::FileTooLong);
    }
    match save_once(alloc, disk, planned.redo, planned.plan)? {
        LogSave::Done => Ok(SaveOutcome::Whole),
        LogSave::Pending(_) => Ok(SaveOutcome::Pending),
    }
}
