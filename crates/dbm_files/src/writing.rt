//! Saves the database of a run in its files.
ghost use Rattle.std.specs.Prelude.{◌≡◌, ◌≢◌, get_or, IfOk};
ghost use Rattle.sdbm_saves.specs.Redo.{IsPlan, Knows};
ghost use Rattle.sdbm_saves.specs.Recording.{part_pages};

use crate::files::{LockedFiles, read_up_to};
use crate::host::{RealFiles, forget_redo};
use crate::receipt::{Receipt, Saved};
use crate::saving::{Change, Planned, SaveOutcome, save_change, save_plan};
use crate::states::DataStates;
use dbm_places::{
    FilesFault, Names, SeenFiles, Side, SideFault, is_like_pages, open_beside, side_fault,
};
use sdbm_addr::PageSize;
use sdbm_files::Image;
use sdbm_saves::{CallLog, FoundPart, FoundRead, Part, ReadFiles, Recorded, Unknown, plan_in};
use std::alloc::Global;
use std::fs::File;
use std::io::{self, Write};
use std::rt::Files;

// A save removes a redo file with more bytes than this instead of reusing it.
const MOST_REDO: u64 = 262_144;

// The redo file before a save.
#[derive(Drop)]
pub(crate) struct OldRedo {
    // The bytes of the redo file, or no bytes if it is stale.
    pub(crate) bytes: Vec<u8>,
    // The redo file is too long, or other users could not use it. The save removes it first.
    pub(crate) is_stale: bool,
}

/// Saves the database of a run, releases its locks, and then prints its lines. The files are written in place, with a log: after a crash at
/// any time, the next run gets the database before the save or after it. If the database is unchanged, no file is written or created. If
/// the save fails before its commit, its redo file is removed.
///
/// # Errors
/// - `Moved` if the name of a lock or of a data file now refers to another file.
/// - `Changed` if another program has written a data file since it was read.
/// - `Unsafe` if another user could have planted the redo file, `ReadFile` if it cannot be read, and `BadRedo` if its commit byte is 1.
/// - The errors of `save_change`.
pub fn save_files<R: Files<File = File> + AllocGlobal, W: Write>(
    rt: &R,
    held: LockedFiles,
    old: ReadFiles<'_, Global>,
    new: &Image<Global>,
    lines: &[u8],
    writer: &mut W,
) -> Result<SaveOutcome, FilesFault> {
    let LockedFiles {
        place,
        seen,
        locks,
        states,
    } = held;
    place.must_be_held(rt, &locks, &seen)?;
    must_be_unwritten(rt, &place.names, states)?;
    let redo = find_redo(rt, &place.names)?;
    let change = change_of(old, &redo, new);
    let mut locks = Some(locks);
    let found = found_of(old, &redo);
    let log = CallLog::new(rt.alloc())?;
    let files = RealFiles::new(rt, &place.names, seen, redo.is_stale, log);
    let mut disk = Recorded::<RealFiles<'_, R>, Unknown, FoundRead<'_>>::new(files, found);
    let saved = save_change(rt.alloc(), &mut disk, change, lines, writer, &mut locks);
    forget_failed(rt, &place.names, &saved);
    saved
}

/// Like `save_files`, but keeps the locks and prints nothing, and returns the receipt of the database. `seen` must have the IDs of the data
/// files of the last read.
///
/// # Errors
/// The errors of `save_files`, except `Changed` and `Write`.
pub fn save_held<R: Files<File = File> + AllocGlobal>(
    rt: &R,
    held: &LockedFiles,
    seen: &SeenFiles,
    old: ReadFiles<'_, Global>,
    new: &Image<Global>,
) -> Result<Saved, FilesFault>
    ensures receipt { IfOk result (λ saved. saved.receipt ≡ new.now) }
{
    let LockedFiles { place, locks, .. } = held;
    place.must_be_held(rt, locks, seen)?;
    let redo = find_redo(rt, &place.names)?;
    let change = change_of(old, &redo, new);
    let mut kept: Option<File> = None;
    let found = found_of(old, &redo);
    let log = CallLog::new(rt.alloc())?;
    let files = RealFiles::new(rt, &place.names, *seen, redo.is_stale, log);
    let mut disk = Recorded::<RealFiles<'_, R>, Unknown, FoundRead<'_>>::new(files, found);
    let saved = save_change(
        rt.alloc(),
        &mut disk,
        change,
        &[],
        &mut io::sink(),
        &mut kept,
    );
    forget_failed(rt, &place.names, &saved);
    let outcome = saved?;
    let receipt = Receipt::after(&disk, old, new);
    Ok(Saved { outcome, receipt })
}

/// A page of a database that a run has read, and the plan of its save.
#[derive(Clone, Copy)]
pub struct PlannedPart<'a> {
    pub part: Part<'a>,
    pub size: PageSize,
    pub plan: &'a [u8],
}

/// Like `save_files`, for a run that has read only one page of the database. The plan must have been made for the files (`Knows`).
///
/// # Errors
/// The errors of `save_plan`, and `BadRedo`, `Unsafe`, `ReadFile`, `Moved` and `Changed` as in `save_files`.
pub fn save_part<R: Files<File = File> + AllocGlobal, W: Write>(
    rt: &R,
    held: LockedFiles,
    planned: PlannedPart<'_>,
    lines: &[u8],
    writer: &mut W,
) -> Result<SaveOutcome, FilesFault>
    requires plan { IsPlan planned.plan.now }
    requires knows { Knows planned.plan.now (part_pages planned.part planned.size, planned.part.directory.now) }
{
    let LockedFiles {
        place,
        seen,
        locks,
        states,
    } = held;
    place.must_be_held(rt, &locks, &seen)?;
    must_be_unwritten(rt, &place.names, states)?;
    let redo = find_redo(rt, &place.names)?;
    let found = FoundPart {
        part: planned.part,
        size: planned.size,
        redo: redo.bytes.as_slice(),
    };
    let plan = Planned {
        redo: redo.bytes.as_slice(),
        plan: planned.plan,
    };
    let mut locks = Some(locks);
    let log = CallLog::new(rt.alloc())?;
    let files = RealFiles::new(rt, &place.names, seen, redo.is_stale, log);
    let mut disk = Recorded::<RealFiles<'_, R>, Unknown, FoundPart<'_>>::new(files, found);
    let saved = save_plan(rt.alloc(), &mut disk, plan, lines, writer, &mut locks);
    forget_failed(rt, &place.names, &saved);
    saved
}

// Fails with `Changed` if another program has written a data file since it was read.
pub(crate) fn must_be_unwritten<R: Files<File = File>>(
    rt: &R,
    names: &Names,
    states: DataStates,
) -> Result<(), FilesFault> {
    if DataStates::look(rt, names).are_written_since(states) {
        return Err(FilesFault::Changed);
    }
    Ok(())
}

// Returns the change of a save.
fn change_of<'a>(
    old: ReadFiles<'a, Global>,
    redo: &'a OldRedo,
    new: &'a Image<Global>,
) -> Change<'a>
    ensures before { result.before ≡ old.entry }
    ensures redo { result.redo.now ≡ redo.now.bytes.items }
    ensures after { result.after ≡ new.entry }
{
    Change {
        before: old,
        redo: redo.bytes.as_slice(),
        after: new,
    }
}

// Returns the files as read, for `Recorded`.
fn found_of<'a>(old: ReadFiles<'a, Global>, redo: &'a OldRedo) -> FoundRead<'a>
    ensures files { result.files ≡ old.entry }
    ensures redo { result.redo.now ≡ redo.now.bytes.items }
{
    FoundRead {
        files: old,
        redo: redo.bytes.as_slice(),
    }
}

// Reads the redo file before a save. Fails with `BadRedo` if its commit byte is 1.
pub(crate) fn find_redo<R: Files<File = File> + AllocGlobal>(
    rt: &R,
    names: &Names,
) -> Result<OldRedo, FilesFault>
    ensures { IfOk result (λ redo. get_or redo.bytes.items 0 0 ≢ 1) }
{
    let bytes = read_redo(rt, names)?;
    if plan_in(bytes.as_slice()).is_some() {
        return Err(FilesFault::BadRedo);
    }
    let (name, pages) = (names.redo.as_str(), names.pages.as_str());
    let is_stale = bytes.len() as u64 > MOST_REDO || !is_like_pages(rt, name, pages);
    if is_stale {
        return Ok(OldRedo {
            bytes: Vec::new(rt.alloc()),
            is_stale,
        });
    }
    Ok(OldRedo { bytes, is_stale })
}

// Reads at most `MOST_REDO` + 1 bytes of the redo file, enough to see whether it is too long. A missing file counts as empty.
fn read_redo<R: Files<File = File> + AllocGlobal>(
    rt: &R,
    names: &Names,
) -> Result<Vec<u8>, FilesFault> {
    let mut bytes = Vec::new(rt.alloc());
    let (name, pages) = (names.redo.as_str(), names.pages.as_str());
    match open_beside(rt, Side::Redo, name, pages, false) {
        Ok(mut file) => read_up_to(&mut file, MOST_REDO + 1, &mut bytes)?,
        Err(SideFault::Absent) => (),
        Err(fault) => return Err(side_fault(&fault, FilesFault::ReadFile)),
    }
    Ok(bytes)
}

// Removes the redo file of a save that failed before its commit. The lock is still held.
fn forget_failed<R: Files<File = File>>(
    rt: &R,
    names: &Names,
    saved: &Result<SaveOutcome, FilesFault>,
) {
    match saved {
        Ok(_) | Err(FilesFault::Write) => (),
        Err(_) => forget_redo(rt, names),
    }
}
