//! Opens, reads and recovers the files of a run.
ghost use Rattle.std.specs.Prelude.{◌≡◌, ◌≤◌, ◌%◌, length, true, IfOk, IfSome, IsNone, OnOk};
ghost use Rattle.sdbm_files.specs.Reading.{with_piece};
ghost use Rattle.sdbm_addr.specs.Pairs.{page_bytes};
ghost use Rattle.sdbm_saves.specs.Recording.{image_of};
ghost use Rattle.sdbm_saves.specs.Redo.{IsPlan};
ghost use Rattle.sdbm_log.specs.Log.{files_of};
ghost use Rattle.sdbm_log.specs.Saving.{HasNoPlan, IsRedoPlan};

use crate::host::RealFiles;
use crate::peeking::{Guard, UnreadPages};
use crate::states::DataStates;
use dbm_places::{
    DIR_LIMIT, FileBytes, FileId, FilesFault, Names, PROGRAM_LIMIT, Place, RunPlace, SeenFiles,
    Side, SideFault, SourceKind, WriteLocks, folder_of, has_writer, is_special, lock_to_read,
    lock_to_write, open_beside, side_fault, sources,
};
use sdbm_addr::PageSize;
use sdbm_files::ReadPages;
use sdbm_log::{LogFault, LogFiles, plan_of};
use sdbm_logged::{OpenFault, lay_both, recover_log};
use sdbm_saves::{CallLog, Found, GhostImage, Recorded, Unknown, number, plan_in};
use std::alloc::Global;
use std::fs::{File, OpenFile};
use std::io::{self, ErrorKind, Read};
use std::rt::Files;
use std::time::{Clock, Duration};
use std::{fs, thread};

/// Maximum size of a redo file, in bytes. The plan of the largest save begins with 29 bytes, and has the new and the old bytes of both
/// files at their limits, in blocks of 1,024 bytes with nine bytes before each. A log has 4,104 bytes before the plan, and up to 1 MiB of
/// zeros after it.
const REDO_LIMIT: u64 = 2_697_203_749;

/// Maximum number of times that a writing run reads its files again because a file changed during the read.
const MOST_READS: usize = 2;

/// The number of bytes of BASE.pag that are read at once: whole pages of either size.
const PIECE: usize = 262_144;

/// The bytes that were read for a run, and its locks if it may change the database.
#[derive(Drop)]
pub struct RunFiles {
    pub bytes: FileBytes,
    pub held: Option<LockedFiles>,
    /// The unread `.pag`, for a run that needs one page of it.
    pub unread: Option<UnreadPages>,
}

/// A database that a run may change: its files, the IDs of the data files that were read, and its locks. Other runs wait until the locks
/// are dropped.
#[derive(Drop)]
pub struct LockedFiles {
    pub place: Place,
    pub seen: SeenFiles,
    pub locks: WriteLocks,
    // The state of the data files when they were read.
    pub(crate) states: DataStates,
}

/// Takes the lock, then reads the files of a run. A reading run waits only while another run uses the files.
///
/// A writing run first recovers an interrupted save. It holds its locks, so that no other run changes the files before this run has saved.
/// A reading run applies the redo file to the bytes that it read. If the names of the data files are links, the locks and the redo file are
/// next to their targets. All files are in the folder to which the base led at first. With `peeks`, `.pag` is not read, unless a save must
/// be recovered or a file has a problem.
///
/// # Errors
/// - The errors of `resolve`.
/// - `Unsafe` if another user could have planted a lock or the redo file.
/// - `Locked` if another run holds the lock for longer than `patience`.
/// - `Moved` if the data files became links to another base during the wait, or if the name of the lock refers to a different file at each
///   attempt.
/// - `WriteFile` if a writing run cannot take its locks or recover a save.
/// - `ReadFile` if a file cannot be read, or if a reading run cannot take an existing lock.
/// - `FileTooLong` if a file is longer than its limit, or a recovery would make it so; `NoMemory` if allocation fails.
/// - `BadRedo` if the commit byte of the redo file is 1, but the redo file belongs to other data files or was not written by a save.
///
/// On an error no data file was written, except by the recovery of a save.
pub fn take_files<R: Files<File = File> + Clock + AllocGlobal>(
    rt: &R,
    place: RunPlace<'_>,
    peeks: bool,
    patience: Option<Duration>,
) -> Result<RunFiles, FilesFault> {
    let Some(base) = place.base else {
        return Ok(read_whole(read_files(rt, place, false)?, None));
    };
    let files = Place::enter(rt, base)?;
    if place.writes {
        return take_to_write(rt, place, files, peeks, patience);
    }
    if peeks {
        return peek_to_read(rt, place, files, patience);
    }
    let bytes = read_under_lock(rt, place, &files, patience)?;
    Ok(read_whole(bytes, None))
}

// Returns the files of a run that has read all of them.
fn read_whole(bytes: FileBytes, held: Option<LockedFiles>) -> RunFiles {
    RunFiles {
        bytes,
        held,
        unread: None,
    }
}

// Returns the place of a run with the base of `files`. Its names lead into the folder that is held open.
fn inside<'a>(place: RunPlace<'a>, files: &'a Place) -> RunPlace<'a> {
    RunPlace {
        base: Some(files.base()),
        ..place
    }
}

// Takes the locks, then reads the files of a run that may change its database.
fn take_to_write<R: Files<File = File> + Clock + AllocGlobal>(
    rt: &R,
    place: RunPlace<'_>,
    files: Place,
    peeks: bool,
    patience: Option<Duration>,
) -> Result<RunFiles, FilesFault> {
    let locks = lock_to_write(rt, &files.names, patience)?;
    files.must_not_lead(rt)?;
    let mut files = files;
    files.hold_data(rt);
    if peeks && let Some((bytes, unread)) = peek(rt, place, &files, true) {
        let seen = bytes.seen;
        let states = DataStates::look(rt, &files.names);
        files.must_be_open(&seen)?;
        return Ok(RunFiles {
            bytes,
            held: Some(LockedFiles {
                place: files,
                seen,
                locks,
                states,
            }),
            unread: Some(unread),
        });
    }
    let (bytes, states) = read_still(rt, place, &files)?;
    let seen = bytes.seen;
    // The recovery of an interrupted save may have created a file.
    files.hold_data(rt);
    files.must_be_open(&seen)?;
    let held = LockedFiles {
        place: files,
        seen,
        locks,
        states,
    };
    Ok(read_whole(bytes, Some(held)))
}

// Takes the lock if its file exists, then reads the files of a reading run except `.pag`. If `.pag` must be read, reads all files.
fn peek_to_read<R: Files<File = File> + Clock + AllocGlobal>(
    rt: &R,
    place: RunPlace<'_>,
    files: Place,
    patience: Option<Duration>,
) -> Result<RunFiles, FilesFault> {
    let lock = read_lock(rt, &files, patience)?;
    let Some((bytes, unread)) = peek(rt, place, &files, lock.is_some()) else {
        let bytes = read_locked(rt, place, &files, lock, patience)?;
        return Ok(read_whole(bytes, None));
    };
    Ok(RunFiles {
        bytes,
        held: None,
        unread: Some(unread.read_in(files, lock)),
    })
}

// Reads the files of a run except `.pag`. Returns `None` if all files have to be read.
fn peek<R: Files<File = File> + AllocGlobal>(
    rt: &R,
    place: RunPlace<'_>,
    files: &Place,
    is_locked: bool,
) -> Option<(FileBytes, UnreadPages)> {
    // If the program's file is a pipe, it cannot be read a second time.
    if let Some(file) = place.file
        && is_special(rt, file)
    {
        return None;
    }
    if !redo_of(rt, place, files, is_locked).ok()?.is_empty() {
        return None;
    }
    let unread = UnreadPages::open(rt, files.names.pages.as_str(), place.pages_limit)?;
    let read = read_files(rt, inside(place, files), true).ok()?;
    let seen = SeenFiles {
        pages: unread.id,
        ..read.seen
    };
    Some((FileBytes { seen, ..read }, unread))
}

/// Reads both data files of a run that has peeked, under its lock. If a reading run found no lock file, but the file exists now, the run
/// waits for that lock.
///
/// # Errors
/// The errors of `take_files`.
pub fn take_rest<R: Files<File = File> + Clock + AllocGlobal>(
    rt: &R,
    place: RunPlace<'_>,
    taken: RunFiles,
    patience: Option<Duration>,
) -> Result<RunFiles, FilesFault> {
    let RunFiles {
        bytes,
        held,
        unread,
    } = taken;
    let program = bytes.program;
    let place = RunPlace {
        file: None,
        ..place
    };
    if let Some(held) = held {
        let LockedFiles {
            place: files,
            locks,
            ..
        } = held;
        let (read, states) = read_still(rt, place, &files)?;
        files.must_be_open(&read.seen)?;
        let held = LockedFiles {
            place: files,
            seen: read.seen,
            locks,
            states,
        };
        return Ok(read_whole(FileBytes { program, ..read }, Some(held)));
    }
    let read = match unread {
        Some(unread) => read_guarded(rt, place, unread.into_guard(), patience)?,
        None => read_files(rt, place, false)?,
    };
    Ok(read_whole(FileBytes { program, ..read }, None))
}

// Reads all files of a reading run that has left `.pag` unread.
fn read_guarded<R: Files<File = File> + Clock + AllocGlobal>(
    rt: &R,
    place: RunPlace<'_>,
    guard: Guard,
    patience: Option<Duration>,
) -> Result<FileBytes, FilesFault> {
    match guard {
        Guard::Writer => read_files(rt, place, false),
        Guard::Reader(files, lock) => read_locked(rt, place, &files, lock, patience),
    }
}

/// Reads the files of a database again. Its locks must be held, and `seen` must have the IDs of the data files of the last read.
///
/// # Errors
/// `Moved` if the name of a lock or of a data file now refers to another file. The errors of `take_files` that are not about the locks.
pub fn read_again<R: Files<File = File> + AllocGlobal>(
    rt: &R,
    place: RunPlace<'_>,
    held: &LockedFiles,
    seen: &SeenFiles,
) -> Result<FileBytes, FilesFault> {
    held.place.must_be_held(rt, &held.locks, seen)?;
    read_database(rt, place, &held.place, true, Some(*seen))
}

// Reads the files of a reading run, under the lock if its file exists.
fn read_under_lock<R: Files<File = File> + Clock + AllocGlobal>(
    rt: &R,
    place: RunPlace<'_>,
    files: &Place,
    patience: Option<Duration>,
) -> Result<FileBytes, FilesFault> {
    let lock = read_lock(rt, files, patience)?;
    read_locked(rt, place, files, lock, patience)
}

// Like `read_under_lock`, after the lock was taken or found missing.
fn read_locked<R: Files<File = File> + Clock + AllocGlobal>(
    rt: &R,
    place: RunPlace<'_>,
    files: &Place,
    lock: Option<File>,
    patience: Option<Duration>,
) -> Result<FileBytes, FilesFault> {
    if lock.is_some() {
        return read_held(rt, place, files, lock);
    }
    let read = read_held(rt, place, files, None);
    // The first writing run may have created the lock while the files were read.
    match read_lock(rt, files, patience)? {
        Some(lock) => read_held(rt, place, files, Some(lock)),
        None => read,
    }
}

fn read_lock<R: Files<File = File> + Clock + AllocGlobal>(
    rt: &R,
    files: &Place,
    patience: Option<Duration>,
) -> Result<Option<File>, FilesFault> {
    let lock = lock_to_read(rt, &files.names, patience)?;
    files.must_not_lead(rt)?;
    Ok(lock)
}

// Reads the database of a writing run. If a data file changes or is recovered meanwhile, reads the files again.
fn read_still<R: Files<File = File> + AllocGlobal>(
    rt: &R,
    place: RunPlace<'_>,
    files: &Place,
) -> Result<(FileBytes, DataStates), FilesFault> {
    let mut states = DataStates::look(rt, &files.names);
    let mut read = read_database(rt, place, files, true, None)?;
    for _ in 0..MOST_READS {
        let now = DataStates::look(rt, &files.names);
        if now == states {
            break;
        }
        states = now;
        read = read_database(rt, place, files, true, None)?;
    }
    Ok((read, states))
}

// Reads the files of a reading run, then releases the lock.
fn read_held<R: Files<File = File> + AllocGlobal>(
    rt: &R,
    place: RunPlace<'_>,
    files: &Place,
    lock: Option<File>,
) -> Result<FileBytes, FilesFault> {
    read_database(rt, place, files, lock.is_some(), None)
}

// Reads the database of a run. If `known` is given, the data files must be the same files.
fn read_database<R: Files<File = File> + AllocGlobal>(
    rt: &R,
    place: RunPlace<'_>,
    files: &Place,
    is_locked: bool,
    known: Option<SeenFiles>,
) -> Result<FileBytes, FilesFault> {
    let place = inside(place, files);
    let redo = redo_of(rt, place, files, is_locked)?;
    if redo.is_empty() {
        let read = read_files(rt, place, false)?;
        known.unwrap_or(read.seen).must_be(&read.seen)?;
        return Ok(read);
    }
    let read = read_files(rt, place, true)?;
    let (pages, id) = read_data(rt, files.names.pages.as_str(), place.pages_limit)?;
    let seen = SeenFiles {
        pages: id,
        ..read.seen
    };
    known.unwrap_or(seen).must_be(&seen)?;
    let found = Found {
        pages,
        directory: read.directory,
        redo,
    };
    let plan = match plan_of(rt.alloc(), log_files(&found)) {
        Ok(plan) => plan,
        Err(fault) => return Err(fault_of(fault)),
    };
    if let Some(plan) = &plan
        && is_too_long(place, plan.as_slice())
    {
        return Err(FilesFault::FileTooLong);
    }
    if place.writes {
        drop(plan);
        recover_files(rt, &files.names, seen, &found)?;
        drop(found);
        return read_files(rt, place, false);
    }
    if keep_plan(rt, &files.names).is_err() {
        return Err(FilesFault::ReadFile);
    }
    let over = lay_found(rt.alloc(), place, found, plan)?;
    Ok(FileBytes {
        program: read.program,
        seen,
        ..over
    })
}

// Returns the bytes of the three files in the form that `sdbm_log` takes.
fn log_files(found: &Found) -> LogFiles<'_>
    ensures redo { result.redo.now ≡ found.now.redo.items }
    ensures pages { result.pages.now ≡ found.now.pages.items }
    ensures directory { result.directory.now ≡ found.now.directory.items }
{
    LogFiles {
        pages: found.pages.as_slice(),
        directory: found.directory.as_slice(),
        redo: found.redo.as_slice(),
    }
}

// Converts a fault of a recovery.
fn fault_of(fault: LogFault) -> FilesFault {
    match fault {
        LogFault::NoMemory => FilesFault::NoMemory,
        LogFault::Foreign | LogFault::Damaged => FilesFault::BadRedo,
    }
}

// Returns `true` if a plan makes a data file longer than its limit.
fn is_too_long(place: RunPlace<'_>, plan: &[u8]) -> bool
    requires { IsPlan plan.now }
{
    number(plan, 8) as u64 > place.pages_limit || number(plan, 12) as u64 > DIR_LIMIT
}

// Syncs a committed redo file and its name. The run that committed it may have been killed before the commit was durable, so this call must
// come before any answer that depends on the redo file. A read-only file system needs no sync.
fn keep_plan<R: Files<File = File>>(rt: &R, names: &Names) -> io::Result<()> {
    let name = names.redo.as_str();
    let synced = open_beside(rt, Side::Redo, name, names.pages.as_str(), false)?.sync_data();
    let folder = fs::open(rt, folder_of(name))?.sync_all();
    for outcome in [synced, folder] {
        match outcome {
            Err(error) if error.kind() != ErrorKind::ReadOnlyFilesystem => return Err(error),
            _ => (),
        }
    }
    Ok(())
}

// Returns the data files that the three files represent, for a reader. `plan` is the plan of `plan_of`.
fn lay_found(
    alloc: Global,
    place: RunPlace<'_>,
    found: Found,
    plan: Option<Vec<u8>>,
) -> Result<FileBytes, FilesFault>
    requires some { IfSome plan (λ plan. IsRedoPlan (image_of found) plan.items) }
    requires plan { IfSome plan (λ plan. IsPlan plan.items) }
    requires none { IsNone plan → HasNoPlan (image_of found) }
    ensures { IfOk result (λ read. (read.pages.bytes, read.directory.items) ≡ files_of (image_of found)) }
{
    let both = lay_both(alloc, found, plan)?;
    let mut pages = ReadPages::new(alloc, place.page_size);
    pages.push(both.pages.as_slice())?;
    Ok(read_over(alloc, pages, both.directory))
}

// Returns the data files as a `FileBytes` without a program.
fn read_over(alloc: Global, pages: ReadPages<Global>, directory: Vec<u8>) -> FileBytes
    ensures pages { result.pages ≡ pages }
    ensures directory { result.directory ≡ directory }
{
    FileBytes {
        directory,
        pages,
        program: Vec::new(alloc),
        seen: SeenFiles::none(),
    }
}

// Recovers the files after a kill or a power failure, and removes the redo file.
fn recover_files<R: Files<File = File> + AllocGlobal>(
    rt: &R,
    names: &Names,
    seen: SeenFiles,
    found: &Found,
) -> Result<(), FilesFault> {
    let files = RealFiles::new(rt, names, seen, false, CallLog::new(rt.alloc())?);
    let read = GhostImage::of(found);
    let mut disk = Recorded::<RealFiles<'_, R>, Unknown, GhostImage>::new(files, read);
    match recover_log(rt.alloc(), &mut disk, log_files(found)) {
        Ok(()) => Ok(()),
        Err(OpenFault::Files(fault)) => Err(fault_of(fault)),
        Err(OpenFault::Disk(fault)) => Err(fault.into()),
    }
}

// Returns the bytes of a committed redo file, or no bytes if the run does not need them. A reading run that holds BASE.lock does not need
// them while another run has the database open for changes, because the data files then contain all saves.
fn redo_of<R: Files<File = File> + AllocGlobal>(
    rt: &R,
    place: RunPlace<'_>,
    files: &Place,
    is_locked: bool,
) -> Result<Vec<u8>, FilesFault> {
    if !place.writes && is_locked && has_writer(rt, &files.names) {
        return Ok(Vec::new(rt.alloc()));
    }
    read_redo(rt, &files.names)
}

// Reads a committed redo file. If its commit byte is not 1, there is nothing to apply: reads only that byte, and returns no bytes.
fn read_redo<R: Files<File = File> + AllocGlobal>(
    rt: &R,
    names: &Names,
) -> Result<Vec<u8>, FilesFault> {
    let (name, pages) = (names.redo.as_str(), names.pages.as_str());
    let mut bytes = Vec::new(rt.alloc());
    let mut file = match open_beside(rt, Side::Redo, name, pages, false) {
        Ok(file) => file,
        Err(SideFault::Absent) => return Ok(bytes),
        Err(fault) => return Err(side_fault(&fault, FilesFault::ReadFile)),
    };
    read_up_to(&mut file, 1, &mut bytes)?;
    if plan_in(bytes.as_slice()).is_none() {
        return Ok(Vec::new(rt.alloc()));
    }
    read_up_to(&mut file, REDO_LIMIT, &mut bytes)?;
    if bytes.len() as u64 > REDO_LIMIT {
        return Err(FilesFault::FileTooLong);
    }
    Ok(bytes)
}

// Reads the files of a run, except `.pag` if `peeks` is set. The error is the first of these that occurs: `ReadFile`, `FileTooLong` if a
// file is longer than its limit, and `NoMemory`.
fn read_files<R: Files<File = File> + AllocGlobal>(
    rt: &R,
    place: RunPlace<'_>,
    peeks: bool,
) -> Result<FileBytes, FilesFault> {
    let alloc = rt.alloc();
    let mut read = FileBytes {
        directory: Vec::new(alloc),
        pages: ReadPages::new(alloc, place.page_size),
        program: Vec::new(alloc),
        seen: SeenFiles::none(),
    };
    for source in sources(alloc, place)? {
        let (name, limit) = (source.name.as_str(), source.limit);
        match source.kind {
            SourceKind::Dir => {
                let (bytes, id) = read_data(rt, name, limit)?;
                read.directory = bytes;
                read.seen.directory = id;
            }
            SourceKind::Pag if peeks => (),
            SourceKind::Pag => {
                let (pages, id) = read_pages(rt, name, limit, place.page_size)?;
                read.pages = pages;
                read.seen.pages = id;
            }
            SourceKind::Program => read.program = read_file(rt, name, limit)?,
        }
    }
    Ok(read)
}

// Returns the bytes of a data file, and its ID. A missing file counts as empty.
fn read_data<R: Files<File = File> + AllocGlobal>(
    rt: &R,
    name: &str,
    limit: u64,
) -> Result<(Vec<u8>, Option<FileId>), FilesFault> {
    match open_data(rt, name)? {
        Some((file, id)) => Ok((read_all(rt.alloc(), file, limit)?, Some(id))),
        None => Ok((Vec::new(rt.alloc()), None)),
    }
}

// Opens a data file for reading and returns its ID, or `None` if the file is missing. A FIFO is an error, because opening it would wait for
// its other end.
fn open_data<R: Files<File = File>>(
    rt: &R,
    name: &str,
) -> Result<Option<(File, FileId)>, FilesFault> {
    if is_special(rt, name) {
        return Err(FilesFault::ReadFile);
    }
    let file = match fs::open(rt, name) {
        Ok(file) => file,
        Err(error) if error.kind() == ErrorKind::NotFound => return Ok(None),
        Err(_) => return Err(FilesFault::ReadFile),
    };
    match file.metadata() {
        Ok(found) => Ok(Some((file, FileId::of(&found)))),
        Err(_) => Err(FilesFault::ReadFile),
    }
}

// Reads a program's file.
fn read_file<R: Files + AllocGlobal>(
    rt: &R,
    name: &str,
    limit: u64,
) -> Result<Vec<u8>, FilesFault> {
    match fs::open(rt, name) {
        Ok(file) => read_all(rt.alloc(), file, limit),
        Err(_) => Err(FilesFault::ReadFile),
    }
}

// Reads the pages of a file piece by piece, and returns them with its ID. A missing file has no pages.
fn read_pages<R: Files<File = File> + AllocGlobal>(
    rt: &R,
    name: &str,
    limit: u64,
    size: PageSize,
) -> Result<(ReadPages<Global>, Option<FileId>), FilesFault> {
    match open_data(rt, name)? {
        Some((file, id)) => Ok((read_pieces(rt.alloc(), file, limit, size)?, Some(id))),
        None => Ok((ReadPages::new(rt.alloc(), size), None)),
    }
}

// Reads the pages of an open file piece by piece.
fn read_pieces(
    alloc: Global,
    file: File,
    limit: u64,
    size: PageSize,
) -> Result<ReadPages<Global>, FilesFault> {
    let mut file = file;
    let mut pages = ReadPages::new(alloc, size);
    let mut room = vec![in alloc; 0u8; PIECE]?;
    for _ in 0..limit / PIECE as u64 + 1 {
        let count = read_piece(&mut file, room.as_mut_slice())?;
        if !push_piece(&mut pages, &room[..count], limit)? {
            return Ok(pages);
        }
    }
    Err(FilesFault::FileTooLong)
}

// Reads the next bytes of a file into `room` and returns their number, which is less than the size of `room` only at the end of the file.
fn read_piece<F: Read>(file: &mut F, room: &mut [u8]) -> Result<usize, FilesFault>
    ensures count { IfOk result (λ count. count ≤ length room.old) }
    ensures room { length room.new ≡ length room.old }
{
    let mut count = 0;
    for _ in 0..u64::MAX {
        if count >= room.len() {
            break;
        }
        match file.read(&mut room[count..]) {
            Ok(0) => break,
            Ok(more) => count += more,
            Err(error) if error.kind() == ErrorKind::Interrupted => (),
            Err(error) if error.kind() == ErrorKind::OutOfMemory => {
                return Err(FilesFault::NoMemory);
            }
            Err(_) => return Err(FilesFault::ReadFile),
        }
    }
    Ok(count)
}

// Appends a piece of `.pag`. Returns `true` if another piece may follow. A piece that is not full is the last one.
fn push_piece(pages: &mut ReadPages<Global>, piece: &[u8], limit: u64) -> Result<bool, FilesFault>
    requires { length pages.old.bytes % page_bytes pages.old.size ≡ 0 }
    ensures after { OnOk result (pages.new ≡ with_piece pages.old piece.now) }
    ensures whole { IfOk result (λ more. more ≡ true → length pages.new.bytes % page_bytes pages.new.size ≡ 0) }
{
    let total = (pages.len() as u64).saturating_add(piece.len() as u64);
    if total > limit.min(i64::MAX as u64) {
        return Err(FilesFault::FileTooLong);
    }
    pages.push(piece)?;
    if piece.len() != PIECE {
        return Ok(false);
    }
    Ok(pages.is_whole())
}

/// Reads a program's file, which must not be a FIFO or a device.
///
/// # Errors
/// `ReadFile` if the file cannot be read, `FileTooLong` if it has more than 1,048,576 bytes, and `NoMemory` if allocation fails.
pub fn read_program<R: Files + AllocGlobal>(rt: &R, name: &str) -> Result<Vec<u8>, FilesFault> {
    if is_special(rt, name) {
        return Err(FilesFault::ReadFile);
    }
    read_file(rt, name, PROGRAM_LIMIT)
}

// Reads an open file of at most `limit` bytes.
fn read_all<F: Read + Drop>(alloc: Global, file: F, limit: u64) -> Result<Vec<u8>, FilesFault> {
    let mut file = file;
    let mut bytes = Vec::new(alloc);
    read_up_to(&mut file, limit.saturating_add(1), &mut bytes)?;
    if bytes.len() as u64 > limit {
        return Err(FilesFault::FileTooLong);
    }
    Ok(bytes)
}

// Appends the next bytes of a file, at most `most`, to `bytes`.
pub(crate) fn read_up_to<F: Read>(
    file: &mut F,
    most: u64,
    bytes: &mut Vec<u8>,
) -> Result<(), FilesFault> {
    match file.take(most).read_to_end(bytes) {
        Ok(_) => Ok(()),
        Err(error) if error.kind() == ErrorKind::OutOfMemory => Err(FilesFault::NoMemory),
        Err(_) => Err(FilesFault::ReadFile),
    }
}
