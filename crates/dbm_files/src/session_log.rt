//! The saves of a session, whose log stays open from one save to the next.
ghost use Rattle.std.specs.Prelude.{◌≡◌, ◌≢◌, ◌⊎◌, ◌<◌, [], length, get_or, IfOk, IfSome, None, OnOk, Some};
ghost use Rattle.sdbm_saves.specs.CallLog.{acts};
ghost use Rattle.sdbm_saves.specs.Redo.{renewed, IsPlan, Knows};
ghost use Rattle.sdbm_saves.specs.declared.disk.DiskFile.TheVariants.{Pages, Directory};
ghost use Rattle.sdbm_saves.specs.Saves.{AreFilesFor, IsSaving};
ghost use Rattle.store_marks.specs.Noted.{AreNoted};
ghost use Rattle.dbm_files.specs.Sessions.{IsSavedAs, saved_in};

use crate::files::{LockedFiles, read_again};
use crate::host::{RealFiles, forget_redo};
use crate::receipt::{Receipt, Saved};
use crate::saving::SaveOutcome;
use crate::sight::{Look, Sight, have_bytes, knows};
use crate::states::DataStates;
use crate::writing::{find_redo, must_be_unwritten, save_held};
use dbm_places::{DataFiles, FileBytes, FilesFault, Place, RunPlace, SeenFiles};
use sdbm_files::Image;
use sdbm_logged::{
    DataBytes, Keeper, KeptDisk, LogSave, LoggedDisk, PLAN_LIMIT, close_kept, save_first,
};
use sdbm_saves::{
    CallLog, Contents, FoundRead, GhostImage, ReadFiles, Recorded, Unknown, number, plan_nothing,
    plan_read,
};
use std::alloc::Global;
use std::fs::File;
use std::marker::Model;
use std::mem;
use std::rt::Files;
use std::time::Clock;
use store_marks::Changes;
use store_saves::{AfterSave, SavedDisk};

// If `.pag` has at most this many bytes, the session keeps the bytes of both files in memory, and its log takes one save after another.
const MOST_KEPT: usize = 16_777_216;

// If both data files have more bytes than this, each save looks at them, since it takes long to compare all bytes.
const MOST_COMPARED: usize = 1_048_576;

// The size of a session's log in bytes, enough for some two thousand small saves.
const ROOM: usize = 258_048;

// The disk of a session, which holds the files open.
type SessionDisk<'a, R> = Recorded<RealFiles<'a, R>, Unknown, GhostImage>;

// The log of a session between two saves.
#[derive(Drop)]
enum SessionLog<'a, R: Files<File = File>> {
    // No log is open: a data file was missing, the log could not be opened, or a save has failed.
    Closed,
    // The log is open and takes the next save.
    Kept(SavedDisk<SessionDisk<'a, R>>),
    // The database is large. Its log stays open only for the mark, and is closed before the next save.
    Marked(LoggedDisk<SessionDisk<'a, R>>),
}

impl<'a, R: Files<File = File>> SessionLog<'a, R> {
    fn take(&mut self) -> Self
        ensures taken { result ≡ self.old }
        ensures closed { saved_in self.new ≡ None }
    {
        mem::replace(self, SessionLog::Closed)
    }

    fn is_open(&self) -> bool {
        match self {
            SessionLog::Closed => false,
            SessionLog::Kept(_) | SessionLog::Marked(_) => true,
        }
    }

    // Returns the bytes of both data files, if they are in memory.
    fn kept(&self) -> Option<Contents<'_>> {
        match self {
            SessionLog::Kept(kept) => Some(kept.contents()),
            _ => None,
        }
    }

    // Returns `true` if these data files have the bytes in memory, or no bytes are in memory. Returns `false` if they cannot be read.
    fn is_in(&self, files: &DataFiles) -> bool {
        match self.kept() {
            Some(kept) => have_bytes(files, kept).unwrap_or(false),
            None => true,
        }
    }

    // Returns `true` if the bytes of both data files are in memory, and can be compared with the files soon.
    fn is_short(&self) -> bool {
        match self.kept() {
            Some(kept) => kept.pages.len().saturating_add(kept.directory.len()) <= MOST_COMPARED,
            None => false,
        }
    }
}

/// The state of a session between two saves. The model is the database of the last save, if the log is open and the database is known.
#[derive(Drop)]
pub struct SessionSaves<'a, R: Files<File = File>> {
    log: SessionLog<'a, R>,
    // The IDs of the data files. The session saves only into these.
    seen: SeenFiles,
    // The data files, held open. They may be other files than those of the IDs, if another program has replaced these.
    files: DataFiles,
    // What the session saw when it last looked at its data files.
    sight: Sight,
}

impl<'a, R: Files<File = File>> Model for SessionSaves<'a, R> {
    ghost use Rattle.std.specs.Coded.{codes};
    ghost use Rattle.std.specs.Prelude.{Option};
    ghost use Rattle.sdbm_addr.specs.Database.{Database, coded_database};
    ghost use Rattle.dbm_files.specs.Sessions.{saved_in};

    ghost Value = { Option Database };

    ghost coded = { Prim.hlevel (codes, coded_database) };

    ghost view = { λ a. saved_in a.log };
}

impl<'a, R: Files<File = File> + AllocGlobal> SessionSaves<'a, R> {
    /// Begins the saves of a session that has read its files. Opens a log with a mark that keeps older versions of this program from
    /// writing the files during the session. If that fails, or a data file is missing, the session continues without a mark until a save
    /// opens a log. Releases BASE.lock.
    pub fn begin(rt: &'a R, place: RunPlace<'_>, held: &'a LockedFiles) -> Self {
        let mut log = SessionLog::Closed;
        let mut files = DataFiles::none();
        files.open_more(rt, &held.place.names);
        match mark_log(rt, place, held, &mut log) {
            Ok(SaveOutcome::Pending) => held.locks.leave_unfinished(),
            _ => held.locks.leave_files(),
        }
        SessionSaves {
            log,
            seen: held.seen,
            files,
            sight: Sight::of(held.states),
        }
    }

    // Takes over the data files that a save has created. If the files that have their names now have other bytes, or cannot be read, another
    // program has written or replaced a new file, and the next save fails with `Changed`. Closes the log, since a replaced file may be
    // open there; the next save opens the files by their names. If the log cannot be closed, the save is `Pending`.
    fn take_made(&mut self, rt: &R, place: &Place, saved: Saved) -> Saved
        ensures unknown { self.new ≡ None }
        ensures receipt { result.receipt ≡ saved.receipt }
    {
        let mut files = DataFiles::none();
        files.open_more(rt, &place.names);
        if !self.log.is_in(&files) {
            self.sight.refuse();
        }
        self.seen = self.seen.with_made(&files);
        self.files = files;
        match close_log(rt.alloc(), self.log.take()) {
            Ok(()) => saved,
            Err(_) => Saved {
                outcome: SaveOutcome::Pending,
                receipt: saved.receipt,
            },
        }
    }

    // Takes over the data files that a save has created, if it has created one.
    fn take_any(&mut self, rt: &R, place: &Place, saved: Saved) -> Saved
        ensures saves { self.new ≡ None ⊎ self.new ≡ self.old }
        ensures receipt { result.receipt ≡ saved.receipt }
    {
        if saved.outcome == SaveOutcome::Unchanged || !self.seen.lacks_file() {
            return saved;
        }
        self.take_made(rt, place, saved)
    }
}

// Opens a log with its mark, unless a data file is missing. Fails with `Changed` if another program has written a data file.
fn mark_log<'a, R: Files<File = File> + AllocGlobal>(
    rt: &'a R,
    place: RunPlace<'_>,
    held: &'a LockedFiles,
    log: &mut SessionLog<'a, R>,
) -> Result<SaveOutcome, FilesFault> {
    if held.seen.lacks_file() {
        return Ok(SaveOutcome::Unchanged);
    }
    let read = read_again(rt, place, held, &held.seen)?;
    must_be_unwritten(rt, &held.place.names, held.states)?;
    let plan = plan_nothing(rt.alloc(), read_of(&read))?;
    save_opening(rt, held, &read, plan.as_slice(), None, log)?;
    Ok(outcome_in(log))
}

// Returns the data files of a read.
fn read_of(read: &FileBytes) -> ReadFiles<'_, Global>
    ensures pages { result.pages.now ≡ read.now.pages }
    ensures directory { result.directory.now ≡ read.now.directory.items }
{
    ReadFiles {
        pages: &read.pages,
        directory: read.directory.as_slice(),
    }
}

// Returns the outcome of the save that has opened a log: the log is closed if a call failed after the commit.
fn outcome_in<R: Files<File = File>>(log: &SessionLog<'_, R>) -> SaveOutcome {
    match log {
        SessionLog::Closed => SaveOutcome::Pending,
        SessionLog::Kept(_) | SessionLog::Marked(_) => SaveOutcome::Whole,
    }
}

/// Saves a database in a session: takes BASE.lock, and releases it once the save is committed. The first save opens a log. A later save
/// needs one sync, as long as this log stays open. If the log is full, or the data files may need new blocks of the disk, the log is
/// closed; then the files are read again, and the database is saved in a new log. If the database is large, each save opens a new log. If
/// the disk has no room for a log that stays open, the save uses a log for this save alone. A save that has created a data file closes the
/// log, and is `Pending` if that fails.
///
/// A save within some milliseconds after a look at the files does not look again, since a system may write the inodes of the files at each
/// sync after their times were read. It compares `.dir` and the pages that it writes with the bytes that it knows, and the next look
/// compares all. A save without a change looks. Since the last save, the database must have changed only on the pages in `changes`.
///
/// # Errors
/// `Changed` if another program has written a data file since the session read or saved it; nothing is saved then. The errors of
/// `save_held` and `read_again`. Earlier saves are never lost. After an error BASE.lock is still held, unless it could not be taken.
pub fn save_session<'a, R: Files<File = File> + Clock + AllocGlobal>(
    rt: &'a R,
    place: RunPlace<'_>,
    held: &'a LockedFiles,
    saves: &mut SessionSaves<'a, R>,
    image: &Image<Global>,
    changes: &Changes,
) -> Result<Saved, FilesFault>
    requires noted { AreNoted saves.old changes.now image.now }
    ensures saved { OnOk result (IfSome saves.new (λ base. base ≡ image.now)) }
    ensures receipt { IfOk result (λ saved. saved.receipt ≡ image.now) }
{
    held.locks.enter_files()?;
    let saved = save_entered(rt, place, held, saves, image, changes)?;
    let saved = saves.take_any(rt, &held.place, saved);
    match saved.outcome {
        SaveOutcome::Whole | SaveOutcome::Unchanged => held.locks.leave_files(),
        SaveOutcome::Pending => held.locks.leave_unfinished(),
    }
    Ok(saved)
}

// Saves under BASE.lock, without a look at the files if that is enough.
fn save_entered<'a, R: Files<File = File> + Clock + AllocGlobal>(
    rt: &'a R,
    place: RunPlace<'_>,
    held: &'a LockedFiles,
    saves: &mut SessionSaves<'a, R>,
    image: &Image<Global>,
    changes: &Changes,
) -> Result<Saved, FilesFault>
    requires noted { AreNoted saves.old changes.now image.now }
    ensures saved { OnOk result (IfSome saves.new (λ base. base ≡ image.now)) }
    ensures receipt { IfOk result (λ saved. saved.receipt ≡ image.now) }
{
    match save_soon(rt, held, saves, image, changes)? {
        Some(saved) => Ok(saved),
        None => save_looking(rt, place, held, saves, image),
    }
}

// Saves in the open log without a look at the files, under BASE.lock. Returns `None`, and leaves the log open, if the save has to look.
fn save_soon<'a, R: Files<File = File> + Clock + AllocGlobal>(
    rt: &'a R,
    held: &'a LockedFiles,
    saves: &mut SessionSaves<'a, R>,
    image: &Image<Global>,
    changes: &Changes,
) -> Result<Option<Saved>, FilesFault>
    requires noted { AreNoted saves.old changes.now image.now }
    ensures saved { IfOk result (λ saved. IfSome saved (λ _. IfSome saves.new (λ base. base ≡ image.now))) }
    ensures receipt { IfOk result (λ saved. IfSome saved (λ saved. saved.receipt ≡ image.now)) }
{
    if !saves.sight.is_recent(rt, &held.place) {
        return Ok(None);
    }
    let files = Some(&saves.files);
    let Some(saved) = save_more(rt.alloc(), &mut saves.log, image, changes, files)? else {
        return Ok(None);
    };
    match saved.outcome {
        SaveOutcome::Whole => saves.sight.note_save(),
        _ => saves.sight.renew(rt, &held.place, None, false),
    }
    Ok(Some(saved))
}

// Looks at the files, and saves, under BASE.lock.
fn save_looking<'a, R: Files<File = File> + Clock + AllocGlobal>(
    rt: &'a R,
    place: RunPlace<'_>,
    held: &'a LockedFiles,
    saves: &mut SessionSaves<'a, R>,
    image: &Image<Global>,
) -> Result<Saved, FilesFault>
    ensures saved { OnOk result (IfSome saves.new (λ base. base ≡ image.now)) }
    ensures receipt { IfOk result (λ saved. saved.receipt ≡ image.now) }
{
    let look = Look::begin(rt, &held.place);
    let seen = saves.seen;
    held.place.must_be_held(rt, &held.locks, &seen)?;
    let found = DataStates::look(rt, &held.place.names);
    if saves.sight.is_stale(&saves.files, found, saves.log.kept())? {
        let _ = close_log(rt.alloc(), saves.log.take());
        return Err(FilesFault::Changed);
    }
    let unwritten = if saves.log.is_open() {
        Some(found)
    } else {
        None
    };
    if saves.sight.is_other(found) || image.pag_len() > MOST_KEPT as u64 {
        close_log(rt.alloc(), saves.log.take())?;
    }
    let saved = save_locked(rt, place, held, unwritten, saves, image);
    let is_held = saves.files.seen() == seen && saves.files.are_named(rt, &held.place.names);
    let by_bytes = is_held && saves.log.is_short();
    saves.sight.renew(rt, &held.place, look, by_bytes);
    saved
}

// Saves under BASE.lock: in the open log if it takes another save, otherwise in a new one. Fails with `Changed` if a data file was written
// after `found`, and before it was read for a new log. `found` must be `None` if the redo file may have a save that this read recovers.
fn save_locked<'a, R: Files<File = File> + AllocGlobal>(
    rt: &'a R,
    place: RunPlace<'_>,
    held: &'a LockedFiles,
    found: Option<DataStates>,
    saves: &mut SessionSaves<'a, R>,
    image: &Image<Global>,
) -> Result<Saved, FilesFault>
    ensures saved { OnOk result (IfSome saves.new (λ base. base ≡ image.now)) }
    ensures receipt { IfOk result (λ saved. saved.receipt ≡ image.now) }
{
    if let Some(saved) = save_more(rt.alloc(), &mut saves.log, image, &Changes::Any, None)? {
        return Ok(saved);
    }
    close_log(rt.alloc(), saves.log.take())?;
    let seen = saves.seen;
    let read = read_again(rt, place, held, &seen)?;
    if let Some(found) = found {
        must_be_unwritten(rt, &held.place.names, found)?;
    }
    // A save without a change creates no file.
    if seen.lacks_file() && plan_read(rt.alloc(), read_of(&read), image)?.is_none() {
        return save_alone(rt, place, held, &seen, image);
    }
    match save_new(rt, held, &read, image, &mut saves.log) {
        Err(FilesFault::WriteFile) => save_alone(rt, place, held, &seen, image),
        saved => saved,
    }
}

// Saves a database in a new log, which stays open.
fn save_new<'a, R: Files<File = File> + AllocGlobal>(
    rt: &'a R,
    held: &'a LockedFiles,
    read: &FileBytes,
    image: &Image<Global>,
    log: &mut SessionLog<'a, R>,
) -> Result<Saved, FilesFault>
    ensures unknown { OnOk result (saved_in log.new ≡ None) }
    ensures closed { saved_in log.old ≡ None → saved_in log.new ≡ None }
    ensures receipt { IfOk result (λ saved. saved.receipt ≡ image.now) }
{
    let plan = plan_opening(rt.alloc(), read_of(read), image)?;
    let Some(receipt) = save_opening(rt, held, read, plan.as_slice(), Some(image), log)? else {
        unreachable!()
    };
    let outcome = outcome_in(log);
    Ok(Saved { outcome, receipt })
}

/// Closes the log of a session, if it is open, under BASE.lock. Afterwards both data files are complete and durable.
///
/// # Errors
/// `NoMemory` if allocation fails, `WriteFile` if the disk fails or BASE.lock cannot be taken, and `Moved` if the name of a lock now refers
/// to another file, since another run may have opened a log in the same redo file. No save is lost: the next writing run finishes the work.
pub fn close_session<R: Files<File = File> + AllocGlobal>(
    rt: &R,
    held: &LockedFiles,
    saves: &mut SessionSaves<'_, R>,
) -> Result<(), FilesFault> {
    if !saves.log.is_open() {
        return Ok(());
    }
    held.locks.enter_files()?;
    held.place.must_be_locked(rt, &held.locks)?;
    close_log(rt.alloc(), saves.log.take())
}

fn close_log<R: Files<File = File>>(
    alloc: Global,
    log: SessionLog<'_, R>,
) -> Result<(), FilesFault> {
    match log {
        SessionLog::Closed => Ok(()),
        SessionLog::Kept(kept) => {
            let (mut disk, keeper) = kept.into_kept().into_parts();
            Ok(close_kept(alloc, &mut disk, keeper.log)?)
        }
        SessionLog::Marked(marked) => {
            let (mut disk, log) = marked.into_parts();
            Ok(close_kept(alloc, &mut disk, log)?)
        }
    }
}

// Saves a database in a log for this save alone, as a command does.
fn save_alone<R: Files<File = File> + AllocGlobal>(
    rt: &R,
    place: RunPlace<'_>,
    held: &LockedFiles,
    seen: &SeenFiles,
    image: &Image<Global>,
) -> Result<Saved, FilesFault>
    ensures receipt { IfOk result (λ saved. saved.receipt ≡ image.now) }
{
    let read = read_again(rt, place, held, seen)?;
    save_held(rt, held, &read.seen, read_of(&read), image)
}

// Saves in a log that stays open. Since the last save, the database must have changed only on the pages in `changes`. Returns `None` if the
// log cannot take the save: it is not open for that, or it has no room; or if `files` are given, and nothing has changed, or these data
// files do not have the known bytes that the save needs. Then, and after an error before the save begins, log and data files
// are unchanged.
fn save_more<'a, R: Files<File = File>>(
    alloc: Global,
    log: &mut SessionLog<'a, R>,
    image: &Image<Global>,
    changes: &Changes,
    files: Option<&DataFiles>,
) -> Result<Option<Saved>, FilesFault>
    requires noted { AreNoted (saved_in log.old) changes.now image.now }
    ensures saved { IfOk result (λ saved. IfSome saved (λ _. IsSavedAs image.now log.new)) }
    ensures receipt { IfOk result (λ saved. IfSome saved (λ saved. saved.receipt ≡ image.now)) }
{
    match log.take() {
        SessionLog::Kept(kept) => save_kept(alloc, kept, image, changes, files, log),
        other => {
            *log = other;
            Ok(None)
        }
    }
}

// Saves in an open log, like `save_more`.
fn save_kept<'a, R: Files<File = File>>(
    alloc: Global,
    kept: SavedDisk<SessionDisk<'a, R>>,
    image: &Image<Global>,
    changes: &Changes,
    files: Option<&DataFiles>,
    log: &mut SessionLog<'a, R>,
) -> Result<Option<Saved>, FilesFault>
    requires noted { AreNoted kept.1 changes.now image.now }
    ensures saved { IfOk result (λ saved. IfSome saved (λ _. IsSavedAs image.now log.new)) }
    ensures receipt { IfOk result (λ saved. IfSome saved (λ saved. saved.receipt ≡ image.now)) }
{
    match kept.plan(alloc, image, changes) {
        Ok(Some(plan)) => {
            let size = image.page_size();
            let is_known = match files {
                Some(files) => knows(files, plan.as_slice(), kept.contents(), size),
                None => Ok(true),
            };
            match is_known {
                Ok(true) => save_planned(alloc, kept, plan.as_slice(), image, log),
                other => {
                    *log = SessionLog::Kept(kept);
                    other?;
                    Ok(None)
                }
            }
        }
        Ok(None) => match files {
            Some(_) => {
                *log = SessionLog::Kept(kept);
                Ok(None)
            }
            None => {
                let saved = SavedDisk::of(kept.into_kept(), image);
                Ok(Some(keep(saved, image, SaveOutcome::Unchanged, log)))
            }
        },
        Err(fault) => {
            *log = SessionLog::Kept(kept);
            Err(fault.into())
        }
    }
}

// Saves a plan in an open log, which stays open. Returns `None` if the log has no room for it; the data files are unchanged then.
fn save_planned<'a, R: Files<File = File>>(
    alloc: Global,
    kept: SavedDisk<SessionDisk<'a, R>>,
    plan: &[u8],
    image: &Image<Global>,
    log: &mut SessionLog<'a, R>,
) -> Result<Option<Saved>, FilesFault>
    requires saving { IsSaving image.now plan.now kept.0.1.files.pages.items kept.0.1.files.directory.items }
    ensures saved { IfOk result (λ saved. IfSome saved (λ _. IsSavedAs image.now log.new)) }
    ensures receipt { IfOk result (λ saved. IfSome saved (λ saved. saved.receipt ≡ image.now)) }
{
    let after = match kept.save(alloc, plan, image) {
        Ok(after) => after,
        Err((fault, _)) => return Err(fault.into()),
    };
    match after {
        AfterSave::Full(kept) => {
            *log = SessionLog::Kept(SavedDisk::new(kept));
            Ok(None)
        }
        AfterSave::Pending(disk, _) => {
            *log = SessionLog::Closed;
            Ok(Some(Saved {
                outcome: SaveOutcome::Pending,
                receipt: Receipt::of(&disk, image),
            }))
        }
        AfterSave::Done(saved) => Ok(Some(keep(saved, image, SaveOutcome::Whole, log))),
    }
}

// Keeps a log open whose files have this database.
fn keep<'a, R: Files<File = File>>(
    saved: SavedDisk<SessionDisk<'a, R>>,
    image: &Image<Global>,
    outcome: SaveOutcome,
    log: &mut SessionLog<'a, R>,
) -> Saved
    requires { saved.1 ≡ Some image.now }
    ensures log { saved_in log.new ≡ Some image.now }
    ensures receipt { result.receipt ≡ image.now }
{
    let receipt = Receipt::of(saved.disk(), image);
    *log = SessionLog::Kept(saved);
    Saved { outcome, receipt }
}

// Saves a plan in a new log, which stays open. If nothing was committed, removes the redo file. Returns the receipt of the database, if the
// plan is that of a database.
fn save_opening<'a, R: Files<File = File> + AllocGlobal>(
    rt: &'a R,
    held: &'a LockedFiles,
    read: &FileBytes,
    plan: &[u8],
    image: Option<&Image<Global>>,
    log: &mut SessionLog<'a, R>,
) -> Result<Option<Receipt>, FilesFault>
    requires plan { IsPlan plan.now }
    requires knows { Knows plan.now (read.now.pages.bytes, read.now.directory.items) }
    requires saves { IfSome image (λ image. AreFilesFor image.now (renewed Pages plan.now read.now.pages.bytes) (renewed Directory plan.now read.now.directory.items)) }
    ensures unknown { OnOk result (saved_in log.new ≡ None) }
    ensures closed { saved_in log.old ≡ None → saved_in log.new ≡ None }
    ensures receipt { IfOk result (λ receipt. IfSome image.entry (λ image. receipt ≡ Some image.now)) }
{
    let names = &held.place.names;
    let old = read_of(read);
    if plan.len() >= PLAN_LIMIT {
        return Err(FilesFault::FileTooLong);
    }
    let new = kept_bytes(rt.alloc(), old, plan)?;
    let redo = find_redo(rt, names)?;
    let files = RealFiles::new(
        rt,
        names,
        read.seen,
        redo.is_stale,
        CallLog::new(rt.alloc())?,
    );
    let found = FoundRead {
        files: old,
        redo: redo.bytes.as_slice(),
    };
    let opened = match save_found(rt.alloc(), files, found, plan, new, image) {
        Ok(opened) => opened,
        Err(fault) => {
            forget_redo(rt, names);
            return Err(fault);
        }
    };
    *log = opened.log;
    Ok(opened.receipt)
}

// Returns the plan of the first save in a log. The plan changes nothing if the files are already those of the database.
fn plan_opening(
    alloc: Global,
    old: ReadFiles<'_, Global>,
    image: &Image<Global>,
) -> Result<Vec<u8>, FilesFault>
    ensures { IfOk result (λ plan. IsSaving image.now plan.items old.entry.pages.now.bytes old.entry.directory.now) }
{
    match plan_read(alloc, old, image)? {
        Some(plan) => Ok(plan),
        None => Ok(plan_nothing(alloc, old)?),
    }
}

// Returns the bytes of both data files after a plan. Returns `None` if `.pag` is too long to keep in memory.
fn kept_bytes(
    alloc: Global,
    old: ReadFiles<'_, Global>,
    plan: &[u8],
) -> Result<Option<DataBytes>, FilesFault>
    requires plan { IsPlan plan.now }
    ensures pages { IfOk result (λ kept. IfSome kept (λ new. new.pages.items ≡ renewed Pages plan.now old.entry.pages.now.bytes)) }
    ensures directory { IfOk result (λ kept. IfSome kept (λ new. new.directory.items ≡ renewed Directory plan.now old.entry.directory.now)) }
{
    if old.pages.len() > MOST_KEPT || number(plan, 8) > MOST_KEPT {
        return Ok(None);
    }
    let mut directory = Vec::new(alloc);
    directory.extend_from_slice(old.directory)?;
    let bytes = DataBytes {
        pages: old.pages.to_vec(alloc)?,
        directory,
    };
    Ok(Some(bytes.renewed(alloc, plan)?))
}

// A log that was opened by a save, and the receipt of the database, if the plan of the save is that of a database.
#[derive(Drop)]
struct OpenedLog<'a, R: Files<File = File>> {
    log: SessionLog<'a, R>,
    receipt: Option<Receipt>,
}

// Saves a plan in a new log, which stays open. If `new` has the bytes of the data files after the plan, the log takes the next save.
// The log is `Closed` if a call failed after the commit.
fn save_found<'a, R: Files<File = File>>(
    alloc: Global,
    files: RealFiles<'a, R>,
    found: FoundRead<'_>,
    plan: &[u8],
    new: Option<DataBytes>,
    image: Option<&Image<Global>>,
) -> Result<OpenedLog<'a, R>, FilesFault>
    requires fresh { acts files.log ≡ [] }
    requires unmarked { get_or found.redo.now 0 0 ≢ 1 }
    requires short { length plan.now < 3000000000 }
    requires plan { IsPlan plan.now }
    requires knows { Knows plan.now (found.files.pages.now.bytes, found.files.directory.now) }
    requires pages { IfSome new (λ new. new.pages.items ≡ renewed Pages plan.now found.files.pages.now.bytes) }
    requires directory { IfSome new (λ new. new.directory.items ≡ renewed Directory plan.now found.files.directory.now) }
    requires saves { IfSome image (λ image. AreFilesFor image.now (renewed Pages plan.now found.files.pages.now.bytes) (renewed Directory plan.now found.files.directory.now)) }
    ensures unknown { IfOk result (λ opened. saved_in opened.log ≡ None) }
    ensures receipt { IfOk result (λ opened. IfSome image.entry (λ image. opened.receipt ≡ Some image.now)) }
{
    let noted = GhostImage::of_read(found.files.pages, found.files.directory, found.redo);
    let mut disk = Recorded::<RealFiles<'a, R>, Unknown, GhostImage>::new(files, noted);
    let (saved, log) = save_first(alloc, &mut disk, found.redo, plan, ROOM)?;
    let receipt = Receipt::of_some(&disk, image);
    let log = match (saved, new) {
        (LogSave::Pending(_), _) => SessionLog::Closed,
        (LogSave::Done, Some(files)) => {
            let kept = KeptDisk::new(disk, Keeper { log, files });
            SessionLog::Kept(SavedDisk::new(kept))
        }
        (LogSave::Done, None) => SessionLog::Marked(LoggedDisk::new(disk, log)),
    };
    Ok(OpenedLog { log, receipt })
}
