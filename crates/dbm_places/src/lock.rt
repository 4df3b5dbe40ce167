//! The two locks of a database: a run holds BASE.lock while it uses the files, and BASE.writer as long as it may change the database.
use crate::fault::{FilesFault, MovedFile};
use crate::holder::may_be_locked;
use crate::names::Names;
use crate::place::is_named;
use crate::side::{Side, SideFault, make_lock, open_beside, side_fault};
use std::fs::{File, TryLockError};
use std::io::ErrorKind;
use std::rt::Files;
use std::thread;
use std::time::{Clock, Duration, Instant};

/// Longest pause between two attempts to take a lock, in milliseconds. The system can make it longer.
const LONGEST_REST: u64 = 5;

/// Maximum number of attempts to take a lock whose name refers to a different file after each attempt.
const MOST_LOCKS: usize = 100;

/// Maximum number of times that a reading run yields to a waiting save. The limit exists because the saving process may be suspended.
const MOST_YIELDS: usize = 8;

/// The locks of a run that may change a database. Other runs wait until these locks are dropped.
#[derive(Drop)]
pub struct WriteLocks {
    /// BASE.writer, locked exclusively while this run does not use the files, and shared while it does. If the run is killed while it uses
    /// the files, readers therefore use the redo file, even if the system releases BASE.lock first.
    pub writer: File,
    /// BASE.lock, locked while the run uses the files.
    pub files: File,
}

impl WriteLocks {
    /// Releases BASE.lock. The data files must contain all saves. First locks BASE.writer exclusively, if that needs no wait. If a process
    /// was suspended while it checked BASE.writer, the lock stays shared, and readers use the redo file.
    pub fn leave_files(&self) {
        if self.writer.try_lock().is_err() {
            let _ = self.writer.lock_shared();
        }
        let _ = self.files.unlock();
    }

    /// Releases BASE.lock after a committed save that may be missing from the data files. BASE.writer stays shared, so readers use the redo
    /// file.
    pub fn leave_unfinished(&self) {
        let _ = self.files.unlock();
    }

    /// Takes BASE.lock again, if it was released. Makes the lock on BASE.writer shared before a wait, so that readers see that a save
    /// waits.
    ///
    /// # Errors
    /// `WriteFile` if a lock cannot be taken.
    pub fn enter_files(&self) -> Result<(), FilesFault> {
        if self.files.try_lock().is_ok() {
            return share(&self.writer);
        }
        share(&self.writer)?;
        match self.files.lock() {
            Ok(()) => Ok(()),
            Err(_) => Err(FilesFault::WriteFile),
        }
    }
}

// Makes the lock on BASE.writer shared.
fn share(writer: &File) -> Result<(), FilesFault> {
    match writer.lock_shared() {
        Ok(()) => Ok(()),
        Err(_) => Err(FilesFault::WriteFile),
    }
}

/// A wait for the locks of a database.
#[derive(Clone, Copy)]
struct Wait {
    /// Whether the locks are shared.
    shared: bool,
    /// The fault of a lock that cannot be taken.
    fault: FilesFault,
    /// The begin of the wait and its longest duration. `None` if the wait has no limit.
    limit: Option<(Instant, Duration)>,
}

impl Wait {
    fn begin<C: Clock>(
        clock: &C,
        shared: bool,
        patience: Option<Duration>,
    ) -> Result<Wait, FilesFault> {
        let fault = if shared {
            FilesFault::ReadFile
        } else {
            FilesFault::WriteFile
        };
        let limit = match patience {
            Some(patience) => Some((now(clock, fault)?, patience)),
            None => None,
        };
        Ok(Wait {
            shared,
            fault,
            limit,
        })
    }

    // Returns the remaining patience, or `None` if the wait has no limit. Asks the clock, because a pause can take longer than requested.
    fn left<C: Clock>(&self, clock: &C) -> Result<Option<Duration>, FilesFault> {
        let Some((begin, patience)) = self.limit else {
            return Ok(None);
        };
        let waited = now(clock, self.fault)?.duration_since(begin);
        Ok(Some(patience.saturating_sub(waited)))
    }

    // Pauses, at most for the remaining patience. Fails with `Locked` if none is left.
    fn rest<C: Clock>(&self, clock: &C, longest: Duration) -> Result<(), FilesFault> {
        let rest = match self.left(clock)? {
            Some(left) if left.is_zero() => return Err(FilesFault::Locked),
            Some(left) => longest.min(left),
            None => longest,
        };
        thread::sleep(clock, rest);
        Ok(())
    }
}

// Returns the time of the clock, which does not follow the time of day.
fn now<C: Clock>(clock: &C, fault: FilesFault) -> Result<Instant, FilesFault> {
    match Instant::now(clock) {
        Ok(now) => Ok(now),
        Err(_) => Err(fault),
    }
}

/// Waits for both locks of a writing run, at most `patience` if it is given, and takes them. Creates missing lock files, so that all users
/// who may use the pages can lock them. A run that may not write the pages creates no lock file. While another run holds BASE.writer, this
/// run holds no lock between two attempts, so readers do not wait for it.
///
/// # Errors
/// `Unsafe` if another user could have planted a lock, `WriteFile` if a lock cannot be created or taken, `Locked` if another run held a
/// lock for the whole wait, and `Moved` if the name of BASE.lock refers to a different file at each attempt. Interrupted calls are
/// repeated.
pub fn lock_to_write<R: Files<File = File> + Clock>(
    rt: &R,
    names: &Names,
    patience: Option<Duration>,
) -> Result<WriteLocks, FilesFault> {
    let wait = Wait::begin(rt, false, patience)?;
    for _ in 0..u64::MAX {
        // While another run has the database open, this run tries no lock, so that it does not disturb readers. With no patience left, it
        // tries the locks once without this check.
        if wait.left(rt)? != Some(Duration::ZERO) && has_writer(rt, names) {
            wait.rest(rt, Duration::from_millis(LONGEST_REST))?;
            continue;
        }
        let files = lock_files(rt, names, wait)?;
        let writer = open_to_lock(rt, names, names.writer.as_str())?;
        if is_locked_now(rt, names, &writer)? {
            share(&writer)?;
            return Ok(WriteLocks { writer, files });
        }
        drop(files);
        wait.rest(rt, Duration::from_millis(LONGEST_REST))?;
    }
    Err(FilesFault::Locked)
}

// Takes BASE.writer if no other run holds it. Returns `true` if it was taken and its name still refers to this file.
fn is_locked_now<R: Files<File = File>>(
    rt: &R,
    names: &Names,
    writer: &File,
) -> Result<bool, FilesFault> {
    match writer.try_lock() {
        Ok(()) => Ok(is_named(rt, names.writer.as_str(), writer)),
        Err(TryLockError::WouldBlock) => Ok(false),
        Err(TryLockError::Error(_)) => Err(FilesFault::WriteFile),
    }
}

// Waits for BASE.lock and takes it exclusively.
fn lock_files<R: Files<File = File> + Clock>(
    rt: &R,
    names: &Names,
    wait: Wait,
) -> Result<File, FilesFault> {
    for _ in 0..MOST_LOCKS {
        let file = open_to_lock(rt, names, names.lock.as_str())?;
        take_lock(rt, &file, wait)?;
        if is_named(rt, names.lock.as_str(), &file) {
            return Ok(file);
        }
    }
    Err(FilesFault::Moved(MovedFile::Lock))
}

// Opens a lock file, or creates it if it is missing.
fn open_to_lock<R: Files<File = File>>(
    rt: &R,
    names: &Names,
    name: &str,
) -> Result<File, FilesFault> {
    match open_lock(rt, name, names.pages.as_str()) {
        Ok(file) => Ok(file),
        Err(fault) => Err(side_fault(&fault, FilesFault::WriteFile)),
    }
}

/// Waits for BASE.lock, at most `patience` if it is given, and takes it shared. Returns `None` if the lock file is missing, because then no
/// run has written the database. If the name refers to a different file after the wait, waits for the lock of that file. The system prefers
/// readers to a waiting writer, so this run releases the lock for a while if a save waits for it.
///
/// # Errors
/// `Unsafe` if another user could have planted the lock, `ReadFile` if it cannot be opened or locked, `Locked` if a writing run held it for
/// the whole wait, and `Moved` if the name refers to a different file at each attempt.
pub fn lock_to_read<R: Files<File = File> + Clock + AllocGlobal>(
    rt: &R,
    names: &Names,
    patience: Option<Duration>,
) -> Result<Option<File>, FilesFault> {
    let wait = Wait::begin(rt, true, patience)?;
    for _ in 0..MOST_YIELDS {
        let Some(file) = share_files(rt, names, wait)? else {
            return Ok(None);
        };
        if is_short(wait.left(rt)?) || !is_waited_for(rt, names) {
            return Ok(Some(file));
        }
        drop(file);
        wait.rest(rt, Duration::from_millis(LONGEST_REST))?;
    }
    share_files(rt, names, wait)
}

// Returns `true` if too little patience is left to release the lock and take it again.
fn is_short(left: Option<Duration>) -> bool {
    match left {
        Some(left) => left <= Duration::from_millis(4 * LONGEST_REST),
        None => false,
    }
}

// Waits for BASE.lock and takes it shared.
fn share_files<R: Files<File = File> + Clock>(
    rt: &R,
    names: &Names,
    wait: Wait,
) -> Result<Option<File>, FilesFault> {
    let (name, pages) = (names.lock.as_str(), names.pages.as_str());
    for _ in 0..MOST_LOCKS {
        let file = match open_beside(rt, Side::Lock, name, pages, false) {
            Ok(file) => file,
            Err(SideFault::Absent) => return Ok(None),
            Err(fault) => return Err(side_fault(&fault, FilesFault::ReadFile)),
        };
        take_lock(rt, &file, wait)?;
        if is_named(rt, name, &file) {
            return Ok(Some(file));
        }
    }
    Err(FilesFault::Moved(MovedFile::Lock))
}

// Returns `true` if a save waits for BASE.lock, which this run shares. A save waits if a process holds BASE.writer, but not exclusively. A
// reader that checks BASE.writer holds it shared for a moment, and then counts as a save. If the system does not report the save's lock, this
// run does not yield.
fn is_waited_for<R: Files<File = File> + AllocGlobal>(rt: &R, names: &Names) -> bool {
    !has_writer(rt, names) && may_be_locked(rt, names.writer.as_str())
}

/// Returns `true` if another run holds BASE.writer exclusively: it has the database open for changes, but does not use the files now. If
/// the caller holds BASE.lock, the data files then contain all saves, even if the redo file is not empty. Returns `false` if the lock
/// cannot be checked.
pub fn has_writer<R: Files<File = File>>(rt: &R, names: &Names) -> bool {
    let (name, pages) = (names.writer.as_str(), names.pages.as_str());
    let Ok(file) = open_beside(rt, Side::Lock, name, pages, false) else {
        return false;
    };
    match file.try_lock_shared() {
        Err(TryLockError::WouldBlock) => is_named(rt, name, &file),
        _ => false,
    }
}

// Takes a lock. Fails with `Locked` if another run holds it until the wait ends.
fn take_lock<C: Clock>(clock: &C, file: &File, wait: Wait) -> Result<(), FilesFault> {
    if wait.limit.is_some() {
        return take_within(clock, file, wait);
    }
    let taken = if wait.shared {
        file.lock_shared()
    } else {
        file.lock()
    };
    match taken {
        Ok(()) => Ok(()),
        Err(_) => Err(wait.fault),
    }
}

// Tries to take the lock, with growing pauses, until the wait ends.
fn take_within<C: Clock>(clock: &C, file: &File, wait: Wait) -> Result<(), FilesFault> {
    let mut rest = Duration::from_millis(1);
    for _ in 0..u64::MAX {
        let tried = if wait.shared {
            file.try_lock_shared()
        } else {
            file.try_lock()
        };
        match tried {
            Ok(()) => return Ok(()),
            Err(TryLockError::WouldBlock) => wait.rest(clock, rest)?,
            Err(TryLockError::Error(_)) => return Err(wait.fault),
        }
        rest = rest
            .saturating_mul(2)
            .min(Duration::from_millis(LONGEST_REST));
    }
    Err(FilesFault::Locked)
}

// Opens a lock file, or creates it if it is missing. If another run creates the file first, opens that file. If the file cannot be opened
// for writing, opens it for reading.
fn open_lock<R: Files<File = File>>(rt: &R, name: &str, pages: &str) -> Result<File, SideFault> {
    match open_there(rt, name, pages) {
        Err(SideFault::Absent) => match make_lock(rt, name, pages) {
            Err(error) if error.kind() == ErrorKind::AlreadyExists => open_there(rt, name, pages),
            made => Ok(made?),
        },
        opened => opened,
    }
}

fn open_there<R: Files<File = File>>(rt: &R, name: &str, pages: &str) -> Result<File, SideFault> {
    match open_beside(rt, Side::Lock, name, pages, true) {
        Err(SideFault::Refused(_)) => open_beside(rt, Side::Lock, name, pages, false),
        opened => opened,
    }
}
