//! The reasons why files could not be read, locked or written.
ghost use Rattle.std.specs.Prelude.{◌≡◌};
ghost use Rattle.dbm_places.specs.declared.fault.FilesFault.TheVariants.{NoMemory};

use sdbm_saves::{DiskError, SavePlanFault};
use std::alloc::{AllocError, AllocFailed};

/// A file of a database whose name no longer refers to it.
#[derive(Clone, Copy, Debug, PartialEq, Eq)]
pub enum MovedFile {
    /// BASE.lock, which this run holds.
    Lock,
    /// BASE.writer, which this run holds.
    Writer,
    /// BASE.pag, which this run has read.
    Pages,
    /// BASE.dir, which this run has read.
    Directory,
}

/// The reason why files could not be read, locked or written. It does not name the file; `find_unread` and similar functions do.
#[derive(Clone, Copy, Debug, PartialEq, Eq)]
pub enum FilesFault {
    /// A file could not be read.
    ReadFile,
    /// A file is longer than its limit, or would be after the change.
    FileTooLong,
    /// A file could not be written.
    WriteFile,
    /// The commit byte of the redo file is 1, but the redo file belongs to other data files or was not written by a save.
    BadRedo,
    /// Another user could have planted the redo file or a lock.
    Unsafe,
    /// Another run held the lock for the whole wait.
    Locked,
    /// The name `BASE.lock`, `.writer`, `.pag` or `.dir` no longer refers to the file that this run locked or read. Nothing was saved.
    Moved(MovedFile),
    /// Another program has written `BASE.pag` or `.dir` since this run read or saved it. Nothing was saved.
    Changed,
    /// The lines that report a save could not be written. The save itself is committed.
    Write,
    /// Out of memory.
    NoMemory,
}

impl From<AllocError> for FilesFault {
    ghost from_gives = { λ _ fault. fault ≡ NoMemory };

    fn from(_error: AllocError) -> FilesFault {
        FilesFault::NoMemory
    }
}

impl<T: Drop> From<AllocFailed<T>> for FilesFault {
    ghost from_gives = { λ _ fault. fault ≡ NoMemory };

    fn from(_error: AllocFailed<T>) -> FilesFault {
        FilesFault::NoMemory
    }
}

impl From<DiskError> for FilesFault {
    ghost use Rattle.dbm_places.specs.Faults.{disk_fault};

    ghost from_gives = { λ reason fault. fault ≡ disk_fault reason };

    fn from(error: DiskError) -> FilesFault {
        match error {
            DiskError::Memory => FilesFault::NoMemory,
            DiskError::Failed => FilesFault::WriteFile,
        }
    }
}

impl From<SavePlanFault> for FilesFault {
    ghost use Rattle.dbm_places.specs.Faults.{plan_fault};

    ghost from_gives = { λ reason fault. fault ≡ plan_fault reason };

    fn from(fault: SavePlanFault) -> FilesFault {
        match fault {
            SavePlanFault::TooLong => FilesFault::FileTooLong,
            SavePlanFault::NoMemory => FilesFault::NoMemory,
        }
    }
}
