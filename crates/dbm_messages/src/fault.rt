//! The reasons why a request failed.
ghost use Rattle.std.specs.Prelude.{◌≡◌};
ghost use Rattle.dbm_messages.specs.declared.fault.ServeFault.TheVariants.{NoMemory};

use dbm_dump::{CopyFault, DumpFault};
use dbm_places::{FilesFault, MovedFile};
use dbm_reports::ReportFault;
use dbm_script::TasksFault;
use prog_registry::RegFault;
use std::alloc::{AllocError, AllocFailed};
use std::error::Error;
use std::fmt;
use store_shared::CloseFault;
use worker_pool::PoolFault;

/// The reason why a request failed. It prints as the text after `dbm: ` on standard error.
#[derive(Clone, Copy, Debug)]
pub enum ServeFault {
    /// An argument of the command line is not UTF-8.
    NotText,
    /// A file could not be read.
    ReadFile,
    /// A file is longer than the program's limit, or would be after the command.
    FileTooLong,
    /// A file could not be written.
    WriteFile,
    /// The commit byte of the redo file is 1, but the redo file belongs to other data files or was not written by a save.
    BadRedo,
    /// Another user could have planted the redo file or the lock.
    Unsafe,
    /// The request says that pages are wide, but the pages of the files look small.
    OtherSize,
    /// The system does not report the time of day.
    ReadClock,
    /// The base is empty, `.` or `..`, or ends in `/`, so it names no file.
    BadBase,
    /// Neither file of the database exists, but the request needs an existing database.
    Absent,
    /// A file of the copy exists already.
    Exists,
    /// There is no stock program of this name.
    NoStock,
    /// Another run held the lock for the whole timeout.
    Locked,
    /// The name of a lock that the run holds, or of a data file that it has read, no longer refers to that file. Nothing was saved.
    Moved(MovedFile),
    /// Another program has written a data file since this run read or saved it. Nothing was saved.
    Changed,
    /// The arguments, the files or standard input are invalid. The inner fault is never `NoMemory`.
    Report(ReportFault),
    /// A dump could not be written or loaded. The inner fault is never `Read` or `NoMemory`.
    Dump(DumpFault),
    /// The program of a batch is refused. The inner fault is never `NoMemory`.
    Submit(RegFault),
    /// The line of a batch with this number, counted from 1, is not a task.
    BadLine(usize),
    /// The input of a session ends within the line with this number, counted from 1, which was not run. The changes before it are saved.
    CutLine(u64),
    /// Not all tasks of a batch were done. The inner fault is never `NoMemory`, but may say that a task was refused for lack of memory.
    Pool(PoolFault),
    /// The calls of a batch's workers differ from those of its store.
    Close(CloseFault),
    /// Standard output could not be written, and nothing was changed.
    Write,
    /// Standard output could not be written, after the change was saved. Prints as `Write`.
    Saved,
    /// Out of memory.
    NoMemory,
}

impl fmt::Display for ServeFault {
    ghost use Rattle.std.specs.Prelude.{Some};
    ghost use Rattle.dbm_messages.specs.FaultText.{fault_text};

    ghost output = { λ fault. Some (fault_text fault) };

    fn fmt<W: fmt::Write>(&self, f: &mut fmt::Formatter<W>) -> fmt::Result {
        match self {
            ServeFault::NotText => f.write_str("NotText"),
            ServeFault::ReadFile => f.write_str("ReadFile"),
            ServeFault::FileTooLong => f.write_str("FileTooLong"),
            ServeFault::WriteFile => f.write_str("WriteFile"),
            ServeFault::BadRedo => f.write_str("BadRedo"),
            ServeFault::Unsafe => f.write_str("Unsafe"),
            ServeFault::OtherSize => f.write_str("OtherSize"),
            ServeFault::ReadClock => f.write_str("ReadClock"),
            ServeFault::BadBase => f.write_str("BadBase"),
            ServeFault::Absent => f.write_str("Absent"),
            ServeFault::Exists => f.write_str("Exists"),
            ServeFault::NoStock => f.write_str("NoStock"),
            ServeFault::Locked => f.write_str("Locked"),
            ServeFault::Moved(_) => f.write_str("Moved"),
            ServeFault::Changed => f.write_str("Changed"),
            ServeFault::Report(fault) => fmt::Display::fmt(fault, f),
            ServeFault::Dump(fault) => fmt::Display::fmt(fault, f),
            ServeFault::Submit(fault) => fmt::Display::fmt(fault, f),
            ServeFault::BadLine(number) => write!(f, "bad line {number}"),
            ServeFault::CutLine(number) => write!(f, "CutLine({number})"),
            ServeFault::Pool(fault) => fmt::Display::fmt(fault, f),
            ServeFault::Close(fault) => fmt::Display::fmt(fault, f),
            ServeFault::Write | ServeFault::Saved => f.write_str("Write"),
            ServeFault::NoMemory => f.write_str("NoMemory"),
        }
    }
}

impl Error for ServeFault {}

impl From<AllocError> for ServeFault {
    ghost from_gives = { λ _ fault. fault ≡ NoMemory };

    fn from(_error: AllocError) -> ServeFault {
        ServeFault::NoMemory
    }
}

impl<T: Drop> From<AllocFailed<T>> for ServeFault {
    ghost from_gives = { λ _ fault. fault ≡ NoMemory };

    fn from(_error: AllocFailed<T>) -> ServeFault {
        ServeFault::NoMemory
    }
}

impl From<ReportFault> for ServeFault {
    ghost use Rattle.dbm_messages.specs.Faults.{report_fault};

    ghost from_gives = { λ reason fault. fault ≡ report_fault reason };

    fn from(fault: ReportFault) -> ServeFault {
        match fault {
            ReportFault::NoMemory => ServeFault::NoMemory,
            fault => ServeFault::Report(fault),
        }
    }
}

impl From<CopyFault> for ServeFault {
    ghost use Rattle.dbm_messages.specs.Faults.{copy_fault};

    ghost from_gives = { λ reason fault. fault ≡ copy_fault reason };

    fn from(fault: CopyFault) -> ServeFault {
        match fault {
            CopyFault::Report(fault) => ServeFault::from(fault),
            CopyFault::Dump(fault) => ServeFault::Dump(fault),
        }
    }
}

impl From<TasksFault> for ServeFault {
    ghost use Rattle.dbm_messages.specs.Faults.{tasks_fault};

    ghost from_gives = { λ reason fault. fault ≡ tasks_fault reason };

    fn from(fault: TasksFault) -> ServeFault {
        match fault {
            TasksFault::BadLine(number) => ServeFault::BadLine(number),
            TasksFault::NoMemory => ServeFault::NoMemory,
        }
    }
}

impl From<RegFault> for ServeFault {
    ghost use Rattle.dbm_messages.specs.Faults.{submit_fault};

    ghost from_gives = { λ reason fault. fault ≡ submit_fault reason };

    fn from(fault: RegFault) -> ServeFault {
        match fault {
            RegFault::NoMemory => ServeFault::NoMemory,
            RegFault::Decode(_) | RegFault::Verify(_) | RegFault::Full => ServeFault::Submit(fault),
        }
    }
}

impl From<PoolFault> for ServeFault {
    ghost use Rattle.dbm_messages.specs.Faults.{pool_fault};

    ghost from_gives = { λ reason fault. fault ≡ pool_fault reason };

    fn from(fault: PoolFault) -> ServeFault {
        match fault {
            PoolFault::NoMemory => ServeFault::NoMemory,
            PoolFault::NoWorkers
            | PoolFault::NoProgram(_)
            | PoolFault::NoSession
            | PoolFault::NoThread(_)
            | PoolFault::Refused(_, _) => ServeFault::Pool(fault),
        }
    }
}

impl From<FilesFault> for ServeFault {
    ghost use Rattle.dbm_messages.specs.Faults.{files_fault};

    ghost from_gives = { λ reason fault. fault ≡ files_fault reason };

    fn from(fault: FilesFault) -> ServeFault {
        match fault {
            FilesFault::ReadFile => ServeFault::ReadFile,
            FilesFault::FileTooLong => ServeFault::FileTooLong,
            FilesFault::WriteFile => ServeFault::WriteFile,
            FilesFault::BadRedo => ServeFault::BadRedo,
            FilesFault::Unsafe => ServeFault::Unsafe,
            FilesFault::Locked => ServeFault::Locked,
            FilesFault::Moved(file) => ServeFault::Moved(file),
            FilesFault::Changed => ServeFault::Changed,
            FilesFault::Write => ServeFault::Saved,
            FilesFault::NoMemory => ServeFault::NoMemory,
        }
    }
}
