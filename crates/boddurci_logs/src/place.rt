//! The place of the next record, in the form that C uses.
ghost use Rattle.std.specs.Prelude.{◌≡◌};
ghost use Rattle.boddurci_logs.specs.Answers.{log_at};

use sdbm_log::Log;

/// The place of the next record in a log: the end of the records and the room for records, both in bytes from the end of the
/// header, and the total number of changes in the records' plans.
#[repr(C)]
#[derive(Clone, Copy)]
pub struct LogPlace {
    pub end: usize,
    pub room: usize,
    pub count: usize,
}

impl LogPlace {
    /// Makes the place from a log.
    pub fn of(log: Log) -> LogPlace
        ensures { log_at result ≡ log }
    {
        LogPlace {
            end: log.end,
            room: log.room,
            count: log.count,
        }
    }

    /// Makes the log from its place.
    pub fn log(&self) -> Log
        ensures { result ≡ log_at self.now }
    {
        Log {
            end: self.end,
            room: self.room,
            count: self.count,
        }
    }
}
