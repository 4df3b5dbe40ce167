//! The statuses of calls.
ghost use Rattle.std.specs.Prelude.{◌≡◌};
ghost use Rattle.boddurci_handles.specs.Statuses.{status_code, status_of_reply, status_of_size};

use std::alloc::Global;
use store_cmd::{Reply, SizeFault};

/// The status of a call: success, a fact about the database, or the reason why nothing was done.
#[derive(Clone, Copy, Debug, PartialEq, Eq)]
pub enum Status {
    /// Success: found, stored, deleted, counted, run, numbered, opened, written, requested or computed.
    Done,
    /// The key does not exist, or no pair is left.
    Missing,
    /// The key exists, so nothing was inserted.
    Exists,
    /// There is no room for the pair, however often its page is split.
    Crowded,
    /// A buffer is too short. The required length was set.
    ShortRoom,
    /// The image is not an accepted program, or the maximum number of programs is reached.
    Refused,
    /// The text is not a program.
    BadText,
    /// The bytes of the files are not a database, or lack something that the call needs.
    BadFiles,
    /// The page of the key has changed since the run was requested.
    Changed,
    /// The pages that were read for a plan are not enough or do not match their numbers, or a log is damaged.
    Stale,
    /// The handle is closed.
    Closed,
    /// The handle is already open.
    Open,
    /// The key with the value, or with the blank, is longer than a pair may be.
    PairTooLarge,
    /// The argument of a run is longer than the limit.
    ArgTooLong,
    /// No program has this number.
    NoProgram,
    /// Out of memory.
    NoMemory,
    /// `.pag` would be longer than its limit, or another length is above its limit.
    TooLong,
    /// The ticket has no job, or its job is not computed.
    NoTicket,
    /// No stock program has this name.
    NoStock,
}

impl Status {
    /// The number of the status in C.
    pub fn code(self) -> u32
        ensures { result ≡ status_code self }
    {
        match self {
            Status::Done => 0,
            Status::Missing => 1,
            Status::Exists => 2,
            Status::Crowded => 3,
            Status::ShortRoom => 4,
            Status::Refused => 5,
            Status::BadText => 6,
            Status::BadFiles => 7,
            Status::Changed => 8,
            Status::Stale => 9,
            Status::Closed => 16,
            Status::Open => 17,
            Status::PairTooLarge => 18,
            Status::ArgTooLong => 19,
            Status::NoProgram => 20,
            Status::NoMemory => 21,
            Status::TooLong => 22,
            Status::NoTicket => 23,
            Status::NoStock => 24,
        }
    }

    /// The status of a reply.
    pub fn of_reply(reply: &Reply<Global>) -> Status
        ensures { result ≡ status_of_reply reply.now }
    {
        match reply {
            Reply::Found(_) => Status::Done,
            Reply::Missing => Status::Missing,
            Reply::Stored => Status::Done,
            Reply::Exists => Status::Exists,
            Reply::Crowded => Status::Crowded,
            Reply::Deleted => Status::Done,
            Reply::Ran { .. } => Status::Done,
            Reply::Count(_) => Status::Done,
        }
    }

    /// The status for an invalid size.
    pub fn of_size(fault: SizeFault) -> Status
        ensures { result ≡ status_of_size fault }
    {
        match fault {
            SizeFault::PairTooLarge => Status::PairTooLarge,
            SizeFault::ArgTooLong => Status::ArgTooLong,
        }
    }
}
