//! Errors of dumps.
ghost use Rattle.std.specs.Prelude.{◌≡◌};
ghost use Rattle.dbm_dump.specs.declared.fault.DumpFault.TheVariants.{NoMemory};

use crate::key_head::KeyHead;
use std::alloc::AllocError;
use std::error::Error;
use std::fmt;

/// The reason why writing or loading a dump failed. It prints as its name, with the number of the line, which counts from 1.
#[derive(Clone, Copy, Debug)]
pub enum DumpFault {
    /// The format is unknown, or cannot be read.
    BadFormat,
    /// The reader failed.
    Read,
    /// The line with this number is the first invalid one.
    BadDump(u64),
    /// The line with this number has more than 16,384 bytes, or its pair, key or value is over the size limit. Has the head of the pair's
    /// key, if the key is known.
    TooLarge(u64, Option<KeyHead>),
    /// The pair of the line with this number does not fit in the database: too many keys share the hash of its key. Has the head of that
    /// key.
    Crowded(u64, KeyHead),
    /// The dump is truncated.
    CutOff,
    /// Allocation failed.
    NoMemory,
}

impl fmt::Display for DumpFault {
    ghost use Rattle.std.specs.Prelude.{Some};
    ghost use Rattle.dbm_dump.specs.FaultText.{fault_text};

    ghost output = { λ fault. Some (fault_text fault) };

    fn fmt<W: fmt::Write>(&self, f: &mut fmt::Formatter<W>) -> fmt::Result {
        match self {
            DumpFault::BadFormat => write!(f, "BadFormat"),
            DumpFault::Read => write!(f, "Read"),
            DumpFault::BadDump(line) => write!(f, "BadDump({line})"),
            DumpFault::TooLarge(line, _) => write!(f, "TooLarge({line})"),
            DumpFault::Crowded(line, _) => write!(f, "Crowded({line})"),
            DumpFault::CutOff => write!(f, "CutOff"),
            DumpFault::NoMemory => write!(f, "NoMemory"),
        }
    }
}

impl Error for DumpFault {}

impl From<AllocError> for DumpFault {
    ghost from_gives = { λ _ fault. fault ≡ NoMemory };

    fn from(_error: AllocError) -> DumpFault {
        DumpFault::NoMemory
    }
}
