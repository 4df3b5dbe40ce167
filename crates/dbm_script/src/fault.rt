//! Errors of scripts.
ghost use Rattle.std.specs.Prelude.{◌≡◌};
ghost use Rattle.dbm_script.specs.declared.fault.LinesFault.TheVariants.{NoMemory};

use byte_text::CutShort;
use std::alloc::AllocError;
use std::error::Error;
use std::fmt;

/// The reason why a script did not complete. It prints as its name.
#[derive(Clone, Copy, Debug, PartialEq, Eq)]
pub enum ScriptFault {
    /// The reader failed.
    Read,
    /// The script has more than 16,777,216 bytes.
    TooLong,
    /// The writer failed, or accepted no byte. The output is truncated.
    Write,
    /// Allocation failed. Nothing was written.
    NoMemory,
}

impl fmt::Display for ScriptFault {
    ghost use Rattle.std.specs.Prelude.{Some};
    ghost use Rattle.dbm_script.specs.Script.{fault_text};

    ghost output = { λ fault. Some (fault_text fault) };

    fn fmt<W: fmt::Write>(&self, f: &mut fmt::Formatter<W>) -> fmt::Result {
        match self {
            ScriptFault::Read => write!(f, "Read"),
            ScriptFault::TooLong => write!(f, "TooLong"),
            ScriptFault::Write => write!(f, "Write"),
            ScriptFault::NoMemory => write!(f, "NoMemory"),
        }
    }
}

impl Error for ScriptFault {}

impl From<CutShort> for ScriptFault {
    ghost use Rattle.dbm_script.specs.declared.fault.ScriptFault.TheVariants.{Write};

    ghost from_gives = { λ _ fault. fault ≡ Write };

    fn from(_error: CutShort) -> ScriptFault {
        ScriptFault::Write
    }
}

/// The reason why running the lines of a script failed.
#[derive(Clone, Copy, Debug, PartialEq, Eq)]
pub enum LinesFault {
    /// The answers are longer than the limit.
    OutputTooLong,
    /// Allocation failed.
    NoMemory,
}

impl From<AllocError> for LinesFault {
    ghost from_gives = { λ _ fault. fault ≡ NoMemory };

    fn from(_error: AllocError) -> LinesFault {
        LinesFault::NoMemory
    }
}
