//! Errors of subcommands.
ghost use Rattle.std.specs.Prelude.{◌≡◌, cond};
ghost use Rattle.dbm_script.specs.Notation.{reads_hex};
ghost use Rattle.dbm_reports.specs.declared.fault.ReportFault.TheVariants.{NoMemory};

use bpf_asm::AsmFault;
use bpf_insn::DecodeFault;
use dbm_script::{LinesFault, Notation, WordFault};
use sdbm_files::OpenFault;
use std::alloc::{AllocError, AllocFailed, Global};
use std::error::Error;
use std::fmt;

/// The reason why a subcommand failed before it printed anything. It prints as its name, or as the fault that it contains. A contained
/// fault is never `NoMemory`.
#[derive(Clone, Copy, Debug)]
pub enum ReportFault {
    /// A key, a value or an argument is neither hex nor a dot.
    BadHex,
    /// A key, a value or an argument is not valid text.
    BadText,
    /// The layout of values is invalid.
    BadLayout,
    /// A number is invalid. A blank is a dot or a number below 65,536. A time, a limit or a code is below 2^64, and a number of workers
    /// below 2^32. Numbers have no leading zeros.
    BadNumber,
    /// The files are not a database.
    Open(OpenFault),
    /// The file of a program's text is not UTF-8.
    NotText,
    /// The text is not a program.
    Assemble(AsmFault),
    /// The image is not a program.
    Decode(DecodeFault),
    /// Standard input could not be read.
    Read,
    /// Standard input has more than 16,777,216 bytes.
    TooLong,
    /// The answers to a script are longer than `--max-output` allows.
    OutputTooLong,
    /// Allocation failed.
    NoMemory,
}

impl fmt::Display for ReportFault {
    ghost use Rattle.std.specs.Prelude.{Some};
    ghost use Rattle.dbm_reports.specs.FaultText.{fault_text};

    ghost output = { λ fault. Some (fault_text fault) };

    fn fmt<W: fmt::Write>(&self, f: &mut fmt::Formatter<W>) -> fmt::Result {
        match self {
            ReportFault::BadHex => f.write_str("BadHex"),
            ReportFault::BadText => f.write_str("BadText"),
            ReportFault::BadLayout => f.write_str("BadLayout"),
            ReportFault::BadNumber => f.write_str("BadNumber"),
            ReportFault::Open(fault) => fmt::Display::fmt(fault, f),
            ReportFault::NotText => f.write_str("NotText"),
            ReportFault::Assemble(fault) => fmt::Display::fmt(fault, f),
            ReportFault::Decode(fault) => fmt::Display::fmt(fault, f),
            ReportFault::Read => f.write_str("Read"),
            ReportFault::TooLong => f.write_str("TooLong"),
            ReportFault::OutputTooLong => f.write_str("OutputTooLong"),
            ReportFault::NoMemory => f.write_str("NoMemory"),
        }
    }
}

impl Error for ReportFault {}

impl From<AllocError> for ReportFault {
    ghost from_gives = { λ _ fault. fault ≡ NoMemory };

    fn from(_error: AllocError) -> ReportFault {
        ReportFault::NoMemory
    }
}

impl<T: Drop> From<AllocFailed<T>> for ReportFault {
    ghost from_gives = { λ _ fault. fault ≡ NoMemory };

    fn from(_error: AllocFailed<T>) -> ReportFault {
        ReportFault::NoMemory
    }
}

impl From<OpenFault> for ReportFault {
    ghost use Rattle.dbm_reports.specs.Causes.{open_fault};

    ghost from_gives = { λ reason fault. fault ≡ open_fault reason };

    fn from(fault: OpenFault) -> ReportFault {
        match fault {
            OpenFault::NoMemory => ReportFault::NoMemory,
            fault => ReportFault::Open(fault),
        }
    }
}

impl From<WordFault> for ReportFault {
    ghost use Rattle.dbm_reports.specs.Causes.{word_fault};

    ghost from_gives = { λ reason fault. fault ≡ word_fault reason };

    fn from(fault: WordFault) -> ReportFault {
        match fault {
            WordFault::BadHex => ReportFault::BadHex,
            WordFault::BadText => ReportFault::BadText,
            WordFault::BadNumber => ReportFault::BadNumber,
            WordFault::NoMemory => ReportFault::NoMemory,
        }
    }
}

impl From<LinesFault> for ReportFault {
    ghost use Rattle.dbm_reports.specs.Causes.{lines_fault};

    ghost from_gives = { λ reason fault. fault ≡ lines_fault reason };

    fn from(fault: LinesFault) -> ReportFault {
        match fault {
            LinesFault::OutputTooLong => ReportFault::OutputTooLong,
            LinesFault::NoMemory => ReportFault::NoMemory,
        }
    }
}

/// Returns the fault for invalid bytes in a notation.
pub fn bad_words(notation: &Notation<Global>) -> ReportFault
    ensures { result ≡ cond (reads_hex notation.now) ReportFault.BadHex ReportFault.BadText }
{
    if notation.is_hex() {
        return ReportFault::BadHex;
    }
    ReportFault::BadText
}
