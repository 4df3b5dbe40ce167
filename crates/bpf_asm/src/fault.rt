//! The faults of a text that is not a program.

ghost use Rattle.std.specs.Prelude.{◌≡◌, ◌<◌};
ghost use Rattle.bpf_asm.specs.Fault.{IsLineOf};

use std::alloc::{AllocError, AllocFailed};
use std::error::Error;
use std::fmt;

/// The fault of a line. If a line has several faults, the first applicable variant after `NoMemory` is reported.
#[derive(Clone, Copy, Debug, PartialEq, Eq)]
pub enum FaultKind {
    /// Memory ran out.
    NoMemory,
    /// The line is not a label, and its first word is not a mnemonic.
    Mnemonic,
    /// The number of operands is wrong, or the form of an operand is wrong for the instruction.
    Operand,
    /// A number does not fit its field.
    Number,
    /// The label is not defined, or is already defined above.
    Label,
    /// The jump to a label leads backward or to itself.
    Backward,
    /// The instruction would end past the 4,096th unit.
    TooLong,
}

impl fmt::Display for FaultKind {
    ghost use Rattle.std.specs.Prelude.{Some};
    ghost use Rattle.bpf_asm.specs.Fault.{kind_text};

    ghost output = { λ kind. Some (kind_text kind) };

    fn fmt<W: fmt::Write>(&self, f: &mut fmt::Formatter<W>) -> fmt::Result {
        match self {
            FaultKind::NoMemory => write!(f, "NoMemory"),
            FaultKind::Mnemonic => write!(f, "Mnemonic"),
            FaultKind::Operand => write!(f, "Operand"),
            FaultKind::Number => write!(f, "Number"),
            FaultKind::Label => write!(f, "Label"),
            FaultKind::Backward => write!(f, "Backward"),
            FaultKind::TooLong => write!(f, "TooLong"),
        }
    }
}

/// The first fault of a text. It prints as `line N: KIND`, or as `NoMemory` if memory ran out.
#[derive(Clone, Copy, Debug, PartialEq, Eq)]
pub struct AsmFault {
    /// The line, counted from 1; 0 if memory ran out.
    pub line: usize,
    pub kind: FaultKind,
}

impl AsmFault {
    /// The fault of a line. `NoMemory` gets line 0 instead.
    pub(crate) fn at(line: usize, kind: FaultKind) -> AsmFault
        requires { 0 < line }
        ensures kind { result.kind ≡ kind }
        ensures line { IsLineOf result.kind result.line }
    {
        match kind {
            FaultKind::NoMemory => AsmFault { line: 0, kind },
            _ => AsmFault { line, kind },
        }
    }
}

impl fmt::Display for AsmFault {
    ghost use Rattle.std.specs.Prelude.{Some};
    ghost use Rattle.bpf_asm.specs.Fault.{fault_text};

    ghost output = { λ fault. Some (fault_text fault) };

    fn fmt<W: fmt::Write>(&self, f: &mut fmt::Formatter<W>) -> fmt::Result {
        let line = self.line;
        let kind = self.kind;
        match kind {
            FaultKind::NoMemory => write!(f, "{kind}"),
            _ => write!(f, "line {line}: {kind}"),
        }
    }
}

impl Error for AsmFault {}

impl From<AllocError> for AsmFault {
    ghost use Rattle.bpf_asm.specs.declared.fault.FaultKind.TheVariants.{NoMemory};

    ghost from_gives = { λ _ e. (e.kind ≡ NoMemory) × (e.line ≡ 0) };

    fn from(_e: AllocError) -> AsmFault {
        AsmFault {
            line: 0,
            kind: FaultKind::NoMemory,
        }
    }
}

impl<T: Drop> From<AllocFailed<T>> for AsmFault {
    ghost use Rattle.bpf_asm.specs.declared.fault.FaultKind.TheVariants.{NoMemory};

    ghost from_gives = { λ _ e. (e.kind ≡ NoMemory) × (e.line ≡ 0) };

    fn from(_e: AllocFailed<T>) -> AsmFault {
        AsmFault {
            line: 0,
            kind: FaultKind::NoMemory,
        }
    }
}

impl From<AllocError> for FaultKind {
    ghost use Rattle.bpf_asm.specs.declared.fault.FaultKind.TheVariants.{NoMemory};

    ghost from_gives = { λ _ kind. kind ≡ NoMemory };

    fn from(_e: AllocError) -> FaultKind {
        FaultKind::NoMemory
    }
}
