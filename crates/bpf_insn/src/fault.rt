//! The faults of bytes that are not the image of a code.

ghost use Rattle.std.specs.Prelude.{◌≡◌};
ghost use Rattle.bpf_insn.specs.declared.fault.DecodeFault.TheVariants.{NoMemory};

use crate::operands::UnitFault;
use std::alloc::AllocError;
use std::error::Error;
use std::fmt;

/// The fault of an image. The number is the first unit of the invalid instruction, counted from 0.
#[derive(Clone, Copy, Debug, PartialEq, Eq)]
pub enum DecodeFault {
    /// Memory ran out.
    NoMemory,
    /// The number of bytes is not a multiple of 8.
    Length,
    /// There are more than 4,096 units.
    TooLong,
    /// The opcode is not in the table, or the source of a constant of 64 bits or of a call is not 0.
    Opcode(usize),
    /// A constant of 64 bits begins in the last unit.
    HalfWide(usize),
    /// A register number is above 10.
    Register(usize),
    /// An unused field of the instruction is not zero, or a selector or a width is not in the table.
    Reserved(usize),
}

impl fmt::Display for DecodeFault {
    ghost use Rattle.std.specs.Prelude.{Some};
    ghost use Rattle.bpf_insn.specs.Decoding.{fault_text};

    ghost output = { λ e. Some (fault_text e) };

    fn fmt<W: fmt::Write>(&self, f: &mut fmt::Formatter<W>) -> fmt::Result {
        match self {
            DecodeFault::NoMemory => write!(f, "NoMemory"),
            DecodeFault::Length => write!(f, "Length"),
            DecodeFault::TooLong => write!(f, "TooLong"),
            DecodeFault::Opcode(at) => write!(f, "Opcode({at})"),
            DecodeFault::HalfWide(at) => write!(f, "HalfWide({at})"),
            DecodeFault::Register(at) => write!(f, "Register({at})"),
            DecodeFault::Reserved(at) => write!(f, "Reserved({at})"),
        }
    }
}

impl Error for DecodeFault {}

impl From<AllocError> for DecodeFault {
    ghost from_gives = { λ _ e. e ≡ NoMemory };

    fn from(_e: AllocError) -> DecodeFault {
        DecodeFault::NoMemory
    }
}

impl UnitFault {
    ghost use Rattle.bpf_insn.specs.Decoding.{placed_fault};

    /// This fault, at the unit `at`.
    pub fn at(self, at: usize) -> DecodeFault
        ensures { result ≡ placed_fault self at }
    {
        match self {
            UnitFault::Opcode => DecodeFault::Opcode(at),
            UnitFault::HalfWide => DecodeFault::HalfWide(at),
            UnitFault::Register => DecodeFault::Register(at),
            UnitFault::Reserved => DecodeFault::Reserved(at),
        }
    }
}
