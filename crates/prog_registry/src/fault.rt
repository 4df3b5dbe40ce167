//! The fault of a refused image, and its text.

use bpf_insn::DecodeFault;
use bpf_verify::VerifyFault;
use std::error::Error;
use std::fmt;

/// The reason why an image gets no number. It prints as its name, with the details in brackets.
#[derive(Clone, Copy, Debug, PartialEq, Eq)]
pub enum RegFault {
    /// Out of memory, at any step.
    NoMemory,
    /// The image is not a program.
    Decode(DecodeFault),
    /// The program is not accepted.
    Verify(VerifyFault),
    /// The program is accepted and new, but the registry already has 4,096 programs.
    Full,
}

impl fmt::Display for RegFault {
    ghost use Rattle.std.specs.Prelude.{Some};
    ghost use Rattle.prog_registry.specs.FaultText.{fault_text};

    ghost output = { λ fault. Some (fault_text fault) };

    fn fmt<W: fmt::Write>(&self, f: &mut fmt::Formatter<W>) -> fmt::Result {
        match self {
            RegFault::NoMemory => write!(f, "NoMemory"),
            RegFault::Decode(fault) => write!(f, "Decode({fault})"),
            RegFault::Verify(fault) => write!(f, "Verify({fault})"),
            RegFault::Full => write!(f, "Full"),
        }
    }
}

impl Error for RegFault {}
