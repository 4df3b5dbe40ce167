//! Programs from their texts.
ghost use Rattle.std.specs.Prelude.{◌≡◌, IfOk, IfErr};
ghost use Rattle.boddurci_c.specs.Texts.{IsTextAssembled, IsTextFault, status_of_text, line_of};

use boddurci_handles::Status;
use bpf_asm::{AsmFault, FaultKind, assemble};
use bpf_insn::encode;
use std::alloc::Global;
use std::fmt;

/// The reason why a text has no program image. The fault prints like that of `assemble`, or as `NotText`.
#[derive(Clone, Copy, Debug, PartialEq, Eq)]
pub enum TextFault {
    /// The text is not UTF-8.
    NotText,
    /// The text is not a program, or memory ran out.
    Line(AsmFault),
}

/// Assembles the program in a text, and returns its image.
pub fn image_of(alloc: Global, text: &[u8]) -> Result<Vec<u8>, TextFault>
    ensures ok { IfOk result (λ image. IsTextAssembled text.now image.items) }
    ensures err { IfErr result (IsTextFault text.now) }
{
    let Ok(text) = str::from_utf8(text) else {
        return Err(TextFault::NotText);
    };
    let code = match assemble(alloc, text) {
        Ok(code) => code,
        Err(fault) => return Err(TextFault::Line(fault)),
    };
    match encode(alloc, &code) {
        Ok(image) => Ok(image),
        Err(error) => Err(TextFault::Line(AsmFault::from(error))),
    }
}

impl TextFault {
    /// The status of the fault and its line, counted from 1; the line is 0 if the fault has no line.
    pub fn told(&self) -> (Status, usize)
        ensures status { result.0 ≡ status_of_text self.now }
        ensures line { result.1 ≡ line_of self.now }
    {
        match self {
            TextFault::NotText => (Status::BadText, 0),
            TextFault::Line(fault) => match fault.kind {
                FaultKind::NoMemory => (Status::NoMemory, fault.line),
                _ => (Status::BadText, fault.line),
            },
        }
    }
}

impl fmt::Display for TextFault {
    ghost use Rattle.std.specs.Prelude.{Some};
    ghost use Rattle.boddurci_c.specs.Texts.{text_of_fault};

    ghost output = { λ fault. Some (text_of_fault fault) };

    fn fmt<W: fmt::Write>(&self, f: &mut fmt::Formatter<W>) -> fmt::Result {
        match self {
            TextFault::NotText => write!(f, "NotText"),
            TextFault::Line(fault) => write!(f, "{fault}"),
        }
    }
}
