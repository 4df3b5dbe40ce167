//! Programs as text.
//!
//! `assemble` returns the code that a text denotes, or the first invalid line. `disassemble` prints a code as a text that `assemble` turns
//! back into the code. `specs/` defines the meaning of a line and the code of a text; `docs/ASSEMBLER.md` is the reference of the
//! language.
#![tactic(auto)]

mod assembling;
mod disassembling;
mod fault;
mod labels;
mod line;
mod operands;
mod printing;
mod row;
mod text;
mod words;

pub use assembling::assemble;
pub use disassembling::disassemble;
pub use fault::{AsmFault, FaultKind};
