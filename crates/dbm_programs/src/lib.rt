//! The subcommands that use no database: `asm`, `disasm`, `verify` and `programs`.
#![tactic(auto)]

mod asm;
mod disasm;
mod judging;
mod programs;
mod stock;
mod verify;

pub use asm::{Asm, asm_command};
pub use disasm::{Disasm, disasm_command};
pub use programs::{Programs, programs_command};
pub use verify::{Verify, refusal_of, verify_command};
