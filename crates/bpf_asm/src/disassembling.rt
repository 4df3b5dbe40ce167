//! Prints code as text.

ghost use Rattle.std.specs.Prelude.{◌≡◌, IfOk, string_bytes};
ghost use Rattle.bpf_asm.specs.Denotes.{Denotes};
ghost use Rattle.bpf_asm.specs.Printed.{text_of};

use crate::printing::write_line;
use bpf_insn::Code;
use std::alloc::{AllocError, Allocator};

/// Prints a code as text, one instruction per line. `assemble` turns the text back into the code. Numbers are in signed decimal, 64-bit
/// constants in hex, and distances in units with their sign. The only error is a failed allocation.
pub fn disassemble<A: Allocator, B: Allocator>(
    alloc: A,
    code: &Code<B>,
) -> Result<String<A>, AllocError>
    ensures text { IfOk result (λ text. string_bytes text ≡ text_of code.now) }
    ensures denotes { IfOk result (λ text. Denotes (string_bytes text) code.now) }
{
    let mut text = String::new(alloc);
    for unit in 0..code.units() {
        match code.insn_at(unit) {
            Some(insn) => write_line(&mut text, insn)?,
            None => {}
        }
    }
    Ok(text)
}
