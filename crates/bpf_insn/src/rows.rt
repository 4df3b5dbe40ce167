//! The rows of the table of instructions.

ghost use Rattle.std.specs.Prelude.{◌≢◌, ◌/◌, ◌%◌};
ghost use Rattle.bpf_insn.specs.Rows.{Reads, OnlyReads};

use crate::arithmetic_rows::arithmetic;
use crate::fields::Fields;
use crate::insn::{Insn, Width};
use crate::jump_rows::any_jump;
use crate::memory_rows::memory;
use crate::operands::UnitFault;

/// Reads an instruction of one unit.
pub fn insn_of(fields: Fields) -> Result<Insn, UnitFault>
    requires { fields.opcode ≢ 0x18 }
    ensures found { Reads fields result }
    ensures only { (i : Insn) → OnlyReads fields result i }
{
    match fields.opcode % 8 {
        1..=3 => memory(fields),
        4 => arithmetic(fields, Width::W32),
        5 => any_jump(fields, Width::W64),
        6 => any_jump(fields, Width::W32),
        7 => arithmetic(fields, Width::W64),
        _ => Err(UnitFault::Opcode),
    }
}
