//! Reads the first instruction of an image.

ghost use Rattle.std.specs.Prelude.{◌≤◌, length};
ghost use Rattle.bpf_insn.specs.Rows.{Finds, OnlyFinds};

use crate::constant::wide_of;
use crate::fields::Fields;
use crate::insn::Insn;
use crate::operands::UnitFault;
use crate::rows::insn_of;

/// The opcode of a constant of 64 bits.
const WIDE: u8 = 0x18;

/// Reads the first instruction of the bytes. There must be at least one unit.
pub fn first_insn(bytes: &[u8]) -> Result<Insn, UnitFault>
    requires { 8 ≤ length bytes.now }
    ensures found { Finds bytes.now result }
    ensures only { (i : Insn) → OnlyFinds bytes.now result i }
{
    let fields = Fields::read(bytes);
    if fields.opcode == WIDE {
        return wide_of(fields, bytes);
    }
    insn_of(fields)
}
