//! The faults of a unit, and its operand.
ghost use Rattle.std.specs.Prelude.{◌≡◌, ◌*◌, ◌/◌, ◌%◌, IfSome};
ghost use Rattle.bpf_insn.specs.Spelling.{source_bit, source_of, immediate_of, IsOperand};

use crate::fields::Fields;
use crate::insn::Operand;

/// The fault of a unit. If a unit has several faults, the first variant that applies is reported.
#[derive(Clone, Copy, Debug, PartialEq, Eq)]
pub enum UnitFault {
    /// The opcode is not in the table, or the source of a constant or of a call is not 0.
    Opcode,
    /// A constant of 64 bits begins in the last unit.
    HalfWide,
    /// A register number is above 10.
    Register,
    /// An unused field is not zero, or a selector or a width is not in the table.
    Reserved,
}

/// Returns the operand of a unit, or `None` if its register is above R10 or an unused field is not zero.
pub fn operand_of(fields: Fields) -> Option<Operand>
    ensures found { IfSome result (λ s. IsOperand s × (source_of s ≡ fields.src) × (immediate_of s ≡ fields.imm) × (source_bit s ≡ fields.opcode / 8 % 2 * 8)) }
    ensures only { (s : Operand) → IsOperand s → source_of s ≡ fields.src → immediate_of s ≡ fields.imm → source_bit s ≡ fields.opcode / 8 % 2 * 8 → result ≡ Some s }
{
    if fields.opcode / 8 % 2 == 1 {
        if fields.src <= 10 && fields.imm == 0 {
            Some(Operand::Reg(fields.src))
        } else {
            None
        }
    } else if fields.src == 0 {
        Some(Operand::Imm(fields.imm))
    } else {
        None
    }
}
