//! The registers that an instruction reads, and its jump target.

use bpf_helpers::{Helper, helper_of};
use bpf_insn::{Insn, Op, Operand};

// The register of an operand, unless the operand is an immediate.
fn register_of(operand: Operand) -> Option<u8> {
    match operand {
        Operand::Reg(register) => Some(register),
        Operand::Imm(_) => None,
    }
}

// Two registers, or only the first if they are equal.
fn both(first: u8, second: Option<u8>) -> [Option<u8>; 3] {
    match second {
        Some(register) if register != first => [Some(first), second, None],
        _ => [Some(first), None, None],
    }
}

/// The registers that an instruction reads, each once, in the order in which the verifier checks them.
pub fn registers_read(insn: Insn) -> [Option<u8>; 3] {
    match insn {
        Insn::Alu {
            op: Op::Mov | Op::MovSx(_),
            src,
            ..
        } => [register_of(src), None, None],
        Insn::Alu { dst, src, .. } | Insn::Branch { dst, src, .. } => both(dst, register_of(src)),
        Insn::Unary { dst, .. } => [Some(dst), None, None],
        Insn::Load { base, .. } | Insn::LoadSigned { base, .. } | Insn::StoreImm { base, .. } => {
            [Some(base), None, None]
        }
        Insn::Store { base, src, .. } => both(base, Some(src)),
        Insn::Call { helper } => arguments_of(helper),
        Insn::Exit => [Some(0), None, None],
        Insn::Jump { .. } | Insn::JumpFar { .. } | Insn::Wide { .. } => [None, None, None],
    }
}

// The registers in which a helper takes its arguments.
fn arguments_of(helper: i32) -> [Option<u8>; 3] {
    match helper_of(helper) {
        Some(Helper::Reply) => [Some(1), None, None],
        Some(Helper::Copy) => [Some(1), Some(2), Some(3)],
        _ => [None, None, None],
    }
}

/// Returns the jump distance of an instruction, in units from the next unit, if the instruction jumps.
pub fn distance_of(insn: Insn) -> Option<i64> {
    match insn {
        Insn::Branch { offset, .. } => Some(offset as i64),
        Insn::Jump { offset } => Some(offset as i64),
        Insn::JumpFar { offset } => Some(offset as i64),
        _ => None,
    }
}

/// Returns the target unit of an instruction, if the instruction jumps. The target may be negative or past the end.
pub fn target_of(at: usize, insn: Insn) -> Option<i64> {
    let distance = distance_of(insn)?;
    let own = i64::try_from(at).ok()?;
    Some(own.saturating_add(1).saturating_add(distance))
}
