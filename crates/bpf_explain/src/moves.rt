//! Explains why a pointer move is refused.

use crate::facts::{kind_of, write_fact};
use bpf_insn::{Insn, Op, Operand};
use bpf_range::{Kind, Range};
use bpf_verify::State;
use std::alloc::{AllocError, Allocator};

/// The least 64-bit number whose sign bit is set.
const NEGATIVE: u64 = 0x8000_0000_0000_0000;

/// Prints the reason why a move of a pointer is refused: the sign of the number is not known, or the pointer may be moved too far.
pub fn write_move<A: Allocator>(
    out: &mut String<A>,
    insn: Insn,
    state: &State,
) -> Result<(), AllocError> {
    let Insn::Alu { op, dst, src, .. } = insn else {
        return out.push_str("a pointer is moved too far");
    };
    let (pointer, number) = match src {
        Operand::Reg(register) if is_number(kind_of(state, dst)) => (register, Operand::Reg(dst)),
        _ => (dst, src),
    };
    write_fact(out, pointer, state)?;
    let back = if matches!(op, Op::Sub) { "back " } else { "" };
    write!(out, " is moved {back}by ")?;
    write_operand(out, number, state)?;
    if has_both_signs(number, state) {
        return out.push_str(", which has to be known to be negative, or not to be");
    }
    out.push_str("; a pointer stays within 65536 bytes of where it was at the start")
}

fn is_number(kind: Kind) -> bool {
    matches!(kind, Kind::Num(_) | Kind::RecLen | Kind::ArgLen)
}

fn write_operand<A: Allocator>(
    out: &mut String<A>,
    operand: Operand,
    state: &State,
) -> Result<(), AllocError> {
    match operand {
        Operand::Imm(value) => write!(out, "{value}"),
        Operand::Reg(register) => write_fact(out, register, state),
    }
}

// Returns true if a number may have either sign.
fn has_both_signs(operand: Operand, state: &State) -> bool {
    match operand {
        Operand::Imm(_) => false,
        Operand::Reg(register) => {
            let range = range_of(kind_of(state, register), state);
            range.lo < NEGATIVE && range.hi >= NEGATIVE
        }
    }
}

fn range_of(kind: Kind, state: &State) -> Range {
    match kind {
        Kind::Num(known) => known.range(),
        Kind::ArgLen => state.argument,
        _ => state.bytes,
    }
}
