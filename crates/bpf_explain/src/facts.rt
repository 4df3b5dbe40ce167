//! Prints the facts known about registers and lengths.

use crate::reading::registers_read;
use bpf_insn::Insn;
use bpf_range::{Bits, Kind, Known, Range};
use bpf_verify::State;
use std::alloc::{AllocError, Allocator};

/// The kind of a register.
pub fn kind_of(state: &State, register: u8) -> Kind {
    match state.kinds.get(register as usize) {
        Some(kind) => *kind,
        None => Kind::Unset,
    }
}

/// Prints a register and the fact known about it, for example `r6 = 0..255`.
pub fn write_fact<A: Allocator>(
    out: &mut String<A>,
    register: u8,
    state: &State,
) -> Result<(), AllocError> {
    write!(out, "r{register} = ")?;
    match kind_of(state, register) {
        Kind::Unset => out.push_str("unset"),
        Kind::Num(known) => write_number(out, known),
        Kind::RecLen => write_length(out, "record", state.bytes),
        Kind::ArgLen => write_length(out, "argument", state.argument),
        Kind::Rec { lo, hi } => write_place(out, "record", lo, hi),
        Kind::Arg { lo, hi } => write_place(out, "argument", lo, hi),
        Kind::Stack { lo, hi } => write_place(out, "stack", lo, hi),
    }
}

/// Prints the facts known about the registers that an instruction reads, separated by `mark`.
pub fn write_facts<A: Allocator>(
    out: &mut String<A>,
    insn: Insn,
    state: &State,
    mark: &str,
) -> Result<(), AllocError> {
    for (index, register) in registers_read(insn).iter().enumerate() {
        if let Some(register) = register {
            if index > 0 {
                out.push_str(mark)?;
            }
            write_fact(out, *register, state)?;
        }
    }
    Ok(())
}

fn write_length<A: Allocator>(
    out: &mut String<A>,
    name: &str,
    range: Range,
) -> Result<(), AllocError> {
    write!(out, "length of the {name} (")?;
    write_range(out, range)?;
    out.push_str(")")
}

/// Prints an offset, or the least and the greatest offset, for example `record+0..7`. Offsets count from the first byte of the region, but
/// from the end of the stack.
pub fn write_place<A: Allocator>(
    out: &mut String<A>,
    name: &str,
    lo: i64,
    hi: i64,
) -> Result<(), AllocError> {
    let sign = if lo < 0 { "" } else { "+" };
    write!(out, "{name}{sign}{lo}")?;
    if lo == hi {
        return Ok(());
    }
    write!(out, "..{hi}")
}

/// Prints the only number of a range, or its least and greatest number.
pub fn write_range<A: Allocator>(out: &mut String<A>, range: Range) -> Result<(), AllocError> {
    let (lo, hi) = (range.lo, range.hi);
    if lo == hi {
        return write!(out, "{lo}");
    }
    write!(out, "{lo}..{hi}")
}

// Prints the facts known about a number: its range, its signed range if it is negative, and the bits that the range does not imply.
fn write_number<A: Allocator>(out: &mut String<A>, known: Known) -> Result<(), AllocError> {
    let range = known.range();
    if range.lo == 0 && range.hi == u64::MAX {
        out.push_str("any number")?;
    } else {
        write_range(out, range)?;
        write_signed(out, range)?;
    }
    write_bits(out, known.bits(), Known::of(range.lo, range.hi).bits())
}

fn write_signed<A: Allocator>(out: &mut String<A>, range: Range) -> Result<(), AllocError> {
    let (lo, hi) = (range.lo.cast_signed(), range.hi.cast_signed());
    if lo >= 0 || hi >= 0 {
        return Ok(());
    }
    if lo == hi {
        return write!(out, " ({lo})");
    }
    write!(out, " ({lo}..{hi})")
}

// Prints the known bits unless they are `plain`, the bits that the range implies.
fn write_bits<A: Allocator>(
    out: &mut String<A>,
    bits: Bits,
    plain: Bits,
) -> Result<(), AllocError> {
    let (value, unknown) = (bits.value, bits.unknown);
    if value == plain.value && unknown == plain.unknown {
        return Ok(());
    }
    if value == 0 {
        return write!(out, ", any of the bits 0x{unknown:x}");
    }
    write!(out, ", the bits 0x{value:x} and any of 0x{unknown:x}")
}
