//! Prints why an access is refused: the bytes that it needs, and the bytes that exist.

use crate::facts::{kind_of, write_fact, write_place};
use bpf_helpers::memory::count_of;
use bpf_insn::{Insn, Size};
use bpf_range::Kind;
use bpf_verify::State;
use std::alloc::{AllocError, Allocator};

/// The offsets of the stack's bytes, counted from its end.
const STACK: (i64, i64) = (-512, -1);

/// An access of `count` bytes at a register plus `offset`.
#[derive(Clone, Copy)]
struct Access {
    base: u8,
    offset: i64,
    count: i64,
}

/// The bytes that an access may touch, from the least offset of its first byte to the greatest offset of its end. `there` is the least
/// possible length of the region; the stack does not use it.
#[derive(Clone, Copy)]
struct Extent {
    region: &'static str,
    first: i64,
    end: i64,
    there: u64,
}

// The greatest number that a register may hold.
fn most(state: &State, register: u8) -> i64 {
    let greatest = match kind_of(state, register) {
        Kind::Num(known) => known.range().hi,
        Kind::RecLen => state.bytes.hi,
        Kind::ArgLen => state.argument.hi,
        _ => 0,
    };
    i64::try_from(greatest).unwrap_or(i64::MAX)
}

// The access of a load or a store.
fn access_at(size: Size, base: u8, offset: i16) -> [Option<Access>; 2] {
    let access = Access {
        base,
        offset: offset as i64,
        count: count_of(size) as i64,
    };
    [Some(access), None]
}

// An access of `count` bytes at the address in a register.
fn access_by(base: u8, count: i64) -> Option<Access> {
    Some(Access {
        base,
        offset: 0,
        count,
    })
}

// The accesses of an instruction, in the order in which the verifier checks them.
fn accesses(insn: Insn, state: &State) -> [Option<Access>; 2] {
    match insn {
        Insn::Load {
            size,
            base,
            offset,
            ..
        } => access_at(size, base, offset),
        Insn::LoadSigned {
            size,
            base,
            offset,
            ..
        } => access_at(size, base, offset),
        Insn::StoreImm {
            size,
            base,
            offset,
            ..
        } => access_at(size, base, offset),
        Insn::Store {
            size,
            base,
            offset,
            ..
        } => access_at(size, base, offset),
        Insn::Call { .. } => {
            let count = most(state, 3);
            [access_by(1, count), access_by(2, count)]
        }
        _ => [None, None],
    }
}

// Returns the bytes that an access may touch, or `None` if its register is not a pointer.
fn extent_of(access: Access, state: &State) -> Option<Extent> {
    let (region, lo, hi, there) = match kind_of(state, access.base) {
        Kind::Rec { lo, hi } => ("record", lo, hi, state.bytes.lo),
        Kind::Arg { lo, hi } => ("argument", lo, hi, state.argument.lo),
        Kind::Stack { lo, hi } => ("stack", lo, hi, 0),
        _ => return None,
    };
    let first = lo.saturating_add(access.offset);
    let end = hi
        .saturating_add(access.offset)
        .saturating_add(access.count);
    Some(Extent {
        region,
        first,
        end,
        there,
    })
}

// Returns true if an extent lies in its region for every possible length of the region.
fn lies_inside(extent: Extent) -> bool {
    if extent.region == "stack" {
        return extent.first >= STACK.0 && extent.end <= 0;
    }
    let there = i64::try_from(extent.there).unwrap_or(i64::MAX);
    extent.first >= 0 && extent.end <= there
}

/// Prints the first access that may lie outside its region, with the needed and the existing bytes, for example
/// `r1+0..7 needs 8 bytes; the record has at least 0`.
pub fn write_need<A: Allocator>(
    out: &mut String<A>,
    insn: Insn,
    state: &State,
) -> Result<(), AllocError> {
    for access in accesses(insn, state) {
        let Some(access) = access else {
            continue;
        };
        let Some(extent) = extent_of(access, state) else {
            continue;
        };
        if !lies_inside(extent) {
            write_access(out, access, state)?;
            return write_outside(out, extent);
        }
    }
    out.push_str("an access lies outside")
}

// Prints the bytes of an access relative to its register, and the place of the register unless its offset is 0.
fn write_access<A: Allocator>(
    out: &mut String<A>,
    access: Access,
    state: &State,
) -> Result<(), AllocError> {
    let base = access.base;
    write!(out, "r{base}")?;
    if access.count > 0 {
        let last = access.offset.saturating_add(access.count).saturating_sub(1);
        write_place(out, "", access.offset, last)?;
    }
    match kind_of(state, base) {
        Kind::Rec { lo: 0, hi: 0 } | Kind::Arg { lo: 0, hi: 0 } | Kind::Stack { lo: 0, hi: 0 } => {
            Ok(())
        }
        _ => {
            out.push_str(", where ")?;
            write_fact(out, base, state)?;
            out.push_str(",")
        }
    }
}

fn write_outside<A: Allocator>(out: &mut String<A>, extent: Extent) -> Result<(), AllocError> {
    let Extent {
        region,
        first,
        end,
        there,
    } = extent;
    if region == "stack" {
        out.push_str(" is ")?;
        write_place(out, "stack", first, end.saturating_sub(1))?;
        return out.push_str("; the stack is stack-512..-1");
    }
    if first < 0 {
        return write!(
            out,
            " may begin at {region}{first}; the {region} begins at {region}+0"
        );
    }
    let bytes = if end == 1 { "byte" } else { "bytes" };
    write!(
        out,
        " needs {end} {bytes}; the {region} has at least {there}"
    )
}
