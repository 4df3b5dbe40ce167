//! Shifts of ranges. The result is more precise if the count is a single number.

ghost use Rattle.std.specs.Prelude.{◌≡◌, ◌<◌, ◌%◌};
ghost use Rattle.bpf_insn.specs.Arithmetic.{uncut_result, modulus, bits_of};
ghost use Rattle.bpf_insn.specs.declared.insn.Op.TheVariants.{Lsh, Rsh};
ghost use Rattle.bpf_range.specs.Sets.{Covers};

use crate::arithmetic::{shl, shr};
use crate::values::Range;
use crate::widths::{all, greatest};
use bpf_insn::Width;

/// The shift count: the low 6 bits of a number, or 5 at 32 bits.
pub fn count_of(width: Width, count: u64) -> u32
    ensures is { result ≡ count % bits_of width }
    ensures fits { result < 64 }
{
    match width {
        Width::W64 => (count % 64) as u32,
        Width::W32 => (count % 32) as u32,
    }
}

/// A range shifted to the left by the numbers of `count`.
pub fn shift_left(width: Width, a: Range, count: Range) -> Range
    requires { a.hi < modulus width }
    ensures { Covers (λ x y. uncut_result Lsh width x y % modulus width) a count result }
{
    let max = greatest(width);
    if count.lo == count.hi {
        shl(max, a, count_of(width, count.lo))
    } else {
        all(max)
    }
}

/// A range shifted to the right, with zeros, by the numbers of `count`.
pub fn shift_right(width: Width, a: Range, count: Range) -> Range
    requires { a.hi < modulus width }
    ensures { Covers (λ x y. uncut_result Rsh width x y % modulus width) a count result }
{
    if count.lo == count.hi {
        shr(a, count_of(width, count.lo))
    } else {
        Range { lo: 0, hi: a.hi }
    }
}
