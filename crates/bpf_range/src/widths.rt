//! The numbers of a width and of a size.

ghost use Rattle.std.specs.Prelude.{◌≡◌, ◌<◌, ◌≤◌, ◌+◌, ◌%◌, ◌^◌, ℕ};
ghost use Rattle.bpf_insn.specs.Arithmetic.{modulus, size_modulus};
ghost use Rattle.bpf_range.specs.Sets.{In};
ghost use Rattle.bpf_range.specs.Signs.{half};

use crate::values::Range;
use bpf_insn::{Size, Width};

/// The greatest number of a width.
pub fn greatest(width: Width) -> u64
    ensures { result + 1 ≡ modulus width }
{
    match width {
        Width::W64 => u64::MAX,
        Width::W32 => 0xffff_ffff,
    }
}

/// The greatest number of a width with a sign bit of 0.
pub fn greatest_positive(width: Width) -> u64
    ensures { result + 1 ≡ half width }
{
    match width {
        Width::W64 => 0x7fff_ffff_ffff_ffff,
        Width::W32 => 0x7fff_ffff,
    }
}

/// The greatest number of a size.
pub fn greatest_part(size: Size) -> u64
    ensures { result + 1 ≡ size_modulus size }
{
    match size {
        Size::Byte => 0xff,
        Size::Half => 0xffff,
        Size::Word => 0xffff_ffff,
        Size::Double => u64::MAX,
    }
}

/// The greatest number of a size with a sign bit of 0.
pub fn greatest_positive_part(size: Size) -> u64
    ensures { result + result + 2 ≡ size_modulus size }
{
    match size {
        Size::Byte => 0x7f,
        Size::Half => 0x7fff,
        Size::Word => 0x7fff_ffff,
        Size::Double => 0x7fff_ffff_ffff_ffff,
    }
}

/// All numbers up to `max`.
pub fn all(max: u64) -> Range
    ensures covers { (x : ℕ) → x ≤ max → In result x }
    ensures greatest { result.hi ≡ max }
{
    Range { lo: 0, hi: max }
}

/// The low 32 bits of the numbers of a range. If the ends agree in the upper half, they are
/// truncated; otherwise the result is all 32-bit numbers.
fn low_half(a: Range) -> Range
    ensures fits { result.hi < 2 ^ 32 }
    ensures covers { (x : ℕ) → In a x → In result (x % 2 ^ 32) }
{
    if a.lo / 0x1_0000_0000 != a.hi / 0x1_0000_0000 {
        return all(0xffff_ffff);
    }
    Range {
        lo: a.lo % 0x1_0000_0000,
        hi: a.hi % 0x1_0000_0000,
    }
}

/// The numbers of a range, truncated to the width.
pub fn at_width(width: Width, a: Range) -> Range
    ensures fits { result.hi < modulus width }
    ensures covers { (x : ℕ) → In a x → In result (x % modulus width) }
{
    match width {
        Width::W64 => a,
        Width::W32 => low_half(a),
    }
}
