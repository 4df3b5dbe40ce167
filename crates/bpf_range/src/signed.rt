//! Signed operations on ranges. They equal the unsigned operations if no number has its sign bit
//! set; otherwise nothing is known about the result.

ghost use Rattle.std.specs.Prelude.{◌≡◌, ◌<◌, ◌≤◌, ◌+◌, ◌*◌, ◌/◌, ◌%◌, ◌^◌, ℕ};
ghost use Rattle.bpf_insn.specs.Arithmetic.{uncut_result, modulus, sign_extension, bits_of, size_modulus};
ghost use Rattle.bpf_insn.specs.declared.insn.Op.TheVariants.{SDiv, SMod, Arsh, MovSx};
ghost use Rattle.bpf_range.specs.Sets.{In, Covers};

use crate::arithmetic::{div, rem};
use crate::shifts::shift_right;
use crate::values::Range;
use crate::widths::{all, greatest, greatest_positive, greatest_positive_part};
use bpf_insn::{Size, Width};

/// Signed quotients. They equal the unsigned quotients if no sign bit may be set.
pub fn signed_div(width: Width, a: Range, b: Range) -> Range
    ensures { Covers (λ x y. uncut_result SDiv width x y % modulus width) a b result }
{
    if a.hi > greatest_positive(width) {
        return all(greatest(width));
    }
    if b.hi > greatest_positive(width) {
        return all(greatest(width));
    }
    div(a, b)
}

/// Signed remainders. They equal the unsigned remainders if no sign bit may be set.
pub fn signed_rem(width: Width, a: Range, b: Range) -> Range
    ensures { Covers (λ x y. uncut_result SMod width x y % modulus width) a b result }
{
    if a.hi > greatest_positive(width) {
        return all(greatest(width));
    }
    if b.hi > greatest_positive(width) {
        return all(greatest(width));
    }
    rem(a, b)
}

/// Arithmetic shifts to the right. They equal shifts with zeros if no sign bit may be set.
pub fn signed_shift(width: Width, a: Range, count: Range) -> Range
    requires { a.hi < modulus width }
    ensures { Covers (λ x y. uncut_result Arsh width x y % modulus width) a count result }
{
    if a.hi > greatest_positive(width) {
        return all(greatest(width));
    }
    shift_right(width, a, count)
}

/// The sign-extended low parts of numbers, truncated to the width: the numbers themselves if each
/// fits a part of this size with a sign bit of 0.
pub fn extended(width: Width, size: Size, b: Range) -> Range
    requires { b.hi < modulus width }
    ensures { (y : ℕ) → In b y → In result (sign_extension size y % modulus width) }
{
    if b.hi > greatest_positive_part(size) {
        return all(greatest(width));
    }
    b
}
