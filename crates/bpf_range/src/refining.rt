//! Narrows the operands of a conditional jump.

ghost use Rattle.std.specs.Prelude.{◌≡◌, ◌<◌, ◌+◌, ◌^◌, ℕ, IfSome, IsSomeAnd};
ghost use Rattle.bpf_insn.specs.Conditions.{holds_of, comparison};
ghost use Rattle.bpf_range.specs.Sets.{In, Within, IsOnly, Contains, HasBits, range_of};
ghost use Rattle.bpf_range.specs.Signs.{reach};

use crate::bits::without_bits;
use crate::comparing::compare;
use crate::known::{Known, settle};
use crate::values::{Bits, Range};
use crate::widths::{greatest, greatest_positive};
use bpf_insn::{Test, Width, holds};

/// The unsigned test with the same result as this test on numbers whose sign bit is 0.
fn unsigned(test: Test) -> Test
    ensures { (w : Width) (x y : ℕ) → x < reach test w → y < reach test w → comparison test w x y ≡ comparison result Width.W64 x y }
{
    match test {
        Test::SGt => Test::Gt,
        Test::SGe => Test::Ge,
        Test::SLt => Test::Lt,
        Test::SLe => Test::Le,
        _ => test,
    }
}

/// The greatest number up to which the test has the same result as an unsigned test of 64 bits.
fn greatest_tested(test: Test, width: Width) -> u64
    ensures { result + 1 ≡ reach test width }
{
    match test {
        Test::SGt | Test::SGe | Test::SLt | Test::SLe => greatest_positive(width),
        _ => greatest(width),
    }
}

/// Narrows two ranges to the numbers for which a test has the result `taken`. Returns `None` only if
/// no numbers have this result. Two single numbers are tested directly. If a number may be above
/// 2^32 - 1 in a 32-bit test, or may have its sign bit set in a signed test, the ranges are unchanged.
pub fn refine_range(
    test: Test,
    width: Width,
    a: Range,
    b: Range,
    taken: bool,
) -> Option<(Range, Range)>
    ensures keeps { (x y : ℕ) → In a x → In b y → holds_of test width x y ≡ taken → IsSomeAnd result (λ p. In p.0 x × In p.1 y) }
    ensures within { IfSome result (λ p. Within p.0 a × Within p.1 b) }
    ensures decided { (x y : ℕ) → IsOnly a x → IsOnly b y → IfSome result (λ _. holds_of test width x y ≡ taken) }
{
    if a.lo == a.hi && b.lo == b.hi {
        if holds(test, width, a.lo, b.lo) == taken {
            return Some((a, b));
        }
        return None;
    }
    let max = greatest_tested(test, width);
    if a.hi > max {
        return Some((a, b));
    }
    if b.hi > max {
        return Some((a, b));
    }
    compare(unsigned(test), a, b, taken)
}

/// The first operand's bits after a test with the result `taken`. The bits change only if a 64-bit
/// `Set` finds no bit in common with a single number: the bits of that number are then 0.
fn tested_bits(test: Test, width: Width, a: Bits, b: Range, taken: bool) -> Bits
    ensures { (x y : ℕ) → x < 2 ^ 64 → HasBits a x → In b y → holds_of test width x y ≡ taken → HasBits result x }
{
    if b.lo != b.hi {
        return a;
    }
    match (test, width, taken) {
        (Test::Set, Width::W64, false) => without_bits(a, b.lo),
        _ => a,
    }
}

/// Narrows a test's operands to the numbers for which the test has the result `taken`. Returns `None`
/// only if no numbers have this result, so this edge of the conditional jump is never taken. The
/// ranges are those of `refine_range`, narrowed by the bits.
pub fn refine(test: Test, width: Width, a: Known, b: Known, taken: bool) -> Option<(Known, Known)>
    ensures keeps { (x y : ℕ) → Contains a x → Contains b y → holds_of test width x y ≡ taken → IsSomeAnd result (λ p. Contains p.0 x × Contains p.1 y) }
    ensures within { IfSome result (λ p. Within (range_of p.0) (range_of a) × Within (range_of p.1) (range_of b)) }
    ensures decided { (x y : ℕ) → IsOnly (range_of a) x → IsOnly (range_of b) y → IfSome result (λ _. holds_of test width x y ≡ taken) }
{
    let (a_range, b_range) = refine_range(test, width, a.range(), b.range(), taken)?;
    let a_bits = tested_bits(test, width, a.bits(), b.range(), taken);
    Some((settle(a_range, a_bits), settle(b_range, b.bits())))
}
