//! Narrows the ranges of a comparison's operands.

ghost use Rattle.std.specs.Prelude.{◌≡◌, ◌≢◌, ◌<◌, ◌≤◌, bit_and, ℕ, IfSome, IsSomeAnd};
ghost use Rattle.bpf_insn.specs.Conditions.{comparison};
ghost use Rattle.bpf_range.specs.Sets.{In, Within};

use crate::values::Range;
use bpf_insn::{Test, Width};

/// Narrows both ranges for the test that the number of `a` is greater than the number of `b`.
fn above(a: Range, b: Range) -> Option<(Range, Range)>
    ensures keeps { (x y : ℕ) → In a x → In b y → y < x → IsSomeAnd result (λ p. In p.0 x × In p.1 y) }
    ensures within { IfSome result (λ p. Within p.0 a × Within p.1 b) }
{
    if a.hi <= b.lo {
        return None;
    }
    Some((
        Range {
            lo: a.lo.max(b.lo + 1),
            hi: a.hi,
        },
        Range {
            lo: b.lo,
            hi: b.hi.min(a.hi - 1),
        },
    ))
}

/// Narrows both ranges for the test that the number of `a` is at least the number of `b`.
fn at_least(a: Range, b: Range) -> Option<(Range, Range)>
    ensures keeps { (x y : ℕ) → In a x → In b y → y ≤ x → IsSomeAnd result (λ p. In p.0 x × In p.1 y) }
    ensures within { IfSome result (λ p. Within p.0 a × Within p.1 b) }
{
    if a.hi < b.lo {
        return None;
    }
    Some((
        Range {
            lo: a.lo.max(b.lo),
            hi: a.hi,
        },
        Range {
            lo: b.lo,
            hi: b.hi.min(a.hi),
        },
    ))
}

/// Narrows both ranges for the test that the numbers are equal: both become the common range.
fn same(a: Range, b: Range) -> Option<(Range, Range)>
    ensures keeps { (x y : ℕ) → In a x → In b y → x ≡ y → IsSomeAnd result (λ p. In p.0 x × In p.1 y) }
    ensures within { IfSome result (λ p. Within p.0 a × Within p.1 b) }
{
    let lo = a.lo.max(b.lo);
    let hi = a.hi.min(b.hi);
    if lo > hi {
        return None;
    }
    let common = Range { lo, hi };
    Some((common, common))
}

/// If `other` is a single number and an end of the range, removes that number from the range. A range
/// of a single number is unchanged.
fn without(a: Range, other: Range) -> Range
    ensures keeps { (x y : ℕ) → In a x → In other y → x ≢ y → In result x }
    ensures within { Within result a }
{
    if other.lo != other.hi {
        return a;
    }
    if a.lo == a.hi {
        return a;
    }
    if a.lo == other.lo {
        return Range {
            lo: a.lo + 1,
            hi: a.hi,
        };
    }
    if a.hi == other.lo {
        return Range {
            lo: a.lo,
            hi: a.hi - 1,
        };
    }
    a
}

/// Narrows both ranges for the test that the numbers differ.
fn different(a: Range, b: Range) -> Option<(Range, Range)>
    ensures keeps { (x y : ℕ) → In a x → In b y → x ≢ y → IsSomeAnd result (λ p. In p.0 x × In p.1 y) }
    ensures within { IfSome result (λ p. Within p.0 a × Within p.1 b) }
{
    Some((without(a, b), without(b, a)))
}

/// Narrows both ranges for the test of a common bit. Returns `None` if either range is only 0,
/// otherwise the ranges unchanged.
fn common(a: Range, b: Range) -> Option<(Range, Range)>
    ensures keeps { (x y : ℕ) → In a x → In b y → bit_and x y ≢ 0 → IsSomeAnd result (λ p. In p.0 x × In p.1 y) }
    ensures within { IfSome result (λ p. Within p.0 a × Within p.1 b) }
{
    if a.hi == 0 {
        return None;
    }
    if b.hi == 0 {
        return None;
    }
    Some((a, b))
}

/// Swaps the two ranges of a result.
fn turned(found: Option<(Range, Range)>) -> Option<(Range, Range)>
    ensures keeps { (x y : ℕ) → IsSomeAnd found (λ p. In p.0 x × In p.1 y) → IsSomeAnd result (λ p. In p.0 y × In p.1 x) }
    ensures within { (s t : Range) → IfSome found (λ p. Within p.0 s × Within p.1 t) → IfSome result (λ p. Within p.0 t × Within p.1 s) }
{
    let (a, b) = found?;
    Some((b, a))
}

/// Narrows the ranges to the numbers for which an unsigned test has the result `taken`. Returns
/// `None` only if no numbers have this result. A signed test narrows nothing.
pub fn compare(test: Test, a: Range, b: Range, taken: bool) -> Option<(Range, Range)>
    ensures keeps { (x y : ℕ) → In a x → In b y → comparison test Width.W64 x y ≡ taken → IsSomeAnd result (λ p. In p.0 x × In p.1 y) }
    ensures within { IfSome result (λ p. Within p.0 a × Within p.1 b) }
{
    match (test, taken) {
        (Test::Eq, true) | (Test::Ne, false) => same(a, b),
        (Test::Ne, true) | (Test::Eq, false) => different(a, b),
        (Test::Gt, true) | (Test::Le, false) => above(a, b),
        (Test::Ge, true) | (Test::Lt, false) => at_least(a, b),
        (Test::Lt, true) | (Test::Ge, false) => turned(above(b, a)),
        (Test::Le, true) | (Test::Gt, false) => turned(at_least(b, a)),
        (Test::Set, true) => common(a, b),
        _ => Some((a, b)),
    }
}
