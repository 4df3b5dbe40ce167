//! Operations on ranges of numbers up to `max`, the greatest number of a width. If the ends give no
//! better bound, the result is the full range.

ghost use Rattle.std.specs.Prelude.{◌≡◌, ◌<◌, ◌≤◌, ◌+◌, ◌-◌, ◌*◌, ◌/◌, ◌%◌, ◌^◌, ℕ, cond, ◌==◌, if◌then◌else◌, bit_and, bit_or, bit_xor};
ghost use Rattle.bpf_range.specs.Sets.{In, Covers};

use crate::filling::fill;
use crate::values::Range;
use crate::widths::all;

/// Sums, wrapped to the width. The ends are added if no sum wraps or every sum wraps.
#[tactic(auto, using(crate::proofs::RangeFacts::wrapped))]
pub fn add(max: u64, a: Range, b: Range) -> Range
    requires a_fits { a.hi ≤ max }
    requires b_fits { b.hi ≤ max }
    ensures { Covers (λ x y. (x + y) % (max + 1)) a b result }
{
    if a.hi <= max - b.hi {
        return Range {
            lo: a.lo + b.lo,
            hi: a.hi + b.hi,
        };
    }
    if a.lo > max - b.lo {
        return Range {
            lo: a.lo - (max - b.lo) - 1,
            hi: a.hi - (max - b.hi) - 1,
        };
    }
    all(max)
}

/// Differences, wrapped to the width. The ends are subtracted if no difference wraps or every difference wraps.
pub fn sub(max: u64, a: Range, b: Range) -> Range
    requires a_fits { a.hi ≤ max }
    requires b_fits { b.hi ≤ max }
    ensures { Covers (λ x y. (x + (max + 1 - y)) % (max + 1)) a b result }
{
    if a.lo >= b.hi {
        return Range {
            lo: a.lo - b.hi,
            hi: a.hi - b.lo,
        };
    }
    if a.hi < b.lo {
        return Range {
            lo: max - (b.hi - a.lo) + 1,
            hi: max - (b.lo - a.hi) + 1,
        };
    }
    all(max)
}

/// Products, wrapped to the width. The ends are multiplied if the greatest product does not wrap.
#[tactic(auto, using(crate::proofs::RangeFacts::mul_between))]
pub fn mul(max: u64, a: Range, b: Range) -> Range
    requires a_fits { a.hi ≤ max }
    requires b_fits { b.hi ≤ max }
    ensures { Covers (λ x y. (x * y) % (max + 1)) a b result }
{
    if b.hi == 0 {
        return b;
    }
    if a.hi > max / b.hi {
        return all(max);
    }
    Range {
        lo: a.lo * b.lo,
        hi: a.hi * b.hi,
    }
}

/// Quotients. A division by zero gives 0.
pub fn div(a: Range, b: Range) -> Range
    ensures { Covers (λ x y. if y == 0 then 0 else x / y) a b result }
{
    if b.lo == 0 {
        return Range { lo: 0, hi: a.hi };
    }
    Range {
        lo: a.lo / b.hi,
        hi: a.hi / b.lo,
    }
}

/// Remainders. The remainder of a division by zero is the number itself.
#[tactic(auto, using(crate::proofs::RangeFacts::rem_below))]
pub fn rem(a: Range, b: Range) -> Range
    ensures { Covers (λ x y. if y == 0 then x else x % y) a b result }
{
    if b.lo == 0 {
        return Range { lo: 0, hi: a.hi };
    }
    if a.hi < b.lo {
        return a;
    }
    Range {
        lo: 0,
        hi: a.hi.min(b.hi - 1),
    }
}

/// Bitwise and: no greater than either number.
#[tactic(auto, using(crate::proofs::RangeFacts::and_greatest))]
pub fn and(a: Range, b: Range) -> Range
    ensures { Covers bit_and a b result }
{
    Range {
        lo: 0,
        hi: a.hi.min(b.hi),
    }
}

/// Bitwise or: at least the greater number, with no bit above its highest bit.
pub fn or(a: Range, b: Range) -> Range
    ensures { Covers bit_or a b result }
{
    Range {
        lo: a.lo.max(b.lo),
        hi: fill(a.hi.max(b.hi)),
    }
}

/// Bitwise xor: no bit above the highest bit of the greater number.
pub fn xor(a: Range, b: Range) -> Range
    ensures { Covers bit_xor a b result }
{
    Range {
        lo: 0,
        hi: fill(a.hi.max(b.hi)),
    }
}

/// Negated numbers, wrapped to the width.
pub fn negate(max: u64, a: Range) -> Range
    requires { a.hi ≤ max }
    ensures { (x : ℕ) → In a x → In result ((max + 1 - x) % (max + 1)) }
{
    if a.lo == 0 {
        return all(max);
    }
    Range {
        lo: max - a.hi + 1,
        hi: max - a.lo + 1,
    }
}

/// Numbers shifted to the left, truncated to the width. The ends are shifted if no bit is lost.
pub fn shl(max: u64, a: Range, count: u32) -> Range
    requires max_fits { a.hi ≤ max }
    requires small { count < 64 }
    ensures { (x : ℕ) → In a x → In result (x * 2 ^ count % (max + 1)) }
{
    if a.hi > max >> count {
        return all(max);
    }
    Range {
        lo: a.lo << count,
        hi: a.hi << count,
    }
}

/// Numbers shifted to the right with zeros.
pub fn shr(a: Range, count: u32) -> Range
    requires { count < 64 }
    ensures { (x : ℕ) → In a x → In result (x / 2 ^ count) }
{
    Range {
        lo: a.lo >> count,
        hi: a.hi >> count,
    }
}
