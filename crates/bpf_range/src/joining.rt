//! Joins of the facts known on two edges.

ghost use Rattle.std.specs.Prelude.{◌≡◌, ◌≤◌, ℕ};
ghost use Rattle.bpf_range.specs.Sets.{Contains, In, Within, HasBits, range_of};

use crate::known::{Known, settle};
use crate::values::{Bits, Range};

/// The least range that contains both ranges.
pub fn hull(a: Range, b: Range) -> Range
    ensures left { Within a result }
    ensures right { Within b result }
    ensures least { (r : Range) → Within a r → Within b r → Within result r }
{
    Range {
        lo: a.lo.min(b.lo),
        hi: a.hi.max(b.hi),
    }
}

/// The bits that are known in both and equal.
#[tactic(auto, using(crate::proofs::MatchFacts::common_match, crate::proofs::MatchFacts::common_match_right, crate::proofs::MatchFacts::common_apart))]
pub fn common_bits(a: Bits, b: Bits) -> Bits
    ensures left { (x : ℕ) → HasBits a x → HasBits result x }
    ensures right { (x : ℕ) → HasBits b x → HasBits result x }
{
    Bits {
        value: a.value & b.value,
        unknown: a.unknown | b.unknown | (a.value ^ b.value),
    }
}

/// Facts that contain the numbers of both operands, and often more. The range is the least that
/// contains both ranges. A bit is known if both operands know it and agree. Then range and bits are
/// settled.
pub fn join(a: Known, b: Known) -> Known
    ensures left { (x : ℕ) → Contains a x → Contains result x }
    ensures right { (x : ℕ) → Contains b x → Contains result x }
    ensures least { (r : Range) → Within (range_of a) r → Within (range_of b) r → Within (range_of result) r }
{
    settle(hull(a.range(), b.range()), common_bits(a.bits(), b.bits()))
}
