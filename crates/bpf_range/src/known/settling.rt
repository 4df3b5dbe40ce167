//! Settling: a range and bits narrow each other.

ghost use Rattle.std.specs.Prelude.{◌≡◌, ◌≤◌, ℕ};
ghost use Rattle.bpf_range.specs.Sets.{Contains, In, Within, HasBits, range_of};
ghost use Rattle.bpf_range.specs.Bits.{IsFill};

use super::Known;
use crate::bits::any_bits;
use crate::filling::fill;
use crate::values::{Bits, Range};

/// The numbers of a range that have these bits. All numbers of the range have the high bits that the
/// ends share, so these bits are taken from the lower end.
#[tactic(auto, using(crate::proofs::FillFacts::shared, crate::proofs::FillFacts::shared_apart))]
pub fn share_high_bits(range: Range, bits: Bits) -> Known
    ensures keeps { (x : ℕ) → In range x → HasBits bits x → Contains result x }
    ensures range { range_of result ≡ range }
{
    let low = fill(range.lo ^ range.hi);
    Known {
        range,
        bits: Bits {
            value: (bits.value & low) | (range.lo & !low),
            unknown: bits.unknown & low,
        },
    }
}

/// The numbers of a range that have these bits. The range is narrowed to the least and the greatest
/// number with these bits. If nothing is left, the range is unchanged and the bits are ignored. Then
/// the high bits that the ends share are taken from the lower end.
#[tactic(auto, using(crate::proofs::MatchFacts::match_least, crate::proofs::MatchFacts::match_greatest))]
pub fn settle(range: Range, bits: Bits) -> Known
    ensures keeps { (x : ℕ) → In range x → HasBits bits x → Contains result x }
    ensures within { Within (range_of result) range }
{
    let lo = range.lo.max(bits.value);
    let hi = range.hi.min(bits.value | bits.unknown);
    if lo <= hi {
        share_high_bits(Range { lo, hi }, bits)
    } else {
        share_high_bits(range, any_bits())
    }
}
