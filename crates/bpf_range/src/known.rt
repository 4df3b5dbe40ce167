//! Facts known about a number.

mod settling;

use crate::bits::any_bits;
use crate::values::{Bits, Range};
pub use settling::settle;
use settling::share_high_bits;

/// Facts known about a number: its range, and some of its bits. A `Known` contains the numbers that
/// are in the range and have the bits. The range is never empty, and no bit is both known to be 1
/// and unknown.
///
/// All functions of this crate except `from_parts` return settled values: the range is narrowed by
/// the bits, and then the high bits that the ends share are known.
#[derive(Clone, Copy, Debug, PartialEq, Eq)]
pub struct Known {
    range: Range,
    bits: Bits,
}

impl Known {
    ghost use Rattle.std.specs.Prelude.{◌≡◌, ◌≤◌, ◌⊎◌, ◌<◌, ℕ, bit_and, MatchBool, MatchOption};
    ghost use Rattle.bpf_range.specs.Sets.{Contains, In, IsOnly, HasBits, IsOf, range_of, bits_of};

    /// The numbers from `lo` to `hi`, settled: the high bits that the ends share are known.
    pub fn of(lo: u64, hi: u64) -> Known
        requires { lo ≤ hi }
        ensures contains { (x : ℕ) → lo ≤ x → x ≤ hi → Contains result x }
        ensures range { ((range_of result).lo ≡ lo) × ((range_of result).hi ≡ hi) }
    {
        share_high_bits(Range { lo, hi }, any_bits())
    }

    /// Exactly one number.
    pub fn single(n: u64) -> Known
        ensures contains { Contains result n }
        ensures range { IsOnly (range_of result) n }
    {
        Known {
            range: Range { lo: n, hi: n },
            bits: Bits {
                value: n,
                unknown: 0,
            },
        }
    }

    /// Returns these parts unchanged, not settled, or `None` if and only if `lo` is above `hi` or a
    /// bit is in both `value` and `unknown`.
    pub fn from_parts(lo: u64, hi: u64, value: u64, unknown: u64) -> Option<Known>
        ensures { MatchOption result ((hi < lo) ⊎ (bit_and value unknown ≡ 0 → ⊥)) (λ k. IsOf k lo hi value unknown) }
    {
        if lo > hi {
            return None;
        }
        if value & unknown != 0 {
            return None;
        }
        Some(Known {
            range: Range { lo, hi },
            bits: Bits { value, unknown },
        })
    }

    /// Returns true if the number is contained.
    pub fn contains(self, x: u64) -> bool
        ensures { MatchBool result (Contains self x) (Contains self x → ⊥) }
    {
        if x < self.range.lo {
            return false;
        }
        if x > self.range.hi {
            return false;
        }
        x & !self.bits.unknown == self.bits.value
    }

    /// The least and the greatest number of the range.
    pub fn range(self) -> Range
        ensures is { result ≡ range_of self }
        ensures covers { (x : ℕ) → Contains self x → In result x }
    {
        self.range
    }

    /// The bits: those of `value` are 1, those of `unknown` are unknown, the rest are 0.
    pub fn bits(self) -> Bits
        ensures is { result ≡ bits_of self }
        ensures has { (x : ℕ) → Contains self x → HasBits result x }
    {
        self.bits
    }
}
