//! Sets of 64-bit numbers, given by their ends or by bits.

ghost use Rattle.std.specs.Prelude.{◌≡◌, ◌≤◌, bit_and};

/// The numbers from `lo` to `hi`, both included. `lo` is never above `hi`.
#[derive(Clone, Copy, Debug, PartialEq, Eq)]
pub struct Range {
    pub lo: u64,
    pub hi: u64,
    pub ghost ordered: { lo ≤ hi },
}

/// The numbers that equal `value` after clearing the bits of `unknown`: each bit of a number is
/// known to be 1, known to be 0, or unknown. No bit is in both `value` and `unknown`.
#[derive(Clone, Copy, Debug, PartialEq, Eq)]
pub struct Bits {
    pub value: u64,
    pub unknown: u64,
    pub ghost apart: { bit_and value unknown ≡ 0 },
}
