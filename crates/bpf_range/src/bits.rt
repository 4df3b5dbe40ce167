//! Operations on known bits. A bit of a result is known if the known bits of the operands decide
//! it.

ghost use Rattle.std.specs.Prelude.{◌≡◌, ◌<◌, ℕ, ◌%◌, ◌*◌, ◌/◌, ◌^◌, bit_and, bit_or, bit_xor};
ghost use Rattle.bpf_insn.specs.Arithmetic.{modulus};
ghost use Rattle.bpf_range.specs.Sets.{HasBits};

use crate::values::Bits;
use bpf_insn::Width;

/// No bit is known.
pub fn any_bits() -> Bits
    ensures { (x : ℕ) → HasBits result x }
{
    Bits {
        value: 0,
        unknown: u64::MAX,
    }
}

/// The bits of numbers after clearing the bits outside a mask.
#[tactic(auto, using(crate::proofs::BitSteps::masked, crate::proofs::BitSteps::masked_apart))]
fn masked(a: Bits, mask: u64) -> Bits
    ensures { (x : ℕ) → HasBits a x → HasBits result (bit_and x mask) }
{
    Bits {
        value: a.value & mask,
        unknown: a.unknown & mask,
    }
}

/// The bits of a number truncated to the width. The bits above the width are 0.
pub fn low_bits(width: Width, a: Bits) -> Bits
    ensures { (x : ℕ) → HasBits a x → HasBits result (x % modulus width) }
{
    match width {
        Width::W64 => masked(a, u64::MAX),
        Width::W32 => masked(a, 0xffff_ffff),
    }
}

/// Bitwise and: 1 if both are 1, 0 if either is 0.
#[tactic(auto, using(crate::proofs::BitSteps::and_matches, crate::proofs::BitSteps::and_apart))]
pub fn and_bits(a: Bits, b: Bits) -> Bits
    ensures { (x y : ℕ) → HasBits a x → HasBits b y → HasBits result (bit_and x y) }
{
    let value = a.value & b.value;
    let may = (a.value | a.unknown) & (b.value | b.unknown);
    Bits {
        value,
        unknown: may & !value,
    }
}

/// Bitwise or: 1 if either is 1, 0 if both are 0.
#[tactic(auto, using(crate::proofs::BitSteps::or_matches, crate::proofs::BitSteps::or_apart))]
pub fn or_bits(a: Bits, b: Bits) -> Bits
    ensures { (x y : ℕ) → HasBits a x → HasBits b y → HasBits result (bit_or x y) }
{
    let value = a.value | b.value;
    let may = (a.value | a.unknown) | (b.value | b.unknown);
    Bits {
        value,
        unknown: may & !value,
    }
}

/// Bitwise xor: a bit is known if it is known in both.
#[tactic(auto, using(crate::proofs::BitSteps::xor_matches))]
pub fn xor_bits(a: Bits, b: Bits) -> Bits
    ensures { (x y : ℕ) → HasBits a x → HasBits b y → HasBits result (bit_xor x y) }
{
    let unknown = a.unknown | b.unknown;
    Bits {
        value: (a.value ^ b.value) & !unknown,
        unknown,
    }
}

/// The bits of numbers shifted to the left, at 64 bits.
#[tactic(auto, using(crate::proofs::BitSteps::shl_matches, crate::proofs::BitSteps::shl_apart))]
pub fn shl_bits(a: Bits, count: u32) -> Bits
    requires { count < 64 }
    ensures { (x : ℕ) → HasBits a x → HasBits result (x * 2 ^ count % 2 ^ 64) }
{
    Bits {
        value: a.value << count,
        unknown: a.unknown << count,
    }
}

/// The bits of numbers shifted to the right with zeros.
#[tactic(auto, using(crate::proofs::BitSteps::shr_matches, crate::proofs::BitSteps::shr_apart))]
pub fn shr_bits(a: Bits, count: u32) -> Bits
    requires { count < 64 }
    ensures { (x : ℕ) → x < 2 ^ 64 → HasBits a x → HasBits result (x / 2 ^ count) }
{
    Bits {
        value: a.value >> count,
        unknown: a.unknown >> count,
    }
}

/// The bits of numbers that have no bit in common with `mask`.
#[tactic(auto, using(crate::proofs::BitSteps::without_matches, crate::proofs::BitSteps::without_apart))]
pub fn without_bits(a: Bits, mask: u64) -> Bits
    ensures { (x : ℕ) → HasBits a x → bit_and x mask ≡ 0 → HasBits result x }
{
    Bits {
        value: a.value,
        unknown: a.unknown & !mask,
    }
}
