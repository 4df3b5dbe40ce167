//! Masks of low bits.

ghost use Rattle.std.specs.Prelude.{◌≡◌, ◌≤◌};
ghost use Rattle.bpf_range.specs.Bits.{IsFill};

/// The least `2^k - 1` that is `x` or more: all bits up to the highest bit of `x` are set.
#[tactic(auto, using(crate::proofs::FillFacts::fill_is))]
pub fn fill(x: u64) -> u64
    ensures { IsFill x result }
{
    if x == 0 {
        0
    } else {
        u64::MAX >> x.leading_zeros()
    }
}
