//! Joins of states.

ghost use Rattle.std.specs.Prelude.{ℕ};
ghost use Rattle.bpf_range.specs.Sets.{In};
ghost use Rattle.bpf_flow.specs.Kinds.{Between, HoldsKind};
ghost use Rattle.bpf_flow.specs.States.{Fits};

use crate::numbers::{Span, number_of};
use crate::state::State;
use bpf_range::{Kind, Range, hull, join};

/// The join of two kinds as numbers. If either kind is not a number, the result is `Unset`.
fn join_numbers(
    a: Kind,
    a_bytes: Range,
    a_argument: Range,
    b: Kind,
    b_bytes: Range,
    b_argument: Range,
) -> Kind
    ensures left { (m n : ℕ) (v : _) → In a_bytes m → In a_argument n → HoldsKind a m n v → HoldsKind result m n v }
    ensures right { (m n : ℕ) (v : _) → In b_bytes m → In b_argument n → HoldsKind b m n v → HoldsKind result m n v }
{
    match (
        number_of(a, a_bytes, a_argument),
        number_of(b, b_bytes, b_argument),
    ) {
        (Some(x), Some(y)) => Kind::Num(join(x, y)),
        _ => Kind::Unset,
    }
}

// The least span that contains both spans.
fn hull_of_spans(a: Span, b: Span) -> Span
    ensures left { (z : _) → Between a.lo a.hi z → Between result.lo result.hi z }
    ensures right { (z : _) → Between b.lo b.hi z → Between result.lo result.hi z }
{
    Span {
        lo: a.lo.min(b.lo),
        hi: a.hi.max(b.hi),
    }
}

/// The join of two kinds. If the kinds differ, a length counts as a number in its range.
fn join_kinds(
    a: Kind,
    a_bytes: Range,
    a_argument: Range,
    b: Kind,
    b_bytes: Range,
    b_argument: Range,
) -> Kind
    ensures left { (m n : ℕ) (v : _) → In a_bytes m → In a_argument n → HoldsKind a m n v → HoldsKind result m n v }
    ensures right { (m n : ℕ) (v : _) → In b_bytes m → In b_argument n → HoldsKind b m n v → HoldsKind result m n v }
{
    match (a, b) {
        (Kind::RecLen, Kind::RecLen) => Kind::RecLen,
        (Kind::ArgLen, Kind::ArgLen) => Kind::ArgLen,
        (Kind::Rec { lo: a_lo, hi: a_hi }, Kind::Rec { lo: b_lo, hi: b_hi }) => {
            let both = hull_of_spans(Span { lo: a_lo, hi: a_hi }, Span { lo: b_lo, hi: b_hi });
            Kind::Rec {
                lo: both.lo,
                hi: both.hi,
            }
        }
        (Kind::Arg { lo: a_lo, hi: a_hi }, Kind::Arg { lo: b_lo, hi: b_hi }) => {
            let both = hull_of_spans(Span { lo: a_lo, hi: a_hi }, Span { lo: b_lo, hi: b_hi });
            Kind::Arg {
                lo: both.lo,
                hi: both.hi,
            }
        }
        (Kind::Stack { lo: a_lo, hi: a_hi }, Kind::Stack { lo: b_lo, hi: b_hi }) => {
            let both = hull_of_spans(Span { lo: a_lo, hi: a_hi }, Span { lo: b_lo, hi: b_hi });
            Kind::Stack {
                lo: both.lo,
                hi: both.hi,
            }
        }
        _ => join_numbers(a, a_bytes, a_argument, b, b_bytes, b_argument),
    }
}

/// Joins `b` into `a`: configurations that fit either state fit the new `a`.
pub fn join_states(a: &mut State, b: &State)
    ensures left { (c : _) → Fits a.old c → Fits a.new c }
    ensures right { (c : _) → Fits b.now c → Fits a.new c }
{
    for r in 0..11u8 {
        let kind = join_kinds(
            a.kind(r),
            a.bytes,
            a.argument,
            b.kind(r),
            b.bytes,
            b.argument,
        );
        a.kinds[r as usize] = kind;
    }
    a.bytes = hull(a.bytes, b.bytes);
    a.argument = hull(a.argument, b.argument);
}
