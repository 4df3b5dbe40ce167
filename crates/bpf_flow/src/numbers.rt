//! Kinds as numbers, and as pointers.

ghost use Rattle.std.specs.Prelude.{◌≡◌, ◌<◌, ◌≤◌, ◌+ℤ◌, neg_ℤ, ◌≤ℤ◌, ℕ, IfSome, IfOk};
ghost use Rattle.std.specs.Int.{w64, cast_signed};
ghost use Rattle.bpf_helpers.specs.Machine.{moved_pointer};
ghost use Rattle.bpf_range.specs.Sets.{In, Contains};
ghost use Rattle.bpf_flow.specs.Kinds.{HoldsKind, IsNumber, IsPointer, Between, KindKeeps};

use crate::fault::FlowFault;
use bpf_helpers::Region;
use bpf_range::{Kind, Known, Range};

/// Returns the numbers of a kind if the lengths are in these ranges, or `None` if the kind is `Unset` or a pointer.
pub fn number_of(kind: Kind, bytes: Range, argument: Range) -> Option<Known>
    ensures { IfSome result (λ k. (m n : ℕ) (v : _) → In bytes m → In argument n → HoldsKind kind m n v → IsNumber (Contains k) v) }
{
    match kind {
        Kind::Num(known) => Some(known),
        Kind::RecLen => Some(Known::of(bytes.lo, bytes.hi)),
        Kind::ArgLen => Some(Known::of(argument.lo, argument.hi)),
        Kind::Unset | Kind::Rec { .. } | Kind::Arg { .. } | Kind::Stack { .. } => None,
    }
}

/// Pointers: their region, and their least and greatest offset.
#[derive(Clone, Copy)]
pub struct Place {
    pub region: Region,
    pub lo: i64,
    pub hi: i64,
}

/// Returns the pointers of a kind, or `None` if the kind is not a pointer.
pub fn place_of(kind: Kind) -> Option<Place>
    ensures { IfSome result (λ p. (m n : ℕ) (v : _) → HoldsKind kind m n v → IsPointer p.region (Between p.lo p.hi) v) }
{
    match kind {
        Kind::Rec { lo, hi } => Some(Place {
            region: Region::Record,
            lo,
            hi,
        }),
        Kind::Arg { lo, hi } => Some(Place {
            region: Region::Argument,
            lo,
            hi,
        }),
        Kind::Stack { lo, hi } => Some(Place {
            region: Region::Stack,
            lo,
            hi,
        }),
        Kind::Unset | Kind::Num(_) | Kind::RecLen | Kind::ArgLen => None,
    }
}

/// The kind of these pointers.
pub fn pointers(region: Region, lo: i64, hi: i64) -> Kind
    ensures { (m n : ℕ) (v : _) → IsPointer region (Between lo hi) v → HoldsKind result m n v }
{
    match region {
        Region::Record => Kind::Rec { lo, hi },
        Region::Argument => Kind::Arg { lo, hi },
        Region::Stack => Kind::Stack { lo, hi },
    }
}

/// Returns an error if a register that is read may be unset.
pub fn written(kind: Kind) -> Result<(), FlowFault> {
    match kind {
        Kind::Unset => Err(FlowFault::Unset),
        _ => Ok(()),
    }
}

/// The signed numbers from `lo` to `hi`.
#[derive(Clone, Copy)]
pub struct Span {
    pub lo: i64,
    pub hi: i64,
}

/// Returns the range of the numbers as signed numbers, or `None` if they lie on both sides of 2^63.
pub fn span_of(a: Known) -> Option<Span>
    ensures { IfSome result (λ s. (x : ℕ) → Contains a x → Between s.lo s.hi (cast_signed w64 x)) }
{
    let range = a.range();
    if range.hi < 0x8000_0000_0000_0000 {
        return Some(Span {
            lo: range.lo.cast_signed(),
            hi: range.hi.cast_signed(),
        });
    }
    if range.lo >= 0x8000_0000_0000_0000 {
        return Some(Span {
            lo: range.lo.cast_signed(),
            hi: range.hi.cast_signed(),
        });
    }
    None
}

/// Returns the span of the negated numbers, or `None` on overflow.
pub fn negated(span: Span) -> Option<Span>
    ensures { IfSome result (λ s. (z : _) → Between span.lo span.hi z → Between s.lo s.hi (neg_ℤ z)) }
{
    let lo = span.hi.checked_neg()?;
    let hi = span.lo.checked_neg()?;
    Some(Span { lo, hi })
}

/// The kind of pointers moved by a number of the span. Returns `PointerRange` if an offset may be outside -65,536 to 65,536.
pub fn moved(place: Place, by: Span) -> Result<Kind, FlowFault>
    ensures { IfOk result (λ k. (m n : ℕ) (o d : _) → Between place.lo place.hi o → Between by.lo by.hi d → KindKeeps k m n (moved_pointer place.region (o +ℤ d))) }
{
    let Some(lo) = place.lo.checked_add(by.lo) else {
        return Err(FlowFault::PointerRange);
    };
    let Some(hi) = place.hi.checked_add(by.hi) else {
        return Err(FlowFault::PointerRange);
    };
    if lo < -65536 {
        return Err(FlowFault::PointerRange);
    }
    if hi > 65536 {
        return Err(FlowFault::PointerRange);
    }
    Ok(pointers(place.region, lo, hi))
}
