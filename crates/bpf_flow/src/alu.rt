//! The effect of arithmetic on kinds.

ghost use Rattle.std.specs.Prelude.{◌≡◌, ◌<◌, ◌≤◌, ℕ, IfOk};
ghost use Rattle.bpf_insn.specs.Arithmetic.{result_of};
ghost use Rattle.bpf_helpers.specs.Machine.{outcome_of, on_numbers, on_number, sum_of, difference_of};
ghost use Rattle.bpf_range.specs.Sets.{In, Contains};
ghost use Rattle.bpf_flow.specs.Kinds.{HoldsKind, IsNumber, IsPointer, Between, KindKeeps};
ghost use Rattle.bpf_flow.specs.Steps.{Gives};

use crate::fault::FlowFault;
use crate::numbers::{Place, moved, negated, number_of, place_of, span_of, written};
use bpf_insn::{Op, Width};
use bpf_range::{Kind, Known, Range, transfer};

/// The kind of the result of an operation on two numbers.
fn of_numbers(
    op: Op,
    width: Width,
    a: Kind,
    b: Kind,
    bytes: Range,
    argument: Range,
) -> Result<Kind, FlowFault>
    ensures { IfOk result (λ k. Gives (on_numbers (result_of op width)) a b bytes argument k) }
{
    let Some(x) = number_of(a, bytes, argument) else {
        return Err(FlowFault::PointerOp);
    };
    let Some(y) = number_of(b, bytes, argument) else {
        return Err(FlowFault::PointerOp);
    };
    Ok(Kind::Num(transfer(op, width, x, y)))
}

/// The kind of the result of an operation that reads only its operand.
fn of_source(
    op: Op,
    width: Width,
    b: Kind,
    bytes: Range,
    argument: Range,
) -> Result<Kind, FlowFault>
    ensures { IfOk result (λ k. (m n : ℕ) (y : _) → In bytes m → In argument n → HoldsKind b m n y → KindKeeps k m n (on_number (result_of op width 0) y)) }
{
    let Some(y) = number_of(b, bytes, argument) else {
        return Err(FlowFault::PointerOp);
    };
    Ok(Kind::Num(transfer(op, width, Known::single(0), y)))
}

/// The kind of a pointer plus a number.
fn pointer_plus(place: Place, number: Known) -> Result<Kind, FlowFault>
    ensures plus { IfOk result (λ k. (m n : ℕ) (x y : _) → IsPointer place.region (Between place.lo place.hi) x → IsNumber (Contains number) y → KindKeeps k m n (sum_of x y)) }
    ensures turned { IfOk result (λ k. (m n : ℕ) (x y : _) → IsPointer place.region (Between place.lo place.hi) x → IsNumber (Contains number) y → KindKeeps k m n (sum_of y x)) }
{
    let Some(span) = span_of(number) else {
        return Err(FlowFault::PointerRange);
    };
    moved(place, span)
}

/// The kind of a pointer minus a number.
fn pointer_minus(place: Place, number: Known) -> Result<Kind, FlowFault>
    ensures { IfOk result (λ k. (m n : ℕ) (x y : _) → IsPointer place.region (Between place.lo place.hi) x → IsNumber (Contains number) y → KindKeeps k m n (difference_of x y)) }
{
    let Some(span) = span_of(number) else {
        return Err(FlowFault::PointerRange);
    };
    let Some(back) = negated(span) else {
        return Err(FlowFault::PointerRange);
    };
    moved(place, back)
}

/// The kind of a 64-bit sum. At most one operand may be a pointer.
fn sum(a: Kind, b: Kind, bytes: Range, argument: Range) -> Result<Kind, FlowFault>
    ensures { IfOk result (λ k. Gives sum_of a b bytes argument k) }
{
    if let Some(place) = place_of(a) {
        let Some(y) = number_of(b, bytes, argument) else {
            return Err(FlowFault::PointerOp);
        };
        return pointer_plus(place, y);
    }
    if let Some(place) = place_of(b) {
        let Some(x) = number_of(a, bytes, argument) else {
            return Err(FlowFault::PointerOp);
        };
        return pointer_plus(place, x);
    }
    of_numbers(Op::Add, Width::W64, a, b, bytes, argument)
}

/// The kind of a 64-bit difference. Only the first operand may be a pointer.
fn difference(a: Kind, b: Kind, bytes: Range, argument: Range) -> Result<Kind, FlowFault>
    ensures { IfOk result (λ k. Gives difference_of a b bytes argument k) }
{
    if let Some(place) = place_of(a) {
        let Some(y) = number_of(b, bytes, argument) else {
            return Err(FlowFault::PointerOp);
        };
        return pointer_minus(place, y);
    }
    of_numbers(Op::Sub, Width::W64, a, b, bytes, argument)
}

/// The kind of the result of a 64-bit move. The source must be set.
fn copied(b: Kind) -> Result<Kind, FlowFault>
    ensures { IfOk result (λ k. (m n : ℕ) (v : _) → HoldsKind b m n v → KindKeeps k m n (Rattle.bpf_helpers.specs.Machine.written_value v)) }
{
    match b {
        Kind::Unset => Err(FlowFault::Unset),
        _ => Ok(b),
    }
}

/// Checks that the registers that an operation reads are set.
fn read_all(op: Op, a: Kind, b: Kind) -> Result<(), FlowFault> {
    match op {
        Op::Mov | Op::MovSx(_) => written(b),
        _ => {
            written(a)?;
            written(b)
        }
    }
}

fn outcome(
    op: Op,
    width: Width,
    a: Kind,
    b: Kind,
    bytes: Range,
    argument: Range,
) -> Result<Kind, FlowFault>
    ensures { IfOk result (λ k. Gives (outcome_of op width) a b bytes argument k) }
{
    match (op, width) {
        (Op::Mov, Width::W64) => copied(b),
        (Op::Mov, Width::W32) => of_source(op, width, b, bytes, argument),
        (Op::MovSx(_), _) => of_source(op, width, b, bytes, argument),
        (Op::Add, Width::W64) => sum(a, b, bytes, argument),
        (Op::Sub, Width::W64) => difference(a, b, bytes, argument),
        _ => of_numbers(op, width, a, b, bytes, argument),
    }
}

/// Returns the kind of an operation's result, or the fault of the operation.
pub fn alu_kind(
    op: Op,
    width: Width,
    a: Kind,
    b: Kind,
    bytes: Range,
    argument: Range,
) -> Result<Kind, FlowFault>
    ensures { IfOk result (λ k. Gives (outcome_of op width) a b bytes argument k) }
{
    read_all(op, a, b)?;
    outcome(op, width, a, b, bytes, argument)
}
