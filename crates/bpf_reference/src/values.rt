//! Arithmetic and tests on values.

ghost use Rattle.std.specs.Prelude.{◌≡◌, ◌+ℤ◌, neg_ℤ};
ghost use Rattle.bpf_insn.specs.Arithmetic.{result_of};
ghost use Rattle.bpf_helpers.specs.Machine.{on_number, on_numbers, written_value, moved_pointer, sum_of, difference_of, outcome_of, comparison_of};

use bpf_helpers::{Region, Value};
use bpf_insn::{Op, Test, Width, apply, holds};

fn apply_to_two(op: Op, width: Width, a: Value, b: Value) -> Option<Value>
    ensures { result ≡ on_numbers (result_of op width) a b }
{
    match (a, b) {
        (Value::Number(x), Value::Number(y)) => Some(Value::Number(apply(op, width, x, y))),
        _ => None,
    }
}

/// An operation that reads only its operand.
fn apply_to_one(op: Op, width: Width, b: Value) -> Option<Value>
    ensures { result ≡ on_number (result_of op width 0) b }
{
    match b {
        Value::Number(y) => Some(Value::Number(apply(op, width, 0, y))),
        _ => None,
    }
}

/// The value of a register, if the register is set.
fn written(b: Value) -> Option<Value>
    ensures { result ≡ written_value b }
{
    match b {
        Value::Nothing => None,
        _ => Some(b),
    }
}

/// The greatest absolute value of a pointer's offset.
const OFFSET_LIMIT: i64 = 65536;

/// A pointer moved by a number, if its offset stays within the limits.
fn moved(region: Region, offset: i64, by: i64) -> Option<Value>
    ensures { result ≡ moved_pointer region (offset +ℤ by) }
{
    let offset = offset.checked_add(by)?;
    if -OFFSET_LIMIT <= offset && offset <= OFFSET_LIMIT {
        return Some(Value::Pointer(region, offset));
    }
    None
}

/// A pointer moved back by a number, if its offset stays within the limits.
fn moved_back(region: Region, offset: i64, by: i64) -> Option<Value>
    ensures { result ≡ moved_pointer region (offset +ℤ neg_ℤ by) }
{
    let offset = offset.checked_sub(by)?;
    if -OFFSET_LIMIT <= offset && offset <= OFFSET_LIMIT {
        return Some(Value::Pointer(region, offset));
    }
    None
}

/// A sum of 64 bits, of numbers or of a pointer and a number.
fn sum(a: Value, b: Value) -> Option<Value>
    ensures { result ≡ sum_of a b }
{
    match (a, b) {
        (Value::Number(x), Value::Number(y)) => {
            Some(Value::Number(apply(Op::Add, Width::W64, x, y)))
        }
        (Value::Number(x), Value::Pointer(region, offset)) => {
            moved(region, offset, x.cast_signed())
        }
        (Value::Pointer(region, offset), Value::Number(y)) => {
            moved(region, offset, y.cast_signed())
        }
        _ => None,
    }
}

/// A difference of 64 bits, of numbers or of a pointer and a number.
fn difference(a: Value, b: Value) -> Option<Value>
    ensures { result ≡ difference_of a b }
{
    match (a, b) {
        (Value::Number(x), Value::Number(y)) => {
            Some(Value::Number(apply(Op::Sub, Width::W64, x, y)))
        }
        (Value::Pointer(region, offset), Value::Number(y)) => {
            moved_back(region, offset, y.cast_signed())
        }
        _ => None,
    }
}

/// The result of an operation on the destination and the operand, if the operation accepts these values.
pub fn outcome(op: Op, width: Width, a: Value, b: Value) -> Option<Value>
    ensures { result ≡ outcome_of op width a b }
{
    match (op, width) {
        (Op::Add, Width::W64) => sum(a, b),
        (Op::Sub, Width::W64) => difference(a, b),
        (Op::Mov, Width::W64) => written(b),
        (Op::Mov | Op::MovSx(_), _) => apply_to_one(op, width, b),
        _ => apply_to_two(op, width, a, b),
    }
}

/// The result of a jump's test, if both values are numbers.
pub fn comparison(test: Test, width: Width, a: Value, b: Value) -> Option<bool>
    ensures { result ≡ comparison_of test width a b }
{
    match (a, b) {
        (Value::Number(x), Value::Number(y)) => Some(holds(test, width, x, y)),
        _ => None,
    }
}
