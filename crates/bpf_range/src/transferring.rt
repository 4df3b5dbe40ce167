//! Facts known about the result of an operation.

ghost use Rattle.std.specs.Prelude.{◌≡◌, ◌<◌, ◌≤◌, ◌%◌, ◌^◌, ◌+◌, ℕ, true};
ghost use Rattle.bpf_insn.specs.Arithmetic.{result_of, uncut_result, modulus, bits_of, size_modulus, swapped_part};
ghost use Rattle.bpf_range.specs.Sets.{In, IsOnly, Covers, Contains, HasBits, range_of};

use crate::arithmetic::{add, and, div, mul, negate, or, rem, sub, xor};
use crate::bits::{and_bits, any_bits, low_bits, or_bits, shl_bits, shr_bits, xor_bits};
use crate::known::{Known, settle};
use crate::shifts::{count_of, shift_left, shift_right};
use crate::signed::{extended, signed_div, signed_rem, signed_shift};
use crate::values::{Bits, Range};
use crate::widths::{all, at_width, greatest, greatest_part};
use bpf_insn::{Op, Size, Width, apply};

/// Returns true only if each operand that the operation reads is a single number.
fn is_exact(op: Op, a: Range, b: Range) -> bool
    ensures exact { result ≡ true → (w : Width) (x y : ℕ) → In a x → In b y → result_of op w x y ≡ result_of op w a.lo b.lo }
    ensures both { a.lo ≡ a.hi → b.lo ≡ b.hi → result ≡ true }
{
    match op {
        Op::Mov | Op::MovSx(_) => b.lo == b.hi,
        Op::Neg | Op::Little(_) | Op::Big(_) | Op::Swap(_) => a.lo == a.hi,
        _ => {
            if a.lo != a.hi {
                return false;
            }
            b.lo == b.hi
        }
    }
}

/// The results of an operation on operands that were truncated to the width. For `Little`, `Big` and
/// `Swap`, the full range.
fn transfer_cut(op: Op, width: Width, a: Range, b: Range) -> Range
    requires a_fits { a.hi < modulus width }
    requires b_fits { b.hi < modulus width }
    ensures { Covers (λ x y. uncut_result op width x y % modulus width) a b result }
{
    let max = greatest(width);
    match op {
        Op::Add => add(max, a, b),
        Op::Sub => sub(max, a, b),
        Op::Mul => mul(max, a, b),
        Op::Div => div(a, b),
        Op::Mod => rem(a, b),
        Op::SDiv => signed_div(width, a, b),
        Op::SMod => signed_rem(width, a, b),
        Op::Or => or(a, b),
        Op::And => and(a, b),
        Op::Xor => xor(a, b),
        Op::Lsh => shift_left(width, a, b),
        Op::Rsh => shift_right(width, a, b),
        Op::Arsh => signed_shift(width, a, b),
        Op::Neg => negate(max, a),
        Op::Mov => b,
        Op::MovSx(size) => extended(width, size, b),
        Op::Little(_) | Op::Big(_) | Op::Swap(_) => all(max),
    }
}

/// The low parts of numbers: the numbers themselves if they fit.
fn low_part(size: Size, a: Range) -> Range
    ensures { (x : ℕ) → In a x → In result (x % size_modulus size) }
{
    let max = greatest_part(size);
    if a.hi <= max { a } else { all(max) }
}

/// All numbers of a size. A byte swap may give any of them.
fn swapped(size: Size) -> Range
    ensures { (x : ℕ) → In result (swapped_part size x) }
{
    all(greatest_part(size))
}

/// The range of the results of an operation on the destination `a` and the operand `b` (RFC 9669,
/// section 4.1), from the ends alone. `Neg`, `Little`, `Big` and `Swap` read only `a`; `Mov` and
/// `MovSx` read only `b`. If each operand that is read is a single number, the result is a single
/// number. Otherwise the operands are truncated to the width, except for `Little`, `Big` and `Swap`,
/// and the result is computed from their ends. The result is the full range if the ends give no
/// better bound. Allocates no memory.
pub fn transfer_range(op: Op, width: Width, a: Range, b: Range) -> Range
    ensures covers { Covers (result_of op width) a b result }
    ensures single { (x y : ℕ) → IsOnly a x → IsOnly b y → IsOnly result (result_of op width x y) }
{
    if is_exact(op, a, b) {
        let only = apply(op, width, a.lo, b.lo);
        return Range { lo: only, hi: only };
    }
    match op {
        Op::Little(size) => low_part(size, a),
        Op::Big(size) | Op::Swap(size) => swapped(size),
        _ => transfer_cut(op, width, at_width(width, a), at_width(width, b)),
    }
}

/// The bits of the results. `a` and `b` are the operands' bits at the width, and `count` is the
/// second operand's range. `transfer` lists the operations that use known bits.
fn transfer_bits(op: Op, width: Width, a: Bits, b: Bits, count: Range) -> Bits
    ensures { (x y : ℕ) → x < modulus width → y < modulus width → HasBits a x → HasBits b y → In count y → HasBits result (uncut_result op width x y % modulus width) }
{
    match op {
        Op::And => and_bits(a, b),
        Op::Or => or_bits(a, b),
        Op::Xor => xor_bits(a, b),
        Op::Mov => b,
        Op::Lsh => {
            if count.lo != count.hi {
                return any_bits();
            }
            low_bits(width, shl_bits(a, count_of(width, count.lo)))
        }
        Op::Rsh => {
            if count.lo != count.hi {
                return any_bits();
            }
            shr_bits(a, count_of(width, count.lo))
        }
        _ => any_bits(),
    }
}

/// Facts known about the result of an operation on the destination `a` and the operand `b` (RFC
/// 9669, section 4.1). The range is that of `transfer_range`, narrowed by the bits. The operands'
/// known bits are used for `And`, `Or`, `Xor`, `Mov`, and for `Lsh` and `Rsh` by a single count. At
/// 32 bits the upper half is 0. Allocates no memory.
pub fn transfer(op: Op, width: Width, a: Known, b: Known) -> Known
    ensures contains { (x y : ℕ) → Contains a x → Contains b y → Contains result (result_of op width x y) }
    ensures single { (x y : ℕ) → IsOnly (range_of a) x → IsOnly (range_of b) y → IsOnly (range_of result) (result_of op width x y) }
{
    let range = transfer_range(op, width, a.range(), b.range());
    match op {
        Op::Little(_) | Op::Big(_) | Op::Swap(_) => settle(range, any_bits()),
        _ => {
            let low_a = low_bits(width, a.bits());
            let low_b = low_bits(width, b.bits());
            let count = at_width(width, b.range());
            settle(range, transfer_bits(op, width, low_a, low_b, count))
        }
    }
}
