//! The results of operations.

ghost use Rattle.std.specs.Prelude.{◌≡◌, ◌%◌, ◌^◌};
ghost use Rattle.bpf_insn.specs.Arithmetic.{result_of, uncut_result, size_modulus, swapped_part, sign_extension};

use crate::insn::{Op, Size, Width};
use byteorder::{BigEndian, ByteOrder, LittleEndian};

/// One more than the greatest number of 32 bits.
pub(crate) const ABOVE_32: u64 = 0x1_0000_0000;

/// The low part of a number.
fn low_part(size: Size, a: u64) -> u64
    ensures { result ≡ a % size_modulus size }
{
    match size {
        Size::Byte => a % 0x100,
        Size::Half => a % 0x1_0000,
        Size::Word => a % ABOVE_32,
        Size::Double => a,
    }
}

/// The low part of a number with its bytes reversed.
fn swap_part(size: Size, a: u64) -> u64
    ensures { result ≡ swapped_part size a }
{
    let part = low_part(size, a);
    let mut bytes = [0u8; 8];
    LittleEndian::write_u64(&mut bytes, part);
    match size {
        Size::Byte => bytes[0] as u64,
        Size::Half => BigEndian::read_u16(&bytes) as u64,
        Size::Word => BigEndian::read_u32(&bytes) as u64,
        Size::Double => BigEndian::read_u64(&bytes),
    }
}

/// The low part of a number, sign-extended to 64 bits (RFC 9669, section 2.3).
pub fn sign_extended(size: Size, b: u64) -> u64
    ensures { result ≡ sign_extension size b }
{
    let part = low_part(size, b);
    match size {
        Size::Byte => ((part as u8).cast_signed() as i64).cast_unsigned(),
        Size::Half => ((part as u16).cast_signed() as i64).cast_unsigned(),
        Size::Word => ((part as u32).cast_signed() as i64).cast_unsigned(),
        Size::Double => part,
    }
}

fn signed_quotient64(a: u64, b: u64) -> u64
    ensures { result ≡ uncut_result Op.SDiv Width.W64 a b % 2 ^ 64 }
{
    if b == 0 {
        return 0;
    }
    a.cast_signed()
        .wrapping_div(b.cast_signed())
        .cast_unsigned()
}

fn signed_remainder64(a: u64, b: u64) -> u64
    ensures { result ≡ uncut_result Op.SMod Width.W64 a b % 2 ^ 64 }
{
    if b == 0 {
        return a;
    }
    a.cast_signed()
        .wrapping_rem(b.cast_signed())
        .cast_unsigned()
}

fn apply64(op: Op, a: u64, b: u64) -> u64
    ensures { result ≡ uncut_result op Width.W64 a b % 2 ^ 64 }
{
    match op {
        Op::Add => a.wrapping_add(b),
        Op::Sub => a.wrapping_sub(b),
        Op::Mul => a.wrapping_mul(b),
        Op::Div => if b == 0 { 0 } else { a / b },
        Op::SDiv => signed_quotient64(a, b),
        Op::Or => a | b,
        Op::And => a & b,
        Op::Lsh => a << (b % 64),
        Op::Rsh => a >> (b % 64),
        Op::Neg => 0u64.wrapping_sub(a),
        Op::Mod => if b == 0 { a } else { a % b },
        Op::SMod => signed_remainder64(a, b),
        Op::Xor => a ^ b,
        Op::Mov => b,
        Op::MovSx(size) => sign_extended(size, b),
        Op::Arsh => (a.cast_signed() >> (b % 64)).cast_unsigned(),
        Op::Little(_) | Op::Big(_) | Op::Swap(_) => a,
    }
}

fn signed_quotient32(a: u32, b: u32) -> u32
    ensures { result ≡ uncut_result Op.SDiv Width.W32 a b % 2 ^ 32 }
{
    if b == 0 {
        return 0;
    }
    a.cast_signed()
        .wrapping_div(b.cast_signed())
        .cast_unsigned()
}

fn signed_remainder32(a: u32, b: u32) -> u32
    ensures { result ≡ uncut_result Op.SMod Width.W32 a b % 2 ^ 32 }
{
    if b == 0 {
        return a;
    }
    a.cast_signed()
        .wrapping_rem(b.cast_signed())
        .cast_unsigned()
}

fn apply32(op: Op, a: u32, b: u32) -> u32
    ensures { result ≡ uncut_result op Width.W32 a b % 2 ^ 32 }
{
    match op {
        Op::Add => a.wrapping_add(b),
        Op::Sub => a.wrapping_sub(b),
        Op::Mul => a.wrapping_mul(b),
        Op::Div => if b == 0 { 0 } else { a / b },
        Op::SDiv => signed_quotient32(a, b),
        Op::Or => a | b,
        Op::And => a & b,
        Op::Lsh => a << (b % 32),
        Op::Rsh => a >> (b % 32),
        Op::Neg => 0u32.wrapping_sub(a),
        Op::Mod => if b == 0 { a } else { a % b },
        Op::SMod => signed_remainder32(a, b),
        Op::Xor => a ^ b,
        Op::Mov => b,
        Op::MovSx(size) => (sign_extended(size, b as u64) % ABOVE_32) as u32,
        Op::Arsh => (a.cast_signed() >> (b % 32)).cast_unsigned(),
        Op::Little(_) | Op::Big(_) | Op::Swap(_) => a,
    }
}

/// The result of an operation on the destination `a` and the operand `b` (RFC 9669, sections 4.1
/// and 4.2). Operations of 32 bits clear the upper half. An operation without an operand ignores
/// `b`. Allocates no memory.
pub fn apply(op: Op, width: Width, a: u64, b: u64) -> u64
    ensures { result ≡ result_of op width a b }
{
    match op {
        Op::Little(size) => low_part(size, a),
        Op::Big(size) | Op::Swap(size) => swap_part(size, a),
        _ => match width {
            Width::W64 => apply64(op, a, b),
            Width::W32 => apply32(op, (a % ABOVE_32) as u32, (b % ABOVE_32) as u32) as u64,
        },
    }
}
