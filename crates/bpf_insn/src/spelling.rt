//! The spelling of an instruction: its bytes in an image.

ghost use Rattle.std.specs.Prelude.{◌≡◌, ◌≤◌, ◌<◌, ◌^◌, ◌+◌, ◌*◌, ◌++◌, OnOk, IsTrue, pos};
ghost use Rattle.std.specs.Int.{cast_signed, w32};
ghost use Rattle.bpf_insn.specs.Spelling.{code_of, selector_of, order_bit, swap_bits, test_code, size_code, size_bits, arithmetic_class, jump_class, source_bit, source_of, immediate_of, IsOperand, HasSpelling, is_access, row_of, high_half, spelling_of};

use crate::fields::Fields;
use crate::insn::{Insn, Op, Operand, Size, Test, Width};
use std::alloc::{AllocError, Allocator};

fn op_number(op: Op) -> u8
    ensures value { result ≡ code_of op }
    ensures below { result < 14 }
{
    match op {
        Op::Add => 0,
        Op::Sub => 1,
        Op::Mul => 2,
        Op::Div | Op::SDiv => 3,
        Op::Or => 4,
        Op::And => 5,
        Op::Lsh => 6,
        Op::Rsh => 7,
        Op::Neg => 8,
        Op::Mod | Op::SMod => 9,
        Op::Xor => 10,
        Op::Mov | Op::MovSx(_) => 11,
        Op::Arsh => 12,
        Op::Little(_) | Op::Big(_) | Op::Swap(_) => 13,
    }
}

fn bits(size: Size) -> u8
    ensures value { result ≡ size_bits size }
    ensures below { result ≤ 64 }
{
    match size {
        Size::Byte => 8,
        Size::Half => 16,
        Size::Word => 32,
        Size::Double => 64,
    }
}

/// The offset that chooses among operations with the same number.
fn selector(op: Op) -> u8
    ensures { result ≡ selector_of op }
{
    match op {
        Op::SDiv | Op::SMod => 1,
        Op::MovSx(size) => bits(size),
        _ => 0,
    }
}

/// The immediate of an operation without an operand.
fn swapped_bits(op: Op) -> u8
    ensures { result ≡ swap_bits op }
{
    match op {
        Op::Little(size) | Op::Big(size) | Op::Swap(size) => bits(size),
        _ => 0,
    }
}

/// The source bit of an operation without an operand.
fn order(op: Op) -> u8
    ensures value { result ≡ order_bit op }
    ensures below { result ≤ 8 }
{
    match op {
        Op::Big(_) => 8,
        _ => 0,
    }
}

fn test_number(test: Test) -> u8
    ensures value { result ≡ test_code test }
    ensures below { result < 14 }
{
    match test {
        Test::Eq => 1,
        Test::Gt => 2,
        Test::Ge => 3,
        Test::Set => 4,
        Test::Ne => 5,
        Test::SGt => 6,
        Test::SGe => 7,
        Test::Lt => 10,
        Test::Le => 11,
        Test::SLt => 12,
        Test::SLe => 13,
    }
}

fn size_number(size: Size) -> u8
    ensures value { result ≡ size_code size }
    ensures below { result < 4 }
{
    match size {
        Size::Word => 0,
        Size::Half => 1,
        Size::Byte => 2,
        Size::Double => 3,
    }
}

fn arithmetic_number(width: Width) -> u8
    ensures value { result ≡ arithmetic_class width }
    ensures below { result < 8 }
{
    match width {
        Width::W32 => 4,
        Width::W64 => 7,
    }
}

fn jump_number(width: Width) -> u8
    ensures value { result ≡ jump_class width }
    ensures below { result < 8 }
{
    match width {
        Width::W32 => 6,
        Width::W64 => 5,
    }
}

/// The fields of an instruction with an operand. `opcode` has all bits except the source bit.
fn with_operand(opcode: u8, dst: u8, src: Operand, offset: i16) -> Fields
    requires { opcode ≤ 240 }
    ensures { result ≡ record { opcode = opcode + source_bit src; dst = dst; src = source_of src; offset = offset; imm = immediate_of src } }
{
    match src {
        Operand::Imm(imm) => Fields {
            opcode,
            dst,
            src: 0,
            offset,
            imm,
        },
        Operand::Reg(register) => Fields {
            opcode: opcode + 8,
            dst,
            src: register,
            offset,
            imm: 0,
        },
    }
}

/// The fields of a unit that names at most a destination and an immediate.
fn plain(opcode: u8, dst: u8, imm: i32) -> Fields
    ensures { result ≡ record { opcode = opcode; dst = dst; src = 0; offset = pos 0; imm = imm } }
{
    Fields {
        opcode,
        dst,
        src: 0,
        offset: 0,
        imm,
    }
}

/// A half of a constant, as an immediate.
fn half(number: u64) -> i32
    requires { number < 2 ^ 32 }
    ensures { result ≡ cast_signed w32 number }
{
    (number as u32).cast_signed()
}

/// The fields of a unit that names registers and an offset.
fn with_offset(opcode: u8, dst: u8, src: u8, offset: i16) -> Fields
    ensures { result ≡ record { opcode = opcode; dst = dst; src = src; offset = offset; imm = pos 0 } }
{
    Fields {
        opcode,
        dst,
        src,
        offset,
        imm: 0,
    }
}

fn access_row(insn: Insn) -> Fields
    requires { IsTrue (is_access insn) }
    ensures { result ≡ row_of insn }
{
    match insn {
        Insn::Load {
            size,
            dst,
            base,
            offset,
        } => with_offset(0x61 + size_number(size) * 8, dst, base, offset),
        Insn::LoadSigned {
            size,
            dst,
            base,
            offset,
        } => with_offset(0x81 + size_number(size) * 8, dst, base, offset),
        Insn::StoreImm {
            size,
            base,
            offset,
            value,
        } => Fields {
            imm: value,
            ..with_offset(0x62 + size_number(size) * 8, base, 0, offset)
        },
        Insn::Store {
            size,
            base,
            offset,
            src,
        } => with_offset(0x63 + size_number(size) * 8, base, src, offset),
        _ => unreachable!(),
    }
}

/// The row of an instruction: the fields of its first unit.
pub fn row(insn: Insn) -> Fields
    requires { HasSpelling insn }
    ensures { result ≡ row_of insn }
{
    match insn {
        Insn::Alu {
            op,
            width,
            dst,
            src,
        } => {
            let opcode = op_number(op) * 16 + arithmetic_number(width);
            with_operand(opcode, dst, src, selector(op) as i16)
        }
        Insn::Unary { op, width, dst } => {
            let opcode = op_number(op) * 16 + order(op) + arithmetic_number(width);
            plain(opcode, dst, swapped_bits(op) as i32)
        }
        Insn::Branch {
            test,
            width,
            dst,
            src,
            offset,
        } => with_operand(
            test_number(test) * 16 + jump_number(width),
            dst,
            src,
            offset,
        ),
        Insn::Jump { offset } => with_offset(0x05, 0, 0, offset),
        Insn::JumpFar { offset } => plain(0x06, 0, offset),
        Insn::Call { helper } => plain(0x85, 0, helper),
        Insn::Exit => plain(0x95, 0, 0),
        Insn::Wide { dst, value } => plain(0x18, dst, half(value % 0x1_0000_0000)),
        _ => access_row(insn),
    }
}

/// Appends the spelling of an instruction. If allocation fails, a part of the spelling may have been appended.
pub fn put_insn<A: Allocator>(out: &mut Vec<u8, A>, insn: Insn) -> Result<(), AllocError>
    requires { HasSpelling insn }
    ensures { OnOk result (out.new.items ≡ out.old.items ++ spelling_of insn) }
{
    out.extend_from_slice(&row(insn).bytes())?;
    if let Insn::Wide { value, .. } = insn {
        out.extend_from_slice(&plain(0, 0, half(value / 0x1_0000_0000)).bytes())?;
    }
    Ok(())
}
