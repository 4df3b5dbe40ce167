//! The rows of the table for the classes ALU and ALU64 (RFC 9669, sections 4.1 and 4.2).

ghost use Rattle.std.specs.Prelude.{◌≡◌, ◌/◌, ◌%◌, ℕ, IfSome, IsTrue, pos};
ghost use Rattle.bpf_insn.specs.Spelling.{code_of, selector_of, takes_operand, is_binary, has_order, arithmetic_class, size_bits};
ghost use Rattle.bpf_insn.specs.Rows.{Reads, OnlyReads};

use crate::fields::Fields;
use crate::insn::{Insn, Op, Operand, Size, Width};
use crate::operands::{UnitFault, operand_of};

/// Returns the operation with an operand that has this number and selector.
fn op_of(code: u8, selector: i16) -> Option<Op>
    ensures found { IfSome result (λ op. IsTrue (takes_operand op) × (code_of op ≡ code) × (pos (selector_of op) ≡ selector)) }
    ensures only { (op : Op) → IsTrue (takes_operand op) → code_of op ≡ code → pos (selector_of op) ≡ selector → result ≡ Some op }
{
    match (code, selector) {
        (0, 0) => Some(Op::Add),
        (1, 0) => Some(Op::Sub),
        (2, 0) => Some(Op::Mul),
        (3, 0) => Some(Op::Div),
        (3, 1) => Some(Op::SDiv),
        (4, 0) => Some(Op::Or),
        (5, 0) => Some(Op::And),
        (6, 0) => Some(Op::Lsh),
        (7, 0) => Some(Op::Rsh),
        (9, 0) => Some(Op::Mod),
        (9, 1) => Some(Op::SMod),
        (10, 0) => Some(Op::Xor),
        (11, 0) => Some(Op::Mov),
        (11, 8) => Some(Op::MovSx(Size::Byte)),
        (11, 16) => Some(Op::MovSx(Size::Half)),
        (11, 32) => Some(Op::MovSx(Size::Word)),
        (12, 0) => Some(Op::Arsh),
        _ => None,
    }
}

/// Returns true if an operation takes this operand at this width.
fn allows(op: Op, width: Width, src: Operand) -> bool
    ensures { result ≡ is_binary op width src }
{
    match (op, src, width) {
        (Op::Neg | Op::Little(_) | Op::Big(_) | Op::Swap(_), _, _) => false,
        (Op::MovSx(_), Operand::Imm(_), _) => false,
        (Op::MovSx(Size::Double), _, _) => false,
        (Op::MovSx(Size::Word), _, Width::W32) => false,
        _ => true,
    }
}

/// Reads an operation with an operand.
fn binary(fields: Fields, width: Width) -> Result<Insn, UnitFault>
    requires { fields.opcode % 8 ≡ arithmetic_class width }
    ensures found { Reads fields result }
    ensures only { (op : Op) (w : Width) (d : ℕ) (s : Operand) → OnlyReads fields result (Insn.Alu op w d s) }
{
    if fields.dst > 10 {
        return Err(UnitFault::Register);
    }
    if fields.opcode / 8 % 2 == 1 && fields.src > 10 {
        return Err(UnitFault::Register);
    }
    let Some(op) = op_of(fields.opcode / 16, fields.offset) else {
        return Err(UnitFault::Reserved);
    };
    let Some(src) = operand_of(fields) else {
        return Err(UnitFault::Reserved);
    };
    if !allows(op, width, src) {
        return Err(UnitFault::Reserved);
    }
    Ok(Insn::Alu {
        op,
        width,
        dst: fields.dst,
        src,
    })
}

/// The size of a byte swap of this number of bits.
fn swap_size(bits: i32) -> Option<Size>
    ensures found { IfSome result (λ size. IsTrue (has_order size) × (pos (size_bits size) ≡ bits)) }
    ensures only { (size : Size) → IsTrue (has_order size) → pos (size_bits size) ≡ bits → result ≡ Some size }
{
    match bits {
        16 => Some(Size::Half),
        32 => Some(Size::Word),
        64 => Some(Size::Double),
        _ => None,
    }
}

fn byte_swap(fields: Fields, width: Width) -> Result<Insn, UnitFault>
    requires class { fields.opcode % 8 ≡ arithmetic_class width }
    requires code { fields.opcode / 16 ≡ 13 }
    ensures found { Reads fields result }
    ensures only { (op : Op) (w : Width) (d : ℕ) → OnlyReads fields result (Insn.Unary op w d) }
{
    let to_big = fields.opcode / 8 % 2 == 1;
    if to_big && width == Width::W64 {
        return Err(UnitFault::Opcode);
    }
    if fields.dst > 10 {
        return Err(UnitFault::Register);
    }
    if fields.src != 0 {
        return Err(UnitFault::Reserved);
    }
    if fields.offset != 0 {
        return Err(UnitFault::Reserved);
    }
    let Some(size) = swap_size(fields.imm) else {
        return Err(UnitFault::Reserved);
    };
    let op = match width {
        Width::W64 => Op::Swap(size),
        Width::W32 => if to_big {
            Op::Big(size)
        } else {
            Op::Little(size)
        },
    };
    Ok(Insn::Unary {
        op,
        width,
        dst: fields.dst,
    })
}

fn negation(fields: Fields, width: Width) -> Result<Insn, UnitFault>
    requires class { fields.opcode % 8 ≡ arithmetic_class width }
    requires code { fields.opcode / 16 ≡ 8 }
    ensures found { Reads fields result }
    ensures only { (op : Op) (w : Width) (d : ℕ) → OnlyReads fields result (Insn.Unary op w d) }
{
    if fields.opcode / 8 % 2 == 1 {
        return Err(UnitFault::Opcode);
    }
    if fields.dst > 10 {
        return Err(UnitFault::Register);
    }
    if fields.src != 0 {
        return Err(UnitFault::Reserved);
    }
    if fields.offset != 0 {
        return Err(UnitFault::Reserved);
    }
    if fields.imm != 0 {
        return Err(UnitFault::Reserved);
    }
    Ok(Insn::Unary {
        op: Op::Neg,
        width,
        dst: fields.dst,
    })
}

/// Reads a unit of the class ALU or ALU64.
pub fn arithmetic(fields: Fields, width: Width) -> Result<Insn, UnitFault>
    requires { fields.opcode % 8 ≡ arithmetic_class width }
    ensures found { Reads fields result }
    ensures binary { (op : Op) (w : Width) (d : ℕ) (s : Operand) → OnlyReads fields result (Insn.Alu op w d s) }
    ensures unary { (op : Op) (w : Width) (d : ℕ) → OnlyReads fields result (Insn.Unary op w d) }
{
    match fields.opcode / 16 {
        8 => negation(fields, width),
        13 => byte_swap(fields, width),
        0..=12 => binary(fields, width),
        _ => Err(UnitFault::Opcode),
    }
}
