//! The texts of operands and instructions.

ghost use Rattle.std.specs.Prelude.{◌≡◌, ◌++◌, OnOk, IsTrue, string_bytes, codes};
ghost use Rattle.bpf_insn.specs.Spelling.{is_access};
ghost use Rattle.bpf_asm.specs.Printed.{row_for, line_text, operands_text, operation_row, pair_text, register_text, address_text};

use crate::row::Row;
use bpf_insn::{Insn, Op, Operand, Width};
use std::alloc::{AllocError, Allocator};
use std::fmt;

/// A register or a number.
#[derive(Clone, Copy)]
struct OperandText(Operand);

impl fmt::Display for OperandText {
    ghost use Rattle.std.specs.Prelude.{Some};
    ghost use Rattle.bpf_asm.specs.Printed.{operand_text};

    ghost output = { λ x. Some (operand_text x.0) };

    fn fmt<W: fmt::Write>(&self, f: &mut fmt::Formatter<W>) -> fmt::Result {
        match self.0 {
            Operand::Imm(value) => write!(f, "{value}"),
            Operand::Reg(register) => write!(f, "r{register}"),
        }
    }
}

/// A number with its sign.
#[derive(Clone, Copy)]
struct Distance(i32);

impl fmt::Display for Distance {
    ghost use Rattle.std.specs.Prelude.{Some};
    ghost use Rattle.bpf_asm.specs.Printed.{distance_text};

    ghost output = { λ x. Some (distance_text x.0) };

    fn fmt<W: fmt::Write>(&self, f: &mut fmt::Formatter<W>) -> fmt::Result {
        let distance = self.0;
        if distance >= 0 {
            write!(f, "+{distance}")
        } else {
            write!(f, "{distance}")
        }
    }
}

/// A base register and an offset.
#[derive(Clone, Copy)]
struct Address {
    base: u8,
    offset: i16,
}

impl fmt::Display for Address {
    ghost use Rattle.std.specs.Prelude.{Some};
    ghost use Rattle.bpf_asm.specs.Printed.{address_text};

    ghost output = { λ x. Some (address_text x.base x.offset) };

    fn fmt<W: fmt::Write>(&self, f: &mut fmt::Formatter<W>) -> fmt::Result {
        let base = self.base;
        let offset = Distance(self.offset as i32);
        write!(f, "[r{base}{offset}]")
    }
}

fn operation_row(op: Op, width: Width) -> Row
    ensures { result ≡ operation_row op width }
{
    match op {
        Op::MovSx(size) => Row::SignMove(size, width),
        _ => Row::Arith(op, width),
    }
}

/// The row with the mnemonic of an instruction.
fn row_for(insn: Insn) -> Row
    ensures { result ≡ row_for insn }
{
    match insn {
        Insn::Alu { op, width, .. } => operation_row(op, width),
        Insn::Unary { op, width, .. } => Row::Unary(op, width),
        Insn::Branch { test, width, .. } => Row::Branch(test, width),
        Insn::Jump { .. } => Row::Jump,
        Insn::JumpFar { .. } => Row::JumpFar,
        Insn::Call { .. } => Row::Call,
        Insn::Exit => Row::Exit,
        Insn::Load { size, .. } => Row::Load(size),
        Insn::LoadSigned { size, .. } => Row::LoadSigned(size),
        Insn::StoreImm { size, .. } => Row::StoreImm(size),
        Insn::Store { size, .. } => Row::Store(size),
        Insn::Wide { .. } => Row::Wide,
    }
}

/// Prints the operands after the mnemonic.
fn write_operands<A: Allocator>(out: &mut String<A>, insn: Insn) -> Result<(), AllocError>
    ensures { OnOk result (string_bytes out.new ≡ string_bytes out.old ++ operands_text insn) }
{
    match insn {
        Insn::Alu { dst, src, .. } => {
            let src = OperandText(src);
            write!(out, " r{dst}, {src}")
        }
        Insn::Unary { dst, .. } => write!(out, " r{dst}"),
        Insn::Branch {
            dst,
            src,
            offset,
            ..
        } => {
            let src = OperandText(src);
            let target = Distance(offset as i32);
            write!(out, " r{dst}, {src}, {target}")
        }
        Insn::Jump { offset } => {
            let target = Distance(offset as i32);
            write!(out, " {target}")
        }
        Insn::JumpFar { offset } => {
            let target = Distance(offset);
            write!(out, " {target}")
        }
        Insn::Call { helper } => write!(out, " {helper}"),
        Insn::Exit => Ok(()),
        Insn::Wide { dst, value } => write_wide(out, dst, value),
        _ => write_access(out, insn),
    }
}

/// Prints the operands of an `lddw`, which loads a 64-bit constant.
#[tactic(auto, using(crate::proofs::Digits::padded16))]
fn write_wide<A: Allocator>(out: &mut String<A>, dst: u8, value: u64) -> Result<(), AllocError>
    ensures { OnOk result (string_bytes out.new ≡ string_bytes out.old ++ operands_text (Insn.Wide dst value)) }
{
    write!(out, " r{dst}, 0x{value:016x}")
}

fn write_load<A: Allocator>(
    out: &mut String<A>,
    dst: u8,
    base: u8,
    offset: i16,
) -> Result<(), AllocError>
    ensures { OnOk result (string_bytes out.new ≡ string_bytes out.old ++ (codes " " ++ pair_text (register_text dst) (address_text base offset))) }
{
    let address = Address { base, offset };
    write!(out, " r{dst}, {address}")
}

fn write_access<A: Allocator>(out: &mut String<A>, insn: Insn) -> Result<(), AllocError>
    requires { IsTrue (is_access insn) }
    ensures { OnOk result (string_bytes out.new ≡ string_bytes out.old ++ operands_text insn) }
{
    match insn {
        Insn::Load {
            dst,
            base,
            offset,
            ..
        } => write_load(out, dst, base, offset),
        Insn::LoadSigned {
            dst,
            base,
            offset,
            ..
        } => write_load(out, dst, base, offset),
        Insn::StoreImm {
            base,
            offset,
            value,
            ..
        } => {
            let address = Address { base, offset };
            write!(out, " {address}, {value}")
        }
        Insn::Store {
            base,
            offset,
            src,
            ..
        } => {
            let address = Address { base, offset };
            write!(out, " {address}, r{src}")
        }
        _ => unreachable!(),
    }
}

/// Appends the line of an instruction. If allocation fails, a part of the line may have been appended.
pub fn write_line<A: Allocator>(out: &mut String<A>, insn: Insn) -> Result<(), AllocError>
    ensures { OnOk result (string_bytes out.new ≡ string_bytes out.old ++ line_text insn) }
{
    out.push_str(row_for(insn).name())?;
    write_operands(out, insn)?;
    out.push_str("\n")
}
