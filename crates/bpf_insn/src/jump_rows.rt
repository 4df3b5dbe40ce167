//! The rows of the table for the classes JMP and JMP32 (RFC 9669, section 4.3).

ghost use Rattle.std.specs.Prelude.{◌≡◌, ◌≢◌, ◌/◌, ◌%◌, ℕ, ℤ, IfSome};
ghost use Rattle.bpf_insn.specs.Spelling.{test_code, jump_class};
ghost use Rattle.bpf_insn.specs.Rows.{Reads, OnlyReads};

use crate::fields::Fields;
use crate::insn::{Insn, Operand, Test, Width};
use crate::operands::{UnitFault, operand_of};

/// The test with this number.
fn test_of(code: u8) -> Option<Test>
    ensures found { IfSome result (λ test. test_code test ≡ code) }
    ensures only { (test : Test) → test_code test ≡ code → result ≡ Some test }
{
    match code {
        1 => Some(Test::Eq),
        2 => Some(Test::Gt),
        3 => Some(Test::Ge),
        4 => Some(Test::Set),
        5 => Some(Test::Ne),
        6 => Some(Test::SGt),
        7 => Some(Test::SGe),
        10 => Some(Test::Lt),
        11 => Some(Test::Le),
        12 => Some(Test::SLt),
        13 => Some(Test::SLe),
        _ => None,
    }
}

fn branch(fields: Fields, width: Width) -> Result<Insn, UnitFault>
    requires { fields.opcode % 8 ≡ jump_class width }
    ensures found { Reads fields result }
    ensures only { (t : Test) (w : Width) (d : ℕ) (s : Operand) (off : ℤ) → OnlyReads fields result (Insn.Branch t w d s off) }
{
    let Some(test) = test_of(fields.opcode / 16) else {
        return Err(UnitFault::Opcode);
    };
    if fields.dst > 10 {
        return Err(UnitFault::Register);
    }
    if fields.opcode / 8 % 2 == 1 && fields.src > 10 {
        return Err(UnitFault::Register);
    }
    let Some(src) = operand_of(fields) else {
        return Err(UnitFault::Reserved);
    };
    Ok(Insn::Branch {
        test,
        width,
        dst: fields.dst,
        src,
        offset: fields.offset,
    })
}

/// Reads a jump by the offset.
fn jump(fields: Fields) -> Result<Insn, UnitFault>
    requires { fields.opcode ≡ 0x05 }
    ensures found { Reads fields result }
    ensures only { (off : ℤ) → OnlyReads fields result (Insn.Jump off) }
{
    if fields.dst != 0 {
        return Err(UnitFault::Reserved);
    }
    if fields.src != 0 {
        return Err(UnitFault::Reserved);
    }
    if fields.imm != 0 {
        return Err(UnitFault::Reserved);
    }
    Ok(Insn::Jump {
        offset: fields.offset,
    })
}

/// Reads a jump by the immediate.
fn jump_far(fields: Fields) -> Result<Insn, UnitFault>
    requires { fields.opcode ≡ 0x06 }
    ensures found { Reads fields result }
    ensures only { (off : ℤ) → OnlyReads fields result (Insn.JumpFar off) }
{
    if fields.dst != 0 {
        return Err(UnitFault::Reserved);
    }
    if fields.src != 0 {
        return Err(UnitFault::Reserved);
    }
    if fields.offset != 0 {
        return Err(UnitFault::Reserved);
    }
    Ok(Insn::JumpFar { offset: fields.imm })
}

/// Reads a call of a helper by its number. A source other than 0 means another kind of call.
fn call(fields: Fields) -> Result<Insn, UnitFault>
    requires { fields.opcode ≡ 0x85 }
    ensures found { Reads fields result }
    ensures only { (id : ℤ) → OnlyReads fields result (Insn.Call id) }
{
    if fields.src != 0 {
        return Err(UnitFault::Opcode);
    }
    if fields.dst != 0 {
        return Err(UnitFault::Reserved);
    }
    if fields.offset != 0 {
        return Err(UnitFault::Reserved);
    }
    Ok(Insn::Call { helper: fields.imm })
}

fn exit(fields: Fields) -> Result<Insn, UnitFault>
    requires { fields.opcode ≡ 0x95 }
    ensures found { Reads fields result }
    ensures only { OnlyReads fields result Insn.Exit }
{
    if fields.dst != 0 {
        return Err(UnitFault::Reserved);
    }
    if fields.src != 0 {
        return Err(UnitFault::Reserved);
    }
    if fields.offset != 0 {
        return Err(UnitFault::Reserved);
    }
    if fields.imm != 0 {
        return Err(UnitFault::Reserved);
    }
    Ok(Insn::Exit)
}

/// Reads a unit of the class JMP or JMP32.
pub fn any_jump(fields: Fields, width: Width) -> Result<Insn, UnitFault>
    requires { fields.opcode % 8 ≡ jump_class width }
    ensures found { Reads fields result }
    ensures branch { (t : Test) (w : Width) (d : ℕ) (s : Operand) (off : ℤ) → OnlyReads fields result (Insn.Branch t w d s off) }
    ensures jump { (off : ℤ) → OnlyReads fields result (Insn.Jump off) }
    ensures jump_far { (off : ℤ) → OnlyReads fields result (Insn.JumpFar off) }
    ensures call { (id : ℤ) → OnlyReads fields result (Insn.Call id) }
    ensures exit { OnlyReads fields result Insn.Exit }
{
    match fields.opcode {
        0x05 => jump(fields),
        0x06 => jump_far(fields),
        0x85 => call(fields),
        0x95 => exit(fields),
        _ => branch(fields, width),
    }
}
