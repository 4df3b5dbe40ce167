//! Reads a line.

ghost use Rattle.std.specs.Prelude.{◌≡◌, ◌≤◌, length, IsTrue};
ghost use Rattle.bpf_insn.specs.Spelling.{is_unary, is_narrow};
ghost use Rattle.bpf_asm.specs.Mnemonics.{is_row, is_part, takes_number};
ghost use Rattle.bpf_asm.specs.Lines.{instruction, meaning, meaning_of_body, statement, head_len, HasSpellingIn};
ghost use Rattle.bpf_asm.specs.Views.{view_line, Reads, ReadsSpelled};

use crate::fault::FaultKind;
use crate::operands::{read_address, read_operand, read_three, read_two, register_operand};
use crate::row::{Row, row_named};
use crate::text::{cut, margin, trim};
use crate::words::{is_name, read_far, read_long, read_near, read_word};
use bpf_insn::{Insn, Op, Operand, Size, Test, Width};

/// A line of a text.
#[derive(Clone, Copy, Debug)]
pub enum Line<'a> {
    /// An empty line, with or without a comment.
    Blank,
    /// A label of this name.
    Label(&'a [u8]),
    /// An instruction.
    Plain(Insn),
    /// A jump to the label of this name.
    Aimed(Insn, &'a [u8]),
    /// An invalid line, with its fault.
    Bad(FaultKind),
}

#[tactic(auto, using(crate::proofs::Tables::takes_both), unfolding(crate::specs::Lines::instruction))]
fn arithmetic(op: Op, width: Width, rest: &[u8]) -> Result<Line<'_>, FaultKind>
    requires { IsTrue (takes_number op) }
    ensures value { Reads result (instruction (Row.Arith op width) rest.now) }
    ensures spelled { ReadsSpelled result }
{
    let (dst, src) = read_two(rest)?;
    let dst = register_operand(dst)?;
    let src = read_operand(src)?;
    Ok(Line::Plain(Insn::Alu {
        op,
        width,
        dst,
        src,
    }))
}

#[tactic(auto, using(crate::proofs::Tables::takes_part), unfolding(crate::specs::Lines::instruction))]
fn sign_move(size: Size, width: Width, rest: &[u8]) -> Result<Line<'_>, FaultKind>
    requires { IsTrue (is_part size width) }
    ensures value { Reads result (instruction (Row.SignMove size width) rest.now) }
    ensures spelled { ReadsSpelled result }
{
    let (dst, src) = read_two(rest)?;
    let dst = register_operand(dst)?;
    let src = register_operand(src)?;
    Ok(Line::Plain(Insn::Alu {
        op: Op::MovSx(size),
        width,
        dst,
        src: Operand::Reg(src),
    }))
}

#[tactic(auto, unfolding(crate::specs::Lines::instruction))]
fn unary(op: Op, width: Width, rest: &[u8]) -> Result<Line<'_>, FaultKind>
    requires { IsTrue (is_unary op width) }
    ensures value { Reads result (instruction (Row.Unary op width) rest.now) }
    ensures spelled { ReadsSpelled result }
{
    let dst = register_operand(rest)?;
    Ok(Line::Plain(Insn::Unary { op, width, dst }))
}

#[tactic(auto, unfolding(crate::specs::Lines::instruction))]
fn wide(rest: &[u8]) -> Result<Line<'_>, FaultKind>
    ensures value { Reads result (instruction Row.Wide rest.now) }
    ensures spelled { ReadsSpelled result }
{
    let (dst, value) = read_two(rest)?;
    let dst = register_operand(dst)?;
    let value = read_long(value)?;
    Ok(Line::Plain(Insn::Wide { dst, value }))
}

#[tactic(auto, unfolding(crate::specs::Lines::instruction))]
fn load(size: Size, rest: &[u8]) -> Result<Line<'_>, FaultKind>
    ensures value { Reads result (instruction (Row.Load size) rest.now) }
    ensures spelled { ReadsSpelled result }
{
    let (dst, address) = read_two(rest)?;
    let dst = register_operand(dst)?;
    let (base, offset) = read_address(address)?;
    Ok(Line::Plain(Insn::Load {
        size,
        dst,
        base,
        offset,
    }))
}

#[tactic(auto, unfolding(crate::specs::Lines::instruction))]
fn load_signed(size: Size, rest: &[u8]) -> Result<Line<'_>, FaultKind>
    requires { IsTrue (is_narrow size) }
    ensures value { Reads result (instruction (Row.LoadSigned size) rest.now) }
    ensures spelled { ReadsSpelled result }
{
    let (dst, address) = read_two(rest)?;
    let dst = register_operand(dst)?;
    let (base, offset) = read_address(address)?;
    Ok(Line::Plain(Insn::LoadSigned {
        size,
        dst,
        base,
        offset,
    }))
}

#[tactic(auto, unfolding(crate::specs::Lines::instruction))]
fn store_number(size: Size, rest: &[u8]) -> Result<Line<'_>, FaultKind>
    ensures value { Reads result (instruction (Row.StoreImm size) rest.now) }
    ensures spelled { ReadsSpelled result }
{
    let (address, value) = read_two(rest)?;
    match (read_address(address), read_word(value)) {
        (Ok((base, offset)), Ok(value)) => Ok(Line::Plain(Insn::StoreImm {
            size,
            base,
            offset,
            value,
        })),
        (Err(FaultKind::Number), Err(kind)) => Err(kind),
        (Err(kind), _) | (_, Err(kind)) => Err(kind),
    }
}

#[tactic(auto, unfolding(crate::specs::Lines::instruction))]
fn store(size: Size, rest: &[u8]) -> Result<Line<'_>, FaultKind>
    ensures value { Reads result (instruction (Row.Store size) rest.now) }
    ensures spelled { ReadsSpelled result }
{
    let (address, src) = read_two(rest)?;
    let src = register_operand(src)?;
    let (base, offset) = read_address(address)?;
    Ok(Line::Plain(Insn::Store {
        size,
        base,
        offset,
        src,
    }))
}

#[tactic(auto, unfolding(crate::specs::Lines::instruction))]
fn jump(rest: &[u8]) -> Result<Line<'_>, FaultKind>
    ensures value { Reads result (instruction Row.Jump rest.now) }
    ensures spelled { ReadsSpelled result }
{
    if is_name(rest) {
        return Ok(Line::Aimed(Insn::Jump { offset: 0 }, rest));
    }
    let offset = read_near(rest)?;
    Ok(Line::Plain(Insn::Jump { offset }))
}

#[tactic(auto, unfolding(crate::specs::Lines::instruction))]
fn jump_far(rest: &[u8]) -> Result<Line<'_>, FaultKind>
    ensures value { Reads result (instruction Row.JumpFar rest.now) }
    ensures spelled { ReadsSpelled result }
{
    if is_name(rest) {
        return Ok(Line::Aimed(Insn::JumpFar { offset: 0 }, rest));
    }
    let offset = read_far(rest)?;
    Ok(Line::Plain(Insn::JumpFar { offset }))
}

#[tactic(auto, unfolding(crate::specs::Lines::instruction))]
fn branch(test: Test, width: Width, rest: &[u8]) -> Result<Line<'_>, FaultKind>
    ensures value { Reads result (instruction (Row.Branch test width) rest.now) }
    ensures spelled { ReadsSpelled result }
{
    let (dst, src, target) = read_three(rest)?;
    let dst = register_operand(dst)?;
    if is_name(target) {
        let insn = Insn::Branch {
            test,
            width,
            dst,
            src: read_operand(src)?,
            offset: 0,
        };
        return Ok(Line::Aimed(insn, target));
    }
    match (read_operand(src), read_near(target)) {
        (Ok(src), Ok(offset)) => Ok(Line::Plain(Insn::Branch {
            test,
            width,
            dst,
            src,
            offset,
        })),
        (Err(FaultKind::Number), Err(kind)) => Err(kind),
        (Err(kind), _) | (_, Err(kind)) => Err(kind),
    }
}

#[tactic(auto, unfolding(crate::specs::Lines::instruction))]
fn call(rest: &[u8]) -> Result<Line<'_>, FaultKind>
    ensures value { Reads result (instruction Row.Call rest.now) }
    ensures spelled { ReadsSpelled result }
{
    let helper = read_word(rest)?;
    Ok(Line::Plain(Insn::Call { helper }))
}

#[tactic(auto, unfolding(crate::specs::Lines::instruction))]
fn exit(rest: &[u8]) -> Result<Line<'_>, FaultKind>
    ensures value { Reads result (instruction Row.Exit rest.now) }
    ensures spelled { ReadsSpelled result }
{
    if rest.is_empty() {
        Ok(Line::Plain(Insn::Exit))
    } else {
        Err(FaultKind::Operand)
    }
}

/// Reads the operands of an instruction of this row.
fn read_row(row: Row, rest: &[u8]) -> Result<Line<'_>, FaultKind>
    requires { IsTrue (is_row row) }
    ensures value { Reads result (instruction row rest.now) }
    ensures spelled { ReadsSpelled result }
{
    match row {
        Row::Arith(op, width) => arithmetic(op, width, rest),
        Row::SignMove(size, width) => sign_move(size, width, rest),
        Row::Unary(op, width) => unary(op, width, rest),
        Row::Wide => wide(rest),
        Row::Load(size) => load(size, rest),
        Row::LoadSigned(size) => load_signed(size, rest),
        Row::StoreImm(size) => store_number(size, rest),
        Row::Store(size) => store(size, rest),
        Row::Jump => jump(rest),
        Row::JumpFar => jump_far(rest),
        Row::Branch(test, width) => branch(test, width, rest),
        Row::Call => call(rest),
        Row::Exit => exit(rest),
    }
}

/// The number of bytes before the first space or tab.
fn head_len(bytes: &[u8]) -> usize
    ensures value { result ≡ head_len bytes.now }
    ensures within { result ≤ length bytes.now }
{
    for (i, b) in bytes.iter().enumerate() {
        if margin(*b) {
            return i;
        }
    }
    bytes.len()
}

#[tactic(auto, unfolding(crate::specs::Lines::statement))]
fn read_statement(body: &[u8]) -> Result<Line<'_>, FaultKind>
    ensures value { Reads result (statement body.now) }
    ensures spelled { ReadsSpelled result }
{
    let (name, rest) = body.split_at(head_len(body));
    let row = row_named(name).ok_or(FaultKind::Mnemonic)?;
    read_row(row, trim(rest))
}

#[tactic(auto, unfolding(crate::specs::Lines::meaning_of_body))]
fn read_body(body: &[u8]) -> Result<Line<'_>, FaultKind>
    ensures value { Reads result (meaning_of_body body.now) }
    ensures spelled { ReadsSpelled result }
{
    match body {
        [] => Ok(Line::Blank),
        [name @ .., b':'] if is_name(name) => Ok(Line::Label(name)),
        _ => read_statement(body),
    }
}

/// Reads a line.
#[tactic(auto, unfolding(crate::specs::Lines::meaning))]
pub fn read_line(line: &[u8]) -> Line<'_>
    ensures value { view_line result ≡ meaning line.now }
    ensures spelled { HasSpellingIn (view_line result) }
{
    let (text, _) = cut(line, b';');
    match read_body(trim(text)) {
        Ok(line) => line,
        Err(kind) => Line::Bad(kind),
    }
}
