//! Operands and their separators.

ghost use Rattle.std.specs.Prelude.{◌≡◌, ◌≤◌, ◌∷◌, [], length, not, MatchResult, IfOk, List, ℕ};
ghost use Rattle.std.specs.List.{prefix_len};
ghost use Rattle.bpf_insn.specs.Spelling.{IsOperand};
ghost use Rattle.bpf_asm.specs.Words.{Gives, register};
ghost use Rattle.bpf_asm.specs.Lines.{operand, address, inner_address, is_sign, offset, two, three, parts, HasMore};

use crate::fault::FaultKind;
use crate::text::{cut, trim};
use crate::words::{read_near, read_register, read_word};
use bpf_insn::Operand;

/// Reads a register.
pub fn register_operand(bytes: &[u8]) -> Result<u8, FaultKind>
    ensures value { Gives (λ r. r) result (register bytes.now) }
    ensures few { IfOk result (λ r. r ≤ 10) }
{
    read_register(bytes).ok_or(FaultKind::Operand)
}

/// Reads a register or a number.
#[tactic(auto, unfolding(crate::specs::Lines::operand))]
pub fn read_operand(bytes: &[u8]) -> Result<Operand, FaultKind>
    ensures value { Gives (λ o. o) result (operand bytes.now) }
    ensures has { IfOk result IsOperand }
{
    match read_register(bytes) {
        Some(register) => Ok(Operand::Reg(register)),
        None => Ok(Operand::Imm(read_word(bytes)?)),
    }
}

fn sign(b: u8) -> bool
    ensures { result ≡ is_sign b }
{
    b == b'+' || b == b'-'
}

/// The number of bytes before the first sign.
fn sign_place(bytes: &[u8]) -> usize
    ensures value { result ≡ prefix_len (λ b. not (is_sign b)) bytes.now }
    ensures within { result ≤ length bytes.now }
{
    for (i, b) in bytes.iter().enumerate() {
        if sign(*b) {
            return i;
        }
    }
    bytes.len()
}

fn read_offset(bytes: &[u8]) -> Result<i16, FaultKind>
    ensures { Gives (λ n. n) result (offset bytes.now) }
{
    match bytes {
        [] => Ok(0),
        [..] => read_near(bytes),
    }
}

fn read_inner(bytes: &[u8]) -> Result<(u8, i16), FaultKind>
    ensures value { Gives (λ x. (x.0, x.1)) result (inner_address bytes.now) }
    ensures few { IfOk result (λ x. x.0 ≤ 10) }
{
    let (name, rest) = bytes.split_at(sign_place(bytes));
    Ok((register_operand(name)?, read_offset(rest)?))
}

/// Reads a base register and an offset, in brackets.
#[tactic(auto, unfolding(crate::specs::Lines::address))]
pub fn read_address(bytes: &[u8]) -> Result<(u8, i16), FaultKind>
    ensures value { Gives (λ x. (x.0, x.1)) result (address bytes.now) }
    ensures few { IfOk result (λ x. x.0 ≤ 10) }
{
    match bytes {
        [b'[', inner @ .., b']'] => read_inner(inner),
        _ => Err(FaultKind::Operand),
    }
}

/// Splits the text at the first comma. Returns `Operand` if there is no comma.
fn first_part(rest: &[u8]) -> Result<(&[u8], &[u8]), FaultKind>
    ensures { MatchResult result (λ x. parts rest.now ≡ x.0.now ∷ parts x.1.now) (λ _. (a : List ℕ) × (parts rest.now ≡ a ∷ [])) }
{
    match cut(rest, b',') {
        (a, Some(rest)) => Ok((a, rest)),
        (_, None) => Err(FaultKind::Operand),
    }
}

/// Returns the whole text, or `Operand` if it has a comma.
fn last_part(rest: &[u8]) -> Result<&[u8], FaultKind>
    ensures { MatchResult result (λ x. parts rest.now ≡ x.now ∷ []) (λ _. HasMore (parts rest.now)) }
{
    match cut(rest, b',') {
        (_, Some(_)) => Err(FaultKind::Operand),
        (a, None) => Ok(a),
    }
}

/// Splits the text into two operands, and removes the spaces and tabs around them.
#[tactic(auto, unfolding(crate::specs::Lines::two))]
pub fn read_two(rest: &[u8]) -> Result<(&[u8], &[u8]), FaultKind>
    ensures { Gives (λ x. (x.0.now, x.1.now)) result (two rest.now) }
{
    let (a, rest) = first_part(rest)?;
    let b = last_part(rest)?;
    Ok((trim(a), trim(b)))
}

/// Splits the text into three operands, and removes the spaces and tabs around them.
#[tactic(auto, unfolding(crate::specs::Lines::three))]
pub fn read_three(rest: &[u8]) -> Result<(&[u8], &[u8], &[u8]), FaultKind>
    ensures { Gives (λ x. (x.0.now, x.1.now, x.2.now)) result (three rest.now) }
{
    let (a, rest) = first_part(rest)?;
    let (b, rest) = first_part(rest)?;
    let c = last_part(rest)?;
    Ok((trim(a), trim(b), trim(c)))
}
