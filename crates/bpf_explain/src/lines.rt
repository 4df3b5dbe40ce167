//! The instructions of a program, each with the verifier's state before it.

ghost use Rattle.std.specs.Prelude.{◌≡◌, ◌++◌, suc, IfOk, OnOk};
ghost use Rattle.std.specs.Option.{option_to_list};
ghost use Rattle.bpf_verify.specs.States.{state_at};
ghost use Rattle.bpf_explain.specs.Lines.{line_at, lines_below};

use bpf_insn::{Code, Insn};
use bpf_verify::{State, States};
use std::alloc::{AllocError, Allocator};

/// An instruction, the unit at which it begins, and the state before it. `state` is `None` if no edge leads to the instruction, or if the
/// program's structure is invalid.
#[derive(Clone, Copy, Debug)]
pub struct Line {
    pub at: usize,
    pub insn: Insn,
    pub state: Option<State>,
}

fn state_at<A: Allocator>(states: &States<A>, at: usize) -> Option<State>
    ensures { result ≡ state_at states.now at }
{
    match states.get(at) {
        Some(state) => Some(*state),
        None => None,
    }
}

// Returns the instruction that begins at a unit, if any.
fn line_at<A: Allocator>(code: &Code<A>, states: &States<A>, at: usize) -> Option<Line>
    ensures { result ≡ line_at code.now states.now at }
{
    let insn = code.insn_at(at)?;
    let state = state_at(states, at);
    Some(Line { at, insn, state })
}

/// The instructions that begin before a unit, in order.
///
/// # Errors
/// `AllocError` if allocation fails.
pub fn lines_below<A: Allocator + Copy>(
    alloc: A,
    code: &Code<A>,
    states: &States<A>,
    end: usize,
) -> Result<Vec<Line, A>, AllocError>
    ensures { IfOk result (λ lines. lines.items ≡ lines_below code.now states.now end) }
{
    let mut lines = Vec::new(alloc);
    for at in 0..end {
        push_line(&mut lines, line_at(code, states, at))?;
    }
    Ok(lines)
}

/// The instructions that begin at or before a unit, in order.
///
/// # Errors
/// `AllocError` if allocation fails.
pub fn lines_to<A: Allocator + Copy>(
    alloc: A,
    code: &Code<A>,
    states: &States<A>,
    last: usize,
) -> Result<Vec<Line, A>, AllocError>
    ensures { IfOk result (λ lines. lines.items ≡ lines_below code.now states.now (suc last)) }
{
    let mut lines = lines_below(alloc, code, states, last)?;
    push_line(&mut lines, line_at(code, states, last))?;
    Ok(lines)
}

fn push_line<A: Allocator>(lines: &mut Vec<Line, A>, line: Option<Line>) -> Result<(), AllocError>
    ensures { OnOk result (lines.new.items ≡ lines.old.items ++ option_to_list line) }
{
    match line {
        Some(line) => Ok(lines.push(line)?),
        None => Ok(()),
    }
}
