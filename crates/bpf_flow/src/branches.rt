//! The effect of conditional jumps on a state.

ghost use Rattle.std.specs.Prelude.{◌≡◌, ◌≤◌, ◌≤ℤ◌, pos, ℕ, IfOk, IsTrue, Some, length};
ghost use Rattle.bpf_insn.specs.Spelling.{IsOperand};
ghost use Rattle.bpf_helpers.specs.Machine.{register as register_of, comparison_of};
ghost use Rattle.bpf_range.specs.Sets.{In, Contains};
ghost use Rattle.bpf_flow.specs.Kinds.{HoldsKind, IsNumber};
ghost use Rattle.bpf_flow.specs.States.{Fits};
ghost use Rattle.bpf_flow.specs.Steps.{Flows, edges_of};
ghost use Rattle.bpf_flow.specs.Tested.{tested};

use crate::fault::FlowFault;
use crate::numbers::{number_of, written};
use crate::state::{State, Way};
use bpf_insn::{Insn, Operand, Test, Width};
use bpf_range::{Kind, Known, Range, refine};

/// Narrows a length by a test. A test for a common bit does not narrow it.
fn narrowed_length(old: Range, test: Test, known: Known) -> Range
    ensures { (x : ℕ) → In old x → Contains known x → In result x }
{
    match test {
        Test::Set => old,
        _ => known.range(),
    }
}

/// Narrows a state to the configurations whose register holds one of these numbers.
fn narrow(state: &mut State, register: u8, test: Test, known: Known)
    requires { register ≤ 10 }
    ensures { (c : _) → Fits state.old c → IsNumber (Contains known) (register_of c register) → Fits state.new c }
{
    match state.kind(register) {
        Kind::Num(_) => state.set(register, Kind::Num(known)),
        Kind::RecLen => state.bytes = narrowed_length(state.bytes, test, known),
        Kind::ArgLen => state.argument = narrowed_length(state.argument, test, known),
        _ => {}
    }
}

fn narrow_operand(state: &mut State, operand: Operand, test: Test, known: Known)
    requires { IsOperand operand }
    ensures { (w : Width) (c : _) → Fits state.old c → IsNumber (Contains known) (tested w c operand) → Fits state.new c }
{
    match operand {
        Operand::Imm(_) => {}
        Operand::Reg(r) => narrow(state, r, test, known),
    }
}

/// Returns true if an edge of a test can be taken; narrows the state to that edge.
fn follow_edge(
    test: Test,
    width: Width,
    dst: u8,
    src: Operand,
    a: Known,
    b: Known,
    taken: bool,
    state: &mut State,
) -> bool
    requires dst { dst ≤ 10 }
    requires src { IsOperand src }
    ensures { (c : _) → Fits state.old c → IsNumber (Contains a) (register_of c dst) → IsNumber (Contains b) (tested width c src) → comparison_of test width (register_of c dst) (tested width c src) ≡ Some taken → IsTrue result × Fits state.new c }
{
    let Some((x, y)) = refine(test, width, a, b, taken) else {
        return false;
    };
    narrow(state, dst, test, x);
    narrow_operand(state, src, test, y);
    true
}

/// The kind of the second operand of a test. In a 32-bit test, an immediate is a number below 2^32.
fn tested_operand(state: &State, width: Width, operand: Operand) -> Kind
    requires { IsOperand operand }
    ensures { (c : _) → Fits state.now c → HoldsKind result (length c.bytes) (length c.argument) (tested width c operand) }
{
    match (width, operand) {
        (Width::W32, Operand::Imm(k)) => Kind::Num(Known::single(
            (k as i64).cast_unsigned() % 0x1_0000_0000,
        )),
        _ => state.operand(operand),
    }
}

/// Computes the states after a conditional jump, which must not lead backward. If both edges can be taken, `state` becomes the state
/// on the edge to the next instruction, and `target` the state on the jump. If only one edge can be taken, `state` becomes its state.
pub fn flow_branch(
    test: Test,
    width: Width,
    dst: u8,
    src: Operand,
    state: &mut State,
    target: &mut State,
) -> Result<Way, FlowFault>
    requires dst { dst ≤ 10 }
    requires src { IsOperand src }
    requires same { target.old ≡ state.old }
    ensures { IfOk result (λ way. (offset : _) → pos 0 ≤ℤ offset → Flows (Insn.Branch test width dst src offset) state.old (edges_of way state.new target.new)) }
{
    let first = state.kind(dst);
    let second = tested_operand(state, width, src);
    written(first)?;
    written(second)?;
    let Some(a) = number_of(first, state.bytes, state.argument) else {
        return Err(FlowFault::PointerOp);
    };
    let Some(b) = number_of(second, state.bytes, state.argument) else {
        return Err(FlowFault::PointerOp);
    };
    let jumps = follow_edge(test, width, dst, src, a, b, true, target);
    if !follow_edge(test, width, dst, src, a, b, false, state) {
        if !jumps {
            return Ok(Way::End);
        }
        *state = *target;
        return Ok(Way::Jump);
    }
    if jumps {
        return Ok(Way::Both);
    }
    Ok(Way::Next)
}
