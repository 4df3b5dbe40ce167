//! The effect of each instruction on a state.

ghost use Rattle.std.specs.Prelude.{◌≢◌, ◌≤◌, IfOk, OnOk};
ghost use Rattle.bpf_insn.specs.Spelling.{HasSpelling, IsOperand};
ghost use Rattle.bpf_flow.specs.Steps.{IsAccess, IsPlain, Passes, Flows, edges_of, CanFlow};

use crate::alu::alu_kind;
use crate::calls::after_call;
use crate::fault::FlowFault;
use crate::loads::{after_load, after_load_signed, after_store, after_store_imm};
use crate::numbers::{number_of, written};
use crate::state::{State, Way};
use bpf_insn::{Insn, Op, Operand, Width};
use bpf_range::{Kind, Known};

fn after_alu(
    op: Op,
    width: Width,
    dst: u8,
    src: Operand,
    state: &mut State,
) -> Result<(), FlowFault>
    requires dst { dst ≤ 10 }
    requires frame { dst ≢ 10 }
    requires src { IsOperand src }
    ensures { OnOk result (Passes (Insn.Alu op width dst src) state.old state.new) }
{
    let b = state.operand(src);
    let kind = alu_kind(op, width, state.kind(dst), b, state.bytes, state.argument)?;
    state.set(dst, kind);
    Ok(())
}

fn after_unary(op: Op, width: Width, dst: u8, state: &mut State) -> Result<(), FlowFault>
    requires dst { dst ≤ 10 }
    requires frame { dst ≢ 10 }
    ensures { OnOk result (Passes (Insn.Unary op width dst) state.old state.new) }
{
    let zero = Kind::Num(Known::single(0));
    let kind = alu_kind(
        op,
        width,
        state.kind(dst),
        zero,
        state.bytes,
        state.argument,
    )?;
    state.set(dst, kind);
    Ok(())
}

fn after_wide(dst: u8, n: u64, state: &mut State)
    requires dst { dst ≤ 10 }
    requires frame { dst ≢ 10 }
    ensures { Passes (Insn.Wide dst n) state.old state.new }
{
    state.set(dst, Kind::Num(Known::single(n)));
}

fn after_access(insn: Insn, state: &mut State) -> Result<(), FlowFault>
    requires has { HasSpelling insn }
    requires built { CanFlow insn }
    requires access { IsAccess insn }
    ensures { OnOk result (Passes insn state.old state.new) }
{
    match insn {
        Insn::Load {
            size,
            dst,
            base,
            offset,
        } => after_load(size, dst, base, offset, state),
        Insn::LoadSigned {
            size,
            dst,
            base,
            offset,
        } => after_load_signed(size, dst, base, offset, state),
        Insn::StoreImm {
            size,
            base,
            offset,
            ..
        } => after_store_imm(size, base, offset, state),
        Insn::Store {
            size,
            base,
            offset,
            src,
        } => after_store(size, base, offset, src, state),
        _ => unreachable!(),
    }
}

/// Checks that a program ends with a number in R0.
fn after_exit(state: &State) -> Result<Way, FlowFault>
    ensures { IfOk result (λ way. (s t : _) → Flows Insn.Exit state.now (edges_of way s t)) }
{
    written(state.kind(0))?;
    let Some(_number) = number_of(state.kind(0), state.bytes, state.argument) else {
        return Err(FlowFault::ExitNotNumber);
    };
    Ok(Way::End)
}

/// Computes the state after an instruction other than a conditional jump. The error is the first fault of the
/// instruction.
#[tactic(auto, using(crate::proofs::Arms::flows))]
pub fn flow(insn: Insn, state: &mut State) -> Result<Way, FlowFault>
    requires has { HasSpelling insn }
    requires built { CanFlow insn }
    requires plain { IsPlain insn }
    ensures { IfOk result (λ way. (t : _) → Flows insn state.old (edges_of way state.new t)) }
{
    match insn {
        Insn::Alu {
            op,
            width,
            dst,
            src,
        } => {
            after_alu(op, width, dst, src, state)?;
            Ok(Way::Next)
        }
        Insn::Unary { op, width, dst } => {
            after_unary(op, width, dst, state)?;
            Ok(Way::Next)
        }
        Insn::Branch { .. } => unreachable!(),
        Insn::Jump { .. } => Ok(Way::Jump),
        Insn::JumpFar { .. } => Ok(Way::Jump),
        Insn::Call { helper } => {
            after_call(helper, state)?;
            Ok(Way::Next)
        }
        Insn::Exit => after_exit(state),
        Insn::Wide { dst, value } => {
            after_wide(dst, value, state);
            Ok(Way::Next)
        }
        _ => {
            after_access(insn, state)?;
            Ok(Way::Next)
        }
    }
}
