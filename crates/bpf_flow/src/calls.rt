//! The effect of helper calls on a state.

ghost use Rattle.std.specs.Prelude.{OnOk, IsSome};
ghost use Rattle.bpf_helpers.specs.declared.helpers.Helper.TheVariants.{Reply, Copy};
ghost use Rattle.bpf_helpers.specs.Helpers.{Answer, numbered};
ghost use Rattle.bpf_helpers.specs.Machine.{after_answer};
ghost use Rattle.bpf_range.specs.Sets.{Contains};
ghost use Rattle.bpf_flow.specs.States.{Fits};
ghost use Rattle.bpf_flow.specs.Steps.{Passes, IsCalled};

use crate::fault::FlowFault;
use crate::memory::{inside, writable};
use crate::numbers::{number_of, place_of, written};
use crate::state::State;
use bpf_helpers::{COPY_LIMIT, Helper, helper_of};
use bpf_insn::Insn;
use bpf_range::{Kind, Known};

/// Sets the state to the state after a call with one of these answers: R0 is the answer, and R1 to R5 are unset.
fn answered(state: &mut State, answer: Known)
    ensures { (c : _) (a : Answer) → Fits state.old c → Contains answer a.value → Fits state.new (after_answer a c) }
{
    let lost = Kind::Unset;
    state.kinds = [
        Kind::Num(answer),
        lost,
        lost,
        lost,
        lost,
        lost,
        state.kind(6),
        state.kind(7),
        state.kind(8),
        state.kind(9),
        state.kind(10),
    ];
}

/// The state after a call of `Reply`, which takes a number in R1.
fn call_reply(state: &mut State) -> Result<(), FlowFault>
    ensures { OnOk result (IsCalled Reply state.old state.new) }
{
    let word = state.kind(1);
    written(word)?;
    let Some(_number) = number_of(word, state.bytes, state.argument) else {
        return Err(FlowFault::HelperArgument);
    };
    answered(state, Helper::Reply.result());
    Ok(())
}

/// The state after a call of `Copy`, which takes the addresses in R1 and R2 and the number of bytes in R3. At both addresses
/// there must be n bytes, for the greatest number n that R3 may hold. The bytes at R1 must be writable.
fn call_copy(state: &mut State) -> Result<(), FlowFault>
    ensures { OnOk result (IsCalled Copy state.old state.new) }
{
    let first = state.kind(1);
    let second = state.kind(2);
    let third = state.kind(3);
    written(first)?;
    written(second)?;
    written(third)?;
    let Some(to) = place_of(first) else {
        return Err(FlowFault::HelperArgument);
    };
    let Some(from) = place_of(second) else {
        return Err(FlowFault::HelperArgument);
    };
    let Some(number) = number_of(third, state.bytes, state.argument) else {
        return Err(FlowFault::HelperArgument);
    };
    let most = number.range().hi;
    if most > COPY_LIMIT {
        return Err(FlowFault::HelperArgument);
    }
    writable(to.region)?;
    inside(to, state, 0, most)?;
    inside(from, state, 0, most)?;
    answered(state, Helper::Copy.result());
    Ok(())
}

fn called(helper: Helper, state: &mut State) -> Result<(), FlowFault>
    ensures { OnOk result (IsCalled helper state.old state.new) }
{
    match helper {
        Helper::Reply => call_reply(state),
        Helper::Copy => call_copy(state),
        Helper::Now => {
            answered(state, Helper::Now.result());
            Ok(())
        }
        Helper::Present => {
            answered(state, Helper::Present.result());
            Ok(())
        }
        Helper::Who => {
            answered(state, Helper::Who.result());
            Ok(())
        }
    }
}

/// The state after a call of a helper that exists.
pub fn after_call(id: i32, state: &mut State) -> Result<(), FlowFault>
    requires { IsSome (numbered id) }
    ensures { OnOk result (Passes (Insn.Call id) state.old state.new) }
{
    match helper_of(id) {
        Some(helper) => called(helper, state),
        None => unreachable!(),
    }
}
