//! Accepts or refuses programs.

ghost use Rattle.std.specs.Prelude.{◌≡◌, ℕ, IfOk, IfErr, IsErrAnd, None};
ghost use Rattle.bpf_helpers.specs.Runs.{Safe};
ghost use Rattle.bpf_verify.specs.States.{state_at};
ghost use Rattle.bpf_verify.specs.Structure.{IsBuilt, IsMisbuilt, IsRefused};
ghost use Rattle.bpf_verify.specs.Stopped.{IsStopped};

use crate::examined::Examined;
use crate::fault::VerifyFault;
use crate::refused::Refused;
use crate::structure::structure;
use crate::table::States;
use crate::verified::Verified;
use crate::visits::pass_over;
use bpf_insn::{Code, encode};
use std::alloc::{AllocError, Allocator};

/// Like `verify`, but also returns the state before each instruction, which takes more memory. An error has the states that were known at
/// the time of the fault, or no states if the structure is invalid.
pub fn examine<A: Allocator + Copy>(alloc: A, code: Code<A>) -> Result<Examined<A>, Refused<A>>
    ensures value { IfOk result (λ v. v.code ≡ code) }
    ensures safe { IfOk result (λ v. Safe v.code) }
    ensures built { IfOk result (λ v. IsBuilt v.code) }
    ensures refused { IfErr result (λ e. IsRefused code e.fault) }
    ensures structure { (fault : _) → IsMisbuilt code fault → IsErrAnd result (λ e. e.fault ≡ fault) }
    ensures back { IfErr result (λ e. e.code ≡ code) }
    ensures stopped { IsBuilt code → IfErr result (λ e. IsStopped code e.states e.fault) }
    ensures unknown { IfErr result (λ e. IsMisbuilt code e.fault → (u : ℕ) → state_at e.states u ≡ None) }
{
    if let Err(fault) = structure(&code) {
        return Err(Refused {
            fault,
            code,
            states: States::empty(alloc),
        });
    }
    match pass_over(alloc, &code, true) {
        Ok(passed) => Ok(Examined::new(code, passed.kept)),
        Err((fault, states)) => Err(Refused {
            fault,
            code,
            states,
        }),
    }
}

/// Accepts a program, which is then safe, or returns the refused program with its fault.
///
/// The structure is checked first: each instruction in order, reached or not. Then each reached instruction is visited once, in order,
/// with the state before it. Only the first fault is reported. `NoMemory` implies that the structure has no fault.
pub fn verify<A: Allocator + Copy>(
    alloc: A,
    code: Code<A>,
) -> Result<Verified<A>, (VerifyFault, Code<A>)>
    ensures value { IfOk result (λ v. v.code ≡ code) }
    ensures safe { IfOk result (λ v. Safe v.code) }
    ensures built { IfOk result (λ v. IsBuilt v.code) }
    ensures refused { IfErr result (λ e. IsRefused code e.0) }
    ensures structure { (fault : _) → IsMisbuilt code fault → IsErrAnd result (λ e. e.0 ≡ fault) }
    ensures back { IfErr result (λ e. e.1 ≡ code) }
{
    if let Err(fault) = structure(&code) {
        return Err((fault, code));
    }
    let passed = match pass_over(alloc, &code, false) {
        Ok(passed) => passed,
        Err((fault, _)) => return Err((fault, code)),
    };
    match encode(alloc, &code) {
        Ok(image) => Ok(Verified::new(code, passed.noted, passed.flats, passed.kinds, image)),
        Err(AllocError) => Err((VerifyFault::NoMemory, code)),
    }
}
