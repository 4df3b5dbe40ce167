//! The explanation of a program.

ghost use Rattle.std.specs.Prelude.{◌≡◌, IfOk, Some, None};
ghost use Rattle.std.specs.Option.{option_and_then};
ghost use Rattle.bpf_verify.specs.Stopped.{HoldAlways};
ghost use Rattle.bpf_verify.specs.Fault.{place_of};
ghost use Rattle.bpf_explain.specs.Lines.{lines_up_to};

use crate::lines::{Line, lines_below, lines_to};
use bpf_asm::disassemble;
use bpf_insn::Code;
use bpf_verify::{Examined, Refused, States, VerifyFault};
use std::alloc::{AllocError, Allocator, Global};

/// The explanation of a program: its instructions, each with the facts that the verifier knows before it. For a refused program the
/// instructions end with the one that the fault names.
#[derive(Drop)]
pub struct Explanation<A: Allocator = Global> {
    pub lines: Vec<Line, A>,
    pub fault: Option<VerifyFault>,
    // The program's text, one instruction per line, and its number of units.
    pub(crate) insns: String<A>,
    pub(crate) units: usize,
}

/// Returns all instructions of an accepted program, each with the state before it. The states are true of every run.
///
/// # Errors
/// `AllocError` if allocation fails.
pub fn explain_accepted<A: Allocator + Copy>(
    alloc: A,
    examined: &Examined<A>,
) -> Result<Explanation<A>, AllocError>
    ensures lines { IfOk result (λ e. e.lines.items ≡ lines_up_to examined.now.code examined.now.states None) }
    ensures fault { IfOk result (λ e. e.fault ≡ None) }
    ensures hold { HoldAlways examined.now.code examined.now.states }
{
    explained(alloc, examined.code(), examined.states(), None)
}

/// Returns the instructions of a refused program up to the one that the fault names, each with the state before it, and the fault.
///
/// # Errors
/// `AllocError` if allocation fails.
pub fn explain_refused<A: Allocator + Copy>(
    alloc: A,
    refused: &Refused<A>,
) -> Result<Explanation<A>, AllocError>
    ensures lines { IfOk result (λ e. e.lines.items ≡ lines_up_to refused.now.code refused.now.states (place_of refused.now.fault)) }
    ensures fault { IfOk result (λ e. e.fault ≡ Some refused.now.fault) }
{
    explained(alloc, &refused.code, &refused.states, Some(refused.fault))
}

fn explained<A: Allocator + Copy>(
    alloc: A,
    code: &Code<A>,
    states: &States<A>,
    fault: Option<VerifyFault>,
) -> Result<Explanation<A>, AllocError>
    ensures lines { IfOk result (λ e. e.lines.items ≡ lines_up_to code.now states.now (option_and_then place_of fault)) }
    ensures fault { IfOk result (λ e. e.fault ≡ fault) }
{
    let lines = match place_in(fault) {
        Some(last) => lines_to(alloc, code, states, last)?,
        None => lines_below(alloc, code, states, code.units())?,
    };
    Ok(Explanation {
        lines,
        fault,
        insns: disassemble(alloc, code)?,
        units: code.units(),
    })
}

// The unit that a fault names.
fn place_in(fault: Option<VerifyFault>) -> Option<usize>
    ensures { result ≡ option_and_then place_of fault }
{
    fault?.place()
}
