//! Structural faults of instructions, reached or not.

ghost use Rattle.std.specs.Prelude.{◌≡◌, ◌<◌, ◌≤◌, ◌≤ℤ◌, pos, OnOk, IfErr, IfNone, MatchOption};
ghost use Rattle.bpf_insn.specs.Spelling.{HasSpelling};
ghost use Rattle.bpf_verify.specs.Structure.{first_of, frame_fault as frame_fault_of, helper_fault as helper_fault_of, jump_fault as jump_fault_of, end_fault as end_fault_of, insn_fault as insn_fault_of, unit_fault as unit_fault_of, IsBuilt, IsMisbuilt};

use crate::fault::VerifyFault;
use bpf_helpers::known;
use bpf_insn::{Code, Insn};
use std::alloc::Allocator;

fn first(a: Option<VerifyFault>, b: Option<VerifyFault>) -> Option<VerifyFault>
    ensures { result ≡ first_of a b }
{
    match a {
        Some(fault) => Some(fault),
        None => b,
    }
}

fn frame_fault(at: usize, dst: u8) -> Option<VerifyFault>
    ensures { result ≡ frame_fault_of at dst }
{
    if dst == 10 {
        return Some(VerifyFault::FrameWritten(at));
    }
    None
}

fn helper_fault(at: usize, helper: i32) -> Option<VerifyFault>
    ensures { result ≡ helper_fault_of at helper }
{
    if known(helper) {
        return None;
    }
    Some(VerifyFault::NoHelper(at))
}

fn jump_fault<A: Allocator>(code: &Code<A>, at: usize, offset: i64) -> Option<VerifyFault>
    requires short { at < 4096 }
    requires far { offset ≤ℤ pos 0x8000_0000 }
    ensures { result ≡ jump_fault_of code.now at offset }
{
    if offset < 0 {
        return Some(VerifyFault::Backward(at));
    }
    let to = at + 1 + offset as usize;
    if to >= code.units() {
        return Some(VerifyFault::JumpOut(at));
    }
    match code.insn_at(to) {
        Some(_) => None,
        None => Some(VerifyFault::JumpIntoWide(at)),
    }
}

fn end_fault<A: Allocator>(code: &Code<A>, at: usize, units: usize) -> Option<VerifyFault>
    requires short { at < 4096 }
    requires few { units ≤ 2 }
    ensures { result ≡ end_fault_of code.now at units }
{
    if at + units == code.units() {
        return Some(VerifyFault::FallsOff(at));
    }
    None
}

fn insn_fault<A: Allocator>(code: &Code<A>, at: usize, insn: Insn) -> Option<VerifyFault>
    requires short { at < 4096 }
    requires has { HasSpelling insn }
    ensures { result ≡ insn_fault_of code.now at insn }
{
    match insn {
        Insn::Alu { dst, .. } => first(frame_fault(at, dst), end_fault(code, at, 1)),
        Insn::Unary { dst, .. } => first(frame_fault(at, dst), end_fault(code, at, 1)),
        Insn::Branch { offset, .. } => first(
            jump_fault(code, at, offset as i64),
            end_fault(code, at, 1),
        ),
        Insn::Jump { offset } => jump_fault(code, at, offset as i64),
        Insn::JumpFar { offset } => jump_fault(code, at, offset as i64),
        Insn::Call { helper } => first(helper_fault(at, helper), end_fault(code, at, 1)),
        Insn::Exit => None,
        Insn::Load { dst, .. } => first(frame_fault(at, dst), end_fault(code, at, 1)),
        Insn::LoadSigned { dst, .. } => first(frame_fault(at, dst), end_fault(code, at, 1)),
        Insn::StoreImm { .. } => end_fault(code, at, 1),
        Insn::Store { .. } => end_fault(code, at, 1),
        Insn::Wide { dst, .. } => first(frame_fault(at, dst), end_fault(code, at, 2)),
    }
}

fn unit_fault<A: Allocator>(code: &Code<A>, at: usize) -> Option<VerifyFault>
    ensures { result ≡ unit_fault_of code.now at }
{
    let insn = code.insn_at(at)?;
    insn_fault(code, at, insn)
}

/// Checks a code's structure. Returns `Empty` if the code has no instruction, otherwise the structural fault of the first invalid
/// instruction, if any.
pub fn structure<A: Allocator>(code: &Code<A>) -> Result<(), VerifyFault>
    ensures ok { OnOk result (IsBuilt code.now) }
    ensures err { IfErr result (IsMisbuilt code.now) }
{
    if code.is_empty() {
        return Err(VerifyFault::Empty);
    }
    for at in 0..code.units() {
        if let Some(fault) = unit_fault(code, at) {
            return Err(fault);
        }
    }
    Ok(())
}
