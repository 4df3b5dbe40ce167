//! Prints the reason why a program's structure is refused, as a sentence.

use crate::lines::Line;
use crate::reading::{distance_of, target_of};
use bpf_insn::Insn;
use bpf_verify::VerifyFault;
use std::alloc::{AllocError, Allocator};

/// Prints the sentence for a structural fault, in a program of `units` units.
pub fn write_structure<A: Allocator>(
    out: &mut String<A>,
    fault: VerifyFault,
    line: &Line,
    units: usize,
) -> Result<(), AllocError> {
    let target = target_of(line.at, line.insn).unwrap_or(0);
    match fault {
        VerifyFault::FrameWritten(_) => {
            out.push_str("r10 is only read: copy it to another register, and change that one")
        }
        VerifyFault::NoHelper(_) => write_helper(out, line.insn),
        VerifyFault::Backward(_) => {
            let distance = distance_of(line.insn).unwrap_or(0);
            write!(
                out,
                "the distance {distance} leads back, to unit {target}: jumps lead forward"
            )
        }
        VerifyFault::JumpOut(_) => {
            let last = units.saturating_sub(1);
            write!(
                out,
                "the jump leads to unit {target}, and the last one is {last}"
            )
        }
        VerifyFault::JumpIntoWide(_) => {
            write!(
                out,
                "the jump leads to unit {target}, the second unit of an lddw"
            )
        }
        VerifyFault::FallsOff(_) => {
            out.push_str("nothing follows this instruction: the last one is exit or ja")
        }
        VerifyFault::NoMemory => out.push_str("memory ran out"),
        _ => out.push_str("there is no instruction"),
    }
}

fn write_helper<A: Allocator>(out: &mut String<A>, insn: Insn) -> Result<(), AllocError> {
    match insn {
        Insn::Call { helper } => {
            write!(out, "there is no helper {helper}: call 1, 2, 3, 4 or 5")
        }
        _ => out.push_str("there is no such helper: call 1, 2, 3, 4 or 5"),
    }
}
