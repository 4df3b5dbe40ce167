//! Prints the reason why an instruction is refused, as a sentence.

use crate::facts::{kind_of, write_fact, write_facts};
use crate::lines::Line;
use crate::moves::write_move;
use crate::needs::write_need;
use crate::reading::registers_read;
use crate::structure::write_structure;
use bpf_helpers::takes_number;
use bpf_insn::Insn;
use bpf_range::Kind;
use bpf_verify::{State, VerifyFault};
use std::alloc::{AllocError, Allocator};

/// Prints the sentence for a fault of an instruction, whose text is `text`, in a program of `units` units.
pub fn write_sentence<A: Allocator>(
    out: &mut String<A>,
    fault: VerifyFault,
    line: &Line,
    units: usize,
    text: &str,
) -> Result<(), AllocError> {
    let Some(state) = &line.state else {
        return write_structure(out, fault, line, units);
    };
    let insn = line.insn;
    match fault {
        VerifyFault::Unset(_) => write_unset(out, insn, state),
        VerifyFault::HelperArgument(_) => write_call(out, insn, state),
        VerifyFault::ExitNotNumber(_) => {
            out.push_str("a program ends with a number in r0; ")?;
            write_fact(out, 0, state)
        }
        VerifyFault::NotPointer(_) => write_address(out, insn, state),
        VerifyFault::PointerOp(_) => write_operation(out, insn, state, text),
        VerifyFault::PointerRange(_) => write_move(out, insn, state),
        VerifyFault::PointerStored(_) => write_stored(out, insn, state),
        VerifyFault::ArgumentWritten(_) => {
            out.push_str("the argument is only read; ")?;
            write_first(out, insn, state)
        }
        VerifyFault::OutOfRecord(_) | VerifyFault::OutOfArgument(_) | VerifyFault::OutOfStack(_) =>
            write_need(out, insn, state),
        _ => write_structure(out, fault, line, units),
    }
}

// Prints the first register that an instruction reads, and the fact known about it.
fn write_first<A: Allocator>(
    out: &mut String<A>,
    insn: Insn,
    state: &State,
) -> Result<(), AllocError> {
    let [first, _, _] = registers_read(insn);
    write_fact(out, first.unwrap_or(0), state)
}

// Prints the first register that is read and may be unset, and the possible reasons.
fn write_unset<A: Allocator>(
    out: &mut String<A>,
    insn: Insn,
    state: &State,
) -> Result<(), AllocError> {
    for register in registers_read(insn) {
        if let Some(register) = register
            && matches!(kind_of(state, register), Kind::Unset)
        {
            write!(out, "r{register} is read and may be unset: ")?;
            return out.push_str(reason_unset(register));
        }
    }
    out.push_str("a register is read that may be unset")
}

// The possible reasons why a register is unset. A call unsets R1 to R5.
fn reason_unset(register: u8) -> &'static str {
    match register {
        1..=5 => {
            "not every way here writes it, a call takes it, or one way has a pointer in it and another has not"
        }
        _ => "not every way here writes it, or one way has a pointer in it and another has not",
    }
}

// Prints the requirement on a helper's first wrong argument, and the fact known about this argument.
fn write_call<A: Allocator>(
    out: &mut String<A>,
    insn: Insn,
    state: &State,
) -> Result<(), AllocError> {
    if is_reply(insn) {
        out.push_str("call 1 takes a number in r1; ")?;
        return write_fact(out, 1, state);
    }
    for (register, wanted) in [(1u8, "where to copy to"), (2u8, "where to copy from")] {
        if !is_pointer(kind_of(state, register)) {
            write!(out, "call 5 takes a pointer in r{register}, {wanted}; ")?;
            return write_fact(out, register, state);
        }
    }
    out.push_str("call 5 takes a number of at most 1024 in r3; ")?;
    write_fact(out, 3, state)
}

fn is_reply(insn: Insn) -> bool {
    match insn {
        Insn::Call { helper } => takes_number(helper),
        _ => false,
    }
}

fn is_pointer(kind: Kind) -> bool {
    matches!(
        kind,
        Kind::Rec { .. } | Kind::Arg { .. } | Kind::Stack { .. }
    )
}

// Prints that an address needs a pointer, and the fact about the address register.
fn write_address<A: Allocator>(
    out: &mut String<A>,
    insn: Insn,
    state: &State,
) -> Result<(), AllocError> {
    let [first, _, _] = registers_read(insn);
    let base = first.unwrap_or(0);
    write!(out, "an address needs a pointer in r{base}; ")?;
    write_fact(out, base, state)
}

// Prints that only a number can be stored, and the fact about the stored register.
fn write_stored<A: Allocator>(
    out: &mut String<A>,
    insn: Insn,
    state: &State,
) -> Result<(), AllocError> {
    let register = match insn {
        Insn::Store { src, .. } => src,
        _ => 0,
    };
    out.push_str("only a number can be stored; ")?;
    write_fact(out, register, state)
}

// Prints the operands that an operation takes. The operation is the first word of the instruction's text.
fn write_operation<A: Allocator>(
    out: &mut String<A>,
    insn: Insn,
    state: &State,
    text: &str,
) -> Result<(), AllocError> {
    let name = match text.split_once(' ') {
        Some((name, _)) => name,
        None => text,
    };
    let wanted = match name {
        "add" => "two numbers, or a pointer and a number",
        "sub" => "two numbers, or a number from a pointer",
        _ => "numbers alone",
    };
    write!(out, "{name} takes {wanted}; ")?;
    write_facts(out, insn, state, ", ")
}
