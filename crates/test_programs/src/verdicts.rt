//! Verdicts, and the kinds of registers.

use bpf_asm::assemble;
use bpf_explain::{Explanation, explain_accepted, explain_refused};
use bpf_insn::Code;
use bpf_range::Kind;
use bpf_verify::{Examined, Refused, examine, verify};
use std::alloc::{AllocError, Global};
use std::fmt::Write;

// The code of a program that is written on one line.
fn code_of(alloc: Global, text: &str) -> Result<Result<Code, String>, AllocError> {
    let text = if text == "." { "" } else { text };
    let lines = text.replace(alloc, " / ", "\n")?;
    match assemble(alloc, lines.as_str()) {
        Ok(code) => Ok(Ok(code)),
        Err(fault) => Ok(Err(format!(in alloc; "no program: {fault}")?)),
    }
}

// Examines a text. Returns the accepted program, or the fault.
fn accepted(alloc: Global, text: &str) -> Result<Result<Examined, String>, AllocError> {
    let code = match code_of(alloc, text)? {
        Ok(code) => code,
        Err(fault) => return Ok(Err(fault)),
    };
    match examine(alloc, code) {
        Ok(examined) => Ok(Ok(examined)),
        Err(Refused { fault, .. }) => Ok(Err(format!(in alloc; "{fault}")?)),
    }
}

// The verdict on a text. `verify` and `examine` have to agree.
fn show_verdict(alloc: Global, text: &str) -> Result<String, AllocError> {
    let code = match code_of(alloc, text)? {
        Ok(code) => code,
        Err(fault) => return Ok(fault),
    };
    let verdict = match verify(alloc, code) {
        Ok(_verified) => String::from_str(alloc, "accepted")?,
        Err((fault, _code)) => format!(in alloc; "{fault}")?,
    };
    let examined = match accepted(alloc, text)? {
        Ok(_examined) => String::from_str(alloc, "accepted")?,
        Err(fault) => fault,
    };
    if verdict.as_str() != examined.as_str() {
        return format!(in alloc; "{verdict}, but {examined} where all is kept");
    }
    Ok(verdict)
}

// The verdict on a text with `mov r0, 0 / exit` appended.
fn show_ended(alloc: Global, text: &str) -> Result<String, AllocError> {
    let text = format!(in alloc; "{text} / mov r0, 0 / exit")?;
    show_verdict(alloc, text.as_str())
}

// The verdict on a text with each `*` replaced by a number of instructions.
fn show_filled(alloc: Global, words: &str) -> Result<String, AllocError> {
    let Some((count, text)) = words.split_once(' ') else {
        return String::from_str(alloc, "a line without a text");
    };
    let Ok(count) = count.parse::<usize>() else {
        return String::from_str(alloc, "a count that is no number");
    };
    let mut filling = String::from_str(alloc, "mov r0, 0")?;
    for _ in 1..count {
        filling.push_str(" / mov r0, 0")?;
    }
    let text = text.replace(alloc, "*", filling.as_str())?;
    show_verdict(alloc, text.as_str())
}

// Appends the kind of a register.
fn push_kind(out: &mut String, kind: Kind) -> Result<(), AllocError> {
    match kind {
        Kind::Unset => write!(out, "unset"),
        Kind::RecLen => write!(out, "record's length"),
        Kind::ArgLen => write!(out, "argument's length"),
        Kind::Rec { lo, hi } => write!(out, "record {lo}..{hi}"),
        Kind::Arg { lo, hi } => write!(out, "argument {lo}..{hi}"),
        Kind::Stack { lo, hi } => write!(out, "stack {lo}..{hi}"),
        Kind::Num(known) => {
            let range = known.range();
            let bits = known.bits();
            write!(
                out,
                "{}..{},{},{}",
                range.lo, range.hi, bits.value, bits.unknown
            )
        }
    }
}

// Appends the kinds of the registers at a unit.
fn push_kinds(out: &mut String, examined: &Examined, at: usize) -> Result<(), AllocError> {
    let Some(state) = examined.states().get(at) else {
        return out.push_str("nothing");
    };
    for register in 0..11usize {
        match state.kinds[register] {
            Kind::Unset => {}
            kind => {
                let mark = if out.is_empty() { "" } else { "; " };
                write!(out, "{mark}r{register} ")?;
                push_kind(out, kind)?;
            }
        }
    }
    Ok(())
}

fn show_kinds(alloc: Global, words: &str) -> Result<String, AllocError> {
    let Some((unit, text)) = words.split_once(' ') else {
        return String::from_str(alloc, "a line without a text");
    };
    let Ok(unit) = unit.parse::<usize>() else {
        return String::from_str(alloc, "a unit that is no number");
    };
    match accepted(alloc, text)? {
        Ok(examined) => {
            let mut out = String::new(alloc);
            push_kinds(&mut out, &examined, unit)?;
            Ok(out)
        }
        Err(fault) => Ok(fault),
    }
}

// The explanation of a text, and its code as text.
fn explained(alloc: Global, text: &str) -> Result<Option<(Explanation, String)>, AllocError> {
    let text = if text == "." { "" } else { text };
    let lines = text.replace(alloc, " / ", "\n")?;
    let Ok(code) = assemble(alloc, lines.as_str()) else {
        return Ok(None);
    };
    let explanation = match examine(alloc, code) {
        Ok(examined) => explain_accepted(alloc, &examined)?,
        Err(refused) => explain_refused(alloc, &refused)?,
    };
    Ok(Some((explanation, lines)))
}

// The explanation of a program, with ` / ` between its lines; if not `is_whole`, only the refusal, in a sentence.
fn show_explained(alloc: Global, text: &str, is_whole: bool) -> Result<String, AllocError> {
    let Some((explanation, lines)) = explained(alloc, text)? else {
        return String::from_str(alloc, "no program");
    };
    let source = Some(lines.as_str());
    if !is_whole {
        return explanation.refusal(alloc, source);
    }
    let told = explanation.text(alloc, source)?;
    told.as_str().trim_end().replace(alloc, "\n", " / ")
}

/// The answer to a line, given its first word and its other words.
pub fn show_verified(alloc: Global, word: &str, rest: &str) -> Result<String, AllocError> {
    match word {
        "program" => show_verdict(alloc, rest),
        "ends" => show_ended(alloc, rest),
        "filled" => show_filled(alloc, rest),
        "explain" => show_explained(alloc, rest, true),
        "why" => show_explained(alloc, rest, false),
        _ => show_kinds(alloc, rest),
    }
}
