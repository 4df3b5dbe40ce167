//! Verdicts on programs, and runs of accepted programs with the value of the key afterwards.

use crate::lines::Input;
use bpf_asm::assemble;
use bpf_helpers::{ARGUMENT_LIMIT, RECORD_LIMIT};
use bpf_machine::{Ended, run};
use bpf_verify::{Verified, verify};
use std::alloc::{AllocError, Global};

// The accepted program of a text, or the reason why it is refused.
fn accepted(alloc: Global, text: &str) -> Result<Result<Verified, String>, AllocError> {
    let code = match assemble(alloc, text) {
        Ok(code) => code,
        Err(fault) => return Ok(Err(format!(in alloc; "no program: {fault}")?)),
    };
    match verify(alloc, code) {
        Ok(program) => Ok(Ok(program)),
        Err((fault, _code)) => Ok(Err(format!(in alloc; "{fault}")?)),
    }
}

/// The verdict on a text that is written on one line.
pub fn show_verdict(alloc: Global, text: &str) -> Result<String, AllocError> {
    let text = if text == "." { "" } else { text };
    let lines = text.replace(alloc, " / ", "\n")?;
    match accepted(alloc, lines.as_str())? {
        Ok(_program) => String::from_str(alloc, "accepted"),
        Err(fault) => Ok(fault),
    }
}

// A value as text: bytes, which may be empty, or `none` if the key has no value.
fn show_value(alloc: Global, value: Option<&[u8]>) -> Result<String, AllocError> {
    match value {
        None => String::from_str(alloc, "none"),
        Some(bytes) if bytes.is_empty() => String::from_str(alloc, "."),
        Some(bytes) => hex::encode(alloc, bytes),
    }
}

// The outcome of a run: its answer, and the value of the key after the exit number has taken effect.
fn show_end(
    alloc: Global,
    end: Ended,
    present: bool,
    before: &[u8],
    after: &[u8],
) -> Result<String, AllocError> {
    let value = match end.code {
        1 => Some(after),
        2 => None,
        _ if present => Some(before),
        _ => None,
    };
    let value = show_value(alloc, value)?;
    format!(in alloc;
        "code {}, word {}, {} steps, {value}",
        end.code, end.word, end.steps
    )
}

/// Runs a text on a record. If the text is refused, returns the reason.
pub fn show_example(alloc: Global, text: &str, input: Input) -> Result<String, AllocError> {
    let program = match accepted(alloc, text)? {
        Ok(program) => program,
        Err(fault) => return Ok(fault),
    };
    if input.bytes.len() > RECORD_LIMIT || input.argument.len() > ARGUMENT_LIMIT {
        return String::from_str(alloc, "a record or an argument that is too long");
    }
    let mut bytes = Vec::from_slice(alloc, &input.bytes)?;
    let end = run(&program, &input.env, &mut bytes, &input.argument);
    show_end(alloc, end, input.env.present, &input.bytes, &bytes)
}
