//! Runs on the checked machine, and runs of accepted programs on both machines.

use crate::both::{Tally, count_changed, count_runs};
use crate::lines::{Input, UNREAD, read_run};
use bpf_helpers::{ARGUMENT_LIMIT, Env, RECORD_LIMIT};
use bpf_insn::Code;
use bpf_machine::{Checked, run_checked};
use bpf_verify::{Verified, verify};
use std::alloc::{AllocError, Global};

// Bytes in hex, with N trailing zeros as `+N`.
fn show_bytes(alloc: Global, bytes: &[u8]) -> Result<String, AllocError> {
    let all = hex::encode(alloc, bytes)?;
    let digits = all.as_str().trim_end_matches("00");
    let zeros = bytes.len().saturating_sub(digits.len() / 2);
    let digits = if digits.is_empty() { "." } else { digits };
    if zeros == 0 {
        return String::from_str(alloc, digits);
    }
    format!(in alloc; "{digits}+{zeros}")
}

// The result of a run on the checked machine, and the record that it leaves.
fn show_checked(
    alloc: Global,
    code: &Code,
    env: &Env,
    bytes: &[u8],
    argument: &[u8],
) -> Result<String, AllocError> {
    let mut bytes = Vec::from_slice(alloc, bytes)?;
    if bytes.len() > RECORD_LIMIT || argument.len() > ARGUMENT_LIMIT {
        return String::from_str(alloc, "a record or an argument that is too long");
    }
    let answer = run_checked(code, env, &mut bytes, argument);
    let left = show_bytes(alloc, &bytes)?;
    match answer {
        Checked::Ended(end) => {
            format!(in alloc; "ended {} {} {} {left}", end.code, end.word, end.steps)
        }
        Checked::Stuck(at) => format!(in alloc; "stuck {at} {left}"),
    }
}

// The answer of the checked machine to an accepted program. Also says whether the program and variants of it run alike on both
// machines.
fn show_both(
    alloc: Global,
    program: &Verified,
    env: &Env,
    bytes: &[u8],
    argument: &[u8],
) -> Result<String, AllocError> {
    let answer = show_checked(alloc, program.code(), env, bytes, argument)?;
    let mut tally = Tally::new();
    count_runs(alloc, program, env, bytes, argument, &mut tally)?;
    count_changed(alloc, program, env, bytes, argument, &mut tally)?;
    let alike = tally.alike;
    if tally.unlike == 0 {
        return format!(in alloc; "{answer}, alike in {alike} runs");
    }
    format!(in alloc; "{answer}, unlike in {} runs", tally.unlike)
}

// The result of running a code.
fn show_code(alloc: Global, code: Code, input: Input) -> Result<String, AllocError> {
    let Input {
        env,
        bytes,
        argument,
    } = input;
    match verify(alloc, code) {
        Ok(program) => show_both(alloc, &program, &env, &bytes, &argument),
        Err((_, code)) => show_checked(alloc, &code, &env, &bytes, &argument),
    }
}

/// The result of running a program of the given kind.
pub fn show_run(alloc: Global, kind: &str, words: &str) -> Result<String, AllocError> {
    match read_run(alloc, kind, words) {
        Some((code, input)) => show_code(alloc, code, input),
        None => String::from_str(alloc, UNREAD),
    }
}
