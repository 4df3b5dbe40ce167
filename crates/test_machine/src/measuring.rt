//! Measurements and their reports.

use crate::lines::{UNREAD, read_bytes};
use crate::programs::{counter, line};
use bpf_helpers::{ARGUMENT_LIMIT, Env, RECORD_LIMIT};
use bpf_insn::{decode, encode};
use bpf_machine::{Checked, run, run_checked};
use bpf_verify::{Verified, verify};
use std::alloc::Global;
use std::io;
use std::rt::Clock;
use std::time::Instant;

/// The work to measure.
#[derive(Clone, Copy)]
enum Work {
    Run,
    RunChecked,
    Verify,
}

/// A requested measurement.
#[derive(Drop)]
struct Measurement {
    work: Work,
    program: Verified,
    bytes: Vec<u8>,
    argument: Vec<u8>,
    // true if each run begins with the same record
    again: bool,
    rounds: u64,
}

/// The sums over all rounds.
#[derive(Clone, Copy)]
struct Total {
    steps: u64,
    sum: u64,
    nanos: u128,
}

const ENV: Env = Env {
    now: 1700000000,
    present: true,
    who: 3,
};

// Runs a program once, on the checked machine for `RunChecked`. Returns the steps and the result.
fn run_once(asked: &Measurement, bytes: &mut [u8]) -> Option<(u64, u64)> {
    if bytes.len() > RECORD_LIMIT || asked.argument.len() > ARGUMENT_LIMIT {
        return None;
    }
    let argument = asked.argument.as_slice();
    if let Work::RunChecked = asked.work {
        let Checked::Ended(ended) = run_checked(asked.program.code(), &ENV, bytes, argument) else {
            return None;
        };
        return Some((ended.steps as u64, ended.code));
    }
    let ended = run(&asked.program, &ENV, bytes, argument);
    Some((ended.steps as u64, ended.code))
}

// Runs a program once in each round.
fn run_rounds(rt: &impl Clock, alloc: Global, asked: &Measurement) -> io::Result<Total> {
    let mut bytes = Vec::from_slice(alloc, &asked.bytes)?;
    let mut total = Total {
        steps: 0,
        sum: 0,
        nanos: 0,
    };
    let start = Instant::now(rt)?;
    for _ in 0..asked.rounds {
        if asked.again && bytes.len() == asked.bytes.len() {
            bytes.copy_from_slice(&asked.bytes);
        }
        if let Some((steps, code)) = run_once(asked, &mut bytes) {
            total.steps = total.steps.wrapping_add(steps);
            total.sum = total.sum.wrapping_add(code);
        }
    }
    total.nanos = start.elapsed(rt)?.as_nanos();
    Ok(total)
}

// Verifies a program once in each round. Counts its units as steps.
fn verify_rounds(rt: &impl Clock, alloc: Global, asked: &Measurement) -> io::Result<Total> {
    let image = encode(alloc, asked.program.code())?;
    let mut total = Total {
        steps: 0,
        sum: 0,
        nanos: 0,
    };
    for _ in 0..asked.rounds {
        let Ok(code) = decode(alloc, &image) else {
            continue;
        };
        let start = Instant::now(rt)?;
        let verdict = verify(alloc, code);
        total.nanos = total.nanos.wrapping_add(start.elapsed(rt)?.as_nanos());
        if let Ok(program) = verdict {
            total.steps = total.steps.wrapping_add(program.code().units() as u64);
            total.sum = total.sum.wrapping_add(1);
        }
    }
    Ok(total)
}

fn measure(rt: &impl Clock, alloc: Global, asked: &Measurement) -> io::Result<Total> {
    match asked.work {
        Work::Verify => verify_rounds(rt, alloc, asked),
        _ => run_rounds(rt, alloc, asked),
    }
}

fn read_work(word: &str) -> Option<Work> {
    match word {
        "run" => Some(Work::Run),
        "run_checked" => Some(Work::RunChecked),
        "verify" => Some(Work::Verify),
        _ => None,
    }
}

// The measurement of a built-in program on a record of 8 zeros.
fn own_measurement(
    alloc: Global,
    work: Work,
    program: Verified,
    rounds: &str,
) -> Option<Measurement> {
    Some(Measurement {
        work,
        program,
        bytes: vec![in alloc; 0u8; 8].ok()?,
        argument: Vec::new(alloc),
        again: false,
        rounds: rounds.parse::<u64>().ok()?,
    })
}

// Reads the measurement of an image's program on its input.
fn image_measurement(alloc: Global, work: Work, words: &str) -> Option<Measurement> {
    let (bytes, rest) = words.split_once(' ')?;
    let (argument, rest) = rest.split_once(' ')?;
    let (image, rounds) = rest.split_once(' ')?;
    let image = read_bytes(alloc, image)?;
    let code = decode(alloc, &image).ok()?;
    Some(Measurement {
        work,
        program: verify(alloc, code).ok()?,
        bytes: read_bytes(alloc, bytes)?,
        argument: read_bytes(alloc, argument)?,
        again: true,
        rounds: rounds.parse::<u64>().ok()?,
    })
}

// Reads the measurement of a line.
fn read_measurement(alloc: Global, line_of: &str) -> Option<Measurement> {
    let (work, rest) = line_of.split_once(' ')?;
    let (name, rest) = rest.split_once(' ')?;
    let work = read_work(work)?;
    match name {
        "counter" => own_measurement(alloc, work, counter(alloc)?, rest),
        "line" => {
            let (length, rounds) = rest.split_once(' ')?;
            let program = line(alloc, length.parse::<u32>().ok()?)?;
            own_measurement(alloc, work, program, rounds)
        }
        "image" => image_measurement(alloc, work, rest),
        _ => None,
    }
}

/// The answer to a line.
pub fn show_measurement(rt: &impl Clock, alloc: Global, text: &str) -> io::Result<String> {
    let (timed, rest) = match text.strip_prefix("time ") {
        Some(rest) => (true, rest),
        None => (false, text),
    };
    let Some(asked) = read_measurement(alloc, rest) else {
        return Ok(String::from_str(alloc, UNREAD)?);
    };
    let total = measure(rt, alloc, &asked)?;
    let Total { steps, sum, nanos } = total;
    if !timed || nanos == 0 || asked.rounds == 0 {
        return Ok(format!(in alloc; "{rest}: {steps} steps, sum {sum}")?);
    }
    let speed = (steps as u128) * 1_000_000_000 / nanos;
    let round = nanos / (asked.rounds as u128);
    Ok(format!(in alloc;
        "{rest}: {steps} steps, sum {sum}, {speed} instructions a second, {round} ns a run"
    )?)
}
