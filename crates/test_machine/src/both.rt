//! Runs on both machines.

use bpf_helpers::{ARGUMENT_LIMIT, Env, RECORD_LIMIT};
use bpf_insn::{decode, encode};
use bpf_machine::{Checked, run, run_checked};
use bpf_verify::{Verified, verify};
use std::alloc::{AllocError, Global};

/// The number of runs that were the same on both machines, and the number of runs that were not.
#[derive(Clone, Copy)]
pub struct Tally {
    pub alike: u64,
    pub unlike: u64,
}

impl Tally {
    /// Creates a tally without runs.
    pub fn new() -> Tally {
        Tally {
            alike: 0,
            unlike: 0,
        }
    }

    fn count(&mut self, same: bool) {
        if same {
            self.alike = self.alike.wrapping_add(1);
        } else {
            self.unlike = self.unlike.wrapping_add(1);
        }
    }
}

/// Returns `true` if both machines answer a run alike, within the program's length, and leave the same record.
pub fn is_alike(
    alloc: Global,
    program: &Verified,
    env: &Env,
    bytes: &[u8],
    argument: &[u8],
) -> Result<bool, AllocError> {
    let mut tested = Vec::from_slice(alloc, bytes)?;
    let mut untested = Vec::from_slice(alloc, bytes)?;
    if tested.len() > RECORD_LIMIT || untested.len() > RECORD_LIMIT {
        return Ok(false);
    }
    if argument.len() > ARGUMENT_LIMIT {
        return Ok(false);
    }
    let steps = program.code().len();
    let checked = run_checked(program.code(), env, &mut tested, argument);
    let ended = run(program, env, &mut untested, argument);
    let same = checked == Checked::Ended(ended) && tested == untested;
    Ok(same && ended.steps <= steps)
}

/// Runs a program on a record and an argument, and on variants of these and of the environment. Counts the runs.
pub fn count_runs(
    alloc: Global,
    program: &Verified,
    env: &Env,
    bytes: &[u8],
    argument: &[u8],
    tally: &mut Tally,
) -> Result<(), AllocError> {
    tally.count(is_alike(alloc, program, env, bytes, argument)?);
    tally.count(is_alike(alloc, program, env, bytes, &[])?);
    tally.count(is_alike(alloc, program, env, &[], argument)?);
    tally.count(is_alike(alloc, program, env, argument, argument)?);
    let half = bytes.len() / 2;
    tally.count(is_alike(alloc, program, env, &bytes[half..], argument)?);
    let mut turned = Vec::from_slice(alloc, bytes)?;
    for byte in turned.iter_mut() {
        *byte = !*byte;
    }
    tally.count(is_alike(alloc, program, env, &turned, argument)?);
    let absent = Env {
        now: env.who,
        present: !env.present,
        who: env.now,
    };
    tally.count(is_alike(alloc, program, &absent, bytes, argument)?);
    Ok(())
}

/// Changes each byte of a program's image in turn, runs the changed program if it is accepted, and counts the runs.
pub fn count_changed(
    alloc: Global,
    program: &Verified,
    env: &Env,
    bytes: &[u8],
    argument: &[u8],
    tally: &mut Tally,
) -> Result<(), AllocError> {
    let mut image = encode(alloc, program.code())?;
    for i in 0..image.len() {
        let old = image[i];
        image[i] = old ^ (1 << (i % 7));
        if let Ok(code) = decode(alloc, &image) {
            if let Ok(changed) = verify(alloc, code) {
                tally.count(is_alike(alloc, &changed, env, bytes, argument)?);
            }
        }
        image[i] = old;
    }
    Ok(())
}
