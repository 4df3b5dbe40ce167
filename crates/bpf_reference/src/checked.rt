//! Whole runs with checks of each instruction.

ghost use Rattle.std.specs.Prelude.{◌≡◌, ◌≤◌, List, ℕ, length};
ghost use Rattle.bpf_helpers.specs.declared.values.Env.{Env as EnvOf};
ghost use Rattle.bpf_helpers.specs.Runs.{record_limit, argument_limit};
ghost use Rattle.bpf_reference.specs.Cpu.{config_of};
ghost use Rattle.bpf_reference.specs.Checked.{Tells, Finishes};

use crate::cpu::Cpu;
use crate::steps::step;
use bpf_helpers::{Ended, Env, Value};
use bpf_insn::{Code, Insn};
use std::alloc::Allocator;

/// The result of a run of any code.
#[derive(Clone, Copy, Debug, PartialEq, Eq)]
pub enum Checked {
    /// The run reached EXIT with a number in R0.
    Ended(Ended),
    /// The run is stuck at this unit: the instruction there has no effect or leads to no instruction, or the code is empty.
    Stuck(usize),
}

/// The result of a run at an instruction without a successor: the end if the instruction is EXIT with a number in R0, otherwise stuck.
fn finished(cpu: &Cpu, insn: Insn, steps: usize) -> Checked
    ensures { (bytes argument : List ℕ) (env : EnvOf) → Finishes insn (config_of cpu.now bytes argument env) steps result }
{
    if let Insn::Exit = insn {
        if let Value::Number(code) = cpu.registers[0] {
            return Checked::Ended(Ended {
                code,
                word: cpu.word,
                steps,
            });
        }
    }
    Checked::Stuck(cpu.place)
}

/// Like `run_checked`, with the environment by value.
fn run_with<A: Allocator>(code: &Code<A>, env: Env, bytes: &mut [u8], argument: &[u8]) -> Checked
    requires bytes_fit { length bytes.old ≤ record_limit }
    requires argument_fits { length argument.now ≤ argument_limit }
    ensures { Tells code.now bytes.old argument.now env result bytes.new }
{
    let mut cpu = Cpu::start(bytes, argument);
    let Some(first) = code.insn_at(0) else {
        return Checked::Stuck(0);
    };
    let mut insn = first;
    let mut steps = 0;
    'steps: loop {
        match step(code, &mut cpu, bytes, argument, env, insn) {
            Some(next) => {
                insn = next;
                steps += 1;
            }
            None => return finished(&cpu, insn, steps + 1),
        }
    }
}

/// Runs a code on a record and an argument, with every check in the definition of a step. Returns how the run ended, or the unit at which
/// the run is stuck; no other result is possible. The record, of at most 8,008 bytes, is changed in place. If the run is stuck, the record
/// has the bytes written so far. The argument has at most 1,024 bytes. Allocates no memory.
pub fn run_checked<A: Allocator>(
    code: &Code<A>,
    env: &Env,
    bytes: &mut [u8],
    argument: &[u8],
) -> Checked
    requires bytes_fit { length bytes.old ≤ record_limit }
    requires argument_fits { length argument.now ≤ argument_limit }
    ensures tells { Tells code.now bytes.old argument.now env.entry.now result bytes.new }
    ensures alone { (answer : Checked) (left : List ℕ) → Tells code.now bytes.old argument.now env.entry.now answer left → (answer ≡ result) × (left ≡ bytes.new) }
{
    run_with(code, *env, bytes, argument)
}
