//! Calls of helpers.

ghost use Rattle.std.specs.Prelude.{◌≡◌, ◌∷◌, List, ℕ, ◌<◌, drop, length, ◌≤◌, Some};
ghost use Rattle.bpf_insn.specs.Code.{unit_limit};
ghost use Rattle.bpf_helpers.specs.Helpers.{answer_of};
ghost use Rattle.bpf_helpers.specs.Machine.{answered, after_reply, register, call_by_number};
ghost use Rattle.bpf_helpers.specs.Runs.{record_limit, argument_limit};
ghost use Rattle.bpf_reference.specs.Cpu.{config_of, Leads, answered_cpu};

use crate::copies::step_copy;
use crate::cpu::Cpu;
use bpf_helpers::{Env, Helper, Value, helper_of};
use bpf_insn::{Code, Insn};
use std::alloc::Allocator;

/// Sets the registers after a call: R0 has the answer, and R1 to R5 are unset.
fn put_answer(registers: &mut [Value; 11], value: u64)
    ensures { registers.new ≡ Value.Number value ∷ Value.Nothing ∷ Value.Nothing ∷ Value.Nothing ∷ Value.Nothing ∷ Value.Nothing ∷ drop 6 registers.old }
{
    registers[0] = Value::Number(value);
    registers[1] = Value::Nothing;
    registers[2] = Value::Nothing;
    registers[3] = Value::Nothing;
    registers[4] = Value::Nothing;
    registers[5] = Value::Nothing;
}

impl Cpu {
    /// Calls a helper, puts its answer into R0, and sets the reply word.
    pub fn answer(&mut self, env: Env, helper: Helper, given: u64)
        ensures { self.new ≡ answered_cpu (answer_of helper given env self.old.word) self.old }
    {
        let value = helper.answer(given, &env, &mut self.word);
        put_answer(&mut self.registers, value);
    }
}

/// Executes a call of a helper that touches no memory, with a number as argument.
fn step_answer<A: Allocator>(
    code: &Code<A>,
    cpu: &mut Cpu,
    env: Env,
    helper: Helper,
    given: u64,
) -> Option<Insn>
    requires place { cpu.old.place < unit_limit }
    ensures { (bytes argument : List ℕ) → Leads code.now (Some (answered helper given (config_of cpu.old bytes argument env))) (config_of cpu.old bytes argument env) (config_of cpu.new bytes argument env) result }
{
    let next = cpu.go(code, cpu.place + 1)?;
    cpu.answer(env, helper, given);
    Some(next)
}

/// Executes a call that sets the reply word to the number in R1.
fn step_reply<A: Allocator>(code: &Code<A>, cpu: &mut Cpu, env: Env) -> Option<Insn>
    requires place { cpu.old.place < unit_limit }
    ensures { (bytes argument : List ℕ) → Leads code.now (after_reply (register (config_of cpu.old bytes argument env) 1) (config_of cpu.old bytes argument env)) (config_of cpu.old bytes argument env) (config_of cpu.new bytes argument env) result }
{
    let Value::Number(given) = cpu.register(1) else {
        return None;
    };
    step_answer(code, cpu, env, Helper::Reply, given)
}

/// Executes a call of a helper by its number.
pub fn step_call<A: Allocator>(
    code: &Code<A>,
    cpu: &mut Cpu,
    bytes: &mut [u8],
    argument: &[u8],
    env: Env,
    id: i32,
) -> Option<Insn>
    requires place { cpu.old.place < unit_limit }
    requires bytes_fit { length bytes.old ≤ record_limit }
    requires argument_fits { length argument.now ≤ argument_limit }
    ensures { Leads code.now (call_by_number id (config_of cpu.old bytes.old argument.now env)) (config_of cpu.old bytes.old argument.now env) (config_of cpu.new bytes.new argument.now env) result }
{
    match helper_of(id)? {
        Helper::Reply => step_reply(code, cpu, env),
        Helper::Copy => step_copy(code, cpu, bytes, argument, env),
        Helper::Now => step_answer(code, cpu, env, Helper::Now, 0),
        Helper::Present => step_answer(code, cpu, env, Helper::Present, 0),
        Helper::Who => step_answer(code, cpu, env, Helper::Who, 0),
    }
}
