//! Executes one instruction.

ghost use Rattle.std.specs.Prelude.{◌≤◌, ℕ, List, length, IsTrue};
ghost use Rattle.bpf_helpers.specs.declared.values.Env.{Env as EnvOf};
ghost use Rattle.bpf_helpers.specs.Machine.{effect};
ghost use Rattle.bpf_helpers.specs.Runs.{record_limit, argument_limit};
ghost use Rattle.bpf_helpers.specs.Classes.{is_load, is_store};
ghost use Rattle.bpf_reference.specs.Cpu.{config_of, Leads, Begins};

use crate::arithmetic::{step_alu, step_unary};
use crate::calls::step_call;
use crate::cpu::Cpu;
use crate::jumps::{step_branch, step_jump};
use crate::loads::{step_load, step_load_signed};
use crate::stores::{step_store, step_store_imm};
use bpf_helpers::{Env, Value};
use bpf_insn::{Code, Insn};
use std::alloc::Allocator;

/// Executes a load, sign-extending or not.
fn step_any_load<A: Allocator>(
    code: &Code<A>,
    cpu: &mut Cpu,
    bytes: &[u8],
    argument: &[u8],
    insn: Insn,
) -> Option<Insn>
    requires here { Begins code.now cpu.old.place insn }
    requires load { IsTrue (is_load insn) }
    requires bytes_fit { length bytes.now ≤ record_limit }
    requires argument_fits { length argument.now ≤ argument_limit }
    ensures { (env : EnvOf) → Leads code.now (effect insn (config_of cpu.old bytes.now argument.now env)) (config_of cpu.old bytes.now argument.now env) (config_of cpu.new bytes.now argument.now env) result }
{
    match insn {
        Insn::Load {
            size,
            dst,
            base,
            offset,
        } => step_load(code, cpu, bytes, argument, size, dst, base, offset),
        Insn::LoadSigned {
            size,
            dst,
            base,
            offset,
        } => step_load_signed(code, cpu, bytes, argument, size, dst, base, offset),
        _ => unreachable!(),
    }
}

/// Executes a store, of an immediate or of a register.
fn step_any_store<A: Allocator>(
    code: &Code<A>,
    cpu: &mut Cpu,
    bytes: &mut [u8],
    insn: Insn,
) -> Option<Insn>
    requires here { Begins code.now cpu.old.place insn }
    requires store { IsTrue (is_store insn) }
    requires bytes_fit { length bytes.old ≤ record_limit }
    ensures { (argument : List ℕ) (env : EnvOf) → Leads code.now (effect insn (config_of cpu.old bytes.old argument env)) (config_of cpu.old bytes.old argument env) (config_of cpu.new bytes.new argument env) result }
{
    match insn {
        Insn::StoreImm {
            size,
            base,
            offset,
            value,
        } => step_store_imm(code, cpu, bytes, size, base, offset, value),
        Insn::Store {
            size,
            base,
            offset,
            src,
        } => step_store(code, cpu, bytes, size, base, offset, src),
        _ => unreachable!(),
    }
}

/// Executes an instruction and returns the next one. Returns `None`, and changes nothing, if the instruction is EXIT or has no effect, or
/// if no instruction begins at the unit to which it leads.
pub fn step<A: Allocator>(
    code: &Code<A>,
    cpu: &mut Cpu,
    bytes: &mut [u8],
    argument: &[u8],
    env: Env,
    insn: Insn,
) -> Option<Insn>
    requires here { Begins code.now cpu.old.place insn }
    requires bytes_fit { length bytes.old ≤ record_limit }
    requires argument_fits { length argument.now ≤ argument_limit }
    ensures { Leads code.now (effect insn (config_of cpu.old bytes.old argument.now env)) (config_of cpu.old bytes.old argument.now env) (config_of cpu.new bytes.new argument.now env) result }
{
    match insn {
        Insn::Alu {
            op,
            width,
            dst,
            src,
        } => step_alu(code, cpu, op, width, dst, src),
        Insn::Unary { op, width, dst } => step_unary(code, cpu, op, width, dst),
        Insn::Branch {
            test,
            width,
            dst,
            src,
            offset,
        } => step_branch(code, cpu, test, width, dst, src, offset),
        Insn::Jump { offset } => step_jump(code, cpu, offset as i32),
        Insn::JumpFar { offset } => step_jump(code, cpu, offset),
        Insn::Call { helper } => step_call(code, cpu, bytes, argument, env, helper),
        Insn::Exit => None,
        Insn::Wide { dst, value } => cpu.set(code, 2, dst, Value::Number(value)),
        Insn::Load { .. } | Insn::LoadSigned { .. } => {
            step_any_load(code, cpu, bytes, argument, insn)
        }
        _ => step_any_store(code, cpu, bytes, insn),
    }
}
