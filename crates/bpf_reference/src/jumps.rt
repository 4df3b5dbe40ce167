//! Jumps.

ghost use Rattle.std.specs.Prelude.{List, ℕ, ◌<◌};
ghost use Rattle.bpf_insn.specs.Code.{unit_limit};
ghost use Rattle.bpf_insn.specs.Spelling.{IsRegister, IsOperand};
ghost use Rattle.bpf_helpers.specs.declared.values.Env.{Env as EnvOf};
ghost use Rattle.bpf_helpers.specs.Machine.{effect, jump_by};
ghost use Rattle.bpf_reference.specs.Cpu.{config_of, Leads};

use crate::cpu::Cpu;
use crate::values::comparison;
use bpf_insn::{Code, Insn, Operand, Test, Width};
use std::alloc::Allocator;

/// Executes a jump by `distance` units from the next unit.
pub fn step_jump<A: Allocator>(code: &Code<A>, cpu: &mut Cpu, distance: i32) -> Option<Insn>
    requires place { cpu.old.place < unit_limit }
    ensures { (bytes argument : List ℕ) (env : EnvOf) → Leads code.now (jump_by distance (config_of cpu.old bytes argument env)) (config_of cpu.old bytes argument env) (config_of cpu.new bytes argument env) result }
{
    if distance < 0 {
        return None;
    }
    let place = cpu.place + 1 + distance as usize;
    cpu.go(code, place)
}

/// Executes a jump that is taken if a test holds.
pub fn step_branch<A: Allocator>(
    code: &Code<A>,
    cpu: &mut Cpu,
    test: Test,
    width: Width,
    dst: u8,
    src: Operand,
    offset: i16,
) -> Option<Insn>
    requires dst { IsRegister dst }
    requires src { IsOperand src }
    requires place { cpu.old.place < unit_limit }
    ensures { (bytes argument : List ℕ) (env : EnvOf) → Leads code.now (effect (Insn.Branch test width dst src offset) (config_of cpu.old bytes argument env)) (config_of cpu.old bytes argument env) (config_of cpu.new bytes argument env) result }
{
    let holds = comparison(test, width, cpu.register(dst), cpu.operand(src))?;
    if holds {
        return step_jump(code, cpu, offset as i32);
    }
    cpu.go(code, cpu.place + 1)
}
