//! Stores.

ghost use Rattle.std.specs.Prelude.{List, ℕ, ◌<◌, ◌≤◌, length};
ghost use Rattle.bpf_insn.specs.Arithmetic.{bytes_of};
ghost use Rattle.bpf_insn.specs.Code.{unit_limit};
ghost use Rattle.bpf_insn.specs.Spelling.{IsRegister};
ghost use Rattle.bpf_helpers.specs.declared.values.Env.{Env as EnvOf};
ghost use Rattle.bpf_helpers.specs.Machine.{effect, after_number_store};
ghost use Rattle.bpf_helpers.specs.Runs.{record_limit};
ghost use Rattle.bpf_reference.specs.Cpu.{config_of, Leads};

use crate::cpu::Cpu;
use crate::places::place_of;
use bpf_helpers::memory::{count_of, write};
use bpf_helpers::{Region, Value};
use bpf_insn::{Code, Insn, Size};
use std::alloc::Allocator;

/// Stores the low bytes of a number at an address. Nothing is written unless an instruction begins at the next unit.
fn store<A: Allocator>(
    code: &Code<A>,
    cpu: &mut Cpu,
    bytes: &mut [u8],
    address: Value,
    by: i16,
    size: Size,
    x: u64,
) -> Option<Insn>
    requires place { cpu.old.place < unit_limit }
    requires bytes_fit { length bytes.old ≤ record_limit }
    ensures { (argument : List ℕ) (env : EnvOf) → Leads code.now (after_number_store (config_of cpu.old bytes.old argument env) address by (bytes_of size) x) (config_of cpu.old bytes.old argument env) (config_of cpu.new bytes.new argument env) result }
{
    let Value::Pointer(region, offset) = address else {
        return None;
    };
    match region {
        Region::Record => {
            let place = place_of(region, offset, by, count_of(size), bytes.len())?;
            let next = cpu.go(code, cpu.place + 1)?;
            write(bytes, place, size, x);
            Some(next)
        }
        Region::Argument => None,
        Region::Stack => {
            let place = place_of(region, offset, by, count_of(size), cpu.stack.len())?;
            let next = cpu.go(code, cpu.place + 1)?;
            write(&mut cpu.stack, place, size, x);
            Some(next)
        }
    }
}

/// Executes a store of an immediate.
pub fn step_store_imm<A: Allocator>(
    code: &Code<A>,
    cpu: &mut Cpu,
    bytes: &mut [u8],
    size: Size,
    base: u8,
    offset: i16,
    value: i32,
) -> Option<Insn>
    requires base { IsRegister base }
    requires place { cpu.old.place < unit_limit }
    requires bytes_fit { length bytes.old ≤ record_limit }
    ensures { (argument : List ℕ) (env : EnvOf) → Leads code.now (effect (Insn.StoreImm size base offset value) (config_of cpu.old bytes.old argument env)) (config_of cpu.old bytes.old argument env) (config_of cpu.new bytes.new argument env) result }
{
    let x = (value as i64).cast_unsigned();
    store(code, cpu, bytes, cpu.register(base), offset, size, x)
}

/// Executes a store of a register.
pub fn step_store<A: Allocator>(
    code: &Code<A>,
    cpu: &mut Cpu,
    bytes: &mut [u8],
    size: Size,
    base: u8,
    offset: i16,
    src: u8,
) -> Option<Insn>
    requires base { IsRegister base }
    requires src { IsRegister src }
    requires place { cpu.old.place < unit_limit }
    requires bytes_fit { length bytes.old ≤ record_limit }
    ensures { (argument : List ℕ) (env : EnvOf) → Leads code.now (effect (Insn.Store size base offset src) (config_of cpu.old bytes.old argument env)) (config_of cpu.old bytes.old argument env) (config_of cpu.new bytes.new argument env) result }
{
    let Value::Number(x) = cpu.register(src) else {
        return None;
    };
    store(code, cpu, bytes, cpu.register(base), offset, size, x)
}
