//! Loads.

ghost use Rattle.std.specs.Prelude.{◌≡◌, List, ℕ, ◌<◌, ◌≤◌, length};
ghost use Rattle.bpf_insn.specs.Arithmetic.{bytes_of};
ghost use Rattle.bpf_insn.specs.Code.{unit_limit};
ghost use Rattle.bpf_insn.specs.Spelling.{IsRegister};
ghost use Rattle.bpf_helpers.specs.declared.values.Env.{Env as EnvOf};
ghost use Rattle.bpf_helpers.specs.Machine.{effect, loaded_number};
ghost use Rattle.bpf_helpers.specs.Runs.{record_limit, argument_limit};
ghost use Rattle.bpf_reference.specs.Cpu.{config_of, Leads};

use crate::cpu::Cpu;
use crate::places::place_of;
use bpf_helpers::Value;
use bpf_helpers::memory::{count_of, read};
use bpf_insn::{Code, Insn, Size, sign_extended};
use std::alloc::Allocator;

/// Reads the number at an address.
fn load(
    cpu: &Cpu,
    bytes: &[u8],
    argument: &[u8],
    address: Value,
    by: i16,
    size: Size,
) -> Option<u64>
    requires bytes_fit { length bytes.now ≤ record_limit }
    requires argument_fits { length argument.now ≤ argument_limit }
    ensures { (env : EnvOf) → result ≡ loaded_number (config_of cpu.now bytes.now argument.now env) address by (bytes_of size) }
{
    let Value::Pointer(region, offset) = address else {
        return None;
    };
    let memory = cpu.memory(bytes, argument, region);
    let place = place_of(region, offset, by, count_of(size), memory.len())?;
    Some(read(memory, place, size))
}

/// Executes a load.
pub fn step_load<A: Allocator>(
    code: &Code<A>,
    cpu: &mut Cpu,
    bytes: &[u8],
    argument: &[u8],
    size: Size,
    dst: u8,
    base: u8,
    offset: i16,
) -> Option<Insn>
    requires dst { IsRegister dst }
    requires base { IsRegister base }
    requires place { cpu.old.place < unit_limit }
    requires bytes_fit { length bytes.now ≤ record_limit }
    requires argument_fits { length argument.now ≤ argument_limit }
    ensures { (env : EnvOf) → Leads code.now (effect (Insn.Load size dst base offset) (config_of cpu.old bytes.now argument.now env)) (config_of cpu.old bytes.now argument.now env) (config_of cpu.new bytes.now argument.now env) result }
{
    let x = load(cpu, bytes, argument, cpu.register(base), offset, size)?;
    cpu.set(code, 1, dst, Value::Number(x))
}

/// Executes a sign-extending load.
pub fn step_load_signed<A: Allocator>(
    code: &Code<A>,
    cpu: &mut Cpu,
    bytes: &[u8],
    argument: &[u8],
    size: Size,
    dst: u8,
    base: u8,
    offset: i16,
) -> Option<Insn>
    requires dst { IsRegister dst }
    requires base { IsRegister base }
    requires place { cpu.old.place < unit_limit }
    requires bytes_fit { length bytes.now ≤ record_limit }
    requires argument_fits { length argument.now ≤ argument_limit }
    ensures { (env : EnvOf) → Leads code.now (effect (Insn.LoadSigned size dst base offset) (config_of cpu.old bytes.now argument.now env)) (config_of cpu.old bytes.now argument.now env) (config_of cpu.new bytes.now argument.now env) result }
{
    let x = load(cpu, bytes, argument, cpu.register(base), offset, size)?;
    cpu.set(code, 1, dst, Value::Number(sign_extended(size, x)))
}
