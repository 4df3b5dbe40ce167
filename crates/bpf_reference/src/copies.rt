//! The helper that copies bytes.

ghost use Rattle.std.specs.Prelude.{◌≡◌, ◌≤◌, ◌<◌, ◌+◌, ◌+ℤ◌, length, take, drop, IfSome};
ghost use Rattle.bpf_insn.specs.Code.{unit_limit};
ghost use Rattle.bpf_helpers.specs.Helpers.{copy_limit};
ghost use Rattle.bpf_helpers.specs.Machine.{inside, base_of, splice, copy_of, helper_call};
ghost use Rattle.bpf_helpers.specs.Runs.{record_limit, argument_limit};
ghost use Rattle.bpf_reference.specs.Cpu.{config_of, Leads, memory_of};

use crate::cpu::Cpu;
use crate::places::place_of;
use bpf_helpers::memory::{move_within, put};
use bpf_helpers::{COPY_LIMIT, Env, Helper, Region, Value};
use bpf_insn::{Code, Insn};
use std::alloc::Allocator;

/// The index of `count` bytes at an offset in a region, if all bytes are inside the region.
fn place_at(region: Region, offset: i64, count: usize, len: usize) -> Option<usize>
    requires few { count ≤ copy_limit }
    requires short { len ≤ record_limit }
    ensures value { result ≡ inside (offset +ℤ base_of region) count len }
    ensures fits { IfSome result (λ place. place + count ≤ len) }
{
    place_of(region, offset, 0, count, len)
}

/// Copies n bytes of a region into the record. The two ranges may overlap.
fn copy_to_record(
    bytes: &mut [u8],
    to: usize,
    cpu: &Cpu,
    argument: &[u8],
    region: Region,
    from: usize,
    n: usize,
)
    requires to_fits { to + n ≤ length bytes.old }
    requires limit { n ≤ copy_limit }
    requires bytes_fit { length bytes.old ≤ record_limit }
    requires argument_fits { length argument.now ≤ argument_limit }
    requires from_fits { from + n ≤ length (memory_of region cpu.now bytes.old argument.now) }
    ensures { bytes.new ≡ splice bytes.old to (take n (drop from (memory_of region cpu.now bytes.old argument.now))) }
{
    match region {
        Region::Record => move_within(bytes, to, from, n),
        Region::Argument => put(bytes, to, &argument[from..from + n]),
        Region::Stack => put(bytes, to, &cpu.stack[from..from + n]),
    }
}

/// Copies n bytes of a region onto the stack. The two ranges may overlap.
fn copy_to_stack(
    cpu: &mut Cpu,
    to: usize,
    bytes: &[u8],
    argument: &[u8],
    region: Region,
    from: usize,
    n: usize,
)
    requires to_fits { to + n ≤ 512 }
    requires limit { n ≤ copy_limit }
    requires bytes_fit { length bytes.now ≤ record_limit }
    requires argument_fits { length argument.now ≤ argument_limit }
    requires from_fits { from + n ≤ length (memory_of region cpu.old bytes.now argument.now) }
    ensures { cpu.new ≡ record cpu.old { stack = splice cpu.old.stack to (take n (drop from (memory_of region cpu.old bytes.now argument.now))) } }
{
    match region {
        Region::Record => put(&mut cpu.stack, to, &bytes[from..from + n]),
        Region::Argument => put(&mut cpu.stack, to, &argument[from..from + n]),
        Region::Stack => move_within(&mut cpu.stack, to, from, n),
    }
}

/// Copies bytes from one pointer to another.
fn copy<A: Allocator>(
    code: &Code<A>,
    cpu: &mut Cpu,
    bytes: &mut [u8],
    argument: &[u8],
    env: Env,
    to: (Region, i64),
    from: (Region, i64),
    count: u64,
) -> Option<Insn>
    requires place { cpu.old.place < unit_limit }
    requires bytes_fit { length bytes.old ≤ record_limit }
    requires argument_fits { length argument.now ≤ argument_limit }
    ensures { Leads code.now (copy_of to.0 to.1 from.0 from.1 count (config_of cpu.old bytes.old argument.now env)) (config_of cpu.old bytes.old argument.now env) (config_of cpu.new bytes.new argument.now env) result }
{
    if count > COPY_LIMIT {
        return None;
    }
    let n = count as usize;
    let to_place = place_at(to.0, to.1, n, cpu.memory(bytes, argument, to.0).len())?;
    let from_place = place_at(from.0, from.1, n, cpu.memory(bytes, argument, from.0).len())?;
    match to.0 {
        Region::Record => {
            let next = cpu.go(code, cpu.place + 1)?;
            copy_to_record(bytes, to_place, cpu, argument, from.0, from_place, n);
            cpu.answer(env, Helper::Copy, count);
            Some(next)
        }
        Region::Argument => None,
        Region::Stack => {
            let next = cpu.go(code, cpu.place + 1)?;
            copy_to_stack(cpu, to_place, bytes, argument, from.0, from_place, n);
            cpu.answer(env, Helper::Copy, count);
            Some(next)
        }
    }
}

/// Executes a call of the helper that copies: R1 is the destination, R2 the source, and R3 the number of bytes.
pub fn step_copy<A: Allocator>(
    code: &Code<A>,
    cpu: &mut Cpu,
    bytes: &mut [u8],
    argument: &[u8],
    env: Env,
) -> Option<Insn>
    requires place { cpu.old.place < unit_limit }
    requires bytes_fit { length bytes.old ≤ record_limit }
    requires argument_fits { length argument.now ≤ argument_limit }
    ensures { Leads code.now (helper_call (config_of cpu.old bytes.old argument.now env) Helper.Copy) (config_of cpu.old bytes.old argument.now env) (config_of cpu.new bytes.new argument.now env) result }
{
    let Value::Pointer(to, to_offset) = cpu.register(1) else {
        return None;
    };
    let Value::Pointer(from, from_offset) = cpu.register(2) else {
        return None;
    };
    let Value::Number(count) = cpu.register(3) else {
        return None;
    };
    copy(
        code,
        cpu,
        bytes,
        argument,
        env,
        (to, to_offset),
        (from, from_offset),
        count,
    )
}
