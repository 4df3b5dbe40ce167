//! The helper that copies bytes.

ghost use Rattle.std.specs.Prelude.{◌≡◌, ◌≤◌, ◌+◌, Some, IsSome, length, take, drop, slice_index};
ghost use Rattle.std.specs.Option.{option_and_then};
ghost use Rattle.bpf_helpers.specs.declared.values.Env.{Env as EnvOf};
ghost use Rattle.bpf_helpers.specs.declared.values.Region.TheVariants.{Record, Stack as StackBytes};
ghost use Rattle.bpf_helpers.specs.Helpers.{copy_limit};
ghost use Rattle.bpf_helpers.specs.Machine.{splice, with_contents};
ghost use Rattle.bpf_helpers.specs.Runs.{record_limit, argument_limit};
ghost use Rattle.bpf_machine.specs.Words.{pointed, bare, bytes_at, pasted, Copies};

use crate::cores::Core;
use crate::places::place_at;
use bpf_helpers::Region;
use bpf_helpers::memory::{move_within, put};

/// Copies n bytes from an index of one region to an index of another.
fn put_part(to: &mut [u8], at: usize, from: &[u8], start: usize, n: usize)
    requires to_fits { at + n ≤ length to.old }
    requires from_fits { start + n ≤ length from.now }
    requires limit { n ≤ copy_limit }
    requires to_short { length to.old ≤ record_limit }
    requires from_short { length from.now ≤ record_limit }
    ensures { to.new ≡ splice to.old at (take n (drop start from.now)) }
{
    put(to, at, &from[start..start + n]);
}

/// Copies the n bytes at an address to an index of the record.
fn copy_to_record(
    core: &Core,
    bytes: &mut [u8],
    argument: &[u8],
    to: usize,
    region: Region,
    word: u64,
    n: usize,
)
    requires bytes_fit { length bytes.old ≤ record_limit }
    requires argument_fits { length argument.now ≤ argument_limit }
    requires limit { n ≤ copy_limit }
    requires to_fits { to + n ≤ length bytes.old }
    requires goes { IsSome (bytes_at (bare 0 core.now bytes.old argument.now) (pointed region word) n) }
    ensures { option_and_then (with_contents (bare 0 core.now bytes.old argument.now) Record to) (bytes_at (bare 0 core.now bytes.old argument.now) (pointed region word) n) ≡ Some (bare 0 core.now bytes.new argument.now) }
{
    match region {
        Region::Record => {
            let start = place_at(region, word, n, bytes.len());
            move_within(bytes, to, start, n);
        }
        Region::Argument => {
            let start = place_at(region, word, n, argument.len());
            put_part(bytes, to, argument, start, n);
        }
        Region::Stack => {
            let start = place_at(region, word, n, 512);
            put_part(bytes, to, &core.stack, start, n);
        }
    }
}

/// Copies the n bytes at an address to an index of the stack.
fn copy_to_stack(
    core: &mut Core,
    bytes: &[u8],
    argument: &[u8],
    to: usize,
    region: Region,
    word: u64,
    n: usize,
)
    requires bytes_fit { length bytes.now ≤ record_limit }
    requires argument_fits { length argument.now ≤ argument_limit }
    requires limit { n ≤ copy_limit }
    requires to_fits { to + n ≤ 512 }
    requires goes { IsSome (bytes_at (bare 0 core.old bytes.now argument.now) (pointed region word) n) }
    ensures value { option_and_then (with_contents (bare 0 core.old bytes.now argument.now) StackBytes to) (bytes_at (bare 0 core.old bytes.now argument.now) (pointed region word) n) ≡ Some (bare 0 core.new bytes.now argument.now) }
    ensures registers { core.new.registers ≡ core.old.registers }
{
    match region {
        Region::Record => {
            let start = place_at(region, word, n, bytes.len());
            put_part(&mut core.stack, to, bytes, start, n);
        }
        Region::Argument => {
            let start = place_at(region, word, n, argument.len());
            put_part(&mut core.stack, to, argument, start, n);
        }
        Region::Stack => {
            let start = place_at(region, word, n, 512);
            move_within(&mut core.stack, to, start, n);
        }
    }
}

/// Copies the n bytes at an address to another address.
#[tactic(auto, using(crate::proofs::Copying::pasted_to, crate::proofs::Copying::pasted_from, crate::proofs::Copying::none_to_argument))]
fn copy(
    core: &mut Core,
    bytes: &mut [u8],
    argument: &[u8],
    to: (Region, u64),
    from: (Region, u64),
    n: usize,
)
    requires bytes_fit { length bytes.old ≤ record_limit }
    requires argument_fits { length argument.now ≤ argument_limit }
    requires limit { n ≤ copy_limit }
    requires goes { IsSome (pasted (bare 0 core.old bytes.old argument.now) (pointed to.0 to.1) (pointed from.0 from.1) n) }
    ensures value { pasted (bare 0 core.old bytes.old argument.now) (pointed to.0 to.1) (pointed from.0 from.1) n ≡ Some (bare 0 core.new bytes.new argument.now) }
    ensures registers { core.new.registers ≡ core.old.registers }
{
    match to.0 {
        Region::Record => {
            let place = place_at(to.0, to.1, n, bytes.len());
            copy_to_record(core, bytes, argument, place, from.0, from.1, n);
        }
        Region::Argument => unreachable!(),
        Region::Stack => {
            let place = place_at(to.0, to.1, n, 512);
            copy_to_stack(core, bytes, argument, place, from.0, from.1, n);
        }
    }
}

/// Calls the helper that copies: R1 is the destination, in the region `to`, R2 the source, in the region `from`, and R3 the number of
/// bytes.
pub fn do_copy(core: &mut Core, bytes: &mut [u8], argument: &[u8], to: Region, from: Region)
    requires bytes_fit { length bytes.old ≤ record_limit }
    requires argument_fits { length argument.now ≤ argument_limit }
    requires limit { slice_index core.old.registers 3 ≤ copy_limit }
    requires goes { IsSome (pasted (bare 0 core.old bytes.old argument.now) (pointed to (slice_index core.old.registers 1)) (pointed from (slice_index core.old.registers 2)) (slice_index core.old.registers 3)) }
    ensures { (env : EnvOf) → Copies to from core.old core.new bytes.old bytes.new argument.now env }
{
    let to_word = core.registers[1];
    let from_word = core.registers[2];
    let count = core.registers[3];
    copy(
        core,
        bytes,
        argument,
        (to, to_word),
        (from, from_word),
        count as usize,
    );
    core.registers[0] = count;
}
