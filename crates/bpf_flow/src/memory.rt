//! Memory accesses through pointers.

ghost use Rattle.std.specs.Prelude.{◌≡◌, ◌≤◌, ◌+◌, ◌+ℤ◌, ◌≤ℤ◌, neg_ℤ, pos, ℕ, IsTrue, OnOk, length};
ghost use Rattle.bpf_helpers.specs.declared.values.Region.TheVariants.{Argument};
ghost use Rattle.bpf_insn.specs.Arithmetic.{size_modulus};
ghost use Rattle.bpf_helpers.specs.Machine.{base_of, contents};
ghost use Rattle.bpf_flow.specs.States.{Fits, IsConfig};
ghost use Rattle.bpf_flow.specs.Steps.{Accesses};

use crate::fault::FlowFault;
use crate::numbers::Place;
use crate::state::State;
use bpf_helpers::Region;
use bpf_insn::Size;

/// The least offset in a region.
fn first_of(region: Region) -> i64
    ensures { result +ℤ base_of region ≡ pos 0 }
{
    match region {
        Region::Record => 0,
        Region::Argument => 0,
        Region::Stack => -512,
    }
}

/// An offset up to which the region has bytes, whatever its length is.
fn last_of(region: Region, state: &State) -> i64
    ensures { (c : _) → IsConfig c → Fits state.now c → (result +ℤ base_of region) ≤ℤ pos (length (contents c region)) }
{
    match region {
        Region::Record => state.bytes.lo.min(65536) as i64,
        Region::Argument => state.argument.lo.min(65536) as i64,
        Region::Stack => 0,
    }
}

/// A number of at most 65,536 as a signed number.
fn signed(n: u64) -> i64
    requires { n ≤ 65536 }
    ensures { result ≡ pos n }
{
    n as i64
}

/// The offset at which an access begins or ends.
fn shifted(at: i64, offset: i64, count: i64) -> i64
    requires lower { neg_ℤ (pos 65536) ≤ℤ at }
    requires upper { at ≤ℤ pos 65536 }
    requires offset_lower { neg_ℤ (pos 65536) ≤ℤ offset }
    requires offset_upper { offset ≤ℤ pos 65536 }
    requires whole { pos 0 ≤ℤ count }
    requires small { count ≤ℤ pos 65536 }
    ensures { result ≡ at +ℤ offset +ℤ count }
{
    at + offset + count
}

fn offsets_fit(lo: i64, hi: i64, offset: i64, count: i64, first: i64, last: i64) -> bool
    requires offset_lower { neg_ℤ (pos 65536) ≤ℤ offset }
    requires offset_upper { offset ≤ℤ pos 65536 }
    requires whole { pos 0 ≤ℤ count }
    requires small { count ≤ℤ pos 65536 }
    ensures { IsTrue result → (first ≤ℤ (lo +ℤ offset)) × ((hi +ℤ offset +ℤ count) ≤ℤ last) }
{
    if lo < -65536 || hi > 65536 || lo > 65536 || hi < -65536 {
        return false;
    }
    let begin = shifted(lo, offset, 0);
    let end = shifted(hi, offset, count);
    if begin < first {
        return false;
    }
    if last < end {
        return false;
    }
    true
}

/// Checks that each access of up to `size` bytes through these pointers is inside their region.
pub fn inside(place: Place, state: &State, offset: i64, size: u64) -> Result<(), FlowFault>
    requires offset_lower { neg_ℤ (pos 65536) ≤ℤ offset }
    requires offset_upper { offset ≤ℤ pos 65536 }
    requires small { size ≤ 65536 }
    ensures { OnOk result (Accesses place.region place.lo place.hi state.now offset size) }
{
    let first = first_of(place.region);
    let last = last_of(place.region, state);
    let count = signed(size);
    if offsets_fit(place.lo, place.hi, offset, count, first, last) {
        return Ok(());
    }
    match place.region {
        Region::Record => Err(FlowFault::OutOfRecord),
        Region::Argument => Err(FlowFault::OutOfArgument),
        Region::Stack => Err(FlowFault::OutOfStack),
    }
}

/// Checks that a region may be written. The argument is read-only.
pub fn writable(region: Region) -> Result<(), FlowFault>
    ensures { OnOk result (region ≡ Argument → ⊥) }
{
    match region {
        Region::Argument => Err(FlowFault::ArgumentWritten),
        _ => Ok(()),
    }
}

/// The greatest number of a size.
pub fn greatest_loaded(size: Size) -> u64
    ensures { result + 1 ≡ size_modulus size }
{
    match size {
        Size::Byte => 0xff,
        Size::Half => 0xffff,
        Size::Word => 0xffff_ffff,
        Size::Double => u64::MAX,
    }
}
