//! The effect of loads and stores on a state.

ghost use Rattle.std.specs.Prelude.{◌≢◌, ◌≤◌, IfOk, OnOk};
ghost use Rattle.bpf_insn.specs.Arithmetic.{bytes_of};
ghost use Rattle.bpf_flow.specs.Steps.{Passes, Reaching};

use crate::fault::FlowFault;
use crate::memory::{greatest_loaded, inside, writable};
use crate::numbers::{number_of, place_of, written};
use crate::state::State;
use bpf_helpers::Region;
use bpf_helpers::memory::count_of;
use bpf_insn::{Insn, Size};
use bpf_range::{Kind, Known};

/// Checks that each access at an address is inside its region, and returns the region.
fn reached(size: Size, base: u8, offset: i16, state: &State) -> Result<Region, FlowFault>
    requires { base ≤ 10 }
    ensures { IfOk result (λ q. Reaching state.now base offset (bytes_of size) q) }
{
    written(state.kind(base))?;
    let Some(place) = place_of(state.kind(base)) else {
        return Err(FlowFault::NotPointer);
    };
    inside(place, state, offset as i64, count_of(size) as u64)?;
    Ok(place.region)
}

/// The state after a load: `dst` may hold any number of the size (RFC 9669, section 5.1). Returns an error if the
/// address is unset, is not a pointer, or may lie outside its region.
pub fn after_load(
    size: Size,
    dst: u8,
    base: u8,
    offset: i16,
    state: &mut State,
) -> Result<(), FlowFault>
    requires dst { dst ≤ 10 }
    requires frame { dst ≢ 10 }
    requires base { base ≤ 10 }
    ensures { OnOk result (Passes (Insn.Load size dst base offset) state.old state.new) }
{
    let _region = reached(size, base, offset, state)?;
    let loaded = Known::of(0, greatest_loaded(size));
    state.set(dst, Kind::Num(loaded));
    Ok(())
}

/// The state after a sign-extending load: `dst` may hold any number (RFC 9669, section 5.2). Returns the errors of
/// `after_load`.
pub fn after_load_signed(
    size: Size,
    dst: u8,
    base: u8,
    offset: i16,
    state: &mut State,
) -> Result<(), FlowFault>
    requires dst { dst ≤ 10 }
    requires frame { dst ≢ 10 }
    requires base { base ≤ 10 }
    ensures { OnOk result (Passes (Insn.LoadSigned size dst base offset) state.old state.new) }
{
    let _region = reached(size, base, offset, state)?;
    let loaded = Known::of(0, u64::MAX);
    state.set(dst, Kind::Num(loaded));
    Ok(())
}

/// Checks a store of a register; the state is unchanged (RFC 9669, section 5.1). Returns the errors of `after_load`,
/// and an error if `src` is not a number or the argument is written.
pub fn after_store(
    size: Size,
    base: u8,
    offset: i16,
    src: u8,
    state: &State,
) -> Result<(), FlowFault>
    requires base { base ≤ 10 }
    requires src { src ≤ 10 }
    ensures { OnOk result (Passes (Insn.Store size base offset src) state.now state.now) }
{
    written(state.kind(base))?;
    written(state.kind(src))?;
    let Some(place) = place_of(state.kind(base)) else {
        return Err(FlowFault::NotPointer);
    };
    let Some(_number) = number_of(state.kind(src), state.bytes, state.argument) else {
        return Err(FlowFault::PointerStored);
    };
    writable(place.region)?;
    inside(place, state, offset as i64, count_of(size) as u64)
}

/// Checks a store of an immediate. The stored number does not matter.
pub fn after_store_imm(size: Size, base: u8, offset: i16, state: &State) -> Result<(), FlowFault>
    requires { base ≤ 10 }
    ensures { OnOk result ((value : _) → Passes (Insn.StoreImm size base offset value) state.now state.now) }
{
    written(state.kind(base))?;
    let Some(place) = place_of(state.kind(base)) else {
        return Err(FlowFault::NotPointer);
    };
    writable(place.region)?;
    inside(place, state, offset as i64, count_of(size) as u64)
}
