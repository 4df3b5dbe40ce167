//! The constant of 64 bits, the only instruction of two units (RFC 9669, section 5.4).

ghost use Rattle.std.specs.Prelude.{◌≡◌, ◌++◌, ◌<◌, ◌≤◌, ℕ, List, length, take, drop};
ghost use Rattle.bpf_insn.specs.Spelling.{unit_bytes, IsFields, HasSpelling, spelling_of};
ghost use Rattle.bpf_insn.specs.Rows.{Finds, OnlyFinds};

use crate::fields::Fields;
use crate::insn::Insn;
use crate::operands::UnitFault;

/// Reads the constant at the start of the bytes. `first` has the fields of its first unit.
pub fn wide_of(first: Fields, bytes: &[u8]) -> Result<Insn, UnitFault>
    requires opcode { first.opcode ≡ 0x18 }
    requires unit { take 8 bytes.now ≡ unit_bytes first }
    requires fits { IsFields first }
    requires full { 8 ≤ length bytes.now }
    ensures found { Finds bytes.now result }
    ensures only { (d n : ℕ) → OnlyFinds bytes.now result (Insn.Wide d n) }
{
    if first.src != 0 {
        return Err(UnitFault::Opcode);
    }
    if bytes.len() < 16 {
        return Err(UnitFault::HalfWide);
    }
    if first.dst > 10 {
        return Err(UnitFault::Register);
    }
    if first.offset != 0 {
        return Err(UnitFault::Reserved);
    }
    let (_, behind) = bytes.split_at(8);
    let second = Fields::read(behind);
    if second.opcode != 0 {
        return Err(UnitFault::Reserved);
    }
    if second.dst != 0 {
        return Err(UnitFault::Reserved);
    }
    if second.src != 0 {
        return Err(UnitFault::Reserved);
    }
    if second.offset != 0 {
        return Err(UnitFault::Reserved);
    }
    let low = first.imm.cast_unsigned() as u64;
    let high = second.imm.cast_unsigned() as u64;
    Ok(Insn::Wide {
        dst: first.dst,
        value: high * 0x1_0000_0000 + low,
    })
}
