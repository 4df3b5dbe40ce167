//! The rows of the table for loads and stores (RFC 9669, sections 5.1 and 5.2).

ghost use Rattle.std.specs.Prelude.{◌≡◌, ◌*◌, ◌+◌, ℕ, ℤ, IsTrue};
ghost use Rattle.bpf_insn.specs.Spelling.{is_narrow, size_code};
ghost use Rattle.bpf_insn.specs.Rows.{Reads, OnlyReads};

use crate::fields::Fields;
use crate::insn::{Insn, Size};
use crate::operands::UnitFault;

fn load(fields: Fields, size: Size) -> Result<Insn, UnitFault>
    requires { fields.opcode ≡ 0x61 + size_code size * 8 }
    ensures found { Reads fields result }
    ensures only { (n : Size) (d b : ℕ) (off : ℤ) → OnlyReads fields result (Insn.Load n d b off) }
{
    if fields.dst > 10 {
        return Err(UnitFault::Register);
    }
    if fields.src > 10 {
        return Err(UnitFault::Register);
    }
    if fields.imm != 0 {
        return Err(UnitFault::Reserved);
    }
    Ok(Insn::Load {
        size,
        dst: fields.dst,
        base: fields.src,
        offset: fields.offset,
    })
}

fn load_signed(fields: Fields, size: Size) -> Result<Insn, UnitFault>
    requires row { fields.opcode ≡ 0x81 + size_code size * 8 }
    requires narrow { IsTrue (is_narrow size) }
    ensures found { Reads fields result }
    ensures only { (n : Size) (d b : ℕ) (off : ℤ) → OnlyReads fields result (Insn.LoadSigned n d b off) }
{
    if fields.dst > 10 {
        return Err(UnitFault::Register);
    }
    if fields.src > 10 {
        return Err(UnitFault::Register);
    }
    if fields.imm != 0 {
        return Err(UnitFault::Reserved);
    }
    Ok(Insn::LoadSigned {
        size,
        dst: fields.dst,
        base: fields.src,
        offset: fields.offset,
    })
}

fn store_imm(fields: Fields, size: Size) -> Result<Insn, UnitFault>
    requires { fields.opcode ≡ 0x62 + size_code size * 8 }
    ensures found { Reads fields result }
    ensures only { (n : Size) (b : ℕ) (off k : ℤ) → OnlyReads fields result (Insn.StoreImm n b off k) }
{
    if fields.dst > 10 {
        return Err(UnitFault::Register);
    }
    if fields.src != 0 {
        return Err(UnitFault::Reserved);
    }
    Ok(Insn::StoreImm {
        size,
        base: fields.dst,
        offset: fields.offset,
        value: fields.imm,
    })
}

fn store(fields: Fields, size: Size) -> Result<Insn, UnitFault>
    requires { fields.opcode ≡ 0x63 + size_code size * 8 }
    ensures found { Reads fields result }
    ensures only { (n : Size) (b : ℕ) (off : ℤ) (s : ℕ) → OnlyReads fields result (Insn.Store n b off s) }
{
    if fields.dst > 10 {
        return Err(UnitFault::Register);
    }
    if fields.src > 10 {
        return Err(UnitFault::Register);
    }
    if fields.imm != 0 {
        return Err(UnitFault::Reserved);
    }
    Ok(Insn::Store {
        size,
        base: fields.dst,
        offset: fields.offset,
        src: fields.src,
    })
}

/// Reads a load of any size, by its opcode.
fn any_load(fields: Fields) -> Result<Insn, UnitFault>
    ensures found { Reads fields result }
    ensures plain { (n : Size) (d b : ℕ) (off : ℤ) → OnlyReads fields result (Insn.Load n d b off) }
    ensures signed { (n : Size) (d b : ℕ) (off : ℤ) → OnlyReads fields result (Insn.LoadSigned n d b off) }
{
    match fields.opcode {
        0x71 => load(fields, Size::Byte),
        0x69 => load(fields, Size::Half),
        0x61 => load(fields, Size::Word),
        0x79 => load(fields, Size::Double),
        0x91 => load_signed(fields, Size::Byte),
        0x89 => load_signed(fields, Size::Half),
        0x81 => load_signed(fields, Size::Word),
        _ => Err(UnitFault::Opcode),
    }
}

/// Reads a store of any size, by its opcode.
fn any_store(fields: Fields) -> Result<Insn, UnitFault>
    ensures found { Reads fields result }
    ensures number { (n : Size) (b : ℕ) (off k : ℤ) → OnlyReads fields result (Insn.StoreImm n b off k) }
    ensures register { (n : Size) (b : ℕ) (off : ℤ) (s : ℕ) → OnlyReads fields result (Insn.Store n b off s) }
{
    match fields.opcode {
        0x72 => store_imm(fields, Size::Byte),
        0x6a => store_imm(fields, Size::Half),
        0x62 => store_imm(fields, Size::Word),
        0x7a => store_imm(fields, Size::Double),
        0x73 => store(fields, Size::Byte),
        0x6b => store(fields, Size::Half),
        0x63 => store(fields, Size::Word),
        0x7b => store(fields, Size::Double),
        _ => Err(UnitFault::Opcode),
    }
}

/// Reads a unit of the class LDX, ST or STX.
pub fn memory(fields: Fields) -> Result<Insn, UnitFault>
    ensures found { Reads fields result }
    ensures load { (n : Size) (d b : ℕ) (off : ℤ) → OnlyReads fields result (Insn.Load n d b off) }
    ensures load_signed { (n : Size) (d b : ℕ) (off : ℤ) → OnlyReads fields result (Insn.LoadSigned n d b off) }
    ensures store_imm { (n : Size) (b : ℕ) (off k : ℤ) → OnlyReads fields result (Insn.StoreImm n b off k) }
    ensures store { (n : Size) (b : ℕ) (off : ℤ) (s : ℕ) → OnlyReads fields result (Insn.Store n b off s) }
{
    if fields.opcode % 8 == 1 {
        any_load(fields)
    } else {
        any_store(fields)
    }
}
