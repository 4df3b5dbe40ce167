//! Writes bytes as JSON. The kit's `json` writes the tokens.
ghost use Rattle.std.specs.Prelude.{◌≡◌, ◌++◌, ◌∷◌, [], IfOk, OnOk, true, length};
ghost use Rattle.byte_text.specs.JsonValues.{hex_tokens, laid_tokens, number_token, part_tokens, parts_tokens, text_tokens, value_tokens};
ghost use Rattle.byte_text.specs.Layouts.{HasRoom, fits, left_by};

use crate::layouts::{Kind, Layout, Number, takes};
use crate::numbers::number_from;
use json::Writer;
use std::alloc::{AllocError, Allocator};

/// Writes bytes as a string if they are UTF-8, and otherwise as an object with the member `hex`.
///
/// # Errors
/// `AllocError` if allocation fails. Some tokens may have been written.
pub fn write_text<A: Allocator + Copy>(
    alloc: A,
    writer: &mut Writer<A>,
    bytes: &[u8],
) -> Result<(), AllocError>
    ensures tokens { OnOk result (writer.new.tokens ≡ writer.old.tokens ++ text_tokens bytes.now) }
    ensures before { writer.new.before ≡ writer.old.before }
{
    match str::from_utf8(bytes) {
        Ok(text) => writer.string(text),
        Err(_) => write_hex(alloc, writer, bytes),
    }
}

// Writes an object with the member `hex`.
fn write_hex<A: Allocator + Copy>(
    alloc: A,
    writer: &mut Writer<A>,
    bytes: &[u8],
) -> Result<(), AllocError>
    ensures tokens { OnOk result (writer.new.tokens ≡ writer.old.tokens ++ hex_tokens bytes.now) }
    ensures before { writer.new.before ≡ writer.old.before }
{
    let hex = hex::encode(alloc, bytes)?;
    writer.begin_object()?;
    writer.key("hex")?;
    writer.string(hex.as_str())?;
    writer.end_object()
}

/// Writes a value. If the value does not fit the layout, `write_text` writes it. Otherwise a number becomes a JSON number, a `hex` becomes
/// an object with the member `hex`, and `write_text` writes a `text`. Several parts become an array.
///
/// # Errors
/// `AllocError` if allocation fails. Some tokens may have been written.
pub fn write_value<A: Allocator + Copy>(
    alloc: A,
    writer: &mut Writer<A>,
    layout: &Layout<A>,
    bytes: &[u8],
) -> Result<(), AllocError>
    ensures tokens { OnOk result (writer.new.tokens ≡ writer.old.tokens ++ value_tokens layout.now bytes.now) }
    ensures before { writer.new.before ≡ writer.old.before }
{
    let kinds = layout.kinds();
    if !takes(kinds, bytes.len()) {
        return write_text(alloc, writer, bytes);
    }
    write_laid(alloc, writer, kinds, bytes)
}

// Writes a value that fits the kinds: a single part as it is, several parts as an array.
fn write_laid<A: Allocator + Copy>(
    alloc: A,
    writer: &mut Writer<A>,
    kinds: &[Kind],
    bytes: &[u8],
) -> Result<(), AllocError>
    requires { fits kinds.now (length bytes.now) ≡ true }
    ensures tokens { OnOk result (writer.new.tokens ≡ writer.old.tokens ++ laid_tokens kinds.now bytes.now) }
    ensures before { writer.new.before ≡ writer.old.before }
{
    if kinds.len() == 1 {
        return write_parts(alloc, writer, kinds, bytes);
    }
    writer.begin_array()?;
    write_parts(alloc, writer, kinds, bytes)?;
    writer.end_array()
}

// Writes the parts of a value one after another.
fn write_parts<A: Allocator + Copy>(
    alloc: A,
    writer: &mut Writer<A>,
    kinds: &[Kind],
    bytes: &[u8],
) -> Result<(), AllocError>
    requires { fits kinds.now (length bytes.now) ≡ true }
    ensures tokens { OnOk result (writer.new.tokens ≡ writer.old.tokens ++ parts_tokens kinds.now bytes.now) }
    ensures before { writer.new.before ≡ writer.old.before }
{
    match kinds {
        [] => Ok(()),
        [kind, others @ ..] => {
            let left = write_part(alloc, writer, *kind, bytes)?;
            write_parts(alloc, writer, others, left)
        }
    }
}

// Writes the first part of `left`, which has this kind, and returns the remaining bytes.
fn write_part<'a, A: Allocator + Copy>(
    alloc: A,
    writer: &mut Writer<A>,
    kind: Kind,
    left: &'a [u8],
) -> Result<&'a [u8], AllocError>
    requires { HasRoom kind (length left.now) }
    ensures tokens { OnOk result (writer.new.tokens ≡ writer.old.tokens ++ part_tokens kind left.now) }
    ensures before { writer.new.before ≡ writer.old.before }
    ensures left { IfOk result (λ rest. rest.now ≡ left_by kind left.now) }
{
    match kind {
        Kind::Number(number) => {
            let (taken, rest) = left.split_at(number.width());
            write_number(writer, number, number_from(taken))?;
            Ok(rest)
        }
        Kind::Text => {
            write_text(alloc, writer, left)?;
            Ok(&[])
        }
        Kind::Hex => {
            write_hex(alloc, writer, left)?;
            Ok(&[])
        }
    }
}

fn write_number<A: Allocator>(
    writer: &mut Writer<A>,
    number: Number,
    value: u64,
) -> Result<(), AllocError>
    ensures tokens { OnOk result (writer.new.tokens ≡ writer.old.tokens ++ number_token number value ∷ []) }
    ensures before { writer.new.before ≡ writer.old.before }
{
    match number {
        Number::I64 => writer.i64(value.cast_signed()),
        Number::U8 | Number::U16 | Number::U32 | Number::U64 => writer.u64(value),
    }
}
