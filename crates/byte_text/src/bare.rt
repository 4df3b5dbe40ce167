//! Values as plain text for other programs.
ghost use Rattle.std.specs.Prelude.{◌≡◌, ◌++◌, IfOk, OnOk, true, length};
ghost use Rattle.byte_text.specs.Bare.{bare_number, bare_part, bare_parts, bare_value};
ghost use Rattle.byte_text.specs.Layouts.{HasRoom, fits, left_by};

use crate::layouts::{Kind, Layout, Number, show_comma, takes};
use crate::numbers::{number_from, show_number, show_signed};
use std::alloc::{AllocError, Allocator};

/// Appends a value to `text`. If the value does not fit the layout, its bytes are appended unchanged. Otherwise its parts are separated by
/// commas: a number in decimal, a `text` unchanged, a `hex` in hex. Different values may have the same text.
///
/// # Errors
/// `AllocError` if allocation fails. On error, discard `text`.
pub fn show_bare<A: Allocator + Copy>(
    alloc: A,
    layout: &Layout<A>,
    bytes: &[u8],
    text: &mut Vec<u8, A>,
) -> Result<(), AllocError>
    ensures { OnOk result (text.new.items ≡ text.old.items ++ bare_value layout.now bytes.now) }
{
    let kinds = layout.kinds();
    if takes(kinds, bytes.len()) {
        return show_parts(alloc, false, kinds, bytes, text);
    }
    text.extend_from_slice(bytes)
}

// Appends the parts of a value that fits the kinds. If `behind` is true, a comma precedes the first part too.
fn show_parts<A: Allocator + Copy>(
    alloc: A,
    behind: bool,
    kinds: &[Kind],
    bytes: &[u8],
    text: &mut Vec<u8, A>,
) -> Result<(), AllocError>
    requires { fits kinds.now (length bytes.now) ≡ true }
    ensures { OnOk result (text.new.items ≡ text.old.items ++ bare_parts behind kinds.now bytes.now) }
{
    match kinds {
        [] => Ok(()),
        [kind, others @ ..] => {
            show_comma(behind, text)?;
            let left = show_one(alloc, *kind, bytes, text)?;
            show_parts(alloc, true, others, left, text)
        }
    }
}

// Appends the first part of `left`, which has this kind, and returns the remaining bytes.
fn show_one<'a, A: Allocator + Copy>(
    alloc: A,
    kind: Kind,
    left: &'a [u8],
    text: &mut Vec<u8, A>,
) -> Result<&'a [u8], AllocError>
    requires { HasRoom kind (length left.now) }
    ensures text { OnOk result (text.new.items ≡ text.old.items ++ bare_part kind left.now) }
    ensures left { IfOk result (λ rest. rest.now ≡ left_by kind left.now) }
{
    match kind {
        Kind::Number(number) => {
            let (taken, rest) = left.split_at(number.width());
            show_bare_number(number, number_from(taken), text)?;
            Ok(rest)
        }
        Kind::Text => {
            text.extend_from_slice(left)?;
            Ok(&[])
        }
        Kind::Hex => {
            let hex = hex::encode(alloc, left)?;
            text.extend_from_slice(hex.as_bytes())?;
            Ok(&[])
        }
    }
}

fn show_bare_number<A: Allocator>(
    number: Number,
    value: u64,
    text: &mut Vec<u8, A>,
) -> Result<(), AllocError>
    ensures { OnOk result (text.new.items ≡ text.old.items ++ bare_number number value) }
{
    match number {
        Number::I64 => show_signed(value, text),
        Number::U8 | Number::U16 | Number::U32 | Number::U64 => show_number(value, text),
    }
}
