//! JSON strings and fields.
ghost use Rattle.std.specs.Prelude.{◌≡◌, ◌++◌, ◌==◌, ◌||◌, IfOk, OnOk};
ghost use Rattle.std.specs.List.{flat_map};
ghost use Rattle.dbm_stats.specs.Json.{count_object, escaped_character, field, next_field, quoted};

use itoa::Buffer;
use std::alloc::{AllocError, Allocator};

/// Appends a JSON string. `string` must be printable ASCII.
///
/// # Errors
/// `AllocError` if allocation fails. A part of the output may then be in `text`.
pub fn show_string<A: Allocator>(string: &[u8], text: &mut Vec<u8, A>) -> Result<(), AllocError>
    ensures { OnOk result (text.new.items ≡ text.old.items ++ quoted string.now) }
{
    text.push(b'"')?;
    show_characters(string, text)?;
    Ok(text.push(b'"')?)
}

// Appends the characters of a string.
fn show_characters<A: Allocator>(string: &[u8], text: &mut Vec<u8, A>) -> Result<(), AllocError>
    ensures { OnOk result (text.new.items ≡ text.old.items ++ flat_map escaped_character string.now) }
{
    for byte in string {
        show_character(*byte, text)?;
    }
    Ok(())
}

// Appends a character of a string.
fn show_character<A: Allocator>(byte: u8, text: &mut Vec<u8, A>) -> Result<(), AllocError>
    ensures { OnOk result (text.new.items ≡ text.old.items ++ escaped_character byte) }
{
    if is_special(byte) {
        text.push(b'\\')?;
        return Ok(text.push(byte)?);
    }
    Ok(text.push(byte)?)
}

// Returns `true` if a character needs an escape: a quote or a backslash.
fn is_special(byte: u8) -> bool
    ensures { result ≡ (byte == 34 || byte == 92) }
{
    byte == b'"' || byte == b'\\'
}

/// Appends a field with a number. The name must need no escapes.
///
/// # Errors
/// `AllocError` if allocation fails. A part of the output may then be in `text`.
pub fn show_field<A: Allocator>(
    name: &[u8],
    number: u64,
    text: &mut Vec<u8, A>,
) -> Result<(), AllocError>
    ensures { OnOk result (text.new.items ≡ text.old.items ++ field name.now number) }
{
    text.push(b'"')?;
    text.extend_from_slice(name)?;
    text.extend_from_slice(b"\":")?;
    let mut digits = Buffer::new();
    text.extend_from_slice(digits.format(number).as_bytes())
}

/// Like `show_field`, for a field that is not the first one.
///
/// # Errors
/// `AllocError` if allocation fails. A part of the output may then be in `text`.
pub fn show_next_field<A: Allocator>(
    name: &[u8],
    number: u64,
    text: &mut Vec<u8, A>,
) -> Result<(), AllocError>
    ensures { OnOk result (text.new.items ≡ text.old.items ++ next_field name.now number) }
{
    text.push(b',')?;
    show_field(name, number, text)
}

/// Makes a line with an object that has one numeric field.
///
/// # Errors
/// `AllocError` if allocation fails.
pub fn show_count_object<A: Allocator>(
    alloc: A,
    name: &[u8],
    number: u64,
) -> Result<Vec<u8, A>, AllocError>
    ensures { IfOk result (λ text. text.items ≡ count_object name.now number) }
{
    let mut text = Vec::new(alloc);
    text.push(b'{')?;
    show_field(name, number, &mut text)?;
    text.extend_from_slice(b"}\n")?;
    Ok(text)
}
