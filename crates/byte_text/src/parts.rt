//! Parses the parts of a text. A part is a number with its type, bytes in hex, or literal text.
ghost use Rattle.std.specs.Prelude.{◌≡◌, ◌∷◌, ◌++◌, [], List, ℕ, Option, Some, None, false, IfOk, option_map};
ghost use Rattle.std.specs.Borrow.{Bor};
ghost use Rattle.std.specs.Result.{result_ok};
ghost use Rattle.hex.specs.Hex.{decode_of};
ghost use Rattle.byte_text.specs.Numbers.{low_bytes, signed_of};
ghost use Rattle.byte_text.specs.Text.{Puts, is_typed, number_bytes, other_bytes, part_bytes, parts_left, parts_of, plain_bytes};

use crate::escapes::read_escapes;
use crate::numbers::{put_number, read_number, read_signed};
use hex::FromHexError;
use memchr::memchr2;
use std::alloc::{AllocError, Allocator};

// Splits a text at the first unescaped comma. The second result is the text after the comma.
pub(crate) fn first_part(text: &[u8]) -> (&[u8], Option<&[u8]>)
    ensures { parts_of false text.now ≡ result.0.now ∷ parts_left result.1 }
{
    match memchr2(b',', b'\\', text) {
        None => (text, None),
        Some(_) => cut_part(text),
    }
}

// Like `first_part`, byte by byte.
fn cut_part(text: &[u8]) -> (&[u8], Option<&[u8]>)
    ensures { parts_of false text.now ≡ result.0.now ∷ parts_left result.1 }
{
    let mut escape = false;
    for (at, c) in text.iter().enumerate() {
        if *c == b',' && !escape {
            return (&text[..at], Some(&text[at + 1..]));
        }
        escape = *c == b'\\' && !escape;
    }
    (text, None)
}

// Appends the bytes that a part represents. Returns `false` if the part is invalid.
pub(crate) fn read_part<A: Allocator + Copy>(
    alloc: A,
    text: &[u8],
    bytes: &mut Vec<u8, A>,
) -> Result<bool, AllocError>
    ensures { IfOk result (λ good. Puts (part_bytes text.now) good bytes.old.items bytes.new.items) }
{
    if text.starts_with(b"u8:") {
        return read_unsigned(&text[3..], 1, 255, bytes);
    }
    if text.starts_with(b"u16:") {
        return read_unsigned(&text[4..], 2, 65_535, bytes);
    }
    if text.starts_with(b"u32:") {
        return read_unsigned(&text[4..], 4, 4_294_967_295, bytes);
    }
    if text.starts_with(b"u64:") {
        return read_unsigned(&text[4..], 8, u64::MAX, bytes);
    }
    read_other(alloc, text, bytes)
}

// Like `read_part`, for a part that is not an unsigned number.
fn read_other<A: Allocator + Copy>(
    alloc: A,
    text: &[u8],
    bytes: &mut Vec<u8, A>,
) -> Result<bool, AllocError>
    ensures { IfOk result (λ good. Puts (other_bytes text.now) good bytes.old.items bytes.new.items) }
{
    if text.starts_with(b"i64:") {
        return read_word(&text[4..], bytes);
    }
    if text.starts_with(b"hex:") {
        return read_hex(alloc, &text[4..], bytes);
    }
    read_plain(text, bytes)
}

fn read_unsigned<A: Allocator>(
    text: &[u8],
    width: usize,
    most: u64,
    bytes: &mut Vec<u8, A>,
) -> Result<bool, AllocError>
    ensures { IfOk result (λ good. Puts (number_bytes width most text.now) good bytes.old.items bytes.new.items) }
{
    let Some(number) = read_number(text, most) else {
        return Ok(false);
    };
    put_number(number, width, bytes)?;
    Ok(true)
}

// Appends the eight bytes of a signed number.
fn read_word<A: Allocator>(text: &[u8], bytes: &mut Vec<u8, A>) -> Result<bool, AllocError>
    ensures { IfOk result (λ good. Puts (option_map (low_bytes 8) (signed_of text.now)) good bytes.old.items bytes.new.items) }
{
    let Some(word) = read_signed(text) else {
        return Ok(false);
    };
    put_number(word, 8, bytes)?;
    Ok(true)
}

fn read_hex<A: Allocator + Copy>(
    alloc: A,
    text: &[u8],
    bytes: &mut Vec<u8, A>,
) -> Result<bool, AllocError>
    ensures { IfOk result (λ good. Puts (result_ok (decode_of text.now)) good bytes.old.items bytes.new.items) }
{
    match hex::decode(alloc, text) {
        Ok(decoded) => {
            bytes.extend_from_slice(decoded.as_slice())?;
            Ok(true)
        }
        Err(FromHexError::OutOfMemory) => Err(AllocError),
        Err(_) => Ok(false),
    }
}

fn read_plain<A: Allocator>(text: &[u8], bytes: &mut Vec<u8, A>) -> Result<bool, AllocError>
    ensures { IfOk result (λ good. Puts (plain_bytes text.now) good bytes.old.items bytes.new.items) }
{
    if text.is_empty() {
        return Ok(false);
    }
    read_escapes(text, bytes)
}

// Returns `true` if the bytes start with the name of a type and a colon.
pub(crate) fn begins_typed(bytes: &[u8]) -> bool
    ensures { result ≡ is_typed bytes.now }
{
    bytes.starts_with(b"u8:")
        || bytes.starts_with(b"u16:")
        || bytes.starts_with(b"u32:")
        || bytes.starts_with(b"u64:")
        || bytes.starts_with(b"i64:")
        || bytes.starts_with(b"hex:")
}
