//! Bytes as a text of one word.
ghost use Rattle.std.specs.Prelude.{◌≡◌, ◌++◌, IfOk, OnOk, Some, option_map};
ghost use Rattle.byte_text.specs.Text.{bytes_of_text, text_of_bytes};

use crate::escapes::{show_escaped, show_hex_escape};
use crate::parts::{begins_typed, first_part, read_part};
use std::alloc::{AllocError, Allocator};

/// Parses a text and returns the bytes that it represents. Returns `None` if the text is invalid. A single dot represents no bytes. Any
/// other text is a list of parts, separated by commas. A part is one of:
/// - `u8:`, `u16:`, `u32:`, `u64:` or `i64:` and a decimal number, whose bytes are little-endian;
/// - `hex:` and hex of either case;
/// - literal text, not empty, with the escapes `\s` (a space), `\n`, `\t`, `\\`, `\.`, `\,` and `\xHH`.
///
/// # Errors
/// `AllocError` if allocation fails.
pub fn read_text<A: Allocator + Copy>(
    alloc: A,
    text: &[u8],
) -> Result<Option<Vec<u8, A>>, AllocError>
    ensures { IfOk result (λ bytes. option_map (λ b. b.items) bytes ≡ bytes_of_text text.now) }
{
    let mut bytes = Vec::new(alloc);
    if text.is_empty() {
        return Ok(None);
    }
    if text == b".".as_slice() {
        return Ok(Some(bytes));
    }
    let mut rest = Some(text);
    while let Some(left) = rest {
        let (part, after) = first_part(left);
        if !read_part(alloc, part, &mut bytes)? {
            return Ok(None);
        }
        rest = after;
    }
    Ok(Some(bytes))
}

/// Appends bytes to `text` as one word. Printable ASCII is literal, except spaces, backslashes and commas. All other bytes are escapes.
/// If the bytes begin with a type and a colon, the first byte is an escape too. An empty slice becomes a dot, and a single dot becomes
/// `\.`. Reading the text returns these bytes.
///
/// # Errors
/// `AllocError` if allocation fails. On error, discard `text`.
pub fn show_text<A: Allocator>(bytes: &[u8], text: &mut Vec<u8, A>) -> Result<(), AllocError>
    ensures text { OnOk result (text.new.items ≡ text.old.items ++ text_of_bytes bytes.now) }
    ensures reads { OnOk result (bytes_of_text (text_of_bytes bytes.now) ≡ Some bytes.now) }
{
    print_text(bytes, text)?;
    Ok(())
}

pub(crate) fn print_text<A: Allocator>(
    bytes: &[u8],
    text: &mut Vec<u8, A>,
) -> Result<(), AllocError>
    ensures { OnOk result (text.new.items ≡ text.old.items ++ text_of_bytes bytes.now) }
{
    let [first, others @ ..] = bytes else {
        return text.extend_from_slice(b".");
    };
    if bytes == b".".as_slice() {
        return text.extend_from_slice(b"\\.");
    }
    if begins_typed(bytes) {
        show_hex_escape(*first, text)?;
        return show_escaped(others, text);
    }
    show_escaped(bytes, text)
}
