//! Notations: how words and answers represent bytes.
ghost use Rattle.std.specs.Prelude.{◌≡◌, ◌++◌, IfOk, OnOk};
ghost use Rattle.dbm_script.specs.Notation.{bytes_of_word, hex_bytes, hex_shown, reads_hex, shown, value_shown};

use crate::digits::{decode, encode};
use byte_text::{Layout, read_text, show_by, show_text};
use sdbm_addr::Bytes;
use std::alloc::{AllocError, Allocator};

/// The notation of bytes in words and in answers.
#[derive(Drop)]
pub enum Notation<A: Allocator> {
    /// In hex.
    Hex,
    /// As text.
    Text,
    /// As text, except that answers show a value by the layout if the value fits it.
    Layout(Layout<A>),
}

impl<A: Allocator> Notation<A> {
    /// Returns `true` if words are in hex.
    pub fn is_hex(&self) -> bool
        ensures { result ≡ reads_hex self.now }
    {
        match self {
            Notation::Hex => true,
            Notation::Text | Notation::Layout(_) => false,
        }
    }
}

/// Reads the bytes of a word, in hex of either case or as text. A dot means no bytes. Returns `None` if the word is empty or invalid.
///
/// # Errors
/// `AllocError` if allocation fails.
pub fn read_bytes<A: Allocator + Copy>(
    alloc: A,
    notation: &Notation<A>,
    text: &[u8],
) -> Result<Option<Bytes<A>>, AllocError>
    ensures { IfOk result (λ bytes. bytes ≡ bytes_of_word notation.now text.now) }
{
    match notation {
        Notation::Hex => read_hex(alloc, text),
        Notation::Text | Notation::Layout(_) => match read_text(alloc, text)? {
            Some(bytes) => Ok(Some(Bytes::new(bytes))),
            None => Ok(None),
        },
    }
}

/// Decodes hex of either case. A dot means no bytes. Returns `None` if the text is empty or not hex.
///
/// # Errors
/// `AllocError` if allocation fails.
pub(crate) fn read_hex<A: Allocator + Copy>(
    alloc: A,
    text: &[u8],
) -> Result<Option<Bytes<A>>, AllocError>
    ensures { IfOk result (λ bytes. bytes ≡ hex_bytes text.now) }
{
    if text.is_empty() {
        return Ok(None);
    }
    if text == b".".as_slice() {
        return Ok(Some(Bytes::new(Vec::new(alloc))));
    }
    match decode(alloc, text)? {
        Some(bytes) => Ok(Some(Bytes::new(bytes))),
        None => Ok(None),
    }
}

/// Appends bytes to `text`, in lower-case hex or as text, or a dot for no bytes.
///
/// # Errors
/// `AllocError` if allocation fails. On error, discard `text`: it may be partial.
pub fn show_bytes<A: Allocator>(
    notation: &Notation<A>,
    bytes: &[u8],
    text: &mut Vec<u8, A>,
) -> Result<(), AllocError>
    ensures { OnOk result (text.new.items ≡ text.old.items ++ shown notation.now bytes.now) }
{
    match notation {
        Notation::Hex => show_hex(bytes, text),
        Notation::Text | Notation::Layout(_) => show_text(bytes, text),
    }
}

/// Appends the bytes of a value to `text`: by the layout if there is one and the value fits it, otherwise like `show_bytes`.
///
/// # Errors
/// `AllocError` if allocation fails. On error, discard `text`: it may be partial.
pub fn show_value<A: Allocator + Copy>(
    alloc: A,
    notation: &Notation<A>,
    bytes: &[u8],
    text: &mut Vec<u8, A>,
) -> Result<(), AllocError>
    ensures { OnOk result (text.new.items ≡ text.old.items ++ value_shown notation.now bytes.now) }
{
    match notation {
        Notation::Hex => show_hex(bytes, text),
        Notation::Text => show_text(bytes, text),
        Notation::Layout(layout) => show_by(alloc, layout, bytes, text),
    }
}

fn show_hex<A: Allocator>(bytes: &[u8], text: &mut Vec<u8, A>) -> Result<(), AllocError>
    ensures { OnOk result (text.new.items ≡ text.old.items ++ hex_shown bytes.now) }
{
    if bytes.is_empty() {
        return text.extend_from_slice(b".");
    }
    encode(bytes, text)
}
