//! Parses layouts, the types of the parts of a value. Prints values by a layout.
ghost use Rattle.std.specs.Prelude.{◌≡◌, ◌++◌, ◌≤◌, IfOk, OnOk, Some, cond, false, true, length, option_map};
ghost use Rattle.byte_text.specs.Text.{bytes_of_text};
ghost use Rattle.byte_text.specs.Layouts.{HasRoom, comma, fits, hex_part, kind_named, laid, layout_of, left_by, part_by, number_named, number_text, text_by, text_part, width_of};

use crate::numbers::{number_from, show_number, show_signed};
use crate::parts::first_part;
use crate::text::print_text;
use std::alloc::{AllocError, Allocator};
use std::marker::Model;

/// The type of a little-endian number in a value.
#[derive(Clone, Copy, Debug, PartialEq, Eq)]
pub enum Number {
    U8,
    U16,
    U32,
    U64,
    I64,
}

/// The type of a part of a value.
#[derive(Clone, Copy, Debug, PartialEq, Eq)]
pub enum Kind {
    /// A number.
    Number(Number),
    /// The remaining bytes, as text.
    Text,
    /// The remaining bytes, in hex.
    Hex,
}

/// A layout: the types of the parts of a value. In contracts, a layout is the list of its kinds.
#[derive(Drop)]
pub struct Layout<A: Allocator> {
    kinds: Vec<Kind, A>,
}

impl<A: Allocator> Model for Layout<A> {
    ghost use Rattle.std.specs.Prelude.{List};
    ghost use Rattle.byte_text.specs.declared.layouts.Kind.{Kind};

    ghost Value = { List Kind };

    ghost view = { λ a. a.kinds.items };
}

impl<A: Allocator> Layout<A> {
    // Makes a layout of these kinds without allocating.
    fn of(kinds: Vec<Kind, A>) -> Self
        ensures { result ≡ kinds.items }
    {
        Layout { kinds }
    }

    // The kinds in order.
    pub(crate) fn kinds(&self) -> &[Kind]
        ensures { result.now ≡ self.now }
    {
        self.kinds.as_slice()
    }
}

impl Number {
    // The size in bytes.
    pub(crate) fn width(self) -> usize
        ensures value { result ≡ width_of self }
        ensures small { result ≤ 8 }
    {
        match self {
            Number::U8 => 1,
            Number::U16 => 2,
            Number::U32 => 4,
            Number::U64 | Number::I64 => 8,
        }
    }
}

/// Parses a layout: names of kinds (`u8`, `u16`, `u32`, `u64`, `i64`, `text`, `hex`), separated by commas. Each kind except the last is a
/// number. Returns `None` if the text is not a layout.
///
/// # Errors
/// `AllocError` if allocation fails.
pub fn read_layout<A: Allocator>(alloc: A, text: &[u8]) -> Result<Option<Layout<A>>, AllocError>
    ensures { IfOk result (λ layout. layout ≡ layout_of text.now) }
{
    let mut kinds = Vec::new(alloc);
    let mut rest = Some(text);
    while let Some(left) = rest {
        let (name, after) = first_part(left);
        let Some(kind) = kind_at(name, after.is_none()) else {
            return Ok(None);
        };
        kinds.push(kind)?;
        rest = after;
    }
    Ok(Some(Layout::of(kinds)))
}

// Returns the kind with this name. Each kind except the last must be a number.
fn kind_at(name: &[u8], is_last: bool) -> Option<Kind>
    ensures { result ≡ cond is_last (kind_named name.now) (option_map Kind.Number (number_named name.now)) }
{
    if is_last {
        return named_kind(name);
    }
    match named_number(name) {
        Some(number) => Some(Kind::Number(number)),
        None => None,
    }
}

fn named_kind(name: &[u8]) -> Option<Kind>
    ensures { result ≡ kind_named name.now }
{
    if name == b"text".as_slice() {
        return Some(Kind::Text);
    }
    if name == b"hex".as_slice() {
        return Some(Kind::Hex);
    }
    match named_number(name) {
        Some(number) => Some(Kind::Number(number)),
        None => None,
    }
}

fn named_number(name: &[u8]) -> Option<Number>
    ensures { result ≡ number_named name.now }
{
    if name == b"u8".as_slice() {
        return Some(Number::U8);
    }
    if name == b"u16".as_slice() {
        return Some(Number::U16);
    }
    if name == b"u32".as_slice() {
        return Some(Number::U32);
    }
    if name == b"u64".as_slice() {
        return Some(Number::U64);
    }
    if name == b"i64".as_slice() {
        return Some(Number::I64);
    }
    None
}

/// Appends a value to `text`: by the layout if the value fits it, otherwise like `show_text`. An empty value becomes a dot. A final `text`
/// or `hex` has the remaining bytes, and is left out if no bytes remain. Reading the text returns the bytes of the value.
///
/// # Errors
/// `AllocError` if allocation fails. On error, discard `text`.
pub fn show_by<A: Allocator + Copy>(
    alloc: A,
    layout: &Layout<A>,
    bytes: &[u8],
    text: &mut Vec<u8, A>,
) -> Result<(), AllocError>
    ensures text { OnOk result (text.new.items ≡ text.old.items ++ text_by layout.now bytes.now) }
    ensures reads { OnOk result (bytes_of_text (text_by layout.now bytes.now) ≡ Some bytes.now) }
{
    print_by(alloc, layout.kinds(), bytes, text)?;
    Ok(())
}

fn print_by<A: Allocator + Copy>(
    alloc: A,
    kinds: &[Kind],
    bytes: &[u8],
    text: &mut Vec<u8, A>,
) -> Result<(), AllocError>
    ensures { OnOk result (text.new.items ≡ text.old.items ++ text_by kinds.now bytes.now) }
{
    if !bytes.is_empty() && takes(kinds, bytes.len()) {
        return show_laid(alloc, kinds, bytes, text);
    }
    print_text(bytes, text)
}

// Returns `true` if a value of `len` bytes fits the kinds.
pub(crate) fn takes(kinds: &[Kind], len: usize) -> bool
    ensures { result ≡ fits kinds.now len }
{
    let mut left = len;
    for kind in kinds {
        match kind {
            Kind::Number(number) => {
                if number.width() > left {
                    return false;
                }
                left -= number.width();
            }
            Kind::Text | Kind::Hex => left = 0,
        }
    }
    left == 0
}

// Appends the parts of a value that fits the kinds.
fn show_laid<A: Allocator + Copy>(
    alloc: A,
    kinds: &[Kind],
    bytes: &[u8],
    text: &mut Vec<u8, A>,
) -> Result<(), AllocError>
    requires { fits kinds.now (length bytes.now) ≡ true }
    ensures { OnOk result (text.new.items ≡ text.old.items ++ laid false kinds.now bytes.now) }
{
    let mut left = bytes;
    let mut behind = false;
    for kind in kinds {
        left = show_part(alloc, *kind, behind, left, text)?;
        behind = true;
    }
    Ok(())
}

// Appends the first part of `left`, which has this kind, and returns the remaining bytes.
fn show_part<'a, A: Allocator + Copy>(
    alloc: A,
    kind: Kind,
    behind: bool,
    left: &'a [u8],
    text: &mut Vec<u8, A>,
) -> Result<&'a [u8], AllocError>
    requires { HasRoom kind (length left.now) }
    ensures text { OnOk result (text.new.items ≡ text.old.items ++ part_by behind kind left.now) }
    ensures left { IfOk result (λ rest. rest.now ≡ left_by kind left.now) }
{
    match kind {
        Kind::Number(number) => {
            let (taken, rest) = left.split_at(number.width());
            show_comma(behind, text)?;
            show_typed(number, number_from(taken), text)?;
            Ok(rest)
        }
        Kind::Text => {
            show_text_part(behind, left, text)?;
            Ok(&[])
        }
        Kind::Hex => {
            show_hex_part(alloc, behind, left, text)?;
            Ok(&[])
        }
    }
}

// Appends a comma unless this is the first part.
pub(crate) fn show_comma<A: Allocator>(
    behind: bool,
    text: &mut Vec<u8, A>,
) -> Result<(), AllocError>
    ensures { OnOk result (text.new.items ≡ text.old.items ++ comma behind) }
{
    if behind {
        return Ok(text.push(b',')?);
    }
    Ok(())
}

// Appends the remaining bytes as text. If no bytes remain, appends nothing.
fn show_text_part<A: Allocator>(
    behind: bool,
    left: &[u8],
    text: &mut Vec<u8, A>,
) -> Result<(), AllocError>
    ensures { OnOk result (text.new.items ≡ text.old.items ++ text_part behind left.now) }
{
    if left.is_empty() {
        return Ok(());
    }
    show_comma(behind, text)?;
    print_text(left, text)
}

// Appends the remaining bytes in hex. If no bytes remain, appends nothing.
fn show_hex_part<A: Allocator + Copy>(
    alloc: A,
    behind: bool,
    left: &[u8],
    text: &mut Vec<u8, A>,
) -> Result<(), AllocError>
    ensures { OnOk result (text.new.items ≡ text.old.items ++ hex_part behind left.now) }
{
    if left.is_empty() {
        return Ok(());
    }
    show_comma(behind, text)?;
    text.extend_from_slice(b"hex:")?;
    let hex = hex::encode(alloc, left)?;
    text.extend_from_slice(hex.as_bytes())
}

// Appends a number with its type.
fn show_typed<A: Allocator>(
    number: Number,
    value: u64,
    text: &mut Vec<u8, A>,
) -> Result<(), AllocError>
    ensures { OnOk result (text.new.items ≡ text.old.items ++ number_text number value) }
{
    match number {
        Number::U8 => text.extend_from_slice(b"u8:")?,
        Number::U16 => text.extend_from_slice(b"u16:")?,
        Number::U32 => text.extend_from_slice(b"u32:")?,
        Number::U64 => text.extend_from_slice(b"u64:")?,
        Number::I64 => text.extend_from_slice(b"i64:")?,
    }
    match number {
        Number::I64 => show_signed(value, text),
        _ => show_number(value, text),
    }
}
