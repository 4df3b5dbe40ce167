//! Escapes: the notation for bytes that a text cannot contain literally.
ghost use Rattle.std.specs.Prelude.{◌≡◌, ◌++◌, ◌∷◌, [], ◌<◌, ℕ, List, IfOk, IfSome, OnOk, Some, None, cond};
ghost use Rattle.hex.specs.Hex.{hex_digit_value};
ghost use Rattle.byte_text.specs.Escapes.{IsReading, IsStep, after_step, bytes_left, sign_of, hex_escape, escape_of, escaped};
ghost use Rattle.byte_text.specs.Text.{Puts};
ghost use Rattle.byte_text.specs.declared.escapes.Reading.TheVariants.{Plain};

use memchr::memchr;
use std::alloc::{AllocError, Allocator};

/// The hex digits, with lower-case letters.
pub const DIGITS: [u8; 16] = *b"0123456789abcdef";

// The state of a reader of a text.
#[derive(Clone, Copy)]
enum Reading {
    // Between two bytes.
    Plain,
    // After a backslash.
    Escape,
    // After `\x`.
    High,
    // After `\x` and its first digit, which has this value.
    Low(u8),
}

// The effect of reading the next byte of a text.
#[derive(Clone, Copy)]
enum Step {
    // The byte is invalid here.
    Refused,
    // The reader continues in this state.
    Goes(Reading),
    // The text of one byte is complete. That byte has this value.
    Byte(u8),
}

// Appends the bytes that a text represents. Returns `false` if the text is invalid.
pub(crate) fn read_escapes<A: Allocator>(
    text: &[u8],
    bytes: &mut Vec<u8, A>,
) -> Result<bool, AllocError>
    ensures { IfOk result (λ good. Puts (bytes_left Plain text.now) good bytes.old.items bytes.new.items) }
{
    match memchr(b'\\', text) {
        None => put_all(text, bytes),
        Some(_) => read_each(text, bytes),
    }
}

// Like `read_escapes`, for a text without escapes.
fn put_all<A: Allocator>(text: &[u8], bytes: &mut Vec<u8, A>) -> Result<bool, AllocError>
    ensures { IfOk result (λ good. Puts (Some text.now) good bytes.old.items bytes.new.items) }
{
    bytes.extend_from_slice(text)?;
    Ok(true)
}

// Like `read_escapes`, byte by byte.
fn read_each<A: Allocator>(text: &[u8], bytes: &mut Vec<u8, A>) -> Result<bool, AllocError>
    ensures { IfOk result (λ good. Puts (bytes_left Plain text.now) good bytes.old.items bytes.new.items) }
{
    let mut reading = Reading::Plain;
    for c in text {
        match step_at(reading, *c) {
            Step::Refused => return Ok(false),
            Step::Goes(next) => reading = next,
            Step::Byte(byte) => {
                bytes.push(byte)?;
                reading = Reading::Plain;
            }
        }
    }
    Ok(is_plain(reading))
}

// Reads the next byte of a text.
fn step_at(reading: Reading, c: u8) -> Step
    requires { IsReading reading }
    ensures value { (cs : List ℕ) → bytes_left reading (c ∷ cs) ≡ after_step result cs }
    ensures small { IsStep result }
{
    match reading {
        Reading::Plain => {
            if c == b'\\' {
                return Step::Goes(Reading::Escape);
            }
            Step::Byte(c)
        }
        Reading::Escape => {
            if c == b'x' {
                return Step::Goes(Reading::High);
            }
            match sign(c) {
                Some(byte) => Step::Byte(byte),
                None => Step::Refused,
            }
        }
        Reading::High => match hex_digit(c) {
            Some(high) => Step::Goes(Reading::Low(high)),
            None => Step::Refused,
        },
        Reading::Low(high) => match hex_digit(c) {
            Some(low) => Step::Byte(16 * high + low),
            None => Step::Refused,
        },
    }
}

fn is_plain(reading: Reading) -> bool
    ensures { bytes_left reading [] ≡ cond result (Some []) None }
{
    match reading {
        Reading::Plain => true,
        Reading::Escape | Reading::High | Reading::Low(_) => false,
    }
}

// The byte that a backslash and this character represent.
fn sign(c: u8) -> Option<u8>
    ensures { result ≡ sign_of c }
{
    match c {
        b's' => Some(b' '),
        b'n' => Some(b'\n'),
        b't' => Some(b'\t'),
        b'\\' => Some(b'\\'),
        b'.' => Some(b'.'),
        b',' => Some(b','),
        _ => None,
    }
}

// The value of a hex digit in either case.
fn hex_digit(c: u8) -> Option<u8>
    ensures value { result ≡ hex_digit_value c }
    ensures small { IfSome result (λ d. d < 16) }
{
    match c {
        b'A'..=b'F' => Some(c - 55),
        b'a'..=b'f' => Some(c - 87),
        b'0'..=b'9' => Some(c - 48),
        _ => None,
    }
}

// Appends the escaped bytes to `text`.
pub(crate) fn show_escaped<A: Allocator>(
    bytes: &[u8],
    text: &mut Vec<u8, A>,
) -> Result<(), AllocError>
    ensures { OnOk result (text.new.items ≡ text.old.items ++ escaped bytes.now) }
{
    for byte in bytes {
        show_byte(*byte, text)?;
    }
    Ok(())
}

fn show_byte<A: Allocator>(byte: u8, text: &mut Vec<u8, A>) -> Result<(), AllocError>
    ensures { OnOk result (text.new.items ≡ text.old.items ++ escape_of byte) }
{
    match byte {
        b' ' => text.extend_from_slice(b"\\s"),
        b'\n' => text.extend_from_slice(b"\\n"),
        b'\t' => text.extend_from_slice(b"\\t"),
        b'\\' => text.extend_from_slice(b"\\\\"),
        b',' => text.extend_from_slice(b"\\,"),
        33..=126 => Ok(text.push(byte)?),
        _ => show_hex_escape(byte, text),
    }
}

// Appends a byte as `\x` and two digits.
pub(crate) fn show_hex_escape<A: Allocator>(
    byte: u8,
    text: &mut Vec<u8, A>,
) -> Result<(), AllocError>
    ensures { OnOk result (text.new.items ≡ text.old.items ++ hex_escape byte) }
{
    let high = DIGITS[usize::from(byte / 16)];
    let low = DIGITS[usize::from(byte % 16)];
    text.extend_from_slice(&[b'\\', b'x', high, low])
}
