//! Decodes hex, sixteen digits at once or one by one from a table, and encodes bytes in hex.
ghost use Rattle.std.specs.Prelude.{◌≡◌, ◌+◌, ◌*◌, ◌≤◌, ◌++◌, IfOk, OnOk, true, false, Ok, None, length, map, ℕ, Vec, vec_len, vec_capacity};
ghost use Rattle.std.specs.Option.{option_map};
ghost use Rattle.dbm_script.specs.Digits.{are_values, joined_digits, lane_value, value_read};
ghost use Rattle.std.specs.Result.{result_ok};
ghost use Rattle.hex.specs.Hex.{decode_of, decode_pairs, encode_lower, encode_with, hex_digit_value};

use byte_text::DIGITS;
use std::alloc::{AllocError, Allocator};
use std::simd::prelude::*;

// The value of each digit; more than 15 for any other byte.
const VALUES: [u8; 256] =
    *b"\xff\xff\xff\xff\xff\xff\xff\xff\xff\xff\xff\xff\xff\xff\xff\xff\xff\xff\xff\xff\xff\xff\xff\xff\xff\xff\xff\xff\xff\xff\xff\xff\
    \xff\xff\xff\xff\xff\xff\xff\xff\xff\xff\xff\xff\xff\xff\xff\xff\x00\x01\x02\x03\x04\x05\x06\x07\x08\x09\xff\xff\xff\xff\xff\xff\
    \xff\x0a\x0b\x0c\x0d\x0e\x0f\xff\xff\xff\xff\xff\xff\xff\xff\xff\xff\xff\xff\xff\xff\xff\xff\xff\xff\xff\xff\xff\xff\xff\xff\xff\
    \xff\x0a\x0b\x0c\x0d\x0e\x0f\xff\xff\xff\xff\xff\xff\xff\xff\xff\xff\xff\xff\xff\xff\xff\xff\xff\xff\xff\xff\xff\xff\xff\xff\xff\
    \xff\xff\xff\xff\xff\xff\xff\xff\xff\xff\xff\xff\xff\xff\xff\xff\xff\xff\xff\xff\xff\xff\xff\xff\xff\xff\xff\xff\xff\xff\xff\xff\
    \xff\xff\xff\xff\xff\xff\xff\xff\xff\xff\xff\xff\xff\xff\xff\xff\xff\xff\xff\xff\xff\xff\xff\xff\xff\xff\xff\xff\xff\xff\xff\xff\
    \xff\xff\xff\xff\xff\xff\xff\xff\xff\xff\xff\xff\xff\xff\xff\xff\xff\xff\xff\xff\xff\xff\xff\xff\xff\xff\xff\xff\xff\xff\xff\xff\
    \xff\xff\xff\xff\xff\xff\xff\xff\xff\xff\xff\xff\xff\xff\xff\xff\xff\xff\xff\xff\xff\xff\xff\xff\xff\xff\xff\xff\xff\xff\xff\xff";

/// Decodes hex of either case, as `hex::decode` does. Returns `None` if the text is not hex. No branch depends on the kind of a digit: the
/// digits of a key are random, so the processor would mispredict the branch.
///
/// # Errors
/// `AllocError` if allocation fails.
pub(crate) fn decode<A: Allocator>(alloc: A, text: &[u8]) -> Result<Option<Vec<u8, A>>, AllocError>
    ensures { IfOk result (λ bytes. option_map (λ (v : Vec ℕ A). v.items) bytes ≡ result_ok (decode_of text.now)) }
{
    if text.len() % 2 != 0 {
        return Ok(None);
    }
    let mut bytes = vec![in alloc; 0u8; text.len() / 2]?;
    if !decode_into(text, bytes.as_mut_slice()) {
        return Ok(None);
    }
    Ok(Some(bytes))
}

// Decodes hex into `out`, eight bytes at a time while at least eight are left. Returns `false` if the text is not hex.
pub(crate) fn decode_into(text: &[u8], out: &mut [u8]) -> bool
    requires { length text.now ≡ 2 * length out.old }
    ensures bytes { result ≡ true → decode_pairs 0 text.now ≡ Ok out.new }
    ensures none { result ≡ false → result_ok (decode_pairs 0 text.now) ≡ None }
{
    if out.len() < 8 {
        return decode_each(text, out);
    }
    let (first, others) = text.split_at(16);
    let (bytes, rest) = out.split_at_mut(8);
    decode_eight(first, bytes) && decode_into(others, rest)
}

// Like `decode_into`, for sixteen digits.
#[inline(always)]
fn decode_eight(text: &[u8], out: &mut [u8]) -> bool
    requires text { length text.now ≡ 16 }
    requires out { length out.old ≡ 8 }
    ensures bytes { result ≡ true → decode_pairs 0 text.now ≡ Ok out.new }
    ensures none { result ≡ false → result_ok (decode_pairs 0 text.now) ≡ None }
{
    let digits = values(u8x16::from_slice(text));
    if digits.simd_gt(u8x16::splat(15)).to_bitmask() != 0 {
        return false;
    }
    pairs(digits).copy_to_slice(out);
    true
}

// Returns the values of sixteen digits; more than 15 for any other byte.
#[inline(always)]
fn values(text: u8x16) -> u8x16
    ensures { result ≡ map lane_value text }
{
    let decimal = text - u8x16::splat(48);
    let letter = (text | u8x16::splat(32)) - u8x16::splat(97);
    let behind = letter
        .simd_lt(u8x16::splat(6))
        .select(letter + u8x16::splat(10), u8x16::splat(255));
    decimal.simd_lt(u8x16::splat(10)).select(decimal, behind)
}

// Joins the values of sixteen digits in pairs into eight bytes.
#[inline(always)]
fn pairs(digits: u8x16) -> u8x8
    ensures { result ≡ joined_digits digits }
{
    let high: u8x8 = digits.swizzle([0, 2, 4, 6, 8, 10, 12, 14]);
    let low: u8x8 = digits.swizzle([1, 3, 5, 7, 9, 11, 13, 15]);
    high * u8x8::splat(16) + low
}

// Like `decode_into`, byte by byte.
fn decode_each(text: &[u8], out: &mut [u8]) -> bool
    requires { length text.now ≡ 2 * length out.old }
    ensures bytes { result ≡ true → decode_pairs 0 text.now ≡ Ok out.new }
    ensures none { result ≡ false → result_ok (decode_pairs 0 text.now) ≡ None }
{
    'bytes: for i in 0..out.len() {
        let high = value(text[2 * i]);
        let low = value(text[2 * i + 1]);
        if high > 15 || low > 15 {
            return false;
        }
        out[i] = high * 16 + low;
    }
    true
}

// Returns the value of a digit; more than 15 for any other byte.
fn value(digit: u8) -> u8
    ensures { value_read result ≡ hex_digit_value digit }
{
    look_up(&VALUES, digit)
}

// Returns the entry of a table for a byte.
fn look_up(table: &[u8; 256], digit: u8) -> u8
    requires { are_values table.now 0 ≡ true }
    ensures { value_read result ≡ hex_digit_value digit }
{
    table[usize::from(digit)]
}

/// Appends bytes in lower-case hex to `text`.
///
/// # Errors
/// `AllocError` if allocation fails. On error, discard `text`: it may be partial.
pub(crate) fn encode<A: Allocator>(bytes: &[u8], text: &mut Vec<u8, A>) -> Result<(), AllocError>
    ensures ok { OnOk result (text.new.items ≡ text.old.items ++ encode_lower bytes.now) }
{
    let Some(long) = bytes.len().checked_mul(2) else {
        return Err(AllocError);
    };
    text.reserve(long)?;
    write_with(&DIGITS, bytes, text);
    Ok(())
}

// Appends each byte as two digits of a table to `text`, which must have room for them.
fn write_with<A: Allocator>(table: &[u8; 16], bytes: &[u8], text: &mut Vec<u8, A>)
    requires room { vec_len text.old + 2 * length bytes.now ≤ vec_capacity text.old }
    ensures { text.new.items ≡ text.old.items ++ encode_with table.now bytes.now }
{
    for byte in bytes {
        text.push_reserved(table[usize::from(*byte / 16)]);
        text.push_reserved(table[usize::from(*byte % 16)]);
    }
}
