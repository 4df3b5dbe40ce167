//! Numbers in decimal, and as little-endian bytes.
ghost use Rattle.std.specs.Prelude.{◌≡◌, ◌<◌, ◌≤◌, ◌^◌, ◌∷◌, ◌++◌, [], ℕ, IfSome, OnOk, Some, decimal, length};
ghost use Rattle.std.specs.Bool.{Decides};
ghost use Rattle.byte_text.specs.Numbers.{number_of, signed_of, signed_text, low_bytes, number_in};

use itoa::Buffer;
use std::alloc::{AllocError, Allocator};

/// The least 64-bit word that is negative as a signed number.
const SIGN: u64 = 9_223_372_036_854_775_808;

/// Parses a decimal number without leading zeros. Returns `None` if the text has another form or the number exceeds `most`. Does not
/// allocate.
#[inline(always)]
pub fn read_number(text: &[u8], most: u64) -> Option<u64>
    ensures value { result ≡ number_of most text.now }
    ensures within { IfSome result (λ n. n ≤ most) }
{
    match text {
        [digit] => read_digit(*digit, most),
        _ => read_long(text, most),
    }
}

// Like `read_number`, for a text of any length.
fn read_long(text: &[u8], most: u64) -> Option<u64>
    ensures value { result ≡ number_of most text.now }
    ensures within { IfSome result (λ n. n ≤ most) }
{
    let number = parsed(text)?;
    if number > most {
        return None;
    }
    if !is_decimal_of(text, number) {
        return None;
    }
    Some(number)
}

// Parses a single digit. Returns `None` if the byte is not a digit, or if its value exceeds `most`.
fn read_digit(digit: u8, most: u64) -> Option<u64>
    ensures value { result ≡ number_of most (digit ∷ []) }
    ensures within { IfSome result (λ n. n ≤ most) }
{
    if digit < b'0' || digit > b'9' {
        return None;
    }
    let number = u64::from(digit - b'0');
    if number > most {
        return None;
    }
    Some(number)
}

fn is_decimal_of(text: &[u8], number: u64) -> bool
    ensures { Decides result (text.now ≡ decimal number) }
{
    let mut digits = Buffer::new();
    text == digits.format(number).as_bytes()
}

// Parses a decimal number. The result is unspecified if the text is not a number below 2^64 without leading zeros.
fn parsed(text: &[u8]) -> Option<u64>
    ensures { (n : ℕ) → n < 2 ^ 64 → text.now ≡ decimal n → result ≡ Some n }
{
    let Ok(digits) = str::from_utf8(text) else {
        return None;
    };
    digits.parse().ok()
}

/// Parses a signed 64-bit number and returns it in two's complement. Returns `None` if the text is not a signed 64-bit number.
pub fn read_signed(text: &[u8]) -> Option<u64>
    ensures { result ≡ signed_of text.now }
{
    match text {
        [] => None,
        [b'-', digits @ ..] => match read_number(digits, SIGN) {
            Some(0) => Some(0),
            Some(number) => Some(u64::MAX - number + 1),
            None => None,
        },
        _ => read_number(text, SIGN - 1),
    }
}

// Appends a number in decimal.
pub(crate) fn show_number<A: Allocator>(
    number: u64,
    text: &mut Vec<u8, A>,
) -> Result<(), AllocError>
    ensures { OnOk result (text.new.items ≡ text.old.items ++ decimal number) }
{
    let mut digits = Buffer::new();
    text.extend_from_slice(digits.format(number).as_bytes())
}

// Appends a word of 64 bits as a signed decimal number.
pub(crate) fn show_signed<A: Allocator>(word: u64, text: &mut Vec<u8, A>) -> Result<(), AllocError>
    ensures { OnOk result (text.new.items ≡ text.old.items ++ signed_text word) }
{
    if word < SIGN {
        return show_number(word, text);
    }
    text.push(b'-')?;
    show_number(u64::MAX - word + 1, text)
}

/// Appends the low `width` bytes of a number, little-endian.
///
/// # Errors
/// `AllocError` if allocation fails. Some of the bytes may have been appended.
pub fn put_number<A: Allocator>(
    number: u64,
    width: usize,
    bytes: &mut Vec<u8, A>,
) -> Result<(), AllocError>
    ensures { OnOk result (bytes.new.items ≡ bytes.old.items ++ low_bytes width number) }
{
    let mut left = number;
    let mut places = width;
    while places > 0 {
        bytes.push((left % 256) as u8)?;
        left /= 256;
        places -= 1;
    }
    Ok(())
}

// Reads a little-endian number of at most eight bytes.
pub(crate) fn number_from(bytes: &[u8]) -> u64
    requires { length bytes.now ≤ 8 }
    ensures { result ≡ number_in bytes.now }
{
    match bytes {
        [] => 0,
        [low, rest @ ..] => u64::from(*low) + 256 * number_from(rest),
    }
}
