//! Registers, numbers and names.

ghost use Rattle.std.specs.Prelude.{◌≡◌, ◌≤◌, IfSome, slice_index, nat_lt, pos, neg_ℤ};
ghost use Rattle.std.specs.List.{list_all};
ghost use Rattle.std.specs.Char.{digit_value};
ghost use Rattle.bpf_asm.specs.Words.{register, is_numeral, numeral, magnitude, within, word, long, near, far, is_name, is_name_start, is_name_part, Gives, GivesUnlessLarge};

use crate::fault::FaultKind;

/// Reads a register.
pub fn read_register(bytes: &[u8]) -> Option<u8>
    ensures value { result ≡ register bytes.now }
    ensures few { IfSome result (λ r. r ≤ 10) }
{
    match bytes {
        [b'r', digit] if *digit >= b'0' && *digit <= b'9' => Some(*digit - b'0'),
        [b'r', b'1', b'0'] => Some(10),
        _ => None,
    }
}

fn is_digit(b: u8, radix: u32) -> bool
    requires low { 2 ≤ radix }
    requires high { radix ≤ 16 }
    ensures { result ≡ nat_lt (digit_value b) radix }
{
    (b as char).is_digit(radix)
}

/// Returns true if all bytes are digits.
fn only_digits(bytes: &[u8], radix: u32) -> bool
    requires low { 2 ≤ radix }
    requires high { radix ≤ 16 }
    ensures { result ≡ list_all (λ c. nat_lt (digit_value c) radix) bytes.now }
{
    bytes.iter().all(|b| is_digit(*b, radix))
}

/// Returns true if there is at least one byte and all bytes are digits.
fn are_digits(bytes: &[u8], radix: u32) -> bool
    requires low { 2 ≤ radix }
    requires high { radix ≤ 16 }
    ensures { result ≡ is_numeral radix bytes.now }
{
    bytes.len() > 0 && only_digits(bytes, radix)
}

/// Reads a number from its digits.
#[tactic(auto, unfolding(crate::specs::Words::numeral))]
fn numeral(bytes: &[u8], radix: u32) -> Result<u64, FaultKind>
    requires low { 2 ≤ radix }
    requires high { radix ≤ 16 }
    ensures { GivesUnlessLarge result (numeral radix bytes.now) }
{
    if !are_digits(bytes, radix) {
        return Err(FaultKind::Operand);
    }
    let Ok(digits) = str::from_utf8(bytes) else {
        return Err(FaultKind::Operand);
    };
    match u64::from_str_radix(digits, radix) {
        Ok(number) => Ok(number),
        Err(_) => Err(FaultKind::Number),
    }
}

/// Reads a number without a sign, decimal or hex.
#[tactic(auto, unfolding(crate::specs::Words::magnitude))]
fn magnitude(bytes: &[u8]) -> Result<u64, FaultKind>
    ensures { GivesUnlessLarge result (magnitude bytes.now) }
{
    match bytes {
        [b'0', b'x', digits @ ..] => numeral(digits, 16),
        _ => numeral(bytes, 10),
    }
}

fn negative32(size: u64) -> Result<i32, FaultKind>
    ensures { Gives (λ n. n) result (within (neg_ℤ (pos 2147483648)) (pos 2147483647) (neg_ℤ (pos size))) }
{
    if size <= 0x8000_0000 {
        Ok((0 - size as i64) as i32)
    } else {
        Err(FaultKind::Number)
    }
}

fn positive32(size: u64) -> Result<i32, FaultKind>
    ensures { Gives (λ n. n) result (within (neg_ℤ (pos 2147483648)) (pos 2147483647) (pos size)) }
{
    if size <= 0x7fff_ffff {
        Ok(size as i32)
    } else {
        Err(FaultKind::Number)
    }
}

fn negative16(size: u64) -> Result<i16, FaultKind>
    ensures { Gives (λ n. n) result (within (neg_ℤ (pos 32768)) (pos 32767) (neg_ℤ (pos size))) }
{
    if size <= 0x8000 {
        Ok((0 - size as i32) as i16)
    } else {
        Err(FaultKind::Number)
    }
}

fn positive16(size: u64) -> Result<i16, FaultKind>
    ensures { Gives (λ n. n) result (within (neg_ℤ (pos 32768)) (pos 32767) (pos size)) }
{
    if size <= 0x7fff {
        Ok(size as i16)
    } else {
        Err(FaultKind::Number)
    }
}

/// Reads a signed number of 32 bits.
#[tactic(auto, unfolding(crate::specs::Words::word, crate::specs::Words::number))]
pub fn read_word(bytes: &[u8]) -> Result<i32, FaultKind>
    ensures { Gives (λ n. n) result (word bytes.now) }
{
    match bytes {
        [b'-', digits @ ..] => negative32(magnitude(digits)?),
        _ => positive32(magnitude(bytes)?),
    }
}

/// Reads a number of 64 bits, signed or unsigned.
#[tactic(auto, unfolding(crate::specs::Words::long, crate::specs::Words::number))]
pub fn read_long(bytes: &[u8]) -> Result<u64, FaultKind>
    ensures { Gives (λ n. n) result (long bytes.now) }
{
    match bytes {
        [b'-', digits @ ..] => match magnitude(digits)? {
            0 => Ok(0),
            size if size <= 0x8000_0000_0000_0000 => Ok(u64::MAX - (size - 1)),
            _ => Err(FaultKind::Number),
        },
        _ => magnitude(bytes),
    }
}

/// Reads a sign and a number of 16 bits.
#[tactic(auto, unfolding(crate::specs::Words::near, crate::specs::Words::distance))]
pub fn read_near(bytes: &[u8]) -> Result<i16, FaultKind>
    ensures { Gives (λ n. n) result (near bytes.now) }
{
    match bytes {
        [b'-', digits @ ..] => negative16(numeral(digits, 10)?),
        [b'+', digits @ ..] => positive16(numeral(digits, 10)?),
        _ => Err(FaultKind::Operand),
    }
}

/// Reads a sign and a number of 32 bits.
#[tactic(auto, unfolding(crate::specs::Words::far, crate::specs::Words::distance))]
pub fn read_far(bytes: &[u8]) -> Result<i32, FaultKind>
    ensures { Gives (λ n. n) result (far bytes.now) }
{
    match bytes {
        [b'-', digits @ ..] => negative32(numeral(digits, 10)?),
        [b'+', digits @ ..] => positive32(numeral(digits, 10)?),
        _ => Err(FaultKind::Operand),
    }
}

fn is_start(b: u8) -> bool
    ensures { result ≡ is_name_start b }
{
    b >= b'a' && b <= b'z' || b == b'_'
}

fn is_part(b: u8) -> bool
    ensures { result ≡ is_name_part b }
{
    is_start(b) || b >= b'0' && b <= b'9'
}

fn first_or_zero(bytes: &[u8]) -> u8
    ensures { result ≡ slice_index bytes.now 0 }
{
    match bytes {
        [first, ..] => *first,
        [] => 0,
    }
}

fn are_parts(bytes: &[u8]) -> bool
    ensures { result ≡ list_all is_name_part bytes.now }
{
    bytes.iter().all(|b| is_part(*b))
}

/// Returns true if the bytes are a valid label name.
#[tactic(auto, unfolding(crate::specs::Words::is_name))]
pub fn is_name(bytes: &[u8]) -> bool
    ensures { result ≡ is_name bytes.now }
{
    bytes.len() <= 32 && is_start(first_or_zero(bytes)) && are_parts(bytes)
}
