//! Parses the lines of a dump.
ghost use Rattle.std.specs.Prelude.{◌≡◌, IfOk, Some, option_map};
ghost use Rattle.dbm_script.specs.Notation.{hex_bytes};
ghost use Rattle.dbm_dump.specs.Marks.{behind, both, count_mark, len_mark, line_mark, number_behind, number_marked, pair_of, sign_mark};

use dbm_script::{Notation, first_piece, read_bytes, read_number};
use sdbm_addr::Bytes;
use std::alloc::{AllocError, Global};

/// The kind of a line in gdbm's format.
#[derive(Clone, Copy, Debug, PartialEq, Eq)]
pub enum Mark {
    /// An empty line, or a line that begins with '#' and has no length or count.
    Note,
    /// The beginning of a key or a value of this length.
    Len(u64),
    /// The number of pairs in the dump.
    Count(u64),
    /// Text in base64.
    Text,
    /// A length or a count that is not a number.
    Bad,
}

/// Returns the kind of a line in gdbm's format.
pub fn mark_of(line: &[u8]) -> Mark
    ensures { result ≡ line_mark line.now }
{
    if line.is_empty() {
        return Mark::Note;
    }
    if line[0] == b'#' {
        return sign_of(line);
    }
    Mark::Text
}

// Returns the kind of a line that begins with '#'.
fn sign_of(line: &[u8]) -> Mark
    ensures { result ≡ sign_mark line.now }
{
    if let Some(digits) = behind(b"#:len=", line) {
        return len_mark(number_in(digits));
    }
    match behind(b"#:count=", line) {
        Some(digits) => count_mark(number_in(digits)),
        None => Mark::Note,
    }
}

fn len_mark(len: Option<u64>) -> Mark
    ensures { result ≡ len_mark len }
{
    match len {
        Some(len) => Mark::Len(len),
        None => Mark::Bad,
    }
}

fn count_mark(count: Option<u64>) -> Mark
    ensures { result ≡ count_mark count }
{
    match count {
        Some(count) => Mark::Count(count),
        None => Mark::Bad,
    }
}

fn number_in(digits: &[u8]) -> Option<u64>
    ensures { result ≡ number_marked (Some digits.now) }
{
    read_number(digits, u64::MAX)
}

/// Returns the number after `front`, if the line begins with `front`.
pub fn number_behind(front: &[u8], line: &[u8]) -> Option<u64>
    ensures { result ≡ number_behind front.now line.now }
{
    number_in(behind(front, line)?)
}

// Returns the rest of a line after `front`, if the line begins with `front`.
fn behind<'a>(front: &[u8], line: &'a [u8]) -> Option<&'a [u8]>
    ensures { option_map (λ rest. rest.now) result ≡ behind front.now line.now }
{
    line.strip_prefix(front)
}

/// Reads the pair of a line, key and value in hex. Returns `None` if the line is not a pair.
///
/// # Errors
/// `AllocError` if allocation fails.
pub fn pair_of(
    alloc: Global,
    line: &[u8],
) -> Result<Option<(Bytes<Global>, Bytes<Global>)>, AllocError>
    ensures { IfOk result (λ pair. pair ≡ pair_of line.now) }
{
    let (key, rest) = first_piece(b' ', line);
    let Some(rest) = rest else {
        return Ok(None);
    };
    let (value, rest) = first_piece(b' ', rest);
    match rest {
        None => both(alloc, key, value),
        Some(_) => Ok(None),
    }
}

// Reads a key and a value in hex. Returns `None` if either is invalid.
fn both(
    alloc: Global,
    key: &[u8],
    value: &[u8],
) -> Result<Option<(Bytes<Global>, Bytes<Global>)>, AllocError>
    ensures { IfOk result (λ pair. pair ≡ both (hex_bytes key.now) (hex_bytes value.now)) }
{
    let Some(key) = read_bytes(alloc, &Notation::Hex, key)? else {
        return Ok(None);
    };
    let Some(value) = read_bytes(alloc, &Notation::Hex, value)? else {
        return Ok(None);
    };
    Ok(Some((key, value)))
}
