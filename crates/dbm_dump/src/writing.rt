//! Writes dumps.
ghost use Rattle.std.specs.Prelude.{◌≡◌, ◌<◌, ◌^◌, ◌++◌, IfOk, OnOk, Some, decimal, length};
ghost use Rattle.std.specs.List.{flat_map};
ghost use Rattle.hex.specs.Hex.{IsBytes};
ghost use Rattle.dbm_dump.specs.Reading.{AreBytePair, IsGood, ReadsBack, pairs_in_dump};
ghost use Rattle.dbm_dump.specs.Texts.{dump_text, dump_pair_line};
ghost use Rattle.dbm_dump.specs.Texts as spec;

use crate::format::Format;
use crate::stage::Stage;
use base64::engine::general_purpose::STANDARD;
use dbm_script::{Notation, show_bytes};
use itoa::Buffer;
use sdbm_addr::{Bytes, KeyBytes, PageSize};
use std::alloc::{AllocError, Global};

/// The header of gdbm's format.
const GDBM_HEADER: &[u8] =
    b"# GDBM dump file created by Boddurci\n#:version=1.1\n#:format=standard\n# End of header\n";

/// Writes a dump of the pairs in a format. Reading a dump in our own format or in gdbm's returns the same pairs.
///
/// # Errors
/// `AllocError` if allocation fails.
pub fn dump_pairs(
    alloc: Global,
    format: Format,
    kind: KeyBytes,
    size: PageSize,
    pairs: &[(Bytes<Global>, Bytes<Global>)],
) -> Result<Vec<u8>, AllocError>
    ensures text { IfOk result (λ text. text.items ≡ dump_text format kind size pairs.now) }
    ensures reads { IfOk result (λ text. ReadsBack format text.items pairs.now) }
{
    match format {
        Format::Plain => plain_dump(alloc, kind, size, pairs),
        Format::Gdbm => gdbm_dump(alloc, pairs),
        Format::Redis => redis_dump(alloc, pairs),
    }
}

// Writes our own format: a header, a line for each pair, and a last line.
fn plain_dump(
    alloc: Global,
    kind: KeyBytes,
    size: PageSize,
    pairs: &[(Bytes<Global>, Bytes<Global>)],
) -> Result<Vec<u8>, AllocError>
    ensures text { IfOk result (λ text. text.items ≡ spec.plain_text kind size pairs.now) }
    ensures reads { IfOk result (λ text. pairs_in_dump Stage.First text.items ≡ Some pairs.now) }
{
    let mut text = plain_header(alloc, kind, size, pairs.len())?;
    for pair in pairs {
        show_pair(pair.0.as_slice(), pair.1.as_slice(), &mut text)?;
    }
    text.extend_from_slice(b"end\n")?;
    Ok(text)
}

// Writes the header of our own format.
fn plain_header(
    alloc: Global,
    kind: KeyBytes,
    size: PageSize,
    count: usize,
) -> Result<Vec<u8>, AllocError>
    ensures { IfOk result (λ text. text.items ≡ spec.plain_header kind size count) }
{
    let mut text = Vec::new(alloc);
    text.extend_from_slice(b"boddurci dump 1\n")?;
    text.extend_from_slice(keys_line(kind))?;
    text.push(b'\n')?;
    text.extend_from_slice(pages_line(size))?;
    text.extend_from_slice(b"\ncount ")?;
    show_number(count, &mut text)?;
    text.extend_from_slice(b"\n\n")?;
    Ok(text)
}

fn keys_line(kind: KeyBytes) -> &'static [u8]
    ensures { result.now ≡ spec.keys_line kind }
{
    match kind {
        KeyBytes::Signed => b"keys signed",
        KeyBytes::Unsigned => b"keys unsigned",
    }
}

fn pages_line(size: PageSize) -> &'static [u8]
    ensures { result.now ≡ spec.pages_line size }
{
    match size {
        PageSize::Small => b"pages 1024",
        PageSize::Wide => b"pages 8192",
    }
}

// Appends a number in decimal to `text`.
fn show_number(number: usize, text: &mut Vec<u8>) -> Result<(), AllocError>
    ensures { OnOk result (text.new.items ≡ text.old.items ++ decimal number) }
{
    let mut digits = Buffer::new();
    text.extend_from_slice(digits.format(number).as_bytes())
}

// Appends the line of a pair to `text`.
fn show_pair(key: &[u8], value: &[u8], text: &mut Vec<u8>) -> Result<(), AllocError>
    ensures text { OnOk result (text.new.items ≡ text.old.items ++ dump_pair_line (key.now, value.now)) }
    ensures bytes { AreBytePair (key.now, value.now) }
{
    show_bytes(&Notation::Hex, key, text)?;
    text.push(b' ')?;
    show_bytes(&Notation::Hex, value, text)?;
    Ok(text.push(b'\n')?)
}

// Writes gdbm's format: a header, the pairs, and the number of pairs.
fn gdbm_dump(alloc: Global, pairs: &[(Bytes<Global>, Bytes<Global>)]) -> Result<Vec<u8>, AllocError>
    ensures text { IfOk result (λ text. text.items ≡ spec.gdbm_text pairs.now) }
    ensures reads { IfOk result (λ text. pairs_in_dump Stage.First text.items ≡ Some pairs.now) }
{
    let mut text = Vec::new(alloc);
    text.extend_from_slice(GDBM_HEADER)?;
    for pair in pairs {
        show_data(alloc, pair.0.as_slice(), pair.1.as_slice(), &mut text)?;
    }
    text.extend_from_slice(b"#:count=")?;
    show_number(pairs.len(), &mut text)?;
    text.extend_from_slice(b"\n# End of data\n")?;
    Ok(text)
}

// Appends a key and a value in gdbm's format to `text`.
fn show_data(alloc: Global, key: &[u8], value: &[u8], text: &mut Vec<u8>) -> Result<(), AllocError>
    ensures text { OnOk result (text.new.items ≡ text.old.items ++ spec.gdbm_pair (key.now, value.now)) }
    ensures good { OnOk result (IsGood (key.now, value.now)) }
{
    show_datum(alloc, key, text)?;
    show_datum(alloc, value, text)
}

// Appends to `text` a line with the length of a datum, and a line with its base64. An empty datum has no second line.
fn show_datum(alloc: Global, bytes: &[u8], text: &mut Vec<u8>) -> Result<(), AllocError>
    ensures text { OnOk result (text.new.items ≡ text.old.items ++ spec.datum_lines bytes.now) }
    ensures bytes { IsBytes bytes.now }
    ensures short { length bytes.now < 2 ^ 64 }
{
    text.extend_from_slice(b"#:len=")?;
    show_number(bytes.len(), text)?;
    text.push(b'\n')?;
    if bytes.is_empty() {
        return Ok(());
    }
    let encoded = STANDARD.encode(alloc, bytes)?;
    text.extend_from_slice(encoded.as_bytes())?;
    Ok(text.push(b'\n')?)
}

// Writes a SET command for each pair.
fn redis_dump(
    alloc: Global,
    pairs: &[(Bytes<Global>, Bytes<Global>)],
) -> Result<Vec<u8>, AllocError>
    ensures { IfOk result (λ text. text.items ≡ flat_map spec.redis_pair pairs.now) }
{
    let mut text = Vec::new(alloc);
    for pair in pairs {
        show_set(pair.0.as_slice(), pair.1.as_slice(), &mut text)?;
    }
    Ok(text)
}

// Appends the SET command of a key and a value to `text`.
fn show_set(key: &[u8], value: &[u8], text: &mut Vec<u8>) -> Result<(), AllocError>
    ensures { OnOk result (text.new.items ≡ text.old.items ++ spec.redis_pair (key.now, value.now)) }
{
    text.extend_from_slice(b"*3\r\n$3\r\nSET\r\n")?;
    show_bulk(key, text)?;
    show_bulk(value, text)
}

// Appends to `text` a string of Redis's protocol: the length of the bytes, and then the bytes.
fn show_bulk(bytes: &[u8], text: &mut Vec<u8>) -> Result<(), AllocError>
    ensures { OnOk result (text.new.items ≡ text.old.items ++ spec.bulk bytes.now) }
{
    text.push(b'$')?;
    show_number(bytes.len(), text)?;
    text.extend_from_slice(b"\r\n")?;
    text.extend_from_slice(bytes)?;
    text.extend_from_slice(b"\r\n")
}
