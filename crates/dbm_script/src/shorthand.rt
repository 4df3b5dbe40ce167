//! Expands the shorthand in the lines of scripts and batches before they are read.
ghost use Rattle.std.specs.Prelude.{◌≡◌, ◌++◌, IfOk, OnOk, decimal, map};
ghost use Rattle.dbm_script.specs.Pieces.{pieces_of};
ghost use Rattle.dbm_script.specs.Shorthand.{fully_named, in_full, is_comment, spelled_text, spelled_line, timed};

use crate::pieces::first_piece;
use itoa::Buffer;
use std::alloc::{AllocError, Allocator};

/// The kind of lines in a text.
#[derive(Clone, Copy, Debug, PartialEq, Eq)]
pub enum LineKind {
    /// Lines of a script, which are commands.
    OfScript,
    /// Lines of a batch, which are runs of one program.
    OfBatch,
}

/// A time of day, counted from the beginning of 1970 in UTC.
#[derive(Clone, Copy, Debug, PartialEq, Eq)]
pub struct TimeOfDay {
    pub seconds: u64,
    pub millis: u64,
}

/// Expands the shorthand of a text line by line. In a script, a line that begins with `#` becomes empty, and `get`, `put` and `del` become
/// `fetch`, `replace` and `delete`. Any other line that ends in CR becomes a single CR, which is a bad line. If `time` is given and a line
/// runs a program, a last word `now` becomes the seconds of `time`, and `now-ms` its milliseconds. Each line keeps its number.
///
/// # Errors
/// `AllocError` if allocation fails.
pub fn spell_out<A: Allocator + Copy>(
    alloc: A,
    lines: LineKind,
    time: Option<TimeOfDay>,
    input: &[u8],
) -> Result<Vec<u8, A>, AllocError>
    ensures value { IfOk result (λ text. text.items ≡ spelled_text lines time input.now) }
    ensures lines { IfOk result (λ text. pieces_of 10 text.items ≡ map (spelled_line lines time) (pieces_of 10 input.now)) }
{
    let mut text = Vec::with_capacity(alloc, input.len())?;
    let mut rest = Some(input);
    while let Some(left) = rest {
        let (line, after) = first_piece(b'\n', left);
        spell_line(lines, time, line, &mut text)?;
        if after.is_some() {
            text.push(b'\n')?;
        }
        rest = after;
    }
    Ok(text)
}

/// Expands the shorthand of one line as `spell_out` does, and appends the result to `text`.
///
/// # Errors
/// `AllocError` if allocation fails.
pub fn spell_line<A: Allocator>(
    lines: LineKind,
    time: Option<TimeOfDay>,
    line: &[u8],
    text: &mut Vec<u8, A>,
) -> Result<(), AllocError>
    ensures { OnOk result (text.new.items ≡ text.old.items ++ spelled_line lines time line.now) }
{
    if is_comment(lines, line) {
        return Ok(());
    }
    if line.ends_with(b"\r") {
        return Ok(text.push(b'\r')?);
    }
    spell_words(lines, time, line, text)
}

// Returns `true` if a line is a comment.
fn is_comment(lines: LineKind, line: &[u8]) -> bool
    ensures { result ≡ is_comment lines line.now }
{
    match lines {
        LineKind::OfScript => line.starts_with(b"#"),
        LineKind::OfBatch => false,
    }
}

// Appends a line to `text`, with the name of its command and its time expanded.
fn spell_words<A: Allocator>(
    lines: LineKind,
    time: Option<TimeOfDay>,
    line: &[u8],
    text: &mut Vec<u8, A>,
) -> Result<(), AllocError>
    ensures { OnOk result (text.new.items ≡ text.old.items ++ in_full lines time line.now) }
{
    match lines {
        LineKind::OfScript => {
            if line.starts_with(b"run ") {
                return spell_time(time, line, text);
            }
            spell_name(line, text)
        }
        LineKind::OfBatch => spell_time(time, line, text),
    }
}

// Appends a line to `text`, with the full name of its command.
fn spell_name<A: Allocator>(line: &[u8], text: &mut Vec<u8, A>) -> Result<(), AllocError>
    ensures { OnOk result (text.new.items ≡ text.old.items ++ fully_named line.now) }
{
    if line.starts_with(b"get ") {
        return put_both(b"fetch ", &line[4..], text);
    }
    if line.starts_with(b"put ") {
        return put_both(b"replace ", &line[4..], text);
    }
    if line.starts_with(b"del ") {
        return put_both(b"delete ", &line[4..], text);
    }
    text.extend_from_slice(line)
}

// Appends a line to `text`, with its time in decimal.
fn spell_time<A: Allocator>(
    time: Option<TimeOfDay>,
    line: &[u8],
    text: &mut Vec<u8, A>,
) -> Result<(), AllocError>
    ensures { OnOk result (text.new.items ≡ text.old.items ++ timed time line.now) }
{
    let Some(time) = time else {
        return text.extend_from_slice(line);
    };
    let mut digits = Buffer::new();
    if line.ends_with(b" now") {
        let before = &line[..line.len() - 3];
        return put_both(before, digits.format(time.seconds).as_bytes(), text);
    }
    if line.ends_with(b" now-ms") {
        let before = &line[..line.len() - 6];
        return put_both(before, digits.format(time.millis).as_bytes(), text);
    }
    text.extend_from_slice(line)
}

// Appends `first` and then `second` to `text`.
fn put_both<A: Allocator>(
    first: &[u8],
    second: &[u8],
    text: &mut Vec<u8, A>,
) -> Result<(), AllocError>
    ensures { OnOk result (text.new.items ≡ text.old.items ++ (first.now ++ second.now)) }
{
    text.extend_from_slice(first)?;
    text.extend_from_slice(second)
}
