//! The stages of reading a dump, and the effect of the next line.
ghost use Rattle.std.specs.Prelude.{◌≡◌, ◌++◌, IfOk, Some};
ghost use Rattle.dbm_dump.specs.Heads.{IsReported};
ghost use Rattle.dbm_dump.specs.Loading.{open_key, open_len};
ghost use Rattle.dbm_dump.specs.Marks.{line_mark};
ghost use Rattle.dbm_dump.specs.Steps as spec;

use crate::key_head::KeyHead;
use crate::marks::{Mark, mark_of, number_behind, pair_of};
use crate::symbols::is_open;
use base64::DecodeAllocError;
use base64::engine::general_purpose::STANDARD;
use sdbm_addr::Bytes;
use std::alloc::{AllocError, Global};
use std::marker::Model;

/// Incomplete base64 text. Its model is the list of its bytes.
#[derive(Drop)]
pub struct Part {
    text: Vec<u8>,
}

impl Model for Part {
    ghost use Rattle.std.specs.Prelude.{List, ℕ};

    ghost Value = { List ℕ };

    ghost view = { λ part. part.text.items };
}

/// The role of the next datum in gdbm's format.
#[derive(Drop)]
pub enum Role {
    /// A key.
    Key,
    /// The value of this key.
    Value(Bytes<Global>),
}

/// A stage of reading a dump.
#[derive(Drop)]
pub enum Stage {
    /// The beginning. The first line determines the format.
    First,
    /// The beginning of our own format.
    Title,
    /// After the title.
    Keys,
    /// After the line with the hash function.
    Pages,
    /// After the line with the page size.
    Count,
    /// After the line with the number of pairs.
    Gap {
        left: u64,
    },
    /// Within the pairs, with `left` pairs to go.
    Pairs {
        left: u64,
    },
    /// In gdbm's format, after `seen` pairs. A datum begins next, with its length.
    Between {
        seen: u64,
        role: Role,
    },
    /// In gdbm's format, after `seen` pairs, within a datum of `len` bytes. `text` is its base64 so far.
    Within {
        seen: u64,
        role: Role,
        len: u64,
        text: Part,
    },
    /// After the last line of our own format.
    Ended,
    /// After the number of pairs, the end of gdbm's format.
    Over,
}

/// The effect of a line: the next stage, and the pair that the line completes, if any.
#[derive(Drop)]
pub struct Next {
    pub stage: Stage,
    pub pair: Option<(Bytes<Global>, Bytes<Global>)>,
}

impl Stage {
    /// Returns `true` if the dump may end at this stage.
    pub fn is_end(&self) -> bool
        ensures { result ≡ spec.is_end self.now }
    {
        matches!(self, Stage::Ended | Stage::Over)
    }

    /// Returns the length of the unfinished datum, or 0 if there is no unfinished datum.
    pub fn open_len(&self) -> u64
        ensures { result ≡ open_len self.now }
    {
        match self {
            Stage::Within { len, .. } => *len,
            _ => 0,
        }
    }

    /// Returns the head of the key of the unfinished value, or `None` if there is no unfinished value.
    pub fn open_key(&self) -> Option<KeyHead>
        ensures { IsReported (open_key self.now) result }
    {
        match self {
            Stage::Within {
                role: Role::Value(key),
                ..
            } => Some(KeyHead::of(key.as_slice())),
            _ => None,
        }
    }
}

/// Reads a line. Returns `None` if the line is invalid at this stage.
///
/// # Errors
/// `AllocError` if allocation fails. The stage is then dropped.
pub fn step(alloc: Global, stage: Stage, line: &[u8]) -> Result<Option<Next>, AllocError>
    ensures { IfOk result (λ s. s ≡ spec.line_step stage line.now) }
{
    match stage {
        Stage::First => first_step(alloc, line),
        Stage::Title => Ok(title_step(line)),
        Stage::Keys => Ok(keys_step(line)),
        Stage::Pages => Ok(pages_step(line)),
        Stage::Count => Ok(counted(number_behind(b"count ", line))),
        Stage::Gap { left } => Ok(gap_step(left, line)),
        Stage::Pairs { left } => pairs_step(alloc, left, line),
        Stage::Between { seen, role } => between_step(alloc, seen, role, mark_of(line)),
        Stage::Within {
            seen,
            role,
            len,
            text,
        } => within_step(alloc, seen, role, len, text, line),
        Stage::Ended => Ok(ended_step(line)),
        Stage::Over => Ok(over_step(mark_of(line))),
    }
}

// Returns a step to a stage, without a pair.
fn goes(stage: Stage) -> Option<Next>
    ensures { result ≡ Some (spec.goes stage) }
{
    Some(Next { stage, pair: None })
}

// Reads the first line, which determines the format.
fn first_step(alloc: Global, line: &[u8]) -> Result<Option<Next>, AllocError>
    ensures { IfOk result (λ s. s ≡ spec.first_step line.now) }
{
    if line.is_empty() {
        return Ok(title_step(line));
    }
    if line[0] == b'#' {
        return between_step(alloc, 0, Role::Key, mark_of(line));
    }
    Ok(title_step(line))
}

fn title_step(line: &[u8]) -> Option<Next>
    ensures { result ≡ spec.title_step line.now }
{
    if line == b"boddurci dump 1".as_slice() {
        return goes(Stage::Keys);
    }
    None
}

fn keys_step(line: &[u8]) -> Option<Next>
    ensures { result ≡ spec.keys_step line.now }
{
    if line == b"keys signed".as_slice() {
        return goes(Stage::Pages);
    }
    if line == b"keys unsigned".as_slice() {
        return goes(Stage::Pages);
    }
    None
}

fn pages_step(line: &[u8]) -> Option<Next>
    ensures { result ≡ spec.pages_step line.now }
{
    if line == b"pages 1024".as_slice() {
        return goes(Stage::Count);
    }
    if line == b"pages 8192".as_slice() {
        return goes(Stage::Count);
    }
    None
}

fn counted(count: Option<u64>) -> Option<Next>
    ensures { result ≡ spec.counted count }
{
    match count {
        Some(left) => goes(Stage::Gap { left }),
        None => None,
    }
}

fn gap_step(left: u64, line: &[u8]) -> Option<Next>
    ensures { result ≡ spec.gap_step left line.now }
{
    if line.is_empty() {
        return goes(Stage::Pairs { left });
    }
    None
}

// Reads a line of our own format, with `left` pairs to go.
fn pairs_step(alloc: Global, left: u64, line: &[u8]) -> Result<Option<Next>, AllocError>
    ensures { IfOk result (λ s. s ≡ spec.pairs_step left line.now) }
{
    if line.is_empty() {
        return Ok(goes(Stage::Pairs { left }));
    }
    if line == b"end".as_slice() {
        return Ok(closes(left));
    }
    let pair = pair_of(alloc, line)?;
    Ok(listed(left, pair))
}

// Reads the last line, which is valid only if no pairs are left.
fn closes(left: u64) -> Option<Next>
    ensures { result ≡ spec.closes left }
{
    if left == 0 {
        return goes(Stage::Ended);
    }
    None
}

// Reads a line after the last line of our own format. Only comments and empty lines are valid.
fn ended_step(line: &[u8]) -> Option<Next>
    ensures { result ≡ spec.ended_step line.now }
{
    if line.is_empty() {
        return goes(Stage::Ended);
    }
    if line[0] == b'#' {
        return goes(Stage::Ended);
    }
    None
}

// Reads a line with one of the remaining pairs.
fn listed(left: u64, pair: Option<(Bytes<Global>, Bytes<Global>)>) -> Option<Next>
    ensures { result ≡ spec.listed left pair }
{
    let pair = pair?;
    if left == 0 {
        return None;
    }
    Some(Next {
        stage: Stage::Pairs { left: left - 1 },
        pair: Some(pair),
    })
}

// Reads a line of gdbm's format between two data.
fn between_step(
    alloc: Global,
    seen: u64,
    role: Role,
    mark: Mark,
) -> Result<Option<Next>, AllocError>
    ensures { IfOk result (λ s. s ≡ spec.between_step seen role mark) }
{
    match mark {
        Mark::Len(len) => {
            let text = Part {
                text: Vec::new(alloc),
            };
            grown(alloc, seen, role, len, text)
        }
        Mark::Count(count) => Ok(ended(seen, role, count)),
        Mark::Note => Ok(goes(Stage::Between { seen, role })),
        Mark::Text | Mark::Bad => Ok(None),
    }
}

// Reads the line with the number of pairs.
fn ended(seen: u64, role: Role, count: u64) -> Option<Next>
    ensures { result ≡ spec.dump_ended seen role count }
{
    match role {
        Role::Key => {
            if count == seen {
                return goes(Stage::Over);
            }
            None
        }
        Role::Value(_) => None,
    }
}

// Reads a line of gdbm's format within a datum.
fn within_step(
    alloc: Global,
    seen: u64,
    role: Role,
    len: u64,
    text: Part,
    line: &[u8],
) -> Result<Option<Next>, AllocError>
    ensures { IfOk result (λ s. s ≡ spec.within_step seen role len text line.now (line_mark line.now)) }
{
    match mark_of(line) {
        Mark::Note => {
            Ok(goes(Stage::Within {
                seen,
                role,
                len,
                text,
            }))
        }
        Mark::Text => {
            if !may_follow(len, &text, line) {
                return Ok(None);
            }
            grown(alloc, seen, role, len, longer(text, line)?)
        }
        Mark::Len(_) | Mark::Count(_) | Mark::Bad => Ok(None),
    }
}

// Returns `true` if `line` may follow `text`, the base64 so far of a datum of `len` bytes: `line` completes the datum, or more base64 may
// follow it.
fn may_follow(len: u64, text: &Part, line: &[u8]) -> bool
    ensures { result ≡ spec.may_follow len text.now line.now }
{
    holds(len, text.text.len() + line.len()) || is_open(text.text.as_slice(), line)
}

// Appends a line to a text.
fn longer(text: Part, line: &[u8]) -> Result<Part, AllocError>
    ensures { IfOk result (λ longer. longer ≡ text ++ line.now) }
{
    let mut text = text;
    text.text.extend_from_slice(line)?;
    Ok(text)
}

// Returns `true` if the complete groups of four among `count` characters of base64 hold at least `len` bytes.
fn holds(len: u64, count: usize) -> bool
    ensures { result ≡ spec.holds len count }
{
    len <= (count / 4 * 3) as u64
}

fn is_full(len: u64, text: &Part) -> bool
    ensures { result ≡ spec.is_full len text.now }
{
    holds(len, text.text.len())
}

// Returns the step after `text`, the base64 so far of a datum of `len` bytes. Decodes the datum if its base64 is complete.
fn grown(
    alloc: Global,
    seen: u64,
    role: Role,
    len: u64,
    text: Part,
) -> Result<Option<Next>, AllocError>
    ensures { IfOk result (λ s. s ≡ spec.grown seen role len text) }
{
    if !is_full(len, &text) {
        return Ok(goes(Stage::Within {
            seen,
            role,
            len,
            text,
        }));
    }
    match STANDARD.decode(alloc, text.text.as_slice()) {
        Ok(bytes) => {
            if bytes.len() as u64 == len {
                return Ok(closed(seen, role, Bytes::new(bytes)));
            }
            Ok(None)
        }
        Err(DecodeAllocError::OutOfMemory) => Err(AllocError),
        Err(DecodeAllocError::DecodeError(_)) => Ok(None),
    }
}

// Takes a complete datum: a key, or the value that completes a pair.
fn closed(seen: u64, role: Role, bytes: Bytes<Global>) -> Option<Next>
    ensures { result ≡ spec.datum_closed seen role bytes }
{
    match role {
        Role::Key => {
            goes(Stage::Between {
                seen,
                role: Role::Value(bytes),
            })
        }
        Role::Value(key) => {
            if seen == u64::MAX {
                return None;
            }
            Some(Next {
                stage: Stage::Between {
                    seen: seen + 1,
                    role: Role::Key,
                },
                pair: Some((key, bytes)),
            })
        }
    }
}

// Reads a line after the end of gdbm's format.
fn over_step(mark: Mark) -> Option<Next>
    ensures { result ≡ spec.over_step mark }
{
    match mark {
        Mark::Note => goes(Stage::Over),
        _ => None,
    }
}
