//! Answers to commands, and their texts.
ghost use Rattle.std.specs.Prelude.{◌≡◌, ◌++◌, OnOk, codes, decimal};
ghost use Rattle.dbm_script.specs.Answers.{reply_text, answer_text};
ghost use Rattle.dbm_script.specs.Notation.{value_shown};

use crate::notations::{Notation, show_value};
use itoa::Buffer;
use std::alloc::{AllocError, Allocator};
use store_cmd::{Entry, Reply, SizeFault};

/// The answer to a command.
#[derive(Drop)]
pub enum Answer<A: Allocator> {
    /// The session, the command and the reply.
    Replied(Entry<A>),
    /// The command was refused because of its size.
    Refused(SizeFault),
}

/// Appends an answer to `text`.
///
/// # Errors
/// `AllocError` if allocation fails. On error, discard `text`: it may be partial.
pub fn show_answer<A: Allocator + Copy>(
    alloc: A,
    notation: &Notation<A>,
    answer: &Answer<A>,
    text: &mut Vec<u8, A>,
) -> Result<(), AllocError>
    ensures { OnOk result (text.new.items ≡ text.old.items ++ answer_text notation.now answer.now) }
{
    match answer {
        Answer::Replied(entry) => show_reply(alloc, notation, &entry.reply, text),
        Answer::Refused(SizeFault::PairTooLarge) => text.extend_from_slice(b"refused PairTooLarge"),
        Answer::Refused(SizeFault::ArgTooLong) => text.extend_from_slice(b"refused ArgTooLong"),
    }
}

/// Appends a reply to `text`.
///
/// # Errors
/// `AllocError` if allocation fails. On error, discard `text`: it may be partial.
pub fn show_reply<A: Allocator + Copy>(
    alloc: A,
    notation: &Notation<A>,
    reply: &Reply<A>,
    text: &mut Vec<u8, A>,
) -> Result<(), AllocError>
    ensures { OnOk result (text.new.items ≡ text.old.items ++ reply_text notation.now reply.now) }
{
    match reply {
        Reply::Found(value) => show_found(alloc, notation, value.as_slice(), text),
        Reply::Missing => text.extend_from_slice(b"missing"),
        Reply::Stored => text.extend_from_slice(b"stored"),
        Reply::Exists => text.extend_from_slice(b"exists"),
        Reply::Crowded => text.extend_from_slice(b"crowded"),
        Reply::Deleted => text.extend_from_slice(b"deleted"),
        Reply::Ran { code, word } => {
            text.extend_from_slice(b"ran ")?;
            show_number(*code, text)?;
            text.push(b' ')?;
            show_number(*word, text)
        }
        Reply::Count(count) => {
            text.extend_from_slice(b"count ")?;
            let mut digits = Buffer::new();
            text.extend_from_slice(digits.format(*count).as_bytes())
        }
    }
}

/// Appends the answer to a fetch that found a value.
///
/// # Errors
/// `AllocError` if allocation fails. On error, discard `text`: it may be partial.
pub(crate) fn show_found<A: Allocator + Copy>(
    alloc: A,
    notation: &Notation<A>,
    value: &[u8],
    text: &mut Vec<u8, A>,
) -> Result<(), AllocError>
    ensures { OnOk result (text.new.items ≡ text.old.items ++ (codes "found " ++ value_shown notation.now value.now)) }
{
    text.extend_from_slice(b"found ")?;
    show_value(alloc, notation, value, text)
}

// Appends a number in decimal to `text`.
fn show_number<A: Allocator>(number: u64, text: &mut Vec<u8, A>) -> Result<(), AllocError>
    ensures { OnOk result (text.new.items ≡ text.old.items ++ decimal number) }
{
    if number < 10 {
        return Ok(text.push(b'0' + number as u8)?);
    }
    let mut digits = Buffer::new();
    text.extend_from_slice(digits.format(number).as_bytes())
}
