//! Sentences about invalid arguments of a command line.

use crate::sentence::{Part, Sentence, with_three, with_two};
use byte_text::read_signed;
use dbm_args::{Named, Numbers, Words};
use dbm_script::{Notation, read_blank, read_bytes, read_number};
use std::alloc::Global;

const NO_HEX: &str =
    "is not hex (two digits a byte, or . for no bytes); with --text it is read as text";

const NO_TEXT: &str =
    "is not valid text: docs/DBM.md has the escapes and numbers; write a backslash as \\\\ and a comma as \\,";

const NO_LAYOUT: &str =
    "is not a layout: write u8, u16, u32, u64 or i64, separated by commas, and text or hex only as the last";

const NO_NUMBER: &str = "is not a number below 18446744073709551616 without leading zeros";

const NO_BLANK: &str = "is neither . nor a number below 65536 without leading zeros";

const NO_TIME: &str = "is neither now, now-ms nor a number below 18446744073709551616";

const NO_EVERY: &str =
    "is neither a number of lines, at least 1, nor a number of seconds with an s, such as 5s";

const NO_AMOUNT: &str =
    "is not a number from -9223372036854775808 to 9223372036854775807 without leading zeros";

const NO_COUNT: &str = "is not a number below 4294967296";

/// The sentence for an invalid layout.
pub fn layout_sentence(layout: Option<&str>) -> Sentence<'_> {
    let word = layout.unwrap_or("");
    word_sentence(Named { name: "--as", word }, NO_LAYOUT)
}

/// The sentence for the first argument that is not valid hex.
pub fn hex_sentence<'a>(alloc: Global, words: &Words<'a>) -> Option<Sentence<'a>> {
    let wrong = first_wrong(alloc, &Notation::Hex, words)?;
    Some(word_sentence(wrong, NO_HEX))
}

/// The sentence for the first argument that is not valid text.
pub fn text_sentence<'a>(alloc: Global, words: &Words<'a>) -> Option<Sentence<'a>> {
    let wrong = first_wrong(alloc, &Notation::Text, words)?;
    Some(word_sentence(wrong, NO_TEXT))
}

// Finds the invalid argument. If the first of two is valid, the second must be the invalid one.
fn first_wrong<'a>(
    alloc: Global,
    notation: &Notation<Global>,
    words: &Words<'a>,
) -> Option<Named<'a>> {
    let Some(second) = words.second else {
        return words.first;
    };
    match words.first {
        Some(first) if !is_bytes(alloc, notation, first.word) => Some(first),
        _ => Some(second),
    }
}

fn is_bytes(alloc: Global, notation: &Notation<Global>, word: &str) -> bool {
    matches!(read_bytes(alloc, notation, word.as_bytes()), Ok(Some(_)))
}

/// The sentence for the first numeric argument that is not a number.
pub fn number_sentence<'a>(numbers: Numbers<'a>) -> Option<Sentence<'a>> {
    if let Some(wrong) = wrong_number("--timeout", numbers.timeout) {
        return Some(word_sentence(wrong, NO_NUMBER));
    }
    // A session has no further number, so this one is invalid.
    if let Some(word) = numbers.save_every {
        let name = "--save-every";
        return Some(word_sentence(Named { name, word }, NO_EVERY));
    }
    if let Some(word) = numbers.blank
        && read_blank(word.as_bytes()).is_none()
    {
        let name = "BLANK";
        return Some(word_sentence(Named { name, word }, NO_BLANK));
    }
    if let Some(wrong) = wrong_number("NOW", numbers.now) {
        return Some(word_sentence(wrong, NO_TIME));
    }
    // A batch has no further number, so this one is invalid.
    if let Some(word) = numbers.workers {
        let name = "WORKERS";
        return Some(word_sentence(Named { name, word }, NO_COUNT));
    }
    if let Some(word) = numbers.amount
        && read_signed(word.as_bytes()).is_none()
    {
        let name = "AMOUNT";
        return Some(word_sentence(Named { name, word }, NO_AMOUNT));
    }
    if let Some(wrong) = wrong_number("--min", numbers.min) {
        return Some(word_sentence(wrong, NO_NUMBER));
    }
    if let Some(wrong) = wrong_number("--max", numbers.max) {
        return Some(word_sentence(wrong, NO_NUMBER));
    }
    if let Some(wrong) = wrong_number("--expect", numbers.expect) {
        return Some(word_sentence(wrong, NO_NUMBER));
    }
    let wrong = wrong_number("--max-output", numbers.max_output)?;
    Some(word_sentence(wrong, NO_NUMBER))
}

// Returns the argument if it is not a number.
fn wrong_number<'a>(name: &'static str, word: Option<&'a str>) -> Option<Named<'a>> {
    let word = word?;
    if read_number(word.as_bytes(), u64::MAX).is_some() {
        return None;
    }
    Some(Named { name, word })
}

// The sentence for an invalid argument. Shows an argument of at most 64 bytes.
fn word_sentence<'a>(named: Named<'a>, wrong: &'static str) -> Sentence<'a> {
    let (name, wrong) = (Part::Text(named.name), Part::Text(wrong));
    if named.word.is_empty() {
        return with_two("{} is empty: it {}.", name, wrong);
    }
    if named.word.len() <= 64 {
        return with_three("{} is {}, which {}.", name, Part::Quoted(named.word), wrong);
    }
    with_two("{} {}.", name, wrong)
}
