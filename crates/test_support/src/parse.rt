//! The words of a line, and the end of an answer.

use crate::bytes::read_bytes;
use std::alloc::Global;

/// Splits a text into its first word and the rest, which is empty if the text has no space.
pub fn cut(text: &str) -> (&str, &str) {
    text.split_once(' ').unwrap_or((text, ""))
}

/// Reads a number. Returns 0 if the word is not a number.
pub fn number(word: &str) -> usize {
    word.parse::<usize>().unwrap_or(0)
}

/// Reads bytes. Returns no bytes if the word is invalid.
pub fn bytes_of(global: Global, word: &str) -> Vec<u8> {
    match read_bytes(global, word) {
        Some(bytes) => bytes,
        None => Vec::new(global),
    }
}

/// The end of an answer, which says whether the data stays the same when it is written and read again.
pub fn tail(same: bool) -> &'static str {
    if same {
        " again"
    } else {
        " and something else"
    }
}
