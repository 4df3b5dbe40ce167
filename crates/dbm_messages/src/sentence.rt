//! A sentence as a value: a pattern with placeholders, and the parts that replace them.

use crate::finding::Reason;
use bpf_verify::VerifyFault;
use dbm_args::is_plain;
use dbm_dump::KeyHead;
use std::fmt;

/// The part of a sentence that replaces a placeholder.
#[derive(Clone, Copy)]
pub enum Part<'a> {
    /// No part: the pattern has fewer placeholders.
    Nothing,
    /// A name, unchanged if it is plain. It is quoted and escaped if it is empty or has characters that do not print as themselves
    /// (`is_plain`).
    Name(&'a str),
    /// An argument, which is quoted and escaped.
    Quoted(&'a str),
    /// A text, unchanged.
    Text(&'a str),
    Number(u64),
    /// The first bytes of a key.
    Key(KeyHead),
    /// The reason why the system refuses a file.
    Reason(Reason),
    /// The reason why a program is not accepted.
    Verdict(VerifyFault),
}

impl<'a> fmt::Display for Part<'a> {
    fn fmt<W: fmt::Write>(&self, f: &mut fmt::Formatter<W>) -> fmt::Result {
        match self {
            Part::Nothing => Ok(()),
            Part::Name(name) => show_name(name, f),
            Part::Quoted(word) => fmt::Debug::fmt(word, f),
            Part::Text(text) => f.write_str(text),
            Part::Key(key) => fmt::Display::fmt(key, f),
            Part::Number(number) => fmt::Display::fmt(number, f),
            Part::Reason(reason) => fmt::Display::fmt(reason, f),
            Part::Verdict(fault) => fmt::Display::fmt(fault, f),
        }
    }
}

// Prints a `Name`.
fn show_name<W: fmt::Write>(name: &str, f: &mut fmt::Formatter<W>) -> fmt::Result {
    if name.is_empty() || !name.chars().all(is_plain) {
        return fmt::Debug::fmt(name, f);
    }
    f.write_str(name)
}

/// A sentence. It prints as its pattern, with each placeholder `{}` replaced by the next part.
#[derive(Clone, Copy)]
pub struct Sentence<'a> {
    pub pattern: &'static str,
    pub parts: [Part<'a>; 4],
}

impl<'a> fmt::Display for Sentence<'a> {
    fn fmt<W: fmt::Write>(&self, f: &mut fmt::Formatter<W>) -> fmt::Result {
        let mut rest = self.pattern;
        for part in &self.parts {
            let Some((before, behind)) = rest.split_once("{}") else {
                break;
            };
            f.write_str(before)?;
            fmt::Display::fmt(part, f)?;
            rest = behind;
        }
        f.write_str(rest)
    }
}

/// A sentence without placeholders.
pub fn plain(pattern: &'static str) -> Sentence<'static> {
    Sentence {
        pattern,
        parts: [Part::Nothing; 4],
    }
}

/// A sentence with one placeholder.
pub fn with_one<'a>(pattern: &'static str, part: Part<'a>) -> Sentence<'a> {
    with_four(pattern, part, Part::Nothing, Part::Nothing, Part::Nothing)
}

/// A sentence with two placeholders.
pub fn with_two<'a>(pattern: &'static str, first: Part<'a>, second: Part<'a>) -> Sentence<'a> {
    with_four(pattern, first, second, Part::Nothing, Part::Nothing)
}

/// A sentence with three placeholders.
pub fn with_three<'a>(
    pattern: &'static str,
    first: Part<'a>,
    second: Part<'a>,
    third: Part<'a>,
) -> Sentence<'a> {
    with_four(pattern, first, second, third, Part::Nothing)
}

/// A sentence with four placeholders.
pub fn with_four<'a>(
    pattern: &'static str,
    first: Part<'a>,
    second: Part<'a>,
    third: Part<'a>,
    fourth: Part<'a>,
) -> Sentence<'a> {
    Sentence {
        pattern,
        parts: [first, second, third, fourth],
    }
}
