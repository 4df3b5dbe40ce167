//! Answers to the lines about ranges and knowledge of numbers.

mod names;
mod words;

use crate::lines::UNREAD;
use bpf_helpers::{known, result};
use bpf_range::{Known, Range, join, refine, refine_range, transfer, transfer_range};
use std::alloc::{AllocError, Global};
use words::{read_jump, read_operation, read_range, read_ranges, read_two_known};

/// The answer to a line.
enum Answer {
    /// No number is possible.
    Never,
    Range(Range),
    Ranges(Range, Range),
    Known(Known),
    TwoKnown(Known, Known),
}

fn transferred(words: &str) -> Option<Answer> {
    let (op, width, operands) = read_operation(words)?;
    let (a, b) = read_ranges(operands)?;
    Some(Answer::Range(transfer_range(op, width, a, b)))
}

fn known_transferred(words: &str) -> Option<Answer> {
    let (op, width, operands) = read_operation(words)?;
    let (a, b) = read_two_known(operands)?;
    Some(Answer::Known(transfer(op, width, a, b)))
}

fn refined(words: &str) -> Option<Answer> {
    let (edge, operands) = read_jump(words)?;
    let (a, b) = read_ranges(operands)?;
    match refine_range(edge.test, edge.width, a, b, edge.taken) {
        Some((a, b)) => Some(Answer::Ranges(a, b)),
        None => Some(Answer::Never),
    }
}

fn known_refined(words: &str) -> Option<Answer> {
    let (edge, operands) = read_jump(words)?;
    let (a, b) = read_two_known(operands)?;
    match refine(edge.test, edge.width, a, b, edge.taken) {
        Some((a, b)) => Some(Answer::TwoKnown(a, b)),
        None => Some(Answer::Never),
    }
}

fn known_of(word: &str) -> Option<Answer> {
    let range = read_range(word)?;
    Some(Answer::Known(Known::of(range.lo, range.hi)))
}

fn joined(words: &str) -> Option<Answer> {
    let (a, b) = read_two_known(words)?;
    Some(Answer::Known(join(a, b)))
}

fn helped(word: &str) -> Option<Answer> {
    let id = word.parse::<i32>().ok()?;
    if known(id) {
        Some(Answer::Known(result(id)))
    } else {
        Some(Answer::Never)
    }
}

fn answer_of(line: &str) -> Option<Answer> {
    let (kind, words) = line.split_once(' ')?;
    match kind {
        "transfer" => transferred(words),
        "refine" => refined(words),
        "of" => known_of(words),
        "known" => known_transferred(words),
        "join" => joined(words),
        "refined" => known_refined(words),
        "helper" => helped(words),
        _ => None,
    }
}

fn show_known(alloc: Global, known: Known) -> Result<String, AllocError> {
    let range = known.range();
    let bits = known.bits();
    format!(in alloc;
        "{}..{},{},{}",
        range.lo, range.hi, bits.value, bits.unknown
    )
}

fn show_answer(alloc: Global, answer: Answer) -> Result<String, AllocError> {
    match answer {
        Answer::Never => String::from_str(alloc, "never"),
        Answer::Range(a) => format!(in alloc; "{}..{}", a.lo, a.hi),
        Answer::Ranges(a, b) => format!(in alloc; "{}..{} {}..{}", a.lo, a.hi, b.lo, b.hi),
        Answer::Known(a) => show_known(alloc, a),
        Answer::TwoKnown(a, b) => {
            let first = show_known(alloc, a)?;
            let second = show_known(alloc, b)?;
            format!(in alloc; "{first} {second}")
        }
    }
}

/// The answer to a line.
pub fn show_range(alloc: Global, line: &str) -> Result<String, AllocError> {
    match answer_of(line) {
        Some(answer) => show_answer(alloc, answer),
        None => String::from_str(alloc, UNREAD),
    }
}
