//! Reads operations, ranges and knowledge from words.

use super::names::{read_edge, read_op, read_test, read_width};
use bpf_insn::{Op, Test, Width};
use bpf_range::{Known, Range};

fn read_number(word: &str) -> Option<u64> {
    word.parse::<u64>().ok()
}

/// Reads a range of the form `LO..HI`.
pub fn read_range(word: &str) -> Option<Range> {
    let (lo, hi) = word.split_once("..")?;
    let lo = read_number(lo)?;
    let hi = read_number(hi)?;
    if lo > hi {
        return None;
    }
    Some(Range { lo, hi })
}

// Reads the knowledge of a number, of the form `LO..HI,VALUE,UNKNOWN`.
fn read_known(word: &str) -> Option<Known> {
    let (range, bits) = word.split_once(',')?;
    let (value, unknown) = bits.split_once(',')?;
    let range = read_range(range)?;
    let value = read_number(value)?;
    Known::from_parts(range.lo, range.hi, value, read_number(unknown)?)
}

/// Reads two ranges.
pub fn read_ranges(words: &str) -> Option<(Range, Range)> {
    let (a, b) = words.split_once(' ')?;
    Some((read_range(a)?, read_range(b)?))
}

/// Reads the knowledge of two numbers.
pub fn read_two_known(words: &str) -> Option<(Known, Known)> {
    let (a, b) = words.split_once(' ')?;
    Some((read_known(a)?, read_known(b)?))
}

/// Reads an operation and its width. Also returns the rest of the words.
pub fn read_operation(words: &str) -> Option<(Op, Width, &str)> {
    let (op, rest) = words.split_once(' ')?;
    let (width, rest) = rest.split_once(' ')?;
    Some((read_op(op)?, read_width(width)?, rest))
}

/// One of the two edges of a conditional jump.
#[derive(Drop)]
pub struct Edge {
    pub test: Test,
    pub width: Width,
    pub taken: bool,
}

/// Reads an edge. Also returns the rest of the words.
pub fn read_jump(words: &str) -> Option<(Edge, &str)> {
    let (test, rest) = words.split_once(' ')?;
    let (width, rest) = rest.split_once(' ')?;
    let (edge, rest) = rest.split_once(' ')?;
    let edge = Edge {
        test: read_test(test)?,
        width: read_width(width)?,
        taken: read_edge(edge)?,
    };
    Some((edge, rest))
}
