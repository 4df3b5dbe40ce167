//! Answers to the lines of standard input.

use crate::bench::Bench;
use crate::cuts::cut_text;
use crate::files::file_line;
use crate::heaps::{heaps_text, sink_text, within_text};
use crate::sinks::short_text;
use crate::whole::files_text;
use crate::widening::widen_text;
use std::alloc::{AllocError, Allocator};
use test_support::fill;

fn full<A: Allocator + Copy>(bench: &mut Bench<A>) -> Option<String> {
    bench.blocks = fill(bench.global, bench.heap?, 0).ok()?;
    String::from_str(bench.global, "full").ok()
}

fn free<A: Allocator + Copy>(bench: &mut Bench<A>) -> Option<String> {
    bench.blocks = Vec::new(bench.global);
    String::from_str(bench.global, "free").ok()
}

fn answer<A: Allocator + Copy>(bench: &mut Bench<A>, line: &str) -> Option<String> {
    let (word, rest) = line.split_once(' ').unwrap_or((line, ""));
    let global = bench.global;
    match word {
        "#" => String::from_str(global, line).ok(),
        "full" => full(bench),
        "free" => free(bench),
        "open" | "count" | "write" => file_line(bench, word, rest),
        "widen" => widen_text(bench, rest),
        "cut" => cut_text(global, bench.known.as_ref()?, rest).ok(),
        "within" => within_text(global, bench.known.as_ref()?, rest),
        "heaps" => heaps_text(global, bench.known.as_ref()?, rest),
        "short" => short_text(global, bench.image.as_ref()?, rest),
        "sink" => sink_text(global, rest),
        "whole" => files_text(global, rest.strip_prefix("files ")?),
        _ => None,
    }
}

/// The answer to a line.
pub fn show_line<A: Allocator + Copy>(
    bench: &mut Bench<A>,
    line: &str,
) -> Result<String, AllocError> {
    match answer(bench, line) {
        Some(text) => Ok(text),
        None => String::from_str(bench.global, "a line that cannot be read"),
    }
}
