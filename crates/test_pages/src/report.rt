//! Answers to the lines of standard input.

use crate::bench::Bench;
use crate::dirs::dir_line;
use crate::pages::page_line;
use crate::plans::plan_text;
use crate::whole::page_text;
use crate::words::word_line;
use std::alloc::{AllocError, Allocator};
use test_support::fill;

fn full<A: Allocator + Copy>(bench: &mut Bench<A>) -> Option<String> {
    bench.blocks = fill(bench.global, bench.heap?, 0).ok()?;
    String::from_str(bench.global, "full").ok()
}

fn free<A: Allocator + Copy>(bench: &mut Bench<A>) -> Option<String> {
    bench.blocks = Vec::new(bench.global);
    String::from_str(bench.global, "free").ok()
}

fn answer<A: Allocator + Copy>(bench: &mut Bench<A>, line: &str) -> Option<String> {
    let (word, rest) = line.split_once(' ').unwrap_or((line, ""));
    let global = bench.global;
    match word {
        "#" => String::from_str(global, line).ok(),
        "full" => full(bench),
        "free" => free(bench),
        "hash" | "mask" | "child" | "size" | "bytes" | "copies" | "check" => {
            word_line(global, word, rest)
        }
        "plan" => plan_text(global, rest),
        "dir" | "split" | "place" | "marked" | "grow" | "bits" | "again" => {
            dir_line(bench, word, rest)
        }
        "whole" => page_text(global, rest.strip_prefix("page ")?),
        _ => page_line(bench, word, rest),
    }
}

/// The answer to a line.
pub fn show_line<A: Allocator + Copy>(
    bench: &mut Bench<A>,
    line: &str,
) -> Result<String, AllocError> {
    match answer(bench, line) {
        Some(text) => Ok(text),
        None => String::from_str(bench.global, "a line that cannot be read"),
    }
}
