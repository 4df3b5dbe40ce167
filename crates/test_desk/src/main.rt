//! Executes lines on desks, and prints the results.
//!
//! Each line of standard input is a case. Its first word is the kind.
//!
//! | Line | Answer |
//! |---|---|
//! | `open KIND SIZE LIMIT` | `opened`: a desk over an empty database, with this limit of its trail |
//! | `files KIND SIZE DIR PAG` | `opened`: the database of both files, or the fault |
//! | `close` | `closed`, the number of pairs in the trail's opening, and the number of its entries; the database is kept |
//! | `reopen LIMIT` | `opened`: a desk over the kept database |
//! | `beside` | `beside`: swaps the two desks |
//! | `step SESSION COMMAND` | the reply, or the fault |
//! | `ask HAND SESSION COMMAND` | `ticket N`, and the job is in that hand; or the reply to a count; or the fault |
//! | `work HAND` | `worked`: the result is in the same hand |
//! | `done HAND` | the ticket, the reply, and whether the page changes |
//! | `finish HAND` | the reply, or the fault |
//! | `convert TICKET`, `abandon TICKET` | `converted`, `abandoned`, or the fault |
//! | `play EVENT / EVENT / ..` | the outcome of each event |
//! | `pairs`, `trail` | all pairs of the desk; the opening and the entries of its trail, or of the kept trail |
//! | `count` | for the kept database: the number of pairs, the hash kind, the page size and the length of `.pag` |
//! | `place KEY` | page, depth and bit |
//! | `page NUMBER` | the pairs of the page, in order |
//! | `write` | the bytes of both files |
//! | `# TEXT` | the line itself |
//!
//! In `play`, an event is a line from `ask` to `abandon` except `done`. An event has a ticket instead of a hand; `ask` has
//! neither. A line after the word `lean` is for a desk in a heap. Its call is repeated with 16 bytes more until there is enough
//! memory. The answer then ends with `with more memory` if there was not enough at first. Each refused call has to be returned
//! and to leave the desk unchanged.
#![tactic(auto)]

mod bench;
mod calls;
mod lean;
mod lines;
mod report;
mod views;

use bench::Bench;
use linked_list_allocator::LocalHeap;
use report::show_line;
use std::alloc::{AllocError, Allocator, Global};
use std::io;
use test_support::read_all;

// The answer to a line. A line after `lean` is for the desks in a heap.
fn answer<A: Allocator + Copy>(
    lean: &mut Bench<A>,
    ample: &mut Bench<Global>,
    line: &str,
) -> Result<String, AllocError> {
    match line.split_once(' ') {
        Some(("lean", rest)) => show_line(lean, rest),
        _ => show_line(ample, line),
    }
}

// The answers to the lines of a text.
fn answer_all<A: Allocator + Copy>(
    lean: &mut Bench<A>,
    ample: &mut Bench<Global>,
    text: &str,
) -> Result<String, AllocError> {
    let mut answers = String::new(ample.global);
    for line in text.lines() {
        answers.push_str(answer(lean, ample, line)?.as_str())?;
        answers.push_str("\n")?;
    }
    Ok(answers)
}

// The answers to the lines of a text, on new benches.
fn answer_in<A: Allocator + Copy>(
    global: Global,
    alloc: A,
    heap: &LocalHeap,
    text: &str,
) -> Result<String, AllocError> {
    let mut lean = Bench::new(global, alloc, Some(heap))?;
    let mut ample = Bench::new(global, global, None)?;
    answer_all(&mut lean, &mut ample, text)
}

fn main(rt: HostRuntime) -> io::Result<()> {
    let text = read_all(&rt)?;
    let heap = LocalHeap::new(rt.alloc(), 65536)?;
    let answers = answer_in(rt.alloc(), &heap, &heap, text.as_str())?;
    print!(rt; "{answers}")?;
    Ok(())
}
