//! Executes lines on pages, directories and plans, and prints the results.
//!
//! Each line of standard input is a case. Its first word is the kind.
//!
//! | Line | Answer |
//! |---|---|
//! | `hash KIND KEY`, `mask DEPTH`, `child BIT 0`, `child BIT 1` | the number |
//! | `size SIZE` | the bytes of a page, the bytes of its largest pair, and its maximum number of offsets |
//! | `bytes BYTES BYTE` | the byte string with that first byte, and a copy from before the change |
//! | `copies KEY=VALUE ..` | a copy of the pairs |
//! | `check SIZE COMMAND` | `fits`, or the fault |
//! | `plan SIZE MODE KEY KEY` | the plan of a store of the second key next to the first, each with 600 zeros: page, twins and bits; or the fault |
//! | `dir`, `dir FILE` | `dir`: a directory without bits, or the directory of the bytes; or the fault |
//! | `split HASH` | the bit that is set, or `deep` |
//! | `place HASH` | page, depth and bit |
//! | `marked BIT ..` | the bits in the list that are set in the directory |
//! | `grow BIT` | `grown`: makes room for the bit |
//! | `bits` | the directory's bytes |
//! | `again` | `again`: replaces the directory by one that is read from its bytes and has to have the same bytes |
//! | `page SIZE` | `page`: an empty page |
//! | `read SIZE SEGMENTS` | `page`: the page of the bytes; or the fault |
//! | `between BYTE SEGMENTS` | the same for a small page, with that byte outside segments |
//! | `add KEY VALUE`, `replace KEY VALUE` | `added`, or `not added` if the pair does not fit |
//! | `remove PLACE`, `put PLACE BYTE` | `removed`; `put`: overwrites the first byte of the value |
//! | `find KEY`, `fits COUNT` | the index, or `none`; whether COUNT more bytes fit |
//! | `pairs`, `image` | the page's size and its pairs, in order; the page's bytes |
//! | `list` | whether the page equals the list of the pairs that were added to it |
//! | `keep`, `beside`, `same` | `kept`: copies the page; swaps the page and the copy; whether both have the same pairs |
//! | `edits SIZE NUMBER COUNT` | the number of pairs of a page after COUNT edits, also made on a list, and the last random number |
//! | `whole page SIZE SEGMENTS` | the pairs of the page of the bytes, or the fault |
//! | `full`, `free` | takes all memory, or frees it |
//! | `# TEXT` | the line itself |
//!
//! Bytes and files are as in `test_support`. A line after the word `lean` is for a bench in a heap. A `whole` page is written
//! and read again, and the answer ends with `again` if it stayed the same. Apart from `again`, the answers to `whole` lines are
//! those of an independent implementation, except for 7 pages. The keys of these set the same bits of the key filter, so their
//! answers follow from the construction.
#![tactic(auto)]

mod bench;
mod dirs;
mod edits;
mod list_page;
mod page_edits;
mod pages;
mod plans;
mod report;
mod whole;
mod words;

use bench::Bench;
use linked_list_allocator::LocalHeap;
use report::show_line;
use std::alloc::{AllocError, Allocator, Global};
use std::io;
use test_support::read_all;

// The answer to a line. A line after `lean` is for the bench in a heap.
fn answer<A: Allocator + Copy>(
    lean: &mut Bench<A>,
    ample: &mut Bench<Global>,
    line: &str,
) -> Result<String, AllocError> {
    match line.strip_prefix("lean ") {
        Some(rest) => show_line(lean, rest),
        None => show_line(ample, line),
    }
}

// The answers to the lines of a text.
fn answer_all<A: Allocator + Copy>(
    lean: &mut Bench<A>,
    ample: &mut Bench<Global>,
    text: &str,
) -> Result<String, AllocError> {
    let mut answers = String::new(ample.global);
    for line in text.lines() {
        answers.push_str(answer(lean, ample, line)?.as_str())?;
        answers.push_str("\n")?;
    }
    Ok(answers)
}

// The answers to the lines of a text, on new benches.
fn answer_in<A: Allocator + Copy>(
    global: Global,
    alloc: A,
    heap: &LocalHeap,
    text: &str,
) -> Result<String, AllocError> {
    let mut lean = Bench::new(global, alloc, Some(heap));
    let mut ample = Bench::new(global, global, None);
    answer_all(&mut lean, &mut ample, text)
}

fn main(rt: HostRuntime) -> io::Result<()> {
    let text = read_all(&rt)?;
    let heap = LocalHeap::new(rt.alloc(), 65536)?;
    let answers = answer_in(rt.alloc(), &heap, &heap, text.as_str())?;
    print!(rt; "{answers}")?;
    Ok(())
}
