//! Executes lines on files of databases, and prints the results.
//!
//! Each line of standard input is a case. Its first word is the kind.
//!
//! | Line | Answer |
//! |---|---|
//! | `open KIND SIZE dir FILE pag FILE` | `count N`: the database of both files; or the fault |
//! | `count` | the number of pairs of the database, its page size and the length of `.pag` |
//! | `write` | the bytes of both files |
//! | `widen COUNT` | `widened`, and whether it was refused at first, and more than COUNT times |
//! | `cut dir FROM STEP COUNT`, `cut pag FROM STEP COUNT` | the results of opening the files of the last `open`, with one truncated to COUNT lengths, and how often each occurred |
//! | `within COUNT` | the result of opening these files in a heap of COUNT bytes, and the use of the heap afterwards |
//! | `heaps open COUNT`, `heaps write COUNT` | whether the least heap that is large enough has more than COUNT bytes |
//! | `short STOP COUNT COUNT` | the result of a write if the sinks of `.dir` and `.pag` stop after these numbers of bytes |
//! | `sink COUNT BYTES ..` | the answers of a sink in a heap of COUNT bytes |
//! | `whole files KIND SIZE dir FILE pag FILE` | `count N`: the database of both files; or the fault |
//! | `full`, `free` | takes all memory, or frees it |
//! | `# TEXT` | the line itself |
//!
//! Bytes and files are as in `test_support`. A line after the word `lean` is for a bench in a heap. There `widen` is repeated
//! with 16 bytes more until there is enough memory. A `whole` database is written, read again and written a second time, and
//! the answer ends with `again` if it stayed the same. Apart from `again`, the answers to `whole` lines are those of an
//! independent implementation.
#![tactic(auto)]

mod bench;
mod cuts;
mod files;
mod heaps;
mod report;
mod sinks;
mod whole;
mod widening;

use bench::Bench;
use linked_list_allocator::LocalHeap;
use report::show_line;
use std::alloc::{AllocError, Allocator, Global};
use std::io;
use test_support::read_all;

// The answer to a line. A line after `lean` is for the bench in a heap.
fn answer<A: Allocator + Copy>(
    lean: &mut Bench<A>,
    ample: &mut Bench<Global>,
    line: &str,
) -> Result<String, AllocError> {
    match line.strip_prefix("lean ") {
        Some(rest) => show_line(lean, rest),
        None => show_line(ample, line),
    }
}

// The answers to the lines of a text.
fn answer_all<A: Allocator + Copy>(
    lean: &mut Bench<A>,
    ample: &mut Bench<Global>,
    text: &str,
) -> Result<String, AllocError> {
    let mut answers = String::new(ample.global);
    for line in text.lines() {
        answers.push_str(answer(lean, ample, line)?.as_str())?;
        answers.push_str("\n")?;
    }
    Ok(answers)
}

// The answers to the lines of a text, on new benches.
fn answer_in<A: Allocator + Copy>(
    global: Global,
    alloc: A,
    heap: &LocalHeap,
    text: &str,
) -> Result<String, AllocError> {
    let mut lean = Bench::new(global, alloc, Some(heap));
    let mut ample = Bench::new(global, global, None);
    answer_all(&mut lean, &mut ample, text)
}

fn main(rt: HostRuntime) -> io::Result<()> {
    let text = read_all(&rt)?;
    let heap = LocalHeap::new(rt.alloc(), 65536)?;
    let answers = answer_in(rt.alloc(), &heap, &heap, text.as_str())?;
    print!(rt; "{answers}")?;
    Ok(())
}
