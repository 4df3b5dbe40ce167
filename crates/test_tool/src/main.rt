//! Reads command lines, runs scripts, and prints the results.
//!
//! Each line of standard input is a case. Its first word is the kind.
//!
//! | Line | Answer |
//! |---|---|
//! | `words WORD ..` | the request, with its base, its file and whether it writes; or its refusal; or that a text answers it |
//! | `help WORD ..` | the text of help or the version that answers the words, or `none` |
//! | `part TEXT \| WORD ..` | whether the text of help contains TEXT |
//! | `time UNIT WORD ..` | the request of the words with the time `1700000000`, if it needs the time in that unit, or `none` |
//! | `faults` | for each fault that is not a refusal: its text, and whether it is an answer |
//! | `script TEXT` | `said`, and the answers of the script |
//! | `again READ WRITE` | the number of pairs after the last `script` line, and its answers, or the fault, if READ bytes are read and WRITE bytes written at a time |
//! | `reader FAULT COUNT`, `writer FAULT COUNT` | the same if the stream fails once, with COUNT bytes unread or written, and how much is written |
//! | `lines COUNT` | the same for COUNT empty lines |
//! | `within BYTES` | `said` and the answers of that script, if they have at most this number of bytes, or the fault |
//! | `heaps COUNT` | for that script: whether the least heap in which it is answered has more than COUNT bytes |
//! | `read WORD` | the bytes of a word as text, in hex, or `none` |
//! | `show HEX` | the bytes as text, and `back` if that text is read as the same bytes |
//! | `by LAYOUT HEX` | the same with a layout, or `no layout` |
//! | `text LAYOUT TEXT` | `said`, and the answers of a script whose bytes are text, and whose values are printed with a layout unless it is `.` |
//! | `# TEXT` | the line itself |
//!
//! In texts `\n`, `\r` and `\t` are a line feed, a carriage return and a tab. A script runs on an empty database. The answers
//! after the comment `cases` are those of an independent model of the store.
#![tactic(auto)]

mod heaps;
mod notations;
mod scripts;
mod streams;
mod words;

use notations::notation_line;
use scripts::script_line;
use std::alloc::{AllocError, Global};
use std::io;
use words::word_line;

fn answer(global: Global, script: &mut String, line: &str) -> Option<String> {
    let (word, rest) = line.split_once(' ').unwrap_or((line, ""));
    match word {
        "#" => String::from_str(global, line).ok(),
        "words" | "help" | "part" | "time" | "faults" => word_line(global, word, rest),
        "read" | "show" | "by" | "text" => notation_line(global, word, rest),
        _ => script_line(global, script, word, rest),
    }
}

// The answer to a line.
fn show_line(global: Global, script: &mut String, line: &str) -> Result<String, AllocError> {
    match answer(global, script, line) {
        Some(text) => Ok(text),
        None => String::from_str(global, "a line that cannot be read"),
    }
}

fn main(rt: HostRuntime) -> io::Result<()> {
    let mut script = String::new(rt.alloc());
    for line in rt.lines(rt.alloc()) {
        let answer = show_line(rt.alloc(), &mut script, line?.as_str())?;
        println!(rt; "{answer}")?;
    }
    Ok(())
}
