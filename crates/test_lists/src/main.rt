//! Plays random lists of events on desks and on a plain model, and prints whether they agree.
//!
//! | Line of standard input | Answer |
//! |---|---|
//! | `lists SEED COUNT LENGTH` | `COUNT lists agree`: COUNT random lists of LENGTH events, with five steps after each, on new desks and on a plain model, and which kinds of outcomes occurred; or the first difference |
//! | `# TEXT` | the line itself |
//!
//! The first list begins with an empty database. Each later list begins with the database after the previous list, or with an
//! empty one.
#![tactic(auto)]

mod asks;
mod checks;
mod comes;
mod dice;
mod lists;
mod model;
mod programs;
mod store;
mod values;

use lists::run_lists;
use programs::all_programs;
use std::alloc::{AllocError, Global};
use std::io;

const UNREAD: &str = "a line that cannot be read";

fn read_lists(words: &str) -> Option<(u64, usize, usize)> {
    let (seed, rest) = words.split_once(' ')?;
    let (count, length) = rest.split_once(' ')?;
    Some((
        seed.parse::<u64>().ok()?,
        count.parse::<usize>().ok()?,
        length.parse::<usize>().ok()?,
    ))
}

// Says whether lists of events agree, given their seed, their number and their length.
fn show_lists(global: Global, words: &str) -> Result<String, AllocError> {
    let Some(programs) = all_programs(global) else {
        return String::from_str(global, "a program is refused");
    };
    match read_lists(words) {
        Some((seed, count, length)) => run_lists(global, programs.as_slice(), seed, count, length),
        None => String::from_str(global, UNREAD),
    }
}

fn answer(global: Global, line: &str) -> Result<String, AllocError> {
    match line.split_once(' ') {
        Some(("lists", words)) => show_lists(global, words),
        Some(("#", _)) => String::from_str(global, line),
        _ => String::from_str(global, UNREAD),
    }
}

fn main(rt: HostRuntime) -> io::Result<()> {
    for line in rt.lines(rt.alloc()) {
        let answer = answer(rt.alloc(), line?.as_str())?;
        println!(rt; "{answer}")?;
    }
    Ok(())
}
