//! Truncated files, and the results of opening them.

use crate::bench::Known;
use crate::files::open_files;
use sdbm_files::OpenFault;
use std::alloc::{AllocError, Global};
use std::fmt::Write;
use test_support::{cut, number};

// The first `count` bytes, or all bytes if there are fewer.
fn first(bytes: &[u8], count: usize) -> &[u8] {
    &bytes[..count.min(bytes.len())]
}

// Opens a database with one file truncated. Returns the number of pairs, or the fault.
fn count_of_cut(
    global: Global,
    known: &Known,
    cuts_dir: bool,
    length: usize,
) -> Result<usize, OpenFault> {
    let dir = known.dir.as_slice();
    let pag = known.pag.as_slice();
    let opened = if cuts_dir {
        open_files(global, first(dir, length), pag, known.kind, known.size)
    } else {
        open_files(global, dir, first(pag, length), known.kind, known.size)
    };
    match opened {
        Ok(image) => Ok(image.count()),
        Err(fault) => Err(fault),
    }
}

// The result of a truncation, and how often it occurred.
#[derive(Clone, Copy)]
struct Tally {
    came: Result<usize, OpenFault>,
    times: usize,
}

// Counts the result of a truncation.
fn count(tallies: &mut Vec<Tally>, came: Result<usize, OpenFault>) -> Result<(), AllocError> {
    for tally in tallies.iter_mut() {
        if tally.came == came {
            tally.times = tally.times.saturating_add(1);
            return Ok(());
        }
    }
    match tallies.push(Tally { came, times: 1 }) {
        Ok(()) => Ok(()),
        Err(_) => Err(AllocError),
    }
}

fn tallies_text(global: Global, tallies: &[Tally]) -> Result<String, AllocError> {
    let mut out = String::from_str(global, "cut")?;
    for tally in tallies {
        match tally.came {
            Ok(count) => write!(out, " / {} count {count}", tally.times)?,
            Err(fault) => write!(out, " / {} {fault:?}", tally.times)?,
        }
    }
    Ok(out)
}

// The results of truncating a file to several lengths: `from`, `from + step` and so on.
fn tallies_of(
    global: Global,
    known: &Known,
    cuts_dir: bool,
    (from, step, times): (usize, usize, usize),
) -> Result<Vec<Tally>, AllocError> {
    let mut tallies = Vec::new(global);
    for i in 0..times {
        let length = from.saturating_add(step.saturating_mul(i));
        let came = count_of_cut(global, known, cuts_dir, length);
        count(&mut tallies, came)?;
    }
    Ok(tallies)
}

/// Returns the results of truncating a file to several lengths. The words give the first length, the step between lengths, and
/// their number.
pub fn cut_text(global: Global, known: &Known, rest: &str) -> Result<String, AllocError> {
    let (file, rest) = cut(rest);
    let (from, rest) = cut(rest);
    let (step, times) = cut(rest);
    let lengths = (number(from), number(step), number(times));
    let tallies = tallies_of(global, known, file == "dir", lengths)?;
    tallies_text(global, tallies.as_slice())
}
