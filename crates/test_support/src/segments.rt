//! The bytes of files in words: `LENGTH`, and `OFFSET:BYTES` for each segment. Bytes outside segments are zeros.

use crate::bytes::{LONG_RUN, read_bytes};
use std::alloc::{AllocError, Global};
use std::fmt::Write;

// Puts a segment at its offset, as far as it fits.
fn put_segment(alloc: Global, bytes: &mut [u8], segment: &str) -> Option<()> {
    let (offset, word) = segment.split_once(':')?;
    let offset = offset.parse::<usize>().ok()?;
    let part = read_bytes(alloc, word)?;
    for (place, byte) in bytes.iter_mut().skip(offset).zip(part.as_slice()) {
        *place = *byte;
    }
    Some(())
}

/// Reads the bytes of a file.
pub fn read_file(alloc: Global, text: &str) -> Option<Vec<u8>> {
    let (length, segments) = text.split_once(' ').unwrap_or((text, ""));
    let length = length.parse::<usize>().ok()?;
    let mut bytes = vec![in alloc; 0u8; length].ok()?;
    for segment in segments.split_ascii_whitespace() {
        put_segment(alloc, bytes.as_mut_slice(), segment)?;
    }
    Some(bytes)
}

// A run of equal bytes.
#[derive(Clone, Copy)]
struct Run {
    start: usize,
    byte: u8,
    count: usize,
}

// The runs of equal bytes of a file, in order.
fn runs_of(alloc: Global, bytes: &[u8]) -> Result<Vec<Run>, AllocError> {
    let mut runs = Vec::new(alloc);
    let mut last: Option<Run> = None;
    for (start, byte) in bytes.iter().enumerate() {
        match &mut last {
            Some(run) if run.byte == *byte => run.count = run.count.saturating_add(1),
            _ => {
                if let Some(run) = last {
                    runs.push(run)?;
                }
                last = Some(Run {
                    start,
                    byte: *byte,
                    count: 1,
                });
            }
        }
    }
    if let Some(run) = last {
        runs.push(run)?;
    }
    Ok(runs)
}

// Writes a run of equal bytes. Returns `true` if the next run may continue the segment.
fn show_run(out: &mut String, run: Run, goes_on: bool) -> Result<bool, AllocError> {
    let Run { start, byte, count } = run;
    if count >= LONG_RUN {
        if byte != 0 {
            write!(out, " {start}:{byte:02x}*{count}")?;
        }
        return Ok(false);
    }
    if !goes_on {
        write!(out, " {start}:")?;
    }
    for _ in 0..count {
        write!(out, "{byte:02x}")?;
    }
    Ok(true)
}

/// Writes the bytes of a file. Omits runs of eight or more zeros, and writes a run of eight or more other equal bytes as a
/// separate segment.
pub fn show_file(alloc: Global, out: &mut String, bytes: &[u8]) -> Result<(), AllocError> {
    write!(out, "{}", bytes.len())?;
    let mut goes_on = false;
    for run in runs_of(alloc, bytes)?.iter() {
        goes_on = show_run(out, *run, goes_on)?;
    }
    Ok(())
}
