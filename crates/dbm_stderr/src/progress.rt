//! Reports the progress of a slow command at a terminal.

use crate::terminal::is_at_terminal;
use dbm_places::{names_of, resolve};
use std::fs::{self, File};
use std::io::{self, Read};
use std::rt::Runtime;
use std::time::{Clock, Duration};

/// A command takes about a second for a `.pag` of this length in bytes.
const LONG_FILE: u64 = 67_108_864;

/// A command that is slow on a large database.
#[derive(Clone, Copy)]
pub enum Work {
    Backup,
    Check,
    Dump,
    Load,
    Widen,
}

impl Work {
    // Returns the name of the step after reading the files.
    fn doing(self) -> &'static str {
        match self {
            Work::Backup | Work::Check => "checking",
            Work::Dump => "dumping",
            Work::Load => "loading into",
            Work::Widen => "widening",
        }
    }
}

/// Reports that the files of a base are being read, if the command is slow on large files, `.pag` is large, and standard error is a
/// terminal.
pub fn tell_reading<R: Runtime<File = File> + AllocGlobal>(
    rt: &R,
    work: Option<Work>,
    base: Option<&str>,
) {
    if work.is_some()
        && let Some(base) = base
        && let Some(len) = pages_len(rt, base)
    {
        tell_step(rt, "reading", len);
    }
}

/// Like `tell_reading`, for the work on a `.pag` of `len` bytes.
pub fn tell_work<R: Runtime<File = File> + AllocGlobal>(rt: &R, work: Option<Work>, len: u64) {
    if let Some(work) = work {
        tell_step(rt, work.doing(), len);
    }
}

/// Like `tell_reading`, for the save of a `.pag` of `len` bytes.
pub fn tell_saving<R: Runtime<File = File> + AllocGlobal>(rt: &R, work: Option<Work>, len: u64) {
    if work.is_some() {
        tell_step(rt, "saving", len);
    }
}

// Reports a step on a large `.pag` at a terminal. Errors of standard error are ignored.
fn tell_step<R: Runtime<File = File> + AllocGlobal>(rt: &R, step: &str, len: u64) {
    if len >= LONG_FILE && is_at_terminal(rt) {
        let mebibytes = len >> 20;
        let _ = eprintln!(rt; "dbm: {step} {mebibytes} MiB");
    }
}

// Returns the length of the `.pag` of a base, if the file exists.
fn pages_len<R: Runtime<File = File> + AllocGlobal>(rt: &R, base: &str) -> Option<u64> {
    let base = resolve(rt, base).ok()?;
    let names = names_of(rt.alloc(), base.as_str()).ok()?;
    Some(fs::metadata(rt, names.pages.as_str()).ok()?.len())
}

// The number of bytes read, and the time of the last report.
#[derive(Drop)]
struct Meter<R: Runtime> {
    rt: R,
    has_told: bool,
    count: u64,
    told_at: Option<Duration>,
}

impl<R: Runtime<File = File> + Clock + AllocGlobal> Meter<R> {
    // Makes a meter at zero for a `load` at a terminal. Returns `None` for any other command, without a terminal, or if memory runs out.
    fn new(rt: &R, work: Option<Work>) -> Option<Self> {
        if !matches!(work, Some(Work::Load)) || !is_at_terminal(rt) {
            return None;
        }
        Some(Meter {
            rt: rt.clone().ok()?,
            has_told: false,
            count: 0,
            told_at: rt.monotonic().ok(),
        })
    }

    // Counts bytes that were read, and reports the sum once a second. Erases the report at the end of the input.
    fn count(&mut self, given: usize) {
        self.count = self.count.saturating_add(given as u64);
        if given == 0 {
            self.clear();
        } else {
            self.tell();
        }
    }

    // Reports the number of bytes read if the last report is at least a second old. The next output overwrites the report.
    fn tell(&mut self) {
        let (Some(told_at), Ok(now)) = (self.told_at, self.rt.monotonic()) else {
            return;
        };
        if now.saturating_sub(told_at) < Duration::from_secs(1) {
            return;
        }
        let mebibytes = self.count >> 20;
        let _ = eprint!(&self.rt; "{mebibytes} MiB\r");
        self.has_told = true;
        self.told_at = Some(now);
    }

    fn clear(&mut self) {
        if self.has_told {
            let _ = eprint!(&self.rt; "\x1b[K");
            self.has_told = false;
        }
    }
}

/// A reader of a dump that reports its progress once a second, if standard error is a terminal.
#[derive(Drop)]
pub struct ProgressReader<R: Runtime, I: Read> {
    reader: I,
    meter: Option<Meter<R>>,
}

impl<R: Runtime<File = File> + Clock + AllocGlobal, I: Read> ProgressReader<R, I> {
    /// Wraps a reader before anything is read. Progress is reported only for a `load`.
    pub fn new(rt: &R, reader: I, work: Option<Work>) -> Self {
        ProgressReader {
            reader,
            meter: Meter::new(rt, work),
        }
    }
}

impl<R: Runtime<File = File> + Clock + AllocGlobal, I: Read> Read for ProgressReader<R, I> {
    ghost remaining = { λ counted. I.remaining counted.reader };

    fn read(&mut self, buf: &mut [u8]) -> io::Result<usize> {
        let given = self.reader.read(buf)?;
        if let Some(meter) = &mut self.meter {
            meter.count(given);
        }
        Ok(given)
    }
}
