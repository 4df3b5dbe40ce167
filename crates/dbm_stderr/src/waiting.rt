//! Takes the files of a run, and reports a wait for the lock of the database.

use crate::progress::{Work, tell_reading, tell_work};
use crate::terminal::is_at_terminal;
use dbm_files::{RunFiles, take_files};
use dbm_messages::{holder_note, wait_note};
use dbm_places::{FilesFault, RunPlace, locker_of, names_of, resolve};
use std::fs::{self, File};
use std::rt::Runtime;
use std::time::{Clock, Duration};

/// The time in milliseconds that a run waits before it reports the wait.
const SILENT_WAIT: u64 = 500;

/// Like `take_files`, with reports. If the run is verbose or standard error is a terminal, reports the holder of the lock after a wait of
/// half a second. At a terminal, also reports the steps of a command that is slow on large files.
///
/// # Errors
/// The errors of `take_files`.
pub fn take_and_tell<R: Runtime<File = File> + Clock + AllocGlobal>(
    rt: &R,
    place: RunPlace<'_>,
    peeks: bool,
    patience: Option<Duration>,
    verbose: bool,
    work: Option<Work>,
) -> Result<RunFiles, FilesFault> {
    tell_reading(rt, work, place.base);
    let taken = take_patiently(rt, place, peeks, patience, verbose)?;
    tell_work(rt, work, taken.bytes.pages.len() as u64);
    Ok(taken)
}

// Like `take_and_tell`, without reports of steps.
fn take_patiently<R: Runtime<File = File> + Clock + AllocGlobal>(
    rt: &R,
    place: RunPlace<'_>,
    peeks: bool,
    patience: Option<Duration>,
    verbose: bool,
) -> Result<RunFiles, FilesFault> {
    if !verbose && !is_at_terminal(rt) {
        return take_files(rt, place, peeks, patience);
    }
    let silent = Duration::from_millis(SILENT_WAIT);
    let (first, rest) = match patience {
        Some(patience) => (patience.min(silent), Some(patience.saturating_sub(silent))),
        None => (silent, None),
    };
    match take_files(rt, place, peeks, Some(first)) {
        Err(FilesFault::Locked) => {
            tell_wait(rt, place);
            take_files(rt, place, peeks, rest)
        }
        taken => taken,
    }
}

// Reports the holder of the lock during a wait. Errors of standard error are ignored.
fn tell_wait<R: Runtime<File = File> + AllocGlobal>(rt: &R, place: RunPlace<'_>) {
    let Some(base) = place.base else {
        return;
    };
    let Ok(base) = resolve(rt, base) else {
        return;
    };
    let holder = holder_of(rt, base.as_str(), place.writes);
    let name = match holder {
        Some(process) => name_of(rt, process),
        None => None,
    };
    let note = wait_note(base.as_str(), holder, name.as_ref());
    let _ = eprintln!(rt; "dbm: note: {note}");
}

/// Notes the holder of the lock after the fault `Locked`, unless `take_and_tell` reports the wait to such a run.
pub fn note_holder<R: Runtime<File = File> + AllocGlobal>(
    rt: &R,
    place: RunPlace<'_>,
    verbose: bool,
) {
    if verbose || is_at_terminal(rt) {
        return;
    }
    let Some(base) = place.base else {
        return;
    };
    let Ok(base) = resolve(rt, base) else {
        return;
    };
    let Some(process) = holder_of(rt, base.as_str(), place.writes) else {
        return;
    };
    let name = name_of(rt, process);
    let note = holder_note(base.as_str(), process, name.as_ref());
    let _ = eprintln!(rt; "dbm: note: {note}");
}

// Returns the ID of the process for which a run waits, if the system reports it. For a run that may write, looks first for a process with
// the base open for changes. Then looks for a process that has locked the files.
fn holder_of<R: Runtime<File = File> + AllocGlobal>(
    rt: &R,
    base: &str,
    writes: bool,
) -> Option<u64> {
    let names = names_of(rt.alloc(), base).ok()?;
    if writes && let Some(writer) = seen_locker_of(rt, names.writer.as_str()) {
        return Some(writer);
    }
    seen_locker_of(rt, names.lock.as_str())
}

// Returns the ID of the process that holds a lock, if this process can see it.
fn seen_locker_of<R: Runtime<File = File> + AllocGlobal>(rt: &R, name: &str) -> Option<u64> {
    match locker_of(rt, name)? {
        0 => None,
        process => Some(process),
    }
}

// Returns the name of a process.
fn name_of<R: Runtime<File = File> + AllocGlobal>(rt: &R, process: u64) -> Option<String> {
    let path = format!(in rt.alloc(); "/proc/{process}/comm").ok()?;
    let mut name = fs::read_to_string(rt, path.as_str()).ok()?;
    if name.as_str().ends_with('\n') {
        let _ = name.pop();
    }
    Some(name)
}
