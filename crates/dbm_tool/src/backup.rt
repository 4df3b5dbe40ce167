//! Copies a database into new files.

use crate::ending::{Ending, FAULT, Served};
use crate::request::given_of;
use crate::tell;
use byte_text::write_all;
use dbm_dump::Backup;
use dbm_files::{CopyOutcome, save_copy};
use dbm_messages::ServeFault;
use dbm_places::{FileBytes, RunPlace, names_of};
use dbm_reports::{open, page_size_of, show_ok};
use dbm_stderr::{DiagnosticContext, Work, tell_saving};
use sdbm_files::{Image, PAG_LIMIT};
use std::alloc::Global;
use std::fs::{self, File};
use std::io;
use std::os::unix::fs::PermissionsExt;
use std::rt::Runtime;
use std::time::Clock;

// The mode of a copy of a database without BASE.pag and BASE.redo.
const NEW_MODE: u32 = 0o666;

/// Opens the database in the files that were read, copies it into the new files of a backup, and prints the number of pairs. If making the
/// copy fails, reports the fault here and returns the status of a fault.
///
/// # Errors
/// Only faults of the database that is copied: `Report` with `Open` if its files cannot be opened, and `NoMemory` if allocation fails.
pub fn serve_backup<R: Runtime<File = File> + Clock + AllocGlobal>(
    rt: &R,
    backup: &Backup<'_>,
    bytes: FileBytes,
) -> Result<Served, ServeFault> {
    let image = open(rt.alloc(), &given_of(bytes), backup.form)?;
    match make_copy(rt, backup, &image) {
        Ok(()) => Ok(Served::plain(0)),
        Err(fault) => Ok(refuse_copy(rt, backup, fault)),
    }
}

/// Reports a fault of making the copy. The message names the copy.
pub fn refuse_copy<R: Runtime<File = File> + AllocGlobal>(
    rt: &R,
    backup: &Backup<'_>,
    fault: ServeFault,
) -> Served {
    let _ = tell(rt, Some(&context_of_copy(backup)), Ending::Failed(fault));
    Served::plain(FAULT)
}

// Saves a database in the files of the copy, and prints the number of pairs.
fn make_copy<R: Runtime<File = File> + Clock + AllocGlobal>(
    rt: &R,
    backup: &Backup<'_>,
    image: &Image<Global>,
) -> Result<(), ServeFault> {
    let lines = show_ok(rt.alloc(), image.count())?;
    let mode = mode_of(rt, backup.base)?;
    tell_saving(rt, Some(Work::Backup), image.pag_len());
    if save_copy(rt, backup.to, mode, image)? == CopyOutcome::Exists {
        return Err(ServeFault::Exists);
    }
    match write_all(&mut io::writer(rt), lines.as_slice()) {
        Ok(()) => Ok(()),
        Err(_) => Err(ServeFault::Saved),
    }
}

// Returns the permissions of a database: those of its `.pag`, or if `.pag` is missing those of its redo file.
fn mode_of<R: Runtime<File = File> + AllocGlobal>(rt: &R, base: &str) -> Result<u32, ServeFault> {
    let names = names_of(rt.alloc(), base)?;
    for name in [&names.pages, &names.redo] {
        if let Ok(found) = fs::metadata(rt, name.as_str()) {
            return Ok(found.permissions().mode() % 0o1000);
        }
    }
    Ok(NEW_MODE)
}

// Returns the files of the copy.
fn place_of_copy<'a>(backup: &Backup<'a>) -> RunPlace<'a> {
    RunPlace {
        base: Some(backup.to),
        file: None,
        writes: true,
        pages_limit: PAG_LIMIT,
        page_size: page_size_of(backup.form),
    }
}

// Returns the context for sentences about the copy.
fn context_of_copy<'a>(backup: &Backup<'a>) -> DiagnosticContext<'a> {
    DiagnosticContext {
        place: place_of_copy(backup),
        words: backup.words_of_copy(),
        lines: None,
    }
}
