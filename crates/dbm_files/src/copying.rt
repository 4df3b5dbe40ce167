//! Saves a database in new files, which have temporary names until they are complete.

use crate::files::{RunFiles, take_files};
use crate::saving::SaveOutcome;
use crate::writing::save_held;
use dbm_places::{FilesFault, Names, RunPlace, folder_of, has_no_files, is_absent, make, names_of};
use sdbm_files::{Image, PAG_LIMIT};
use sdbm_saves::ReadFiles;
use std::alloc::{AllocError, Global};
use std::fs::{self, File};
use std::io::{self, ErrorKind};
use std::rt::Files;
use std::time::{Clock, Duration};

/// The outcome of a copy without a fault.
#[derive(Clone, Copy, Debug, PartialEq, Eq)]
pub enum CopyOutcome {
    /// Both files are complete and durable, and so are their names.
    Done,
    /// The copy was not made: a data file with its name exists, or a redo file with a committed save.
    Exists,
}

/// Saves a database in new files of this base. Their permissions are `mode` without the bits of the umask. The files are written and synced
/// under temporary names in the same folder, and get their own names once they are complete. After a fault neither file exists. After a
/// kill both files, neither, or BASE.pag alone may exist, and files with temporary names may be left.
///
/// # Errors
/// `WriteFile` if the disk fails, `FileTooLong` if a file would be too long, `NoMemory` if allocation fails, and the errors of `take_files`
/// for the temporary names.
pub fn save_copy<R: Files<File = File> + Clock + AllocGlobal>(
    rt: &R,
    base: &str,
    mode: u32,
    image: &Image<Global>,
) -> Result<CopyOutcome, FilesFault> {
    if !has_no_files(rt, Some(base)) {
        return Ok(CopyOutcome::Exists);
    }
    let names = names_of(rt.alloc(), base)?;
    let early_base = early_base_of(rt, base)?;
    let early = names_of(rt.alloc(), early_base.as_str())?;
    make_both(rt, &early, mode)?;
    let copied = match save_early(rt, early_base.as_str(), &early, image) {
        Ok(()) => publish(rt, &early, &names),
        Err(fault) => Err(fault),
    };
    remove_early(rt, &early);
    copied
}

// Returns the base of the temporary names of a copy. It contains the ID of this process, if /proc reports it, so that no other process uses
// the same names.
fn early_base_of<R: Files + AllocGlobal>(rt: &R, base: &str) -> Result<String, AllocError> {
    let Ok(process) = fs::read_link(rt, "/proc/self") else {
        return format!(in rt.alloc(); "{base}.new");
    };
    match process.to_str() {
        Some(number) => format!(in rt.alloc(); "{base}.{number}.new"),
        None => format!(in rt.alloc(); "{base}.new"),
    }
}

// Creates both data files, which must not exist.
fn make_both<R: Files<File = File>>(rt: &R, early: &Names, mode: u32) -> Result<(), FilesFault> {
    if make(rt, early.pages.as_str(), mode).is_err() {
        return Err(FilesFault::WriteFile);
    }
    if make(rt, early.directory.as_str(), mode).is_err() {
        let _ = fs::remove_file(rt, early.pages.as_str());
        return Err(FilesFault::WriteFile);
    }
    Ok(())
}

// Saves a database in both data files, which are empty.
fn save_early<R: Files<File = File> + Clock + AllocGlobal>(
    rt: &R,
    base: &str,
    early: &Names,
    image: &Image<Global>,
) -> Result<(), FilesFault> {
    let place = RunPlace {
        base: Some(base),
        file: None,
        writes: true,
        pages_limit: PAG_LIMIT,
        page_size: image.page_size(),
    };
    let RunFiles { bytes, held, .. } = take_files(rt, place, false, Some(Duration::ZERO))?;
    let Some(held) = held else {
        return Err(FilesFault::WriteFile);
    };
    let old = ReadFiles {
        pages: &bytes.pages,
        directory: bytes.directory.as_slice(),
    };
    match save_held(rt, &held, &held.seen, old, image)?.outcome {
        SaveOutcome::Whole => Ok(()),
        SaveOutcome::Unchanged => synced(sync_both(rt, early)),
        SaveOutcome::Pending => Err(FilesFault::WriteFile),
    }
}

// Syncs both files after the save of an empty database, which writes nothing.
fn sync_both<R: Files<File = File>>(rt: &R, early: &Names) -> io::Result<()> {
    fs::open(rt, early.pages.as_str())?.sync_all()?;
    fs::open(rt, early.directory.as_str())?.sync_all()
}

fn synced(outcome: io::Result<()>) -> Result<(), FilesFault> {
    match outcome {
        Ok(()) => Ok(()),
        Err(_) => Err(FilesFault::WriteFile),
    }
}

// Gives both files their own names and syncs the folder. After a fault neither name exists.
fn publish<R: Files<File = File>>(
    rt: &R,
    early: &Names,
    names: &Names,
) -> Result<CopyOutcome, FilesFault> {
    let (pages, directory) = (names.pages.as_str(), names.directory.as_str());
    if !give_name(rt, early.pages.as_str(), pages)? {
        return Ok(CopyOutcome::Exists);
    }
    let given = give_name(rt, early.directory.as_str(), directory);
    if given != Ok(true) {
        let _ = fs::remove_file(rt, pages);
        return given.map(|_| CopyOutcome::Exists);
    }
    let outcome = synced(sync_folder(rt, pages));
    if outcome.is_err() {
        let _ = fs::remove_file(rt, directory);
        let _ = fs::remove_file(rt, pages);
    }
    outcome.map(|_| CopyOutcome::Done)
}

// Gives a file the name `to`, by a hard link or, if that fails, by a rename. Returns `false` if `to` exists.
fn give_name<R: Files<File = File>>(rt: &R, from: &str, to: &str) -> Result<bool, FilesFault> {
    match fs::hard_link(rt, from, to) {
        Ok(()) => return Ok(true),
        Err(error) if error.kind() == ErrorKind::AlreadyExists => return Ok(false),
        Err(_) => (),
    }
    if !is_absent(rt, to) {
        return Ok(false);
    }
    match fs::rename(rt, from, to) {
        Ok(()) => Ok(true),
        Err(_) => Err(FilesFault::WriteFile),
    }
}

fn sync_folder<R: Files<File = File>>(rt: &R, name: &str) -> io::Result<()> {
    fs::open(rt, folder_of(name))?.sync_all()
}

// Removes the files with temporary names.
fn remove_early<R: Files<File = File>>(rt: &R, early: &Names) {
    let names = [
        &early.pages,
        &early.directory,
        &early.redo,
        &early.lock,
        &early.writer,
    ];
    for name in names {
        let _ = fs::remove_file(rt, name.as_str());
    }
}
