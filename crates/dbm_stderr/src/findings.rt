//! Examines the files again after a fault, to find the file that the fault is about and the reason that the system gives.

use dbm_messages::{Finding, Matter, Reason};
use dbm_places::{Names, Side, Source, doubt_of, folder_of, is_special};
use std::fs::{self, File, OpenOptions};
use std::io::{self, ErrorKind, Read};
use std::rt::Files;

/// Returns the first file of a run that cannot be read, if any. The order is: the lock, the redo file, `.dir` and `.pag` of the database,
/// then the program's file. The files of a database may be missing.
pub fn find_unread<'a, R: Files<File = File>>(
    rt: &R,
    names: Option<&'a Names>,
    file: Option<&'a str>,
) -> Option<Finding<'a>> {
    if let Some(names) = names
        && let Some(found) = unread_of(rt, names)
    {
        return Some(found);
    }
    let name = file?;
    let matter = unread(rt, name, false)?;
    Some(Finding { name, matter })
}

// Returns the first file of a database that cannot be read.
fn unread_of<'a, R: Files<File = File>>(rt: &R, names: &'a Names) -> Option<Finding<'a>> {
    for name in [
        names.lock.as_str(),
        names.redo.as_str(),
        names.directory.as_str(),
        names.pages.as_str(),
    ] {
        let matter = if is_special(rt, name) {
            Some(Matter::NoOwnFile)
        } else {
            unread(rt, name, true)
        };
        if let Some(matter) = matter {
            return Some(Finding { name, matter });
        }
    }
    None
}

// Returns the reason why a file cannot be read, or `None` if it can. A dangling link is a reason even if the file may be missing.
fn unread<R: Files<File = File>>(rt: &R, name: &str, may_be_absent: bool) -> Option<Matter> {
    let error = read_error(rt, name)?;
    if error.kind() != ErrorKind::NotFound {
        return Some(Matter::Unread(Reason(error)));
    }
    if is_link(rt, name) {
        return Some(Matter::DeadLink);
    }
    if may_be_absent {
        return None;
    }
    Some(Matter::Absent)
}

// Opens a file and reads its first byte. Returns the error of either, or `None` if both work.
fn read_error<R: Files<File = File>>(rt: &R, name: &str) -> Option<io::Error> {
    let mut first = [0; 1];
    match fs::open(rt, name) {
        Ok(mut file) => file.read(&mut first).err(),
        Err(error) => Some(error),
    }
}

fn is_link<R: Files<File = File>>(rt: &R, name: &str) -> bool {
    match fs::symlink_metadata(rt, name) {
        Ok(found) => found.is_symlink(),
        Err(_) => false,
    }
}

/// Finds a reason why the files of a database cannot be written: an invalid folder, or the first existing file that cannot be opened for
/// writing. The order is: both locks, the redo file, `.dir`, `.pag`. A lock need only be readable.
pub fn find_unwritten<'a, R: Files<File = File>>(rt: &R, names: &'a Names) -> Option<Finding<'a>> {
    let name = folder_of(names.lock.as_str());
    if let Some(matter) = lost(rt, name) {
        return Some(Finding { name, matter });
    }
    for lock in [names.lock.as_str(), names.writer.as_str()] {
        if read_error(rt, lock).is_some()
            && let Some(matter) = unwritten(rt, lock)
        {
            return Some(Finding { name: lock, matter });
        }
    }
    for name in [
        names.redo.as_str(),
        names.directory.as_str(),
        names.pages.as_str(),
    ] {
        if let Some(matter) = unwritten(rt, name) {
            return Some(Finding { name, matter });
        }
    }
    None
}

/// Finds the first unsafe file: one that another user could have planted. The order is: both locks, then the redo file.
pub fn find_unsafe<'a, R: Files<File = File>>(rt: &R, names: &'a Names) -> Option<Finding<'a>> {
    for (side, name) in [
        (Side::Lock, names.lock.as_str()),
        (Side::Lock, names.writer.as_str()),
        (Side::Redo, names.redo.as_str()),
    ] {
        if let Some(found) = doubt_of(rt, side, name, names.pages.as_str()) {
            let matter = if found.is_plain {
                Matter::Unsafe {
                    owner: found.owner,
                    mode: found.mode,
                }
            } else {
                Matter::NoOwnFile
            };
            return Some(Finding { name, matter });
        }
    }
    None
}

// Returns the reason why a folder is invalid, or `None` if it is valid.
fn lost<R: Files<File = File>>(rt: &R, folder: &str) -> Option<Matter> {
    match fs::metadata(rt, folder) {
        Ok(found) if found.is_dir() => None,
        Ok(_) => Some(Matter::NoFolder),
        Err(error) => Some(Matter::LostFolder(Reason(error))),
    }
}

// Returns the reason why an existing file cannot be opened for writing, or `None` if it can or if the file is missing.
fn unwritten<R: Files<File = File>>(rt: &R, name: &str) -> Option<Matter> {
    let Err(error) = OpenOptions::new().read(true).write(true).open(rt, name) else {
        return None;
    };
    if error.kind() != ErrorKind::NotFound {
        return Some(Matter::Unwritten(Reason(error)));
    }
    if is_link(rt, name) {
        return Some(Matter::DeadLink);
    }
    None
}

/// Finds the first file to read that is over its size limit. If there is no such file, finds the first device or FIFO, which has no length.
pub fn find_too_long<'a, R: Files<File = File>>(
    rt: &R,
    sources: &'a [Source],
) -> Option<Finding<'a>> {
    for source in sources {
        if is_longer(rt, source) {
            return Some(too_long(source));
        }
    }
    for source in sources {
        if is_special(rt, source.name.as_str()) {
            return Some(too_long(source));
        }
    }
    None
}

fn too_long(source: &Source) -> Finding<'_> {
    Finding {
        name: source.name.as_str(),
        matter: Matter::TooLong(source.limit),
    }
}

fn is_longer<R: Files<File = File>>(rt: &R, source: &Source) -> bool {
    match fs::metadata(rt, source.name.as_str()) {
        Ok(found) => found.len() > source.limit,
        Err(_) => false,
    }
}

/// Returns a finding if a file is an object file, the output of a compiler: its first four bytes are those of ELF.
pub fn find_object<'a, R: Files<File = File>>(rt: &R, name: &'a str) -> Option<Finding<'a>> {
    let mut head = [0; 4];
    let is_object = match fs::open(rt, name) {
        Ok(mut file) => file.read_exact(&mut head).is_ok() && head == *b"\x7fELF",
        Err(_) => false,
    };
    if is_object {
        return Some(Finding {
            name,
            matter: Matter::Object,
        });
    }
    None
}
