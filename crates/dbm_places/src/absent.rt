//! Missing files and special files.

use crate::names::{Names, names_of};
use crate::side::{Side, SideFault, open_beside};
use std::fs::{self, File};
use std::io::{ErrorKind, Read};
use std::rt::Files;

/// Returns `true` if a name refers to a FIFO, a device or a socket. Opening a FIFO waits for its other end.
pub fn is_special<R: Files>(rt: &R, name: &str) -> bool {
    match fs::metadata(rt, name) {
        Ok(found) => !found.is_file() && !found.is_dir(),
        Err(_) => false,
    }
}

/// Returns `true` if a database has neither data files nor a committed redo file. Returns `false` without a base, or if allocation fails.
pub fn has_no_files<R: Files<File = File> + AllocGlobal>(rt: &R, base: Option<&str>) -> bool {
    let Some(base) = base else {
        return false;
    };
    match names_of(rt.alloc(), base) {
        Ok(names) => {
            is_absent(rt, names.pages.as_str())
                && is_absent(rt, names.directory.as_str())
                && !may_be_marked(rt, &names)
        }
        Err(_) => false,
    }
}

// Returns `true` if the commit byte of a redo file is 1, or if the file exists and cannot be read.
fn may_be_marked<R: Files<File = File>>(rt: &R, names: &Names) -> bool {
    let (name, pages) = (names.redo.as_str(), names.pages.as_str());
    let mut first = [0u8];
    match open_beside(rt, Side::Redo, name, pages, false) {
        Ok(mut file) => match file.read_exact(&mut first) {
            Ok(()) => first == [1],
            Err(error) => error.kind() != ErrorKind::UnexpectedEof,
        },
        Err(SideFault::Absent) => false,
        Err(_) => true,
    }
}

/// Returns `true` if no file has this name. A dangling link counts as a file.
pub fn is_absent<R: Files<File = File>>(rt: &R, name: &str) -> bool {
    match fs::symlink_metadata(rt, name) {
        Err(error) => error.kind() == ErrorKind::NotFound,
        Ok(_) => false,
    }
}
