//! The result of a second look at the files of a run.

use std::fmt;
use std::io::{self, ErrorKind};

/// The reason why the system refuses a file. It prints as a clause of a sentence.
#[derive(Clone, Copy)]
pub struct Reason(pub io::Error);

impl fmt::Display for Reason {
    fn fmt<W: fmt::Write>(&self, f: &mut fmt::Formatter<W>) -> fmt::Result {
        match reason_text(self.0.kind()) {
            Some(text) => f.write_str(text),
            None => fmt::Display::fmt(&self.0, f),
        }
    }
}

// Returns a reason in plain words, or `None` for a reason that prints in the system's words.
fn reason_text(kind: ErrorKind) -> Option<&'static str> {
    match kind {
        ErrorKind::NotFound => Some("it does not exist"),
        ErrorKind::PermissionDenied => Some("permission denied"),
        ErrorKind::IsADirectory => Some("it is a folder"),
        ErrorKind::NotADirectory => Some("a part of its path is not a folder"),
        ErrorKind::ReadOnlyFilesystem => Some("its file system is read-only"),
        ErrorKind::StorageFull => Some("no space is left on the disk"),
        ErrorKind::QuotaExceeded => Some("your disk quota is exhausted"),
        ErrorKind::FilesystemLoop => Some("its links form a circle"),
        ErrorKind::InvalidFilename => Some("its name is too long"),
        _ => None,
    }
}

/// The problem of a file.
#[derive(Clone, Copy)]
pub enum Matter {
    /// It is missing.
    Absent,
    /// It is a dangling link.
    DeadLink,
    /// It cannot be read.
    Unread(Reason),
    /// It cannot be written.
    Unwritten(Reason),
    /// It should be a folder, but is a file.
    NoFolder,
    /// It should be a folder, but cannot be examined.
    LostFolder(Reason),
    /// It has more bytes than this limit.
    TooLong(u64),
    /// It is an object file, the output of a compiler.
    Object,
    /// It is next to a database, and is a link, a folder or another special file, or has several names.
    NoOwnFile,
    /// It is next to a database, and another user could have planted it.
    Unsafe { owner: u32, mode: u32 },
}

/// A file or a folder, and its problem.
#[derive(Clone, Copy)]
pub struct Finding<'a> {
    pub name: &'a str,
    pub matter: Matter,
}
