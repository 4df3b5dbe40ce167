//! Notes in BASE.lock about the states in which `.dir` and the folder of a database are durable. A save need not sync a file that has its
//! noted state.

use crate::states::{changed_of, fine_time, is_settled};
use dbm_places::{Names, Side, has_bytes, open_beside};
use std::alloc::Global;
use std::fs::{File, Metadata};
use std::io;
use std::os::unix::fs::{FileExt, MetadataExt};
use std::rt::Files;
use std::time::Duration;

// The length of BASE.lock with both notes, in bytes. Each note has at most 256 bytes.
const END: u64 = 1536;

// A state is noted only if it is older than this many milliseconds. A write gives a file its new state when it begins, so a write that
// takes longer than this may not be in the state.
const OLD: u64 = 1000;

/// The file that a note is about.
#[derive(Clone, Copy, Debug, PartialEq, Eq)]
pub(crate) enum Subject {
    Directory,
    Folder,
}

impl Subject {
    // Returns the offset of the note in BASE.lock.
    fn offset(self) -> u64 {
        match self {
            Subject::Directory => 1024,
            Subject::Folder => 1280,
        }
    }
}

/// The notes of a database.
#[derive(Drop)]
pub(crate) struct DurableNotes {
    alloc: Global,
    // BASE.lock, or `None` if it has no notes.
    lock: Option<File>,
}

impl DurableNotes {
    /// Opens BASE.lock, in which this process may write at most `most` bytes. There are no notes if the run may not write BASE.lock, or
    /// BASE.lock has other bytes after the notes.
    pub(crate) fn open<R: Files<File = File> + AllocGlobal>(
        rt: &R,
        names: &Names,
        most: u64,
    ) -> DurableNotes {
        DurableNotes {
            alloc: rt.alloc(),
            lock: open_notes(rt, names, most),
        }
    }

    /// Makes a file durable: syncs it, unless there is a note that it is durable in its present state. Notes the state that the file had
    /// before the sync, if a later change gives it another state. Nothing depends on a note that cannot be written.
    ///
    /// # Errors
    /// Those of the sync.
    pub(crate) fn sync(&self, subject: Subject, file: &File) -> io::Result<()> {
        let Some(lock) = &self.lock else {
            return sync_whole(subject, file);
        };
        if is_noted(self.alloc, lock, subject, file) {
            return Ok(());
        }
        let note = note_of(self.alloc, lock, subject, file);
        sync_whole(subject, file)?;
        if let Some(note) = note {
            let _ = lock.write_all_at(note.as_bytes(), subject.offset());
        }
        Ok(())
    }
}

// Opens BASE.lock for its notes.
fn open_notes<R: Files<File = File>>(rt: &R, names: &Names, most: u64) -> Option<File> {
    if most < END {
        return None;
    }
    let (name, pages) = (names.lock.as_str(), names.pages.as_str());
    let lock = open_beside(rt, Side::Lock, name, pages, true).ok()?;
    if lock.metadata().ok()?.len() > END {
        return None;
    }
    Some(lock)
}

fn sync_whole(subject: Subject, file: &File) -> io::Result<()> {
    match subject {
        Subject::Directory => file.sync_data(),
        Subject::Folder => file.sync_all(),
    }
}

// Returns `true` if BASE.lock has a note that a file is durable in its present state.
fn is_noted(alloc: Global, lock: &File, subject: Subject, file: &File) -> bool {
    let Ok(found) = file.metadata() else {
        return false;
    };
    match text_of(alloc, &found) {
        Some(text) => has_bytes(lock, subject.offset(), text.as_bytes()).unwrap_or(false),
        None => false,
    }
}

// Makes the present note invalid, and returns a note about the present state of a file. Returns `None` if a later change may leave the file
// in the same state: the last change is not old enough, or BASE.lock is in another file system, which may have another clock.
fn note_of(alloc: Global, lock: &File, subject: Subject, file: &File) -> Option<String> {
    // This write gives BASE.lock the time of the file system's clock before the state is read.
    lock.write_all_at(b"-", subject.offset()).ok()?;
    let written = lock.metadata().ok()?;
    let found = file.metadata().ok()?;
    let now = fine_time(changed_of(&written))?;
    let is_old = is_settled(changed_of(&found), now, Duration::from_millis(OLD));
    if !is_old || found.dev() != written.dev() {
        return None;
    }
    text_of(alloc, &found)
}

// Returns the text of the note about a state. Returns `None` if allocation fails.
fn text_of(alloc: Global, found: &Metadata) -> Option<String> {
    let (device, inode, length) = (found.dev(), found.ino(), found.len());
    let (written, written_nanos) = (found.mtime(), found.mtime_nsec());
    let (changed, nanos) = changed_of(found);
    let text = format!(in alloc;
        "durable: device {device}, inode {inode}, {length} bytes, written {written} s {written_nanos} ns, changed {changed} s {nanos} ns\n"
    );
    text.ok()
}
