//! The states of files, which show whether another program has changed them.

use dbm_places::{FileId, Names, Place};
use std::fs::{self, Metadata};
use std::os::unix::fs::MetadataExt;
use std::rt::Files;
use std::time::Duration;

/// The ID and the length of a file, its rights, and the times of the last changes of its bytes and of its inode.
#[derive(Clone, Copy, PartialEq, Eq)]
struct FileState {
    id: FileId,
    len: u64,
    // The permissions, the owner and the group.
    rights: (u32, u32, u32),
    written: (i64, i64),
    changed: (i64, i64),
}

impl FileState {
    fn of(found: &Metadata) -> FileState {
        FileState {
            id: FileId::of(found),
            len: found.len(),
            rights: (found.mode(), found.uid(), found.gid()),
            written: (found.mtime(), found.mtime_nsec()),
            changed: changed_of(found),
        }
    }

    // Returns `true` if `other` is a state of the same file with the same length.
    fn is_like(self, other: FileState) -> bool {
        self.id == other.id && self.len == other.len
    }

    // Returns `true` if `other` is the state of a different file, or if the file was written after `other`.
    fn is_written_since(self, other: FileState) -> bool {
        !self.is_like(other) || self.written != other.written
    }
}

/// The time of the last change of an inode, in seconds and nanoseconds since 1970.
pub(crate) type Changed = (i64, i64);

/// Returns the time of the last change of an inode.
pub(crate) fn changed_of(found: &Metadata) -> Changed {
    (found.ctime(), found.ctime_nsec())
}

/// Returns the time at which a name in the folder of a database was last created, removed or changed. Returns `None` if the folder is not
/// held open.
pub(crate) fn names_changed(place: &Place) -> Option<Changed> {
    let found = place.folder()?;
    Some(changed_of(&found))
}

/// Returns a time that is counted from 1970. Returns `None` if it is in whole seconds, since many file systems count only these.
pub(crate) fn fine_time(changed: Changed) -> Option<Duration> {
    let (seconds, nanos) = changed;
    if nanos == 0 {
        return None;
    }
    let seconds = Duration::from_secs(u64::try_from(seconds).ok()?);
    let nanos = Duration::from_nanos(u64::try_from(nanos).ok()?);
    Some(seconds.saturating_add(nanos))
}

/// Returns `true` if no later change can have the same time: the time is not in whole seconds, and more than `age` before now, since two
/// changes within a tick of the system's clock may have the same time. `now` is counted from 1970.
pub(crate) fn is_settled(changed: Changed, now: Duration, age: Duration) -> bool {
    match fine_time(changed) {
        Some(time) => now.saturating_sub(time) > age,
        None => false,
    }
}

/// The state of both data files at one time. Another program may change the files later.
#[derive(Clone, Copy, PartialEq, Eq)]
pub(crate) struct DataStates {
    pages: Option<FileState>,
    directory: Option<FileState>,
}

impl DataStates {
    pub(crate) fn look<R: Files>(rt: &R, names: &Names) -> DataStates {
        DataStates {
            pages: state_of(rt, names.pages.as_str()),
            directory: state_of(rt, names.directory.as_str()),
        }
    }

    pub(crate) fn are_written_since(self, other: DataStates) -> bool {
        is_written(self.pages, other.pages) || is_written(self.directory, other.directory)
    }

    /// Returns `true` if both are states of the same two files with the same lengths.
    pub(crate) fn are_like(self, other: DataStates) -> bool {
        is_like(self.pages, other.pages) && is_like(self.directory, other.directory)
    }

    /// Returns `true` if both files have the same rights in both states.
    pub(crate) fn have_rights_of(self, other: DataStates) -> bool {
        rights_of(self.pages) == rights_of(other.pages)
            && rights_of(self.directory) == rights_of(other.directory)
    }
}

// Returns `true` if a file was written, created or removed between two states.
fn is_written(now: Option<FileState>, before: Option<FileState>) -> bool {
    match (now, before) {
        (Some(now), Some(before)) => now.is_written_since(before),
        (None, None) => false,
        _ => true,
    }
}

fn rights_of(state: Option<FileState>) -> Option<(u32, u32, u32)> {
    match state {
        Some(state) => Some(state.rights),
        None => None,
    }
}

// Returns `true` if both are states of one file with the same length.
fn is_like(now: Option<FileState>, before: Option<FileState>) -> bool {
    match (now, before) {
        (Some(now), Some(before)) => now.is_like(before),
        _ => false,
    }
}

fn state_of<R: Files>(rt: &R, name: &str) -> Option<FileState> {
    let found = fs::metadata(rt, name).ok()?;
    Some(FileState::of(&found))
}
