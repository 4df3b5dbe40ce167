//! Reads single pages of a `.pag` that stays open, for a run that needs only one page.
ghost use Rattle.std.specs.Prelude.{◌≡◌, ◌+◌, ◌*◌, ◌<◌, ◌≤◌, ℕ, length, get_or, IfOk};
ghost use Rattle.sdbm_addr.specs.Pairs.{page_bytes};

use dbm_places::{FileId, FilesFault, Place, is_absent, is_special};
use sdbm_addr::PageSize;
use std::alloc::Global;
use std::fs::{self, File};
use std::io::ErrorKind;
use std::os::unix::fs::FileExt;
use std::rt::Files;

/// A `.pag` whose pages are read one by one. A missing file counts as empty.
#[derive(Drop)]
pub struct UnreadPages {
    /// The length in bytes.
    pub len: usize,
    /// The ID of the file, if it exists.
    pub id: Option<FileId>,
    file: Option<File>,
    guard: Guard,
}

/// Prevents other runs from writing the files while a page is read.
#[derive(Drop)]
pub enum Guard {
    /// The lock of a writing run, which is held separately.
    Writer,
    /// The place and the lock of a reading run. The lock is `None` if its file was missing, because no run has written yet.
    Reader(Place, Option<File>),
}

impl UnreadPages {
    /// Opens a `.pag` of at most `limit` bytes, under the lock of a writing run. Returns `None` if the file is longer or cannot be opened.
    /// The run then reads all files, and reports the reason.
    pub fn open<R: Files<File = File>>(rt: &R, name: &str, limit: u64) -> Option<UnreadPages> {
        if is_special(rt, name) {
            return None;
        }
        let file = match fs::open(rt, name) {
            Ok(file) => Some(file),
            Err(error) if error.kind() == ErrorKind::NotFound => None,
            Err(_) => return None,
        };
        let (len, id) = match &file {
            Some(file) => {
                let found = file.metadata().ok()?;
                if !found.is_file() {
                    return None;
                }
                (found.len(), Some(FileId::of(&found)))
            }
            None => (0, None),
        };
        if len > limit {
            return None;
        }
        Some(UnreadPages {
            len: len as usize,
            id,
            file,
            guard: Guard::Writer,
        })
    }

    /// Returns the file with the guard of a reading run, which holds a lock or found no lock file.
    pub fn read_in(self, place: Place, lock: Option<File>) -> UnreadPages {
        UnreadPages {
            guard: Guard::Reader(place, lock),
            ..self
        }
    }

    /// Reads page `number`, for pages of this size. Returns zeros for a page that is not completely in the file.
    ///
    /// # Errors
    /// `ReadFile` if the page cannot be read, and `NoMemory` if allocation fails.
    pub fn page(&self, alloc: Global, number: u32, size: PageSize) -> Result<Vec<u8>, FilesFault>
        ensures long { IfOk result (λ page. length page.items ≡ page_bytes size) }
        ensures past { IfOk result (λ page. (i : ℕ) → i < page_bytes size → self.now.len ≤ number * page_bytes size + i → get_or page.items i 0 ≡ 0) }
    {
        let bytes = size.bytes();
        let at = number as usize * bytes;
        let mut page = vec![in alloc; 0u8; bytes]?;
        if at + bytes > self.len {
            return Ok(page);
        }
        let Some(file) = &self.file else {
            return Err(FilesFault::ReadFile);
        };
        match file.read_exact_at(page.as_mut_slice(), at as u64) {
            Ok(()) => Ok(page),
            Err(_) => Err(FilesFault::ReadFile),
        }
    }

    /// Returns the guard, which still prevents other runs from writing.
    pub fn into_guard(self) -> Guard {
        let UnreadPages { guard, .. } = self;
        guard
    }

    /// Returns `true` if no other run can have written the files since this run opened them.
    pub fn is_guarded<R: Files<File = File>>(&self, rt: &R) -> bool {
        match &self.guard {
            Guard::Writer | Guard::Reader(_, Some(_)) => true,
            Guard::Reader(place, None) => is_absent(rt, place.names.lock.as_str()),
        }
    }
}
