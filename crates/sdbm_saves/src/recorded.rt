// A disk made of three files of the system. The effects of system calls are trusted: the record of the calls determines the contents of the
// files and the images that a crash may leave.
ghost use Rattle.std.specs.Prelude.{◌≡◌, ◌++◌, ◌∷◌, List, [], length, ◌↔◌, IsTrue, IsErrOf, MatchResult};
ghost use Rattle.sdbm_saves.specs.declared.disk.DiskError.TheVariants.{Failed};
ghost use Rattle.sdbm_saves.specs.Disk.{Image};
ghost use Rattle.sdbm_saves.specs.Acts.{Act, write, resize, sync, clear, Notes};

use crate::ghost_image::GhostImage;
use crate::{Disk, DiskError, DiskFile, Part, ReadFiles};
use sdbm_addr::PageSize;
use std::alloc::Global;
use std::marker::PhantomData;

/// The bytes of the three files, which were read completely.
#[derive(Drop)]
pub struct Found {
    /// The bytes of `.pag`.
    pub pages: Vec<u8>,
    /// The bytes of `.dir`.
    pub directory: Vec<u8>,
    /// The bytes of the redo file.
    pub redo: Vec<u8>,
}

/// The files of a run that reads only one page.
#[derive(Clone, Copy)]
pub struct FoundPart<'a> {
    /// The bytes of `.dir`, the length of `.pag`, and the page that was read.
    pub part: Part<'a>,
    /// The page size.
    pub size: PageSize,
    /// The bytes of the redo file.
    pub redo: &'a [u8],
}

/// The three files, which were read piece by piece.
#[derive(Clone, Copy)]
pub struct FoundRead<'a> {
    /// The pages of `.pag` and the bytes of `.dir`.
    pub files: ReadFiles<'a, Global>,
    /// The bytes of the redo file.
    pub redo: &'a [u8],
}

/// The three files, as far as a run read them. Pages that were not read count as zeros. This is sound for plans of `plan_part`: a plan that
/// knows this image also knows every file with the bytes that were read.
pub trait Before {
    ghost image: { Self → Image };
}

impl Before for Found {
    ghost use Rattle.sdbm_saves.specs.Recording.{image_of};

    ghost image = { image_of };
}

impl Before for FoundRead<'_> {
    ghost use Rattle.sdbm_saves.specs.Recording.{read_image};

    ghost image = { read_image };
}

impl Before for GhostImage {
    ghost image = { λ noted. noted.image };
}

impl Before for FoundPart<'_> {
    ghost use Rattle.sdbm_saves.specs.Recording.{part_image};

    ghost image = { part_image };
}

/// The system calls on the three files, with a record of the calls that were begun and the syncs that succeeded. No contract specifies the
/// effect of a call on a file. The trusted assumption is that each call does what the `Disk` method of the same name specifies. A `CallLog`
/// can store the record.
pub trait Host {
    /// The calls, oldest first.
    ghost calls: { Self → List Act };

    /// Writes the bytes at an offset.
    fn write_at(&mut self, file: DiskFile, at: usize, bytes: &[u8]) -> Result<(), DiskError>
        ensures { Notes (write file at bytes.now) (calls self.old) (calls self.new) result };

    /// Truncates the file, or extends it with zeros.
    fn resize(&mut self, file: DiskFile, len: usize) -> Result<(), DiskError>
        ensures { Notes (resize file len) (calls self.old) (calls self.new) result };

    /// Makes the file's contents and its name durable.
    fn sync(&mut self, file: DiskFile) -> Result<(), DiskError>
        ensures { MatchResult result (λ _. calls self.new ≡ calls self.old ++ sync file ∷ []) (λ _. calls self.new ≡ calls self.old) };

    /// Removes the redo file.
    fn clear(&mut self) -> Result<(), DiskError>
        ensures { Notes clear (calls self.old) (calls self.new) result };

    /// Returns `true` if an empty redo file may stay.
    fn keeps_redo(&self) -> bool;
}

/// The images that a crash might have left before a run opened the files. No code can know these images, so functions are proved for every
/// `Past`.
pub trait Past {
    ghost may_leave: { Image → Type 0 };
}

/// The `Past` that programs use: a crash might have left any image.
pub struct Unknown;

impl Past for Unknown {
    ghost may_leave = { λ c. c ≡ c };
}

/// A disk of system files. After a call returned `Failed`, the disk makes no more calls.
#[derive(Drop)]
pub struct Recorded<H: Host, P: Past, F: Before> {
    host: H,
    found: F,
    failed: bool,
    past: PhantomData<P>,
}

impl<H: Host, P: Past, F: Before> Recorded<H, P, F> {
    /// Makes a disk of the three files that were read. `P` holds for the images that a crash might have left before. The bytes that were
    /// read need not be durable.
    pub fn new(host: H, found: F) -> Self
        requires { H.calls host ≡ [] }
        ensures seen { (⟦<Recorded<H, P, F> as Disk>⟧).seen result ≡ F.image found }
        ensures past { (c : Image) → (⟦<Recorded<H, P, F> as Disk>⟧).may_leave result c → P.may_leave c }
    {
        Recorded {
            host,
            found,
            failed: false,
            past: PhantomData,
        }
    }
}

fn has_failed(outcome: &Result<(), DiskError>) -> bool
    ensures { IsTrue result ↔ IsErrOf outcome.now Failed }
{
    match outcome {
        Err(DiskError::Failed) => true,
        Ok(()) | Err(DiskError::Memory) => false,
    }
}

impl<H: Host, P: Past, F: Before> Disk for Recorded<H, P, F> {
    ghost use Rattle.sdbm_saves.specs.Acts.{seen_after, LeftAfter, LeftSince, now_counts, only_the_last};

    ghost seen = { λ disk. seen_after (H.calls disk.host) (F.image disk.found) };

    ghost may_leave = { λ disk c. LeftAfter (H.calls disk.host) (F.image disk.found) P.may_leave c };

    ghost moment = { λ disk. length (H.calls disk.host) };

    ghost left_since = { λ disk t c. LeftSince (H.calls disk.host) (F.image disk.found) P.may_leave t c };

    ghost has_failed = { λ disk. IsTrue disk.failed };

    ghost counts_now = { λ disk t c later left. now_counts (H.calls disk.host) (F.image disk.found) P.may_leave t c later left };

    ghost only_now = { λ disk c left. only_the_last (H.calls disk.host) (F.image disk.found) P.may_leave c left };

    fn write_at(&mut self, file: DiskFile, at: usize, bytes: &[u8]) -> Result<(), DiskError> {
        if self.failed {
            return Err(DiskError::Failed);
        }
        let outcome = self.host.write_at(file, at, bytes);
        self.failed = has_failed(&outcome);
        outcome
    }

    fn resize(&mut self, file: DiskFile, len: usize) -> Result<(), DiskError> {
        if self.failed {
            return Err(DiskError::Failed);
        }
        let outcome = self.host.resize(file, len);
        self.failed = has_failed(&outcome);
        outcome
    }

    fn sync(&mut self, file: DiskFile) -> Result<(), DiskError> {
        if self.failed {
            return Err(DiskError::Failed);
        }
        let outcome = self.host.sync(file);
        self.failed = has_failed(&outcome);
        outcome
    }

    fn clear(&mut self) -> Result<(), DiskError> {
        if self.failed {
            return Err(DiskError::Failed);
        }
        let outcome = self.host.clear();
        self.failed = has_failed(&outcome);
        outcome
    }

    fn keeps_redo(&self) -> bool {
        self.host.keeps_redo()
    }
}
