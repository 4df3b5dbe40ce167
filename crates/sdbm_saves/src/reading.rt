// Plans a save from files that were read completely.
ghost use Rattle.std.specs.Prelude.{◌≡◌, ◌<◌, ◌≤◌, ◌^◌, ◌+◌, ◌*◌, ◌↔◌, ◌⊎◌, ℕ, List, length, IsTrue, IfOk, IfErr, IfSome, IsNone, OnOk};
ghost use Rattle.sdbm_saves.specs.declared.disk.DiskFile.TheVariants.{Pages};
ghost use Rattle.sdbm_saves.specs.declared.planning.SavePlanFault.TheVariants.{TooLong};
ghost use Rattle.sdbm_saves.specs.Drafts.{AreChanges, HasPut};
ghost use Rattle.sdbm_saves.specs.Saves.{AreFilesFor, ChangesNothing, IsSaving, IsTooLong};
ghost use Rattle.sdbm_addr.specs.Pairs.{page_bytes};
ghost use Rattle.sdbm_addr.specs.Database.{IsDatabase};
ghost use Rattle.sdbm_addr.specs.Files.{first_pages};
ghost use Rattle.sdbm_files.specs.Reading.{IsBlock};
ghost use Rattle.sdbm_saves.specs.OldPages.{bytes_in};

use crate::blocks::{draft_block, draft_bytes};
use crate::drafting::{Draft, assemble};
use crate::planning::LIMIT;
use crate::{Contents, DiskFile, SavePlanFault};
use sdbm_files::{BLOCK, Image, ReadPages};
use std::alloc::{AllocError, Allocator};

/// Both data files of a database, which were read completely.
#[derive(Clone, Copy)]
pub struct ReadFiles<'a, A: Allocator> {
    /// The pages of `.pag`.
    pub pages: &'a ReadPages<A>,
    /// The bytes of `.dir`.
    pub directory: &'a [u8],
}

/// Plans a save that turns the old files into the files that `Image::write` writes for the database. The plan has one change for each block
/// of 1,024 bytes that differs, first in the directory, then in the pages. Bytes past the end of a file count as zeros, so a page of zeros
/// is not written into a hole. Each change has its old bytes next to the new ones, so the plan knows the old files. Returns `None` if the
/// old files are already those of the database. Allocates the plan, up to three times while it is made.
///
/// # Errors
///
/// `TooLong` if an old or a new file has 2^32 bytes or more. `NoMemory` if allocation fails.
pub fn plan_read<A: Allocator + Copy>(
    alloc: A,
    old: ReadFiles<'_, A>,
    image: &Image<A>,
) -> Result<Option<Vec<u8, A>>, SavePlanFault>
    ensures plan { IfOk result (λ plan. IfSome plan (λ plan. IsSaving image.now plan.items old.entry.pages.now.bytes old.entry.directory.now)) }
    ensures none { IfOk result (λ plan. IsNone plan → AreFilesFor image.now old.entry.pages.now.bytes old.entry.directory.now) }
    ensures too_long { IfErr result (λ fault. fault ≡ TooLong → IsTooLong image.now old.entry.pages.now.bytes old.entry.directory.now) }
{
    plan_pages(alloc, OldPages::Read(old.pages), old.directory, image)
}

/// Like `plan_read`, for old files whose bytes are in memory.
///
/// # Errors
///
/// Those of `plan_read`.
pub fn plan_kept<A: Allocator + Copy>(
    alloc: A,
    old: Contents<'_>,
    image: &Image<A>,
) -> Result<Option<Vec<u8, A>>, SavePlanFault>
    ensures plan { IfOk result (λ plan. IfSome plan (λ plan. IsSaving image.now plan.items old.entry.pages.now old.entry.directory.now)) }
    ensures none { IfOk result (λ plan. IsNone plan → AreFilesFor image.now old.entry.pages.now old.entry.directory.now) }
    ensures too_long { IfErr result (λ fault. fault ≡ TooLong → IsTooLong image.now old.entry.pages.now old.entry.directory.now) }
{
    plan_pages(alloc, OldPages::Kept(old.pages), old.directory, image)
}

/// Makes a plan that changes neither file. Saving this plan in a new log sets the commit byte of the log before the first change.
///
/// # Errors
///
/// `TooLong` if a file has 2^32 bytes or more. `NoMemory` if allocation fails.
pub fn plan_nothing<A: Allocator + Copy>(
    alloc: A,
    old: ReadFiles<'_, A>,
) -> Result<Vec<u8, A>, SavePlanFault>
    ensures plan { IfOk result (λ plan. ChangesNothing plan.items old.entry.pages.now.bytes old.entry.directory.now) }
    ensures too_long { IfErr result (λ fault. fault ≡ TooLong → (2 ^ 32 ≤ length old.entry.pages.now.bytes) ⊎ (2 ^ 32 ≤ length old.entry.directory.now)) }
{
    let (pages, directory) = (old.pages.len(), old.directory.len());
    if pages >= LIMIT || directory >= LIMIT {
        return Err(SavePlanFault::TooLong);
    }
    let draft = Draft {
        pages,
        directory,
        changes: Vec::new(alloc),
        count: 0,
    };
    Ok(assemble(alloc, &draft, pages, directory)?)
}

// The old bytes of `.pag`: read piece by piece, or completely in memory.
#[derive(Clone, Copy)]
enum OldPages<'a, A: Allocator> {
    Read(&'a ReadPages<A>),
    Kept(&'a [u8]),
}

impl<'a, A: Allocator + Copy> OldPages<'a, A> {
    fn len(self) -> usize
        ensures { result ≡ length (bytes_in self.entry) }
    {
        match self {
            OldPages::Read(pages) => pages.len(),
            OldPages::Kept(bytes) => bytes.len(),
        }
    }

    // Borrows a block like `ReadPages::block`.
    fn block(self, index: usize) -> &'a [u8]
        requires { index ≤ 2 ^ 22 }
        ensures { IsBlock (bytes_in self.entry) index result.now }
    {
        match self {
            OldPages::Read(pages) => pages.block(index),
            OldPages::Kept(bytes) => block_in(bytes, index),
        }
    }
}

// Borrows a block of bytes in memory, like `OldPages::block`.
fn block_in(bytes: &[u8], index: usize) -> &[u8]
    requires { index ≤ 2 ^ 22 }
    ensures { IsBlock bytes.now index result.now }
{
    let tail = &bytes[(index * BLOCK).min(bytes.len())..];
    &tail[..tail.len().min(BLOCK)]
}

// Plans a save like `plan_read`, from either kind of old pages.
fn plan_pages<A: Allocator + Copy>(
    alloc: A,
    old: OldPages<'_, A>,
    old_directory: &[u8],
    image: &Image<A>,
) -> Result<Option<Vec<u8, A>>, SavePlanFault>
    ensures plan { IfOk result (λ plan. IfSome plan (λ plan. IsSaving image.now plan.items (bytes_in old.entry) old_directory.now)) }
    ensures none { IfOk result (λ plan. IsNone plan → AreFilesFor image.now (bytes_in old.entry) old_directory.now) }
    ensures too_long { IfErr result (λ fault. fault ≡ TooLong → IsTooLong image.now (bytes_in old.entry) old_directory.now) }
{
    let count = image.page_count();
    let pages = count as usize * image.page_size().bytes();
    let directory = image.directory_bytes();
    if old.len() >= LIMIT || old_directory.len() >= LIMIT {
        return Err(SavePlanFault::TooLong);
    }
    if pages >= LIMIT || directory.len() >= LIMIT {
        return Err(SavePlanFault::TooLong);
    }
    let mut draft = Draft {
        pages,
        directory: directory.len(),
        changes: Vec::new(alloc),
        count: 0,
    };
    draft_bytes(
        alloc,
        &mut draft,
        DiskFile::Directory,
        0,
        old_directory,
        directory,
    )?;
    draft_pages(alloc, &mut draft, old, image, count)?;
    if draft.count == 0 && are_long(old, old_directory, pages, directory.len()) {
        return Ok(None);
    }
    Ok(Some(assemble(alloc, &draft, old.len(), old_directory.len())?))
}

fn are_long<A: Allocator + Copy>(
    old: OldPages<'_, A>,
    old_directory: &[u8],
    pages: usize,
    directory: usize,
) -> bool
    ensures { IsTrue result ↔ (pages ≡ length (bytes_in old.entry)) × (directory ≡ length old_directory.now) }
{
    old.len() == pages && old_directory.len() == directory
}

// Adds the changes that write the first `count` pages of the database.
fn draft_pages<A: Allocator + Copy>(
    alloc: A,
    draft: &mut Draft<A>,
    old: OldPages<'_, A>,
    image: &Image<A>,
    count: u64,
) -> Result<(), AllocError>
    requires database { IsDatabase image.now }
    requires long { count * page_bytes image.now.size ≡ draft.old.pages }
    requires short { draft.old.pages < 2 ^ 32 }
    requires few { draft.old.count ≤ 2 ^ 23 }

    ensures put { OnOk result ((both : List ℕ × List ℕ) → both.0 ≡ bytes_in old.entry → AreChanges draft.old.pages draft.old.directory both draft.old.count draft.old.changes.items
        → HasPut draft.old.pages draft.old.directory both Pages 0 (bytes_in old.entry) (first_pages image.now count) draft.old.count draft.old.changes.items draft.new.count draft.new.changes.items) }
    ensures few { OnOk result (draft.new.count ≤ draft.old.count + 2 ^ 22) }
    ensures pages { OnOk result (draft.new.pages ≡ draft.old.pages) }
    ensures directory { OnOk result (draft.new.directory ≡ draft.old.directory) }
{
    let in_page = image.page_size().bytes() / BLOCK;
    let blocks = count as usize * in_page;
    for index in 0..blocks {
        let page = image.page_bytes((index / in_page) as u32);
        let start = index % in_page * BLOCK;
        let block = &page[start..start + BLOCK];
        draft_block(
            alloc,
            draft,
            DiskFile::Pages,
            index * BLOCK,
            old.block(index),
            block,
        )?;
    }
    Ok(())
}
