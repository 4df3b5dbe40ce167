// Plans a save if only one page of `.pag` was read.
ghost use Rattle.std.specs.Prelude.{◌≡◌, ◌≢◌, ◌<◌, ◌≤◌, ◌^◌, ◌+◌, ◌*◌, ◌%◌, ◌↔◌, ◌⊎◌, ℕ, List, [], length, get_or, Contains, IsTrue, IfOk, IfErr, IfSome, IsNone, OnOk};
ghost use Rattle.sdbm_saves.specs.declared.disk.DiskFile.TheVariants.{Pages};
ghost use Rattle.sdbm_saves.specs.declared.planning.SavePlanFault.TheVariants.{TooLong};
ghost use Rattle.sdbm_saves.specs.Redo.{replayed, IsPlan, Knows};
ghost use Rattle.sdbm_saves.specs.Drafts.{AreChanges};
ghost use Rattle.sdbm_saves.specs.Saves.{AreFilesFor, IsSaving, IsTooLong};
ghost use Rattle.sdbm_saves.specs.Parts.{HasPutPages, IsReadSo, IsPartOf, ReadPages};
ghost use Rattle.sdbm_addr.specs.Pairs.{page_bytes};
ghost use Rattle.sdbm_addr.specs.Database.{Database, IsDatabase, pairs_at};

use crate::blocks::draft_bytes;
use crate::drafting::{Draft, assemble};
use crate::plan::resized;
use crate::planning::LIMIT;
use crate::{DiskFile, SavePlanFault};
use sdbm_files::Image;
use std::alloc::{AllocError, Allocator};

/// The number of small pages in 2^32 bytes. A list of more pages is too long.
pub(crate) const MOST: usize = 4194304;

/// The bytes of a database's files that are known if only one page was read. Bytes past the end of `.pag` count as zeros.
#[derive(Clone, Copy)]
pub struct Part<'a> {
    /// The bytes of `.dir`.
    pub directory: &'a [u8],
    /// The length of `.pag` in bytes.
    pub len: usize,
    /// The number of the page that was read.
    pub number: u32,
    /// The bytes of that page.
    pub page: &'a [u8],
}

/// Plans a save if only one page was read. The plan changes only the listed pages and the directory. Before the save, each listed page is
/// the page that was read, or all zeros. Each changed block of 1,024 bytes is one change. `.pag` grows if necessary and never shrinks. Each
/// change has its old bytes next to the new ones, so the plan knows the old files. Returns `None` if nothing changes. Allocates two copies
/// of the plan, and the listed pages.
///
/// # Errors
///
/// `TooLong` if a file has, or would have, 2^32 bytes or more, or if the list has more pages than a file of 2^32 bytes. `NoMemory` if
/// allocation fails.
pub fn plan_part<A: Allocator + Copy>(
    alloc: A,
    old: Part<'_>,
    numbers: &[u32],
    image: &Image<A>,
) -> Result<Option<Vec<u8, A>>, SavePlanFault>
    requires page { length old.page.now ≡ page_bytes image.now.size }
    requires whole { old.len % page_bytes image.now.size ≡ 0 }
    requires covers { (n : ℕ) → pairs_at image.now n ≢ [] → Contains numbers.now n }

    ensures plan { IfOk result (λ plan. IfSome plan (λ plan. (db : Database) (pag : List ℕ) → IsPartOf old.entry numbers.now image.now db pag → IsSaving db plan.items pag old.entry.directory.now)) }
    ensures none { IfOk result (λ plan. IsNone plan → (db : Database) (pag : List ℕ) → IsPartOf old.entry numbers.now image.now db pag → AreFilesFor db pag old.entry.directory.now) }
    ensures too_long { IfErr result (λ fault. fault ≡ TooLong → (2 ^ 22 < length numbers.now) ⊎ ((db : Database) (pag : List ℕ) → IsPartOf old.entry numbers.now image.now db pag → IsTooLong db pag old.entry.directory.now)) }
    ensures whole { IfOk result (λ plan. IfSome plan (λ plan. IsPlan plan.items × ((pag : List ℕ) → IsReadSo old.entry numbers.now image.now.size pag → Knows plan.items (pag, old.entry.directory.now)))) }
{
    let pages = old.len.max(image.pag_len() as usize);
    let directory = image.directory_bytes();
    if pages >= LIMIT || directory.len() >= LIMIT {
        return Err(SavePlanFault::TooLong);
    }
    if old.directory.len() >= LIMIT || numbers.len() > MOST {
        return Err(SavePlanFault::TooLong);
    }
    let mut draft = Draft {
        pages,
        directory: directory.len(),
        changes: Vec::new(alloc),
        count: 0,
    };
    draft_bytes(
        alloc,
        &mut draft,
        DiskFile::Directory,
        0,
        old.directory,
        directory,
    )?;
    let were = pages_before(alloc, old, numbers, image.page_size().bytes())?;
    draft_parts(alloc, &mut draft, numbers, were.as_slice(), image)?;
    if draft.count == 0 && is_long(old, pages, directory.len()) {
        return Ok(None);
    }
    Ok(Some(assemble(alloc, &draft, old.len, old.directory.len())?))
}

fn is_long(old: Part<'_>, pages: usize, directory: usize) -> bool
    ensures { IsTrue result ↔ (pages ≡ old.entry.len) × (directory ≡ length old.entry.directory.now) }
{
    old.len == pages && old.directory.len() == directory
}

// Returns the old bytes of the listed pages, concatenated: those of the page that was read, and zeros for all other pages.
fn pages_before<A: Allocator + Copy>(
    alloc: A,
    old: Part<'_>,
    numbers: &[u32],
    size: usize,
) -> Result<Vec<u8, A>, AllocError>
    requires page { length old.page.now ≡ size }
    ensures long { IfOk result (λ pages. length pages.items ≡ length numbers.now * size) }
    ensures own { IfOk result (λ pages. (j i : ℕ) → j < length numbers.now → i < size → get_or numbers.now j 0 ≡ old.entry.number → get_or pages.items (j * size + i) 0 ≡ get_or old.entry.page.now i 0) }
    ensures others { IfOk result (λ pages. (j i : ℕ) → j < length numbers.now → i < size → get_or numbers.now j 0 ≢ old.entry.number → get_or pages.items (j * size + i) 0 ≡ 0) }
{
    let zeros = resized(alloc, &[], size)?;
    let mut pages = Vec::new(alloc);
    for index in 0..numbers.len() {
        pages.extend_from_slice(page_before(old, numbers[index], zeros.as_slice()))?;
    }
    Ok(pages)
}

// Returns the old bytes of page `number`: the page that was read, or zeros.
fn page_before<'a>(old: Part<'a>, number: u32, zeros: &'a [u8]) -> &'a [u8]
    ensures own { number ≡ old.entry.number → result.now ≡ old.entry.page.now }
    ensures other { number ≢ old.entry.number → result.now ≡ zeros.entry.now }
{
    if number == old.number {
        return old.page;
    }
    zeros
}

// Adds the changes that write the listed pages. The draft must not change any page yet. Pages past the end of the new file are skipped.
pub(crate) fn draft_parts<A: Allocator + Copy>(
    alloc: A,
    draft: &mut Draft<A>,
    numbers: &[u32],
    pages: &[u8],
    image: &Image<A>,
) -> Result<(), AllocError>
    requires long { length pages.now ≡ length numbers.now * page_bytes image.now.size }
    requires database { IsDatabase image.now }
    requires short { draft.old.pages < 2 ^ 32 }
    requires few { draft.old.count + 8 * length numbers.now < 2 ^ 32 }

    ensures put { OnOk result ((both : List ℕ × List ℕ) → ReadPages image.now.size numbers.now pages.now both.0 → ((x : List ℕ) → replayed Pages draft.old.count draft.old.changes.items x ≡ x)
        → AreChanges draft.old.pages draft.old.directory both draft.old.count draft.old.changes.items
        → HasPutPages image.now numbers.now draft.old.pages draft.old.directory both draft.old.count draft.old.changes.items draft.new.count draft.new.changes.items) }
    ensures few { OnOk result (draft.new.count ≤ draft.old.count + 8 * length numbers.now) }
    ensures pages { OnOk result (draft.new.pages ≡ draft.old.pages) }
    ensures directory { OnOk result (draft.new.directory ≡ draft.old.directory) }
{
    let size = image.page_size().bytes();
    for index in 0..numbers.len() {
        let number = numbers[index];
        let start = index * size;
        let at = number as usize * size;
        if at + size <= draft.pages {
            let page = image.page_bytes(number);
            draft_bytes(
                alloc,
                draft,
                DiskFile::Pages,
                at,
                &pages[start..start + size],
                page,
            )?;
        }
    }
    Ok(())
}
