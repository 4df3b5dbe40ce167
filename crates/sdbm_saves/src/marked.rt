// Plans a save from the pages that may have changed.
ghost use Rattle.std.specs.Prelude.{◌≡◌, ◌<◌, ◌^◌, ◌*◌, ◌⊎◌, ℕ, List, length, IfOk, IfErr, IfSome, IsNone};
ghost use Rattle.sdbm_saves.specs.declared.planning.SavePlanFault.TheVariants.{TooLong};
ghost use Rattle.sdbm_saves.specs.Saves.{AreFilesFor, IsSaving, IsTooLong};
ghost use Rattle.sdbm_saves.specs.Parts.{IsMarkedIn};
ghost use Rattle.sdbm_addr.specs.Pairs.{page_bytes};

use crate::blocks::draft_bytes;
use crate::counting::count_marked;
use crate::drafting::{Draft, assemble};
use crate::part::{MOST, draft_parts};
use crate::planning::LIMIT;
use crate::{DiskFile, SavePlanFault};
use sdbm_files::Image;
use std::alloc::Allocator;

/// The old bytes that a save needs if the pages that may have changed since the last read or save are known.
#[derive(Clone, Copy)]
pub struct Marked<'a> {
    /// The bytes of `.dir`.
    pub directory: &'a [u8],
    /// The length of `.pag` in bytes.
    pub len: usize,
    /// Numbers of the pages that may have changed.
    pub numbers: &'a [u32],
    /// The bytes of these pages in the file, concatenated. A byte past the end of the file counts as zero.
    pub pages: &'a [u8],
}

/// Plans a save for a database that differs from its files only on the listed pages and in the directory. Compares only these pages and
/// the directory. If the numbers ascend, the plan equals that of `plan_read`. Returns `None` if the files are already those of the
/// database. Allocates the plan, up to three times while it is made.
///
/// # Errors
///
/// `TooLong` if a file has, or would have, 2^32 bytes or more, or if the list has more pages than a file of 2^32 bytes. `NoMemory` if
/// allocation fails.
pub fn plan_marked<A: Allocator + Copy>(
    alloc: A,
    old: Marked<'_>,
    image: &Image<A>,
) -> Result<Option<Vec<u8, A>>, SavePlanFault>
    requires pages { length old.pages.now ≡ length old.numbers.now * page_bytes image.now.size }

    ensures plan { IfOk result (λ plan. IfSome plan (λ plan. (pag : List ℕ) → IsMarkedIn old.entry image.now pag → IsSaving image.now plan.items pag old.entry.directory.now)) }
    ensures none { IfOk result (λ plan. IsNone plan → (pag : List ℕ) → IsMarkedIn old.entry image.now pag → AreFilesFor image.now pag old.entry.directory.now) }
    ensures too_long { IfErr result (λ fault. fault ≡ TooLong → (2 ^ 22 < length old.entry.numbers.now) ⊎ ((pag : List ℕ) → IsMarkedIn old.entry image.now pag → IsTooLong image.now pag old.entry.directory.now)) }
{
    let count = count_marked(old, image);
    let pages = count as usize * image.page_size().bytes();
    let directory = image.directory_bytes();
    if pages >= LIMIT || directory.len() >= LIMIT {
        return Err(SavePlanFault::TooLong);
    }
    if old.len >= LIMIT || old.directory.len() >= LIMIT {
        return Err(SavePlanFault::TooLong);
    }
    if old.numbers.len() > MOST {
        return Err(SavePlanFault::TooLong);
    }
    let mut draft = Draft {
        pages,
        directory: directory.len(),
        changes: Vec::new(alloc),
        count: 0,
    };
    draft_bytes(
        alloc,
        &mut draft,
        DiskFile::Directory,
        0,
        old.directory,
        directory,
    )?;
    draft_parts(alloc, &mut draft, old.numbers, old.pages, image)?;
    if draft.count == 0 && old.len == pages && old.directory.len() == directory.len() {
        return Ok(None);
    }
    Ok(Some(assemble(alloc, &draft, old.len, old.directory.len())?))
}
