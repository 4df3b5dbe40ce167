//! Opens the page of a key as a database, and plans its save.
ghost use Rattle.std.specs.Prelude.{◌≡◌, ◌≢◌, ◌%◌, ℕ, [], length, Contains, IfOk, IfSome, true, false};
ghost use Rattle.sdbm_addr.specs.Pairs.{page_bytes};
ghost use Rattle.sdbm_addr.specs.Database.{pairs_at};
ghost use Rattle.store_parts.specs.Parts.{EndsWithPairs, IsOpenedPage, IsOpenedPart, IsPlannedPart};

use sdbm_addr::{KeyBytes, PageSize};
use sdbm_files::{Image, PAG_LIMIT};
use sdbm_saves::{Part, plan_part};
use std::alloc::{AllocError, Global};

/// Opens the page that was read as a database. Returns `None` if the page is not the key's, if the directory or the page is
/// invalid or not as a save leaves it, or if allocation fails.
pub fn open_part(
    alloc: Global,
    key: &[u8],
    part: Part<'_>,
    kind: KeyBytes,
    size: PageSize,
) -> Option<Image<Global>>
    requires page { length part.page.now ≡ page_bytes size }
    ensures { IfSome result (IsOpenedPart key.now part.entry kind size) }
{
    open_next_part(&Image::empty(alloc, kind, size), key, part)
}

/// Like `open_part`, with the way of hashing keys and the page size of `known`. If the directory is that of `known`, copies it
/// instead of checking it again.
pub fn open_next_part(known: &Image<Global>, key: &[u8], part: Part<'_>) -> Option<Image<Global>>
    requires page { length part.page.now ≡ page_bytes known.now.size }
    ensures { IfSome result (IsOpenedPart key.now part.entry known.now.kind known.now.size) }
{
    let image = opened_page(known, part)?;
    if image.place(key).page != part.number {
        return None;
    }
    let is_own = image.page_bytes(part.number) == part.page;
    if !is_own || image.directory_bytes() != part.directory {
        return None;
    }
    Some(image)
}

// Opens the page that was read as a database.
fn opened_page(known: &Image<Global>, part: Part<'_>) -> Option<Image<Global>>
    requires page { length part.page.now ≡ page_bytes known.now.size }
    ensures { IfSome result (IsOpenedPage part.entry known.now.kind known.now.size) }
{
    let Ok(opened) = known.reopen_page(part.directory, part.number, part.page) else {
        return None;
    };
    opened
}

/// Plans the save of `after`, the database of `open_part` after a command. Returns the numbers of the pages that the plan may
/// write, and the plan (`None` if the files do not change). In the file, these pages must be zeros, except the page that was
/// read. Returns `None` if allocation fails or if one page is not enough: the page that was read is the last of the file and
/// has no pairs, or `.pag` would exceed `PAG_LIMIT`.
pub fn plan_after(
    alloc: Global,
    part: Part<'_>,
    after: &Image<Global>,
) -> Option<(Vec<u32>, Option<Vec<u8>>)>
    requires page { length part.page.now ≡ page_bytes after.now.size }
    requires whole { part.len % page_bytes after.now.size ≡ 0 }
    ensures { IfSome result (λ planned. IsPlannedPart part.entry after.now planned.0.items planned.1) }
{
    if after.pag_len() > PAG_LIMIT || ends_bare(part, after) {
        return None;
    }
    let Ok(numbers) = numbers_of(part.number, after) else {
        return None;
    };
    let Ok(plan) = plan_part(alloc, part, numbers.as_slice(), after) else {
        return None;
    };
    Some((numbers, plan))
}

// Returns `true` if the page that was read is the last of the file and has no pairs.
fn ends_bare(part: Part<'_>, after: &Image<Global>) -> bool
    ensures { result ≡ false → EndsWithPairs part.entry after.now }
{
    let pages = part.len / after.page_size().bytes();
    pages == part.number as usize + 1 && !after.has_pairs(part.number)
}

// Returns the number of the page that was read, and the numbers of all pages with pairs.
fn numbers_of(number: u32, after: &Image<Global>) -> Result<Vec<u32>, AllocError>
    ensures first { IfOk result (λ numbers. Contains numbers.items number) }
    ensures covers { IfOk result (λ numbers. (n : ℕ) → pairs_at after.now n ≢ [] → Contains numbers.items n) }
{
    let mut numbers = after.page_numbers()?;
    if after.has_pairs(number) {
        return Ok(numbers);
    }
    numbers.insert(0, number)?;
    Ok(numbers)
}
