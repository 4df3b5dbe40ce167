//! Detects databases with pages of 1,024 bytes that are opened with pages of 8,192 bytes. The files do not record their page size, and
//! eight small pages can happen to read as one valid wide page.
#![tactic(auto)]

ghost use Rattle.std.specs.Prelude.{◌≡◌, ◌<◌, ◌≤◌, ◌↔◌, ◌+◌, ◌*◌, length, false, IsTrue, IfOk, get_or};
ghost use Rattle.sdbm_addr.specs.declared.PageSize.TheVariants.{Small, Wide};
ghost use Rattle.sdbm_addr.specs.Files.{page_at};
ghost use Rattle.sdbm_addr.specs.Pairs.{page_bytes};
ghost use Rattle.sdbm_page.specs.Faults.{SpellsNone};
ghost use Rattle.sdbm_files.specs.Limits.{most_pages, pag_limit};
ghost use Rattle.sdbm_sizes.specs.Sizes.{FileLooksSmall, IsSmallPart, IsWritten, LooksSmall, SpellsNoSmall};

mod copying;

use copying::copy_page;
use sdbm_addr::{KeyBytes, PageSize};
use sdbm_files::{Image, ReadPages};
use sdbm_page::{Page, PageFault};
use std::alloc::{AllocError, Allocator};

// The sizes in bytes of a small page and of a wide page.
const SMALL: usize = 1024;

const WIDE: usize = 8192;

/// The number of wide pages in the longest `.pag`.
pub const MOST_PAGES: usize = 131_072;

/// Returns `true` if a wide page looks small: it is not all zeros, and its first 1,024 bytes are a page of some database with small pages
/// and this directory. A wide page that this store wrote looks small only if its first key has at least 7,168 bytes.
///
/// # Errors
/// `AllocError` if allocation fails.
pub fn page_looks_small<A: Allocator + Copy>(
    alloc: A,
    dir: &[u8],
    kind: KeyBytes,
    number: u32,
    page: &[u8],
) -> Result<bool, AllocError>
    requires long { length page.now ≡ page_bytes Wide }
    requires low { number < most_pages Wide }
    ensures { IfOk result (λ small. IsTrue small ↔ LooksSmall kind dir.now number page.now) }
{
    if !is_written(page) {
        return Ok(false);
    }
    let (first, _rest) = page.split_at(SMALL);
    is_small_part(alloc, dir, kind, 8 * number, first)
}

// Returns `true` if some database with small pages has this directory and this page. Tests the page first: a wide page seldom reads as a
// small page, so the directory is seldom read.
fn is_small_part<A: Allocator + Copy>(
    alloc: A,
    dir: &[u8],
    kind: KeyBytes,
    number: u32,
    page: &[u8],
) -> Result<bool, AllocError>
    requires { length page.now ≡ page_bytes Small }
    ensures { IfOk result (λ small. IsTrue small ↔ IsSmallPart kind dir.now number page.now) }
{
    if !is_small_page(alloc, page)? {
        return Ok(false);
    }
    let Some(_image) = Image::open_page(alloc, dir, number, page, kind, PageSize::Small)? else {
        return Ok(false);
    };
    Ok(true)
}

// Returns `true` if the bytes can be read as a small page.
fn is_small_page<A: Allocator + Copy>(alloc: A, page: &[u8]) -> Result<bool, AllocError>
    requires { length page.now ≡ page_bytes Small }
    ensures { IfOk result (λ small. small ≡ false → SpellsNone Small page.now) }
{
    let Err(fault) = Page::from_bytes(alloc, page, PageSize::Small) else {
        return Ok(true);
    };
    match fault {
        PageFault::NoMemory => Err(AllocError),
        _ => Ok(false),
    }
}

/// Returns `true` if the first wide page of a `.pag` that is not all zeros looks small. The result is `true` for every database with small
/// pages and at most 1 GiB, unless all whole wide pages of its `.pag` are zeros.
///
/// # Errors
/// `AllocError` if allocation fails.
pub fn bytes_look_small<A: Allocator + Copy>(
    alloc: A,
    dir: &[u8],
    kind: KeyBytes,
    pag: &[u8],
) -> Result<bool, AllocError>
    ensures is { IfOk result (λ small. IsTrue small ↔ FileLooksSmall kind dir.now pag.now) }
    ensures none { IfOk result (λ small. small ≡ false → SpellsNoSmall kind dir.now pag.now) }
{
    for number in 0..pages_in(pag.len()) {
        let page = &pag[number * WIDE..(number + 1) * WIDE];
        if is_written(page) {
            return page_looks_small(alloc, dir, kind, number as u32, page);
        }
    }
    Ok(false)
}

/// Like `bytes_look_small`, for a `.pag` that was read in pieces.
///
/// # Errors
/// `AllocError` if allocation fails.
pub fn pages_look_small<A: Allocator + Copy>(
    alloc: A,
    dir: &[u8],
    kind: KeyBytes,
    pag: &ReadPages<A>,
) -> Result<bool, AllocError>
    ensures is { IfOk result (λ small. IsTrue small ↔ FileLooksSmall kind dir.now pag.now.bytes) }
    ensures none { IfOk result (λ small. small ≡ false → SpellsNoSmall kind dir.now pag.now.bytes) }
{
    for number in 0..pages_in(pag.len()) {
        let page = copy_page(alloc, pag, number)?;
        if is_written(page.as_slice()) {
            return page_looks_small(alloc, dir, kind, number as u32, page.as_slice());
        }
    }
    Ok(false)
}

// Returns the number of whole wide pages in a file of `len` bytes, but at most `MOST_PAGES`.
fn pages_in(len: usize) -> usize
    ensures inside { result * 8192 ≤ len }
    ensures low { result ≤ most_pages Wide }
    ensures most { result < most_pages Wide → len < (result + 1) * 8192 }
    ensures all { len ≤ pag_limit → len < (result + 1) * 8192 }
{
    (len / WIDE).min(MOST_PAGES)
}

// Returns `true` if some byte is nonzero.
fn is_written(bytes: &[u8]) -> bool
    ensures { IsTrue result ↔ IsWritten bytes.now }
{
    for byte in bytes {
        if *byte != 0 {
            return true;
        }
    }
    false
}
