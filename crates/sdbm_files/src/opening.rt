//! Checks and conversions that open a database from the bytes of both files.
ghost use Rattle.std.specs.Prelude.{◌≡◌, ◌<◌, ◌↔◌, ℕ, IsTrue, IfOk, IfErr, IfSome, IfNone};
ghost use Rattle.sdbm_addr.specs.declared.PageSize.{PageSize};
ghost use Rattle.sdbm_addr.specs.DirectoryFile.{SpellsDirectory};
ghost use Rattle.sdbm_files.specs.Kept.{pages_of, pairs_under, AreSized};
ghost use Rattle.sdbm_files.specs.Opened.{IsFaultOfDir, LeadTo, IsFirstMisled};
ghost use Rattle.sdbm_files.specs.Reading.{AreLow};

use crate::pages::{Pages, put_page};
use crate::parsed::Numbered;
use sdbm_addr::{KeyBytes, hash, mask};
use sdbm_dir::{Dir, DirFault};
use sdbm_page::{Page, PageFault};
use std::alloc::{AllocError, Allocator};
use std::collections::HashMap;

/// The reason why the bytes of two files do not open as a database. The faults are tested in this order; a failed allocation ends the
/// tests.
#[derive(Clone, Copy, Debug, PartialEq, Eq)]
pub enum OpenFault {
    /// The length of `.pag` is not a multiple of the page size.
    PagLength,
    /// The lowest number of an invalid page, and the fault of this page. The fault is never `NoMemory`.
    Page(usize, PageFault),
    /// The bytes of `.dir` spell no directory. The fault is never `NoMemory`.
    Dir(DirFault),
    /// The lowest number of a page with a key that leads to another page.
    Misplaced(usize),
    /// Allocation fails.
    NoMemory,
}

/// Reads the bytes of a directory. The error is `Dir` with the fault of the bytes, or `NoMemory` if allocation fails.
pub fn read_dir<A: Allocator + Copy>(alloc: A, bytes: &[u8]) -> Result<Dir<A>, OpenFault>
    ensures dir { IfOk result (λ dir. SpellsDirectory bytes.now dir.splits) }
    ensures fault { IfErr result (IsFaultOfDir bytes.now) }
{
    match Dir::from_bytes(alloc, bytes) {
        Ok(dir) => Ok(dir),
        Err(DirFault::NoMemory) => Err(OpenFault::NoMemory),
        Err(fault) => Err(OpenFault::Dir(fault)),
    }
}

/// Like `read_dir`, but if `known` has these bytes, copies `known` instead of checking the bytes again.
pub fn reread_dir<A: Allocator + Copy>(
    alloc: A,
    known: &Dir<A>,
    bytes: &[u8],
) -> Result<Dir<A>, OpenFault>
    ensures dir { IfOk result (λ dir. SpellsDirectory bytes.now dir.splits) }
    ensures fault { IfErr result (IsFaultOfDir bytes.now) }
{
    if known.bytes() != bytes {
        return read_dir(alloc, bytes);
    }
    match known.try_clone(alloc) {
        Ok(dir) => Ok(dir),
        Err(_) => Err(OpenFault::NoMemory),
    }
}

/// Returns the lowest number, below `count`, of a page with a key that leads to another page, or `None` if there is no such page.
pub fn misplaced<A: Allocator>(
    dir: &Dir<A>,
    kind: KeyBytes,
    pages: &Numbered<A>,
    count: usize,
) -> Option<usize>
    ensures some { IfSome result (IsFirstMisled kind dir.now.splits pages.now.entries count) }
    ensures none { IfNone result ((n : ℕ) → n < count → LeadTo kind dir.now.splits n (pairs_under pages.now.entries n)) }
{
    for number in 0..count {
        if !leads_here(dir, kind, pages, number) {
            return Some(number);
        }
    }
    None
}

// Returns `true` if each key of page `number` leads to this page.
fn leads_here<A: Allocator>(
    dir: &Dir<A>,
    kind: KeyBytes,
    pages: &Numbered<A>,
    number: usize,
) -> bool
    ensures { IsTrue result ↔ LeadTo kind dir.now.splits number (pairs_under pages.now.entries number) }
{
    match pages.get(&number) {
        None => true,
        Some(page) => keys_lead(dir, kind, number, page.page()),
    }
}

/// Returns `true` if each key of a page leads to page `number`. The depth of the first key is the number of low hash bits that select the
/// page, so only these bits of the other hashes are compared.
pub fn keys_lead<A: Allocator>(dir: &Dir<A>, kind: KeyBytes, number: usize, page: &Page<A>) -> bool
    ensures { IsTrue result ↔ LeadTo kind dir.now.splits number page.now.pairs }
{
    if page.is_empty() {
        return true;
    }
    let place = dir.place(hash(page.key(0), kind));
    if place.page as usize != number {
        return false;
    }
    let lowest = mask(place.depth);
    for i in 1..page.len() {
        if hash(page.key(i), kind) & lowest != place.page {
            return false;
        }
    }
    true
}

/// Makes a map of the same pages under the same numbers, or returns an error if allocation fails. The pages are shared, not copied.
pub fn copy_pages<A: Allocator + Copy>(
    alloc: A,
    pages: &Numbered<A>,
) -> Result<Pages<A>, AllocError>
    requires { AreLow pages.now.entries }
    ensures pages { IfOk result (λ copy. pages_of copy.entries ≡ pages_of pages.now.entries) }
    ensures sizes { IfOk result (λ copy. (size : PageSize) → AreSized size pages.now.entries → AreSized size copy.entries) }
{
    let mut copy = HashMap::with_capacity(alloc, pages.len())?;
    for (number, page) in pages.iter() {
        let shared = page.try_clone()?;
        put_page(&mut copy, *number as u32, shared);
    }
    Ok(copy)
}
