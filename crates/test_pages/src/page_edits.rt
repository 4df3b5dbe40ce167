//! Edits of a page that first check their conditions.

use sdbm_addr::PageSize;
use sdbm_page::Page;
use std::alloc::{AllocError, Allocator};

/// Adds a pair if it fits on the page. Returns `true` if the pair was added.
pub fn add_if_room<A: Allocator + Copy>(page: &mut Page<A>, key: &[u8], value: &[u8]) -> bool {
    let limit = page.page_size().pair_limit();
    if key.len() > limit || value.len() > limit - key.len() {
        return false;
    }
    if !page.fits(key.len() + value.len()) || page.find(key).is_some() {
        return false;
    }
    page.add(key, value);
    true
}

/// An empty page.
pub fn empty_page<A: Allocator>(alloc: A, size: PageSize) -> Result<Page<A>, AllocError> {
    Page::empty(alloc, size)
}

/// Returns `true` if `count` more bytes fit.
pub fn has_room<A: Allocator>(page: &Page<A>, count: usize) -> bool {
    page.fits(count)
}

/// The index of a key's pair.
pub fn place_of<A: Allocator>(page: &Page<A>, key: &[u8]) -> Option<usize> {
    page.find(key)
}

/// Removes the pair at an index. Returns `false` if there is no such pair.
pub fn take_out<A: Allocator>(page: &mut Page<A>, i: usize) -> bool {
    if i >= page.len() {
        return false;
    }
    page.remove(i);
    true
}
