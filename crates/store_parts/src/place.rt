//! The page to which a key leads, by the bytes of a directory that may be invalid.
ghost use Rattle.std.specs.Prelude.{◌≡◌, length};
ghost use Rattle.sdbm_addr.specs.Directory.{page_of, Splits};
ghost use Rattle.sdbm_addr.specs.DirectoryFile.{bit_of, SpellsDirectory};
ghost use Rattle.sdbm_addr.specs.Hash.{hash_of};
ghost use Rattle.sdbm_addr.specs.Pairs.{page_bytes};

use sdbm_addr::{KeyBytes, PageSize, child, hash, mask};
use sdbm_page::Page;
use std::alloc::Global;

/// Returns the number of the page to which a key leads by the bits of a directory. The bytes may be invalid; then no clause says which page it
/// is, and `open_part` checks that they are a directory and that the key leads there. Takes time linear in the depth of the place.
pub fn page_of(directory: &[u8], kind: KeyBytes, key: &[u8]) -> u32
    ensures { (splits : Splits) → SpellsDirectory directory.now splits → result ≡ page_of splits (hash_of kind key.now) }
{
    let hash = hash(key, kind);
    let mut bit = 0;
    for depth in 0..31 {
        if !is_set(directory, bit) {
            return hash & mask(depth);
        }
        bit = child(bit, (hash >> depth) & 1 == 1);
    }
    hash & mask(31)
}

// Returns `true` if the bit is set. Bits past the end are not set.
fn is_set(bytes: &[u8], bit: u32) -> bool
    ensures { result ≡ bit_of bytes.now bit }
{
    match bytes.get(bit as usize / 8) {
        Some(byte) => (*byte >> (bit % 8)) & 1 == 1,
        None => false,
    }
}

/// Returns `true` if a page has pairs and each of its keys leads to it by the bits of a directory. This detects a directory
/// that was lost or belongs to another database. Returns `false` also if the page is invalid or allocation fails.
pub fn has_own_pairs(
    alloc: Global,
    directory: &[u8],
    kind: KeyBytes,
    size: PageSize,
    number: u32,
    page: &[u8],
) -> bool
    requires { length page.now ≡ page_bytes size }
{
    let Ok(page) = Page::from_bytes(alloc, page, size) else {
        return false;
    };
    for i in 0..page.len() {
        if page_of(directory, kind, page.key(i)) != number {
            return false;
        }
    }
    !page.is_empty()
}
