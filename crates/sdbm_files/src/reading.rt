//! Reads the pages of a `.pag` file in pieces.
ghost use Rattle.std.specs.Prelude.{◌≡◌, ◌+◌, ◌%◌, ◌^◌, ◌<◌, ◌≤◌, ◌↔◌, ℕ, [], length, get_or, IsTrue, IfOk, OnOk, OnErr};
ghost use Rattle.sdbm_addr.specs.Pairs.{page_bytes};
ghost use Rattle.sdbm_addr.specs.Files.{page_at};

use crate::ghost_bytes::GhostBytes;
use crate::parsed::Parsed;
use sdbm_addr::PageSize;
use std::alloc::{AllocError, Allocator};
use std::marker::Model;

/// The size of a block in bytes. A save compares `.pag` with the new pages block by block.
pub const BLOCK: usize = 1024;

/// The part of a `.pag` file that was read so far. The model is the page size and all bytes that were read. A `ReadPages` stores the pages
/// with pairs, the bytes of unparsed and of non-canonical pages, and the bytes after the last whole page. Pages of zeros, such as a hole,
/// take no memory. `Image::open_read` makes a database that shares these pages.
#[derive(Drop)]
pub struct ReadPages<A: Allocator> {
    alloc: A,
    pub(crate) size: PageSize,
    pub(crate) len: usize,
    pub(crate) parsed: Parsed<A>,
    rest: Vec<u8, A>,
    pub(crate) told: GhostBytes,
}

impl<A: Allocator> Model for ReadPages<A> {
    ghost use Rattle.sdbm_files.specs.Reading.{PagRead, IsReadAs, raw_under};

    ghost Value = { PagRead };

    ghost view = { λ a. record { size = a.size; bytes = a.told.bytes } };

    ghost invariant = { λ a. IsReadAs a.size a.len a.parsed.pages.entries (raw_under a.parsed.raw.entries) a.parsed.count a.parsed.bad a.rest.items a.told.bytes };
}

impl<A: Allocator + Copy> ReadPages<A> {
    ghost use Rattle.sdbm_files.specs.Reading.{with_piece, IsPartlyRead, IsBlock};

    /// Makes an empty `ReadPages`. Does not allocate.
    pub fn new(alloc: A, size: PageSize) -> Self
        ensures { result ≡ record { size = size; bytes = [] } }
    {
        ReadPages {
            alloc,
            size,
            len: 0,
            parsed: Parsed::new(alloc),
            rest: Vec::new(alloc),
            told: GhostBytes::none(),
        }
    }

    /// Returns the page size.
    pub fn page_size(&self) -> PageSize
        ensures { result ≡ self.now.size }
    {
        self.size
    }

    /// Returns the number of bytes that were read.
    pub fn len(&self) -> usize
        ensures { result ≡ length self.now.bytes }
    {
        self.len
    }

    /// Returns `true` if nothing was read.
    pub fn is_empty(&self) -> bool
        ensures { IsTrue result ↔ (length self.now.bytes ≡ 0) }
    {
        self.len == 0
    }

    /// Returns `true` if the bytes that were read are a whole number of pages.
    pub fn is_whole(&self) -> bool
        ensures { IsTrue result ↔ (length self.now.bytes % page_bytes self.now.size ≡ 0) }
    {
        self.len % self.size.bytes() == 0
    }

    /// Reads the next piece of the file. The bytes read before must be whole pages. Allocates memory for pages with pairs, for the bytes of
    /// unparsed and of non-canonical pages, and for the bytes after the last whole page, but not for pages of zeros.
    ///
    /// # Errors
    /// `AllocError` if allocation fails. Some pages at the start of the piece may then be read already.
    pub fn push(&mut self, piece: &[u8]) -> Result<(), AllocError>
        requires whole { length self.old.bytes % page_bytes self.old.size ≡ 0 }
        requires short { length self.old.bytes + length piece.now < 2 ^ 63 }
        ensures ok { OnOk result (self.new ≡ with_piece self.old piece.now) }
        ensures err { OnErr result (IsPartlyRead self.old piece.now self.new) }
    {
        let size = self.size.bytes();
        let count = piece.len() / size;
        for index in 0..count {
            let at = index * size;
            self.push_page(&piece[at..at + size])?;
        }
        self.push_rest(&piece[count * size..])
    }

    // Reads one page. If allocation fails, nothing is read.
    fn push_page(&mut self, page: &[u8]) -> Result<(), AllocError>
        requires whole { length self.old.bytes % page_bytes self.old.size ≡ 0 }
        requires short { length self.old.bytes + length page.now < 2 ^ 63 }
        requires page { length page.now ≡ page_bytes self.old.size }
        ensures ok { OnOk result (self.new ≡ with_piece self.old page.now) }
        ensures err { OnErr result (self.new ≡ self.old) }
    {
        let number = self.len / self.size.bytes();
        self.parsed.take(self.alloc, number, page, self.size)?;
        self.told = self.told.more(page);
        self.len += page.len();
        Ok(())
    }

    // Reads the bytes after the last whole page. If allocation fails, nothing is read.
    fn push_rest(&mut self, rest: &[u8]) -> Result<(), AllocError>
        requires whole { length self.old.bytes % page_bytes self.old.size ≡ 0 }
        requires short { length self.old.bytes + length rest.now < 2 ^ 63 }
        requires rest { length rest.now < page_bytes self.old.size }
        ensures ok { OnOk result (self.new ≡ with_piece self.old rest.now) }
        ensures err { OnErr result (self.new ≡ self.old) }
    {
        self.rest.extend_from_slice(rest)?;
        self.told = self.told.more(rest);
        self.len += rest.len();
        Ok(())
    }

    /// Borrows block `index` of the file, the 1,024 bytes from byte `1024 * index` on, for a comparison with another file. At the end of
    /// the file a block may be shorter, or empty; the missing bytes count as zeros. Does not allocate.
    pub fn block(&self, index: usize) -> &[u8]
        ensures { IsBlock self.now.bytes index result.now }
    {
        let blocks = self.size.bytes() / BLOCK;
        part(self.page(index / blocks), index % blocks * BLOCK)
    }

    /// Copies all bytes that were read, for parsing with the other page size.
    ///
    /// # Errors
    /// `AllocError` if allocation fails.
    pub fn to_vec(&self, alloc: A) -> Result<Vec<u8, A>, AllocError>
        ensures { IfOk result (λ copy. copy.items ≡ self.now.bytes) }
    {
        let mut copy = Vec::with_capacity(alloc, self.len)?;
        for number in 0..self.len.div_ceil(self.size.bytes()) {
            copy.extend_from_slice(self.page(number))?;
        }
        Ok(copy)
    }

    // Borrows the bytes of page `number` that were read so far.
    fn page(&self, number: usize) -> &[u8]
        ensures { result.now ≡ page_at self.now.size self.now.bytes number }
    {
        let whole = self.len / self.size.bytes();
        if number < whole {
            return self.parsed.bytes(number, self.size);
        }
        if number == whole {
            return self.rest.as_slice();
        }
        &[]
    }
}

// Borrows the bytes from `start` on, but at most one block.
fn part(bytes: &[u8], start: usize) -> &[u8]
    ensures short { length result.now ≤ 1024 }
    ensures reads { (i : ℕ) → i < 1024 → get_or result.now i 0 ≡ get_or bytes.now (start + i) 0 }
{
    let tail = &bytes[start.min(bytes.len())..];
    &tail[..tail.len().min(BLOCK)]
}
