//! Storage for the bytes of a page. A small page stores its bytes inline, so reading the page needs no second memory access; a wide page
//! stores its bytes in a separate allocation.
ghost use Rattle.std.specs.Prelude.{◌≡◌, ◌≤◌, length, replicate, slice_range, IfOk};
ghost use Rattle.std.specs.Borrow.{sem};
ghost use Rattle.sdbm_addr.specs.Pairs.{page_bytes};
ghost use Rattle.sdbm_page.specs.Held.{held_items};

use crate::small::SmallBytes;
use sdbm_addr::PageSize;
use std::alloc::{AllocError, Allocator};

/// The bytes of a page.
#[derive(Drop)]
pub enum Held<A: Allocator> {
    /// The bytes of a small page, inline.
    Small(SmallBytes),
    /// The bytes of a wide page.
    Wide(Vec<u8, A>),
}

impl<A: Allocator> Held<A> {
    ghost use Rattle.sdbm_page.specs.HeldLends.{held_lends_all, held_lends_part};

    /// Creates a page of zeros, or returns an error if allocation fails.
    pub fn zeros(alloc: A, size: PageSize) -> Result<Self, AllocError>
        ensures { IfOk result (λ held. held_items held ≡ replicate (page_bytes size) 0) }
    {
        match size {
            PageSize::Small => Ok(Held::Small(SmallBytes { bytes: [0; 1024] })),
            PageSize::Wide => Ok(Held::Wide(vec![in alloc; 0u8; 8192]?)),
        }
    }

    /// Copies the bytes of a page of this size, or returns an error if allocation fails.
    pub fn from_slice(alloc: A, bytes: &[u8], size: PageSize) -> Result<Self, AllocError>
        requires { length bytes.now ≡ page_bytes size }
        ensures { IfOk result (λ held. held_items held ≡ bytes.now) }
    {
        match size {
            PageSize::Small => {
                let mut small = SmallBytes { bytes: [0; 1024] };
                small.bytes.as_mut_slice().copy_from_slice(bytes);
                Ok(Held::Small(small))
            }
            PageSize::Wide => Ok(Held::Wide(Vec::from_slice(alloc, bytes)?)),
        }
    }

    /// Borrows the bytes.
    pub fn as_slice(&self) -> &[u8]
        ensures value { result.now ≡ held_items self.now }
    {
        match self {
            Held::Small(small) => small.bytes.as_slice(),
            Held::Wide(vec) => vec.as_slice(),
        }
    }

    /// Borrows the bytes for writing.
    pub fn as_mut_slice(&mut self) -> &mut [u8]
        ensures* writes_back { sem 𝓛 (held_lends_all A.row A.Allocator self.entry result) }
        ensures value { result.now ≡ held_items self.old }
    {
        let all = self.as_slice().len();
        self.slice_mut(0, all)
    }

    /// Borrows the bytes from `start` to `end` for writing.
    pub fn slice_mut(&mut self, start: usize, end: usize) -> &mut [u8]
        requires order { start ≤ end }
        requires inside { end ≤ length (held_items self.old) }
        ensures* writes_back { sem 𝓛 (held_lends_part A.row A.Allocator self.entry start result) }
        ensures value { result.now ≡ slice_range (held_items self.old) start end }
    {
        match self {
            Held::Small(small) => small.part_mut(start, end),
            Held::Wide(vec) => vec.slice_mut(start..end),
        }
    }
}

impl<A: Allocator + Copy> Held<A> {
    /// Clones the bytes, or returns an error if allocation fails.
    pub fn try_clone(&self) -> Result<Self, AllocError>
        ensures { IfOk result (λ copy. held_items copy ≡ held_items self.now) }
    {
        match self {
            Held::Small(small) => Ok(Held::Small(*small)),
            Held::Wide(vec) => Ok(Held::Wide(Vec::from_slice(*vec.allocator(), vec.as_slice())?)),
        }
    }
}
