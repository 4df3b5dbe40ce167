//! Types that the whole store shares: kinds of key bytes, page sizes, store modes, and byte strings. `specs/` defines pages, directories
//! and databases.
#![tactic(auto)]

ghost use Rattle.std.specs.Prelude.{◌≡◌, IfOk};
ghost use Rattle.std.specs.Borrow.{sem};
ghost use Rattle.sdbm_addr.specs.Lending.{LendsBytes};
ghost use Rattle.sdbm_addr.specs.Pairs.{page_bytes, pair_limit, offset_limit};

mod address;

pub use address::{child, hash, mask};
use std::alloc::{AllocError, Allocator};
use std::marker::Model;

/// The way in which the bytes of a key count in its hash. The original sdbm adds a plain `char`, which is signed on most machines.
#[derive(Clone, Copy, Debug, PartialEq, Eq)]
pub enum KeyBytes {
    /// A byte b of 128 or more counts as b - 256.
    Signed,
    /// A byte counts as itself.
    Unsigned,
}

/// The behavior of a store command if the key exists.
#[derive(Clone, Copy, Debug, PartialEq, Eq)]
pub enum Mode {
    /// Refuses the new value.
    Insert,
    /// Replaces the old value.
    Replace,
}

/// The page size of a database. The files do not record it.
#[derive(Clone, Copy, Debug, PartialEq, Eq)]
pub enum PageSize {
    /// 1,024 bytes, as in the original sdbm; a pair has at most 1,008 bytes.
    Small,
    /// 8,192 bytes; a pair has at most 8,008 bytes.
    Wide,
}

impl PageSize {
    /// Returns the number of bytes in a page.
    pub fn bytes(self) -> usize
        ensures { result ≡ page_bytes self }
    {
        match self {
            PageSize::Small => 1024,
            PageSize::Wide => 8192,
        }
    }

    /// Returns the greatest length of a pair in bytes: its key and its value together.
    pub fn pair_limit(self) -> usize
        ensures { result ≡ pair_limit self }
    {
        match self {
            PageSize::Small => 1008,
            PageSize::Wide => 8008,
        }
    }

    /// Returns the greatest number of offsets in a page's index, which has two for each pair.
    pub fn offset_limit(self) -> usize
        ensures { result ≡ offset_limit self }
    {
        match self {
            PageSize::Small => 510,
            PageSize::Wide => 4094,
        }
    }
}

/// A byte string that owns its memory. Its model is the list of its bytes.
#[derive(Drop)]
pub struct Bytes<A: Allocator> {
    bytes: Vec<u8, A>,
}

impl<A: Allocator> Model for Bytes<A> {
    ghost use Rattle.std.specs.Prelude.{List, ℕ};

    ghost Value = { List ℕ };

    ghost view = { λ a. a.bytes.items };
}

impl<A: Allocator> Bytes<A> {
    /// Wraps a vector. Does not allocate.
    pub fn new(bytes: Vec<u8, A>) -> Self
        ensures { result ≡ bytes.items }
    {
        Bytes { bytes }
    }

    /// Copies the bytes of a slice, or returns an error if allocation fails.
    pub fn from_slice(alloc: A, bytes: &[u8]) -> Result<Self, AllocError>
        ensures { IfOk result (λ made. made ≡ bytes.now) }
    {
        Ok(Bytes {
            bytes: Vec::from_slice(alloc, bytes)?,
        })
    }

    /// Borrows the bytes.
    pub fn as_slice(&self) -> &[u8]
        ensures { result.now ≡ self.now }
    {
        self.bytes.as_slice()
    }

    /// Borrows the bytes for overwriting. The length does not change.
    pub fn as_mut_slice(&mut self) -> &mut [u8]
        ensures* writes_back { sem 𝓛 (LendsBytes A.row A.Allocator self.entry result) }
        ensures value { result.now ≡ self.old }
    {
        self.bytes.as_mut_slice()
    }

    /// Clones the byte string, or returns an error if allocation fails.
    pub fn try_clone(&self, alloc: A) -> Result<Self, AllocError>
        ensures { IfOk result (λ copy. copy ≡ self.now) }
    {
        Bytes::from_slice(alloc, self.bytes.as_slice())
    }
}

impl<A: Allocator> PartialEq for Bytes<A> {
    ghost use Rattle.std.specs.Prelude.{◌≡◌, ◌↔◌, IsTrue};
    ghost use Rattle.std.specs.Str.{bytes_eq};
    ghost use Rattle.std.specs.Cmp.{partial_equiv_from_equiv};
    ghost use Rattle.std.specs.Cmp.Lexicographic.{nat_list_eq_equiv};

    ghost eq = { bytes_eq };

    ghost laws = { partial_equiv_from_equiv nat_list_eq_equiv };

    /// Returns `true` if the bytes are equal. Does not allocate.
    fn eq(&self, other: &Self) -> bool
        ensures exact { IsTrue result ↔ (self.now ≡ other.now) }
        ensures value { result ≡ bytes_eq self.now other.now }
    {
        self.as_slice() == other.as_slice()
    }
}

/// Clones pairs of a key and a value, in the same order, or returns an error if allocation fails.
pub fn clone_pairs<A: Allocator + Copy>(
    alloc: A,
    pairs: &[(Bytes<A>, Bytes<A>)],
) -> Result<Vec<(Bytes<A>, Bytes<A>), A>, AllocError>
    ensures { IfOk result (λ copy. copy.items ≡ pairs.now) }
{
    let mut copy = Vec::new(alloc);
    for pair in pairs {
        copy.push((pair.0.try_clone(alloc)?, pair.1.try_clone(alloc)?))?;
    }
    Ok(copy)
}
