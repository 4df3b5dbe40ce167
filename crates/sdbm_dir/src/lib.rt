//! The directory of a database. Stores one bit for each split prefix of hashes, and finds the place that a hash leads to (Yigit, sdbm 1990:
//! sdbm.c, `getpage`).
#![tactic(auto)]

ghost use Rattle.std.specs.Prelude.{◌≡◌, ◌≢◌, ℕ, ◌<◌, ◌≤◌, ◌^◌, ◌-◌, ◌%◌, true, false, OnOk, OnErr, IfOk, IfErr, Ok};
ghost use Rattle.std.specs.FinSet as set;
ghost use Rattle.sdbm_addr.specs.Directory.{Splits, IsDirectory, IsDepth, hash_prefix, word_number, page_of};
ghost use Rattle.sdbm_addr.specs.DirectoryFile.{SpellsDirectory, AreDirectoryBytes};
ghost use Rattle.sdbm_dir.specs.Words.{word_of, HasParent};
ghost use Rattle.sdbm_dir.specs.Faults.{AreFaultless, IsDirFault, SpellsNoDirectory};

mod bitmap;
mod fault_text;
mod fours;

use bitmap::{
    BLOCK_BYTES, end_of, has_deep_bit, has_orphan_bit, is_set, used_blocks, whole_blocks,
};
use fours::{MOST_FOURS, bit_of_fours, count_of, fours_of};
use sdbm_addr::{child, mask};
use std::alloc::{AllocError, Allocator};
use std::marker::Model;

/// The reason why bytes cannot be read as a directory.
#[derive(Clone, Copy, Debug, PartialEq, Eq)]
pub enum DirFault {
    /// A bit with a number of at least 2^31 - 1 is 1; this is the bit of a prefix of more than 30 letters.
    TooDeep,
    /// A bit b above 0 is 1, and the bit of its parent, (b - 1) / 2, is 0: a prefix is split, but not the prefix that is one letter
    /// shorter.
    DirOrphan,
    /// The bytes spell a directory, but allocation fails.
    NoMemory,
}

/// The place of a hash: its page, and the position of that page in the directory.
#[derive(Clone, Copy, Debug, PartialEq, Eq)]
pub struct Place {
    /// The number of the page.
    pub page: u32,
    /// The length of the hash's shortest unsplit prefix, at most 31.
    pub depth: u8,
    /// The directory bit of that prefix. Splitting the page sets this bit.
    pub bit: u32,
}

/// A directory. The model is the set of split prefixes and the number of bits for which there is room. Bits beyond the room are 0.
#[derive(Drop)]
pub struct Dir<A: Allocator> {
    bits: Vec<u8, A>,
    // Approximate number of bits that are 1.
    count: u32,
    // The depth at which a search starts, in units of four letters; most places have about this depth. The result does not depend on it.
    fours: u8,
}

impl<A: Allocator> Model for Dir<A> {
    ghost use Rattle.sdbm_dir.specs.Bitmap.{IsBitmap};
    ghost use Rattle.sdbm_dir.specs.Marks.{Marks, coded_marks, marks_of};

    ghost Value = { Marks };

    ghost coded = { coded_marks };

    ghost view = { λ a. marks_of a.bits.items };

    ghost invariant = { λ a. IsBitmap a.bits.items };
}

impl<A: Allocator> Dir<A> {
    /// Makes a directory without split prefixes; every hash leads to page 0. Does not allocate.
    pub fn empty(alloc: A) -> Self
        ensures splits { result.splits ≡ set.empty }
        ensures room { result.room ≡ 0 }
    {
        Dir {
            bits: Vec::new(alloc),
            count: 0,
            fours: 0,
        }
    }

    /// Reads the bytes of a `.dir` file. The prefix with number b is split if bit b % 8 of byte b / 8 is 1; bit 0 is the lowest (Yigit,
    /// sdbm 1990: sdbm.c, `getdbit`). The bytes may have any values and any length; trailing zeros are ignored. Allocates the blocks up to
    /// the block of the highest bit that is 1.
    ///
    /// # Errors
    /// `TooDeep` if a bit from number 2^31 - 1 on is 1; otherwise `DirOrphan` if a bit is 1 and its parent is 0; otherwise `NoMemory` if
    /// allocation fails.
    pub fn from_bytes(alloc: A, bytes: &[u8]) -> Result<Self, DirFault>
        ensures ok { IfOk result (λ dir. SpellsDirectory bytes.now dir.splits) }
        ensures only { IfOk result (λ dir. (splits : Splits) → SpellsDirectory bytes.now splits → splits ≡ dir.splits) }
        ensures faultless { IfOk result (λ _. AreFaultless bytes.now) }
        ensures fault { IfErr result (IsDirFault bytes.now) }
        ensures none { IfErr result (λ fault. fault ≢ DirFault.NoMemory → SpellsNoDirectory bytes.now) }
    {
        let end = end_of(bytes);
        if has_deep_bit(bytes, end) {
            return Err(DirFault::TooDeep);
        }
        if has_orphan_bit(bytes, end) {
            return Err(DirFault::DirOrphan);
        }
        let count = count_of(&bytes[..end]);
        match whole_blocks(alloc, &bytes[..end]) {
            Ok(bits) => Ok(Dir {
                bits,
                count,
                fours: fours_of(count),
            }),
            Err(_) => Err(DirFault::NoMemory),
        }
    }

    /// Returns a copy, or an error if allocation fails.
    pub fn try_clone(&self, alloc: A) -> Result<Self, AllocError>
        ensures { IfOk result (λ copy. copy ≡ self.now) }
    {
        let mut bits = Vec::with_capacity(alloc, self.bits.len())?;
        bits.extend_from_slice(self.bits.as_slice())?;
        Ok(Dir {
            bits,
            count: self.count,
            fours: self.fours,
        })
    }

    /// Borrows the bytes of the directory's `.dir` file: whole blocks of 4,096 bytes, up to the block of the highest bit that is 1. If
    /// every bit is 0, there are no bytes. Does not allocate. The time is proportional to the room after the highest bit that is 1.
    pub fn bytes(&self) -> &[u8]
        ensures { AreDirectoryBytes self.now.splits result.now }
    {
        used_blocks(self.bits.as_slice())
    }

    /// Returns `true` if the prefix with this number is split.
    pub fn is_split(&self, bit: u32) -> bool
        ensures value { result ≡ set.contains self.now.splits (word_of bit) }
        ensures directory { IsDirectory self.now.splits }
    {
        is_set(self.bits.as_slice(), bit)
    }

    /// Makes room for a bit, in whole blocks. Does not allocate if there is room already. Returns an error if allocation fails; the
    /// directory is unchanged then.
    pub fn grow_for(&mut self, bit: u32) -> Result<(), AllocError>
        ensures splits { self.new.splits ≡ self.old.splits }
        ensures room { OnOk result (bit < self.new.room) }
        ensures kept { self.old.room ≤ self.new.room }
        ensures unneeded { bit < self.old.room → (result ≡ Ok tt) × (self.new ≡ self.old) }
        ensures err { OnErr result (self.new ≡ self.old) }
    {
        let blocks = bit as usize / 8 / BLOCK_BYTES + 1;
        let size = blocks * BLOCK_BYTES;
        if size > self.bits.len() {
            self.bits.resize(size, 0)?;
        }
        Ok(())
    }

    /// Marks a prefix of at most 30 letters as split; its shorter prefixes must be split already. The directory must have room for `bit`,
    /// the bit of the prefix. Does not allocate.
    pub fn mark(&mut self, bit: u32)
        requires grown { bit < self.old.room }
        requires shallow { bit < 2 ^ 31 - 1 }
        requires parent { HasParent self.old.splits bit }
        ensures splits { self.new.splits ≡ set.insert self.old.splits (word_of bit) }
        ensures room { self.new.room ≡ self.old.room }
    {
        let byte = bit as usize / 8;
        self.bits[byte] |= 1 << (bit % 8);
        self.count = self.count.wrapping_add(1);
        self.fours = fours_of(self.count);
    }

    /// Returns the place of a hash. The hash's shortest unsplit prefix determines the place. A prefix begins with the lowest bit of the
    /// hash; the page number is the prefix as a number with the same lowest bit.
    pub fn place(&self, hash: u32) -> Place
        ensures depth { IsDepth self.now.splits hash result.depth }
        ensures shallow { result.depth ≤ 31 }
        ensures page { result.page ≡ page_of self.now.splits hash }
        ensures low_bits { result.page ≡ hash % 2 ^ result.depth }
        ensures bit { result.bit ≡ word_number (hash_prefix result.depth hash) }
        ensures directory { IsDirectory self.now.splits }
    {
        let fours = self.fours.min(MOST_FOURS);
        let bit = bit_of_fours(hash, fours);
        let depth = 4 * fours;
        if self.is_split(bit) {
            let next = child(bit, (hash >> depth) & 1 == 1);
            return self.place_below(hash, depth + 1, next);
        }
        self.place_above(hash, depth, bit)
    }
}

// Searches that begin at a prefix of any length. The caller passes the prefix's bit.
impl<A: Allocator> Dir<A> {
    // Searches for the place of a hash among the prefixes of at least `depth` letters; all shorter prefixes are split.
    fn place_below(&self, hash: u32, depth: u8, bit: u32) -> Place
        requires number { bit ≡ word_number (hash_prefix depth hash) }
        requires shallow { depth ≤ 31 }
        requires above { (k : ℕ) → k < depth → set.contains self.now.splits (hash_prefix k hash) ≡ true }
        requires directory { IsDirectory self.now.splits }
        ensures depth { IsDepth self.now.splits hash result.depth }
        ensures shallow { result.depth ≤ 31 }
        ensures page { result.page ≡ page_of self.now.splits hash }
        ensures low_bits { result.page ≡ hash % 2 ^ result.depth }
        ensures bit { result.bit ≡ word_number (hash_prefix result.depth hash) }
    {
        let mut bit = bit;
        let mut depth = depth;
        while self.is_split(bit) {
            bit = child(bit, (hash >> depth) & 1 == 1);
            depth += 1;
        }
        self.place_at(hash, depth, bit)
    }

    // Searches for the place of a hash among the prefixes of at most `depth` letters; the prefix of `depth` letters is not split.
    fn place_above(&self, hash: u32, depth: u8, bit: u32) -> Place
        requires number { bit ≡ word_number (hash_prefix depth hash) }
        requires shallow { depth ≤ 31 }
        requires unsplit { set.contains self.now.splits (hash_prefix depth hash) ≡ false }
        requires directory { IsDirectory self.now.splits }
        ensures depth { IsDepth self.now.splits hash result.depth }
        ensures shallow { result.depth ≤ 31 }
        ensures page { result.page ≡ page_of self.now.splits hash }
        ensures low_bits { result.page ≡ hash % 2 ^ result.depth }
        ensures bit { result.bit ≡ word_number (hash_prefix result.depth hash) }
    {
        let mut bit = bit;
        let mut depth = depth;
        while depth > 0 {
            let parent = (bit - 1) / 2;
            if self.is_split(parent) {
                return self.place_at(hash, depth, bit);
            }
            bit = parent;
            depth -= 1;
        }
        self.place_at(hash, depth, bit)
    }

    // Returns the place of a hash whose depth and bit are known.
    fn place_at(&self, hash: u32, depth: u8, bit: u32) -> Place
        requires depth { IsDepth self.now.splits hash depth }
        requires shallow { depth ≤ 31 }
        requires number { bit ≡ word_number (hash_prefix depth hash) }
        requires directory { IsDirectory self.now.splits }
        ensures depth { IsDepth self.now.splits hash result.depth }
        ensures shallow { result.depth ≤ 31 }
        ensures page { result.page ≡ page_of self.now.splits hash }
        ensures low_bits { result.page ≡ hash % 2 ^ result.depth }
        ensures bit { result.bit ≡ word_number (hash_prefix result.depth hash) }
    {
        Place {
            page: hash & mask(depth),
            depth,
            bit,
        }
    }
}
