//! A model of a page: the list of its pairs, implemented from the rules of the format alone. A page has to agree with its
//! model.
use sdbm_addr::{Bytes, PageSize};
use sdbm_page::Page;
use std::alloc::{AllocError, Allocator, Global};

/// The pairs of a page, in their order.
#[derive(Drop)]
pub struct ListPage {
    alloc: Global,
    size: PageSize,
    pairs: Vec<(Bytes<Global>, Bytes<Global>), Global>,
}

impl ListPage {
    /// A page without pairs.
    pub fn empty(alloc: Global, size: PageSize) -> Self {
        ListPage {
            alloc,
            size,
            pairs: Vec::new(alloc),
        }
    }

    /// The index of a key's pair.
    pub fn find(&self, key: &[u8]) -> Option<usize> {
        self.pairs.iter().position(|pair| pair.0.as_slice() == key)
    }

    /// Returns `true` if a pair of `need` bytes fits on the page, with its two offsets, the other pairs and the count.
    pub fn fits(&self, need: usize) -> bool {
        let mut taken = 2usize;
        for (key, value) in &self.pairs {
            taken = taken
                .saturating_add(key.as_slice().len())
                .saturating_add(value.as_slice().len())
                .saturating_add(4);
        }
        taken.saturating_add(need).saturating_add(4) <= self.size.bytes()
    }

    /// Appends a pair.
    pub fn add(&mut self, key: &[u8], value: &[u8]) -> Result<(), AllocError> {
        let key = Bytes::from_slice(self.alloc, key)?;
        let value = Bytes::from_slice(self.alloc, value)?;
        match self.pairs.push((key, value)) {
            Ok(()) => Ok(()),
            Err(_) => Err(AllocError),
        }
    }

    /// Removes the pair at an index.
    pub fn remove(&mut self, i: usize) {
        if i < self.pairs.len() {
            let _pair = self.pairs.remove(i);
        }
    }

    /// The page's bytes: count, offsets, zeros, and the pairs from the end down.
    pub fn bytes(&self) -> Result<Vec<u8, Global>, AllocError> {
        let mut bytes = vec![in self.alloc; 0u8; self.size.bytes()]?;
        let mut index = Vec::new(self.alloc);
        index.extend_from_slice(&two_bytes(2 * self.pairs.len()))?;
        let mut top = bytes.len();
        for (key, value) in &self.pairs {
            for part in [key.as_slice(), value.as_slice()] {
                let start = top.saturating_sub(part.len());
                put(bytes.as_mut_slice(), start, part);
                index.extend_from_slice(&two_bytes(start))?;
                top = start;
            }
        }
        put(bytes.as_mut_slice(), 0, index.as_slice());
        Ok(bytes)
    }

    /// Returns `true` if a page has the same pairs in the same order, and the same bytes.
    pub fn is<A: Allocator>(&self, page: &Page<A>) -> Result<bool, AllocError> {
        if page.page_size() != self.size || page.len() != self.pairs.len() {
            return Ok(false);
        }
        for i in 0..page.len() {
            let pair = &self.pairs[i];
            if page.key(i) != pair.0.as_slice() || page.record(i) != pair.1.as_slice() {
                return Ok(false);
            }
        }
        Ok(self.bytes()?.as_slice() == page.bytes())
    }
}

// The two bytes of a number in the page's index, lowest byte first.
fn two_bytes(number: usize) -> [u8; 2] {
    u16::try_from(number).unwrap_or(0).to_le_bytes()
}

// Overwrites bytes with `part`, from `at` on, as far as it fits.
fn put(bytes: &mut [u8], at: usize, part: &[u8]) {
    for (i, byte) in part.iter().enumerate() {
        if let Some(place) = bytes.get_mut(at.saturating_add(i)) {
            *place = *byte;
        }
    }
}
