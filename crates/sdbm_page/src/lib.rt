//! A page of a `.pag` file (Yigit, sdbm 1990: pair.c): pairs of a key and a value, in the order of insertion, in 1,024 or 8,192 bytes.
//! A page is stored as its bytes in the file and edited in place.
#![tactic(auto)]

ghost use Rattle.std.specs.Prelude.{◌≡◌, ◌≢◌, ◌+◌, ◌<◌, ◌≤◌, ◌↔◌, List, [], length, remove, IsTrue, IfOk, IfErr, IfNone, IfSome, None};
ghost use Rattle.std.specs.List.{sum_by};
ghost use Rattle.std.specs.Borrow.{sem};
ghost use Rattle.sdbm_addr.specs.Layout.{Spells, bytes_of_page};
ghost use Rattle.sdbm_addr.specs.Pairs.{Pair, value_of, key_at, value_at, footprint, page_bytes, pair_limit, with_pair, IsLaid, IsPlace};
ghost use Rattle.sdbm_page.specs.Fields.{IsLow, IsExtent, IsValueRange, pairs_in};
ghost use Rattle.sdbm_page.specs.Faults.{IsLayout, IsPageFault, SpellsNone};
ghost use Rattle.sdbm_page.specs.Lending.{LendsValue};
ghost use Rattle.sdbm_page.specs.Tails.{IsTail};
ghost use Rattle.sdbm_page.specs.declared.PageFault.TheVariants.{NoMemory};

mod edits;
mod fault_text;
mod fields;
mod held;
mod key_filter;
mod keys;
mod layout;
mod shared;
mod small;
mod sorted;
mod tails;

use edits::{clear, put_pair, take_pair};
use fields::{end_at, key_in, key_start, number_at, value_in, value_start};
use held::Held;
use keys::has_distinct_keys;
use layout::{Layout, layout_of};
use sdbm_addr::PageSize;
pub use shared::SharedPage;
use std::alloc::{AllocError, Allocator};
use std::marker::Model;
use tails::{is_key, tail_of};

/// The reason why bytes cannot be read as a page. The faults are tested in this order.
#[derive(Clone, Copy, Debug, PartialEq, Eq)]
pub enum PageFault {
    /// The number of offsets is odd, or higher than the page size allows.
    Count,
    /// An offset is above the previous offset, a pair is larger than the limit, or the pairs reach into the index.
    Offsets,
    /// A key occurs twice.
    DoubleKey,
    /// The bytes spell a page, but allocation fails.
    NoMemory,
}

/// The length in bytes of the count of offsets at the start of a page.
pub const COUNT_BYTES: usize = 2;

/// The length in bytes of the two offsets of a pair.
pub const PAIR_OFFSETS: usize = 4;

/// Returns `true` if the bytes of a page spell the page without pairs. The zeros of a hole spell this page.
pub fn spells_empty(bytes: &[u8], size: PageSize) -> bool
    requires { length bytes.now ≡ page_bytes size }
    ensures { IsTrue result ↔ Spells size bytes.now [] }
{
    number_at(bytes, 0) == 0
}

/// A page. The model is its size and the list of its pairs. The pairs always fit, and each pair is within the length limit. Free bytes are
/// zero.
#[derive(Drop)]
pub struct Page<A: Allocator> {
    size: PageSize,
    bytes: Held<A>,
}

impl<A: Allocator> Model for Page<A> {
    ghost use Rattle.sdbm_addr.specs.Pairs.{Content};
    ghost use Rattle.sdbm_page.specs.Fields.{pairs_in, IsOwn};
    ghost use Rattle.sdbm_page.specs.Held.{held_items};

    ghost Value = { Content };

    ghost view = { λ a. record { size = a.size; pairs = pairs_in a.size (held_items a.bytes) } };

    ghost invariant = { λ a. IsOwn a.size (held_items a.bytes) };
}

impl<A: Allocator> Page<A> {
    /// Creates a page without pairs, or returns an error if allocation fails.
    pub fn empty(alloc: A, size: PageSize) -> Result<Self, AllocError>
        ensures size { IfOk result (λ page. page.size ≡ size) }
        ensures pairs { IfOk result (λ page. page.pairs ≡ []) }
    {
        let bytes = Held::zeros(alloc, size)?;
        Ok(Page { size, bytes })
    }

    /// Reads the bytes of a page. Free bytes may have any values; in the returned page they are zero. Nothing is copied before all tests
    /// pass.
    ///
    /// # Errors
    /// The first of `Count`, `Offsets` and `DoubleKey` that applies; otherwise `NoMemory` if allocation fails.
    pub fn from_bytes(alloc: A, bytes: &[u8], size: PageSize) -> Result<Self, PageFault>
        requires { length bytes.now ≡ page_bytes size }
        ensures size { IfOk result (λ page. page.size ≡ size) }
        ensures page { IfOk result (λ page. Spells size bytes.now page.pairs) }
        ensures only { IfOk result (λ page. (pairs : List Pair) → Spells size bytes.now pairs → pairs ≡ page.pairs) }
        ensures fault { IfErr result (IsPageFault size bytes.now) }
        ensures none { IfErr result (λ fault. fault ≢ NoMemory → SpellsNone size bytes.now) }
    {
        let layout = layout_of(bytes, size)?;
        if !has_distinct_keys(bytes, size, layout) {
            return Err(PageFault::DoubleKey);
        }
        let Ok(page) = Self::cleared(alloc, bytes, size, layout) else {
            return Err(PageFault::NoMemory);
        };
        Ok(page)
    }

    /// Returns the size of the page.
    pub fn page_size(&self) -> PageSize
        ensures { result ≡ self.now.size }
    {
        self.size
    }

    /// Borrows the bytes that the page has in the file; free bytes are zero.
    pub fn bytes(&self) -> &[u8]
        ensures { result.now ≡ bytes_of_page self.now.size self.now.pairs }
    {
        self.bytes.as_slice()
    }

    /// Returns the number of pairs.
    pub fn len(&self) -> usize
        ensures count { result ≡ length self.now.pairs }
        ensures laid { IsLaid self.now.size self.now.pairs }
    {
        number_at(self.bytes.as_slice(), 0) / 2
    }

    /// Returns `true` if the page has no pairs.
    pub fn is_empty(&self) -> bool
        ensures { IsTrue result ↔ (self.now.pairs ≡ []) }
    {
        self.len() == 0
    }

    /// Borrows the key of pair `i`. Requires `i` below `len`.
    pub fn key(&self, i: usize) -> &[u8]
        requires { i < length self.now.pairs }
        ensures { result.now ≡ key_at self.now.pairs i }
    {
        key_in(self.bytes.as_slice(), i)
    }

    /// Borrows the value of pair `i`. Requires `i` below `len`.
    pub fn record(&self, i: usize) -> &[u8]
        requires { i < length self.now.pairs }
        ensures { result.now ≡ value_at self.now.pairs i }
    {
        value_in(self.bytes.as_slice(), i)
    }

    /// Borrows the value of pair `i` for overwriting in place. Requires `i` below `len`. The length of the value and the rest of the page
    /// stay the same.
    pub fn record_mut(&mut self, i: usize) -> &mut [u8]
        requires { i < length self.old.pairs }
        ensures* writes_back { sem 𝓛 (LendsValue A.row A.Allocator self.entry i result) }
        ensures value { result.now ≡ value_at self.old.pairs i }
    {
        let (start, end) = self.value_range(i);
        self.bytes.slice_mut(start, end)
    }

    /// Returns the index of the first pair with the key, or `None` if no pair has the key.
    pub fn find(&self, key: &[u8]) -> Option<usize>
        ensures found { IfSome result (λ i. IsPlace self.now.pairs key.now i) }
        ensures absent { IfNone result (value_of self.now.pairs key.now ≡ None) }
    {
        match tail_of(key) {
            Some(tail) => self.find_by_tail(key, tail),
            None => self.find_by_key(key),
        }
    }

    /// Returns `true` if one more pair of `need` bytes fits on the page, together with its two offsets.
    pub fn fits(&self, need: usize) -> bool
        ensures { IsTrue result ↔ (sum_by footprint self.now.pairs + need + 4 + 2 ≤ page_bytes self.now.size) }
    {
        let free = self.free();
        if free < PAIR_OFFSETS {
            return false;
        }
        need <= free - PAIR_OFFSETS
    }

    /// Returns `true` if a pair of `need` bytes fits on the page after pair `i` is removed. Requires `i` below `len`.
    pub fn fits_instead(&self, i: usize, need: usize) -> bool
        requires { i < length self.now.pairs }
        ensures { IsTrue result ↔ (sum_by footprint (remove self.now.pairs i) + need + 4 + 2 ≤ page_bytes self.now.size) }
    {
        need <= self.free() + self.taken(i) - PAIR_OFFSETS
    }

    /// Returns the number of bytes that pair `i` takes on the page: its key, its value and its two offsets. Requires `i` below `len`.
    pub fn taken(&self, i: usize) -> usize
        requires { i < length self.now.pairs }
        ensures taken { result ≡ footprint (key_at self.now.pairs i, value_at self.now.pairs i) }
        ensures few { result ≤ 8190 }
    {
        let _laid = self.len();
        self.key(i).len() + self.record(i).len() + PAIR_OFFSETS
    }

    /// Returns the number of free bytes: all bytes except the count, the offsets and the pairs.
    pub fn free(&self) -> usize
        ensures { result + sum_by footprint self.now.pairs + 2 ≡ page_bytes self.now.size }
    {
        self.low() - (PAIR_OFFSETS * self.len() + COUNT_BYTES)
    }

    /// Appends a pair. The pair must fit on the page and be within the length limit, and its key must be absent.
    pub fn add(&mut self, key: &[u8], value: &[u8])
        requires fits { sum_by footprint self.old.pairs + footprint (key.now, value.now) + 2 ≤ page_bytes self.old.size }
        requires small { length key.now + length value.now ≤ pair_limit self.old.size }
        requires absent { value_of self.old.pairs key.now ≡ None }
        ensures { self.new ≡ with_pair self.old key.now value.now }
    {
        let count = self.len();
        let low = self.low();
        put_pair(self.bytes.as_mut_slice(), count, low, key, value);
    }

    /// Removes pair `i`, which must be below `len`. The remaining pairs keep their order.
    pub fn remove(&mut self, i: usize)
        requires { i < length self.old.pairs }
        ensures { self.new ≡ record { size = self.old.size; pairs = remove self.old.pairs i } }
    {
        let count = self.len();
        let low = self.low();
        let (end, start) = self.extent(i);
        take_pair(self.bytes.as_mut_slice(), count, i, low, start, end - start);
    }
}

// Conversion from bytes.
impl<A: Allocator> Page<A> {
    // Makes a page from bytes with a valid layout, and clears its free bytes. Keys may be equal. Returns an error if allocation fails.
    fn cleared(alloc: A, bytes: &[u8], size: PageSize, layout: Layout) -> Result<Self, AllocError>
        requires long { length bytes.now ≡ page_bytes size }
        requires layout { IsLayout size bytes.now layout.count layout.low }
        ensures { IfOk result (λ page. page ≡ record { size = size; pairs = pairs_in size bytes.now }) }
    {
        let mut copy = Held::from_slice(alloc, bytes, size)?;
        clear(copy.as_mut_slice(), 4 * layout.count + 2, layout.low);
        Ok(Page { size, bytes: copy })
    }
}

// Searches for a key.
impl<A: Allocator> Page<A> {
    // Searches like `find` for a key of at least eight bytes; `tail` is the number in its last eight bytes.
    fn find_by_tail(&self, key: &[u8], tail: u64) -> Option<usize>
        requires { IsTail key.now tail }
        ensures found { IfSome result (λ i. IsPlace self.now.pairs key.now i) }
        ensures absent { IfNone result (value_of self.now.pairs key.now ≡ None) }
    {
        let bytes = self.bytes.as_slice();
        let mut end = bytes.len();
        for i in 0..self.len() {
            if is_key(bytes, key_start(bytes, i), end, key, tail) {
                return Some(i);
            }
            end = value_start(bytes, i);
        }
        None
    }

    // Searches like `find` for a key of any length.
    fn find_by_key(&self, key: &[u8]) -> Option<usize>
        ensures found { IfSome result (λ i. IsPlace self.now.pairs key.now i) }
        ensures absent { IfNone result (value_of self.now.pairs key.now ≡ None) }
    {
        for i in 0..self.len() {
            if self.key(i) == key {
                return Some(i);
            }
        }
        None
    }
}

// Positions of pairs.
impl<A: Allocator> Page<A> {
    // Returns the position of the first byte of the last pair; without pairs, the length of the page.
    fn low(&self) -> usize
        ensures { IsLow self.now result }
    {
        end_at(self.bytes.as_slice(), self.len())
    }

    // Returns the position at which pair `i` ends, and the position at which its value starts.
    fn extent(&self, i: usize) -> (usize, usize)
        requires { i < length self.now.pairs }
        ensures { IsExtent self.now i result.0 result.1 }
    {
        let bytes = self.bytes.as_slice();
        (end_at(bytes, i), value_start(bytes, i))
    }

    // Returns the start and the end of the value of pair `i`.
    fn value_range(&self, i: usize) -> (usize, usize)
        requires { i < length self.now.pairs }
        ensures { IsValueRange self.now i result.0 result.1 }
    {
        let bytes = self.bytes.as_slice();
        (value_start(bytes, i), key_start(bytes, i))
    }
}

impl<A: Allocator> Page<A> {
    /// Returns `true` if two pages have the same size and the same pairs in the same order. Does not allocate.
    pub fn equals(&self, other: &Page<A>) -> bool
        ensures { IsTrue result ↔ (self.now ≡ other.now) }
    {
        if self.size != other.size {
            return false;
        }
        self.bytes.as_slice() == other.bytes.as_slice()
    }
}

impl<A: Allocator> PartialEq for Page<A> {
    ghost use Rattle.std.specs.Prelude.{◌≡◌, ◌↔◌, IsTrue};
    ghost use Rattle.std.specs.Str.{bytes_eq};
    ghost use Rattle.std.specs.Cmp.{on_per, partial_equiv_from_equiv};
    ghost use Rattle.std.specs.Cmp.Lexicographic.{nat_list_eq_equiv};
    ghost use Rattle.sdbm_addr.specs.Pairs.{Content};
    ghost use Rattle.sdbm_page.specs.Equal.{sized_bytes};

    ghost eq = { λ c d. bytes_eq (sized_bytes c) (sized_bytes d) };

    ghost laws = { on_per sized_bytes (partial_equiv_from_equiv nat_list_eq_equiv) };

    /// Like `equals`.
    fn eq(&self, other: &Self) -> bool
        ensures exact { IsTrue result ↔ (self.now ≡ other.now) }
        ensures value { result ≡ bytes_eq (sized_bytes self.now) (sized_bytes other.now) }
    {
        if self.size != other.size {
            return false;
        }
        self.bytes.as_slice() == other.bytes.as_slice()
    }
}

impl<A: Allocator + Copy> Page<A> {
    /// Clones the page, or returns an error if allocation fails.
    pub fn try_clone(&self) -> Result<Self, AllocError>
        ensures { IfOk result (λ copy. copy ≡ self.now) }
    {
        let bytes = self.bytes.try_clone()?;
        Ok(Page {
            size: self.size,
            bytes,
        })
    }
}
