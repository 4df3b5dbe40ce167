//! Checks that the keys in the bytes of a page are distinct.
ghost use Rattle.std.specs.Prelude.{◌≡◌, ◌+◌, ◌≤◌, ◌↔◌, length, IsTrue, IfSome};
ghost use Rattle.sdbm_addr.specs.Pairs.{page_bytes};
ghost use Rattle.sdbm_page.specs.Faults.{IsLayout, AreKeys};
ghost use Rattle.sdbm_page.specs.Keys.{AreInside, AreApart, IsKeyBefore};

use crate::fields::key_in;
use crate::key_filter::KeyFilter;
use crate::layout::Layout;
use crate::sorted::are_apart_sorted;
use sdbm_addr::PageSize;

// The least number of keys for which the Bloom filter costs less than comparing each key with all others.
const MARKED: usize = 16;

// The greatest number of keys that may need a comparison although the filter is used. With more, the filter saves little, so all keys are
// sorted instead.
const DOUBTED: usize = 16;

/// Returns `true` if all keys in bytes with a valid layout are distinct. In the worst case, the keys are sorted.
pub fn has_distinct_keys(bytes: &[u8], size: PageSize, layout: Layout) -> bool
    requires long { length bytes.now ≡ page_bytes size }
    requires layout { IsLayout size bytes.now layout.count layout.low }
    ensures { IsTrue result ↔ AreKeys size bytes.now }
{
    are_apart(bytes, layout.count)
}

// Returns `true` if no two of the first `count` pairs have the same key.
fn are_apart(bytes: &[u8], count: usize) -> bool
    requires inside { AreInside bytes.now count }
    requires few { count ≤ 2048 }
    ensures { IsTrue result ↔ AreApart bytes.now count }
{
    if count < MARKED {
        return are_apart_one_by_one(bytes, count);
    }
    match are_apart_by_marks(bytes, count) {
        Some(told) => told,
        None => are_apart_sorted(bytes, count),
    }
}

// Checks that the keys are distinct by comparing each key with all keys before it.
fn are_apart_one_by_one(bytes: &[u8], count: usize) -> bool
    requires { AreInside bytes.now count }
    ensures { IsTrue result ↔ AreApart bytes.now count }
{
    for i in 0..count {
        if comes_before(bytes, i) {
            return false;
        }
    }
    true
}

// Checks that the keys are distinct. Compares a key with the keys before it only if the filter already has all bits of the key. Returns
// `None` if more than `DOUBTED` keys need this comparison.
fn are_apart_by_marks(bytes: &[u8], count: usize) -> Option<bool>
    requires { AreInside bytes.now count }
    ensures { IfSome result (λ told. IsTrue told ↔ AreApart bytes.now count) }
{
    let mut noted = KeyFilter::new();
    let mut doubted = 0usize;
    for i in 0..count {
        if noted.note(key_in(bytes, i)) {
            if doubted == DOUBTED {
                return None;
            }
            doubted += 1;
            if comes_before(bytes, i) {
                return Some(false);
            }
        }
    }
    Some(true)
}

// Returns `true` if one of the pairs before pair `i` has the same key.
fn comes_before(bytes: &[u8], i: usize) -> bool
    requires { AreInside bytes.now (i + 1) }
    ensures { IsTrue result ↔ IsKeyBefore bytes.now i }
{
    let key = key_in(bytes, i);
    for a in 0..i {
        if key_in(bytes, a) == key {
            return true;
        }
    }
    false
}
