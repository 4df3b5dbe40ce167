//! Totals over pairs: the number of pairs, their bytes, the longest key and the longest pair.
ghost use Rattle.std.specs.Prelude.{◌≡◌, ◌≤◌, ◌+◌, ◌^◌, ◌∷◌, [], ℕ, List, length, map as map_list};
ghost use Rattle.std.specs.List.{All, flat_map};
ghost use Rattle.sdbm_addr.specs.Pairs.{Pair};
ghost use Rattle.sdbm_addr.specs.Database.{Database};
ghost use Rattle.dbm_stats.specs.Totals.{AreBelow, joined_totals, totals_of};
ghost use Rattle.dbm_stats.specs.Shapes.{shape_of};

use sdbm_page::Page;
use std::alloc::Allocator;

/// Totals over pairs. Lengths are in bytes.
#[derive(Clone, Copy, Debug, PartialEq, Eq)]
pub struct PairTotals {
    /// The number of pairs.
    pub count: u64,
    /// The sum of the lengths of all keys.
    pub key_bytes: u64,
    /// The sum of the lengths of all values.
    pub value_bytes: u64,
    /// The length of the longest key.
    pub longest_key: u64,
    /// The length of the longest pair: the key and the value together.
    pub longest_pair: u64,
}

// The totals over no pairs.
const NONE: PairTotals = PairTotals {
    count: 0,
    key_bytes: 0,
    value_bytes: 0,
    longest_key: 0,
    longest_pair: 0,
};

// Returns the totals over one pair.
fn pair_totals(key: &[u8], value: &[u8]) -> PairTotals
    ensures { result ≡ totals_of ((key.now, value.now) ∷ []) }
{
    PairTotals {
        count: 1,
        key_bytes: key.len() as u64,
        value_bytes: value.len() as u64,
        longest_key: key.len() as u64,
        longest_pair: key.len() as u64 + value.len() as u64,
    }
}

// Combines the totals over two lists of pairs.
fn join(first: PairTotals, second: PairTotals) -> PairTotals
    requires first { AreBelow first (2 ^ 62) }
    requires second { AreBelow second (2 ^ 62) }
    ensures { result ≡ joined_totals first second }
{
    PairTotals {
        count: first.count + second.count,
        key_bytes: first.key_bytes + second.key_bytes,
        value_bytes: first.value_bytes + second.value_bytes,
        longest_key: first.longest_key.max(second.longest_key),
        longest_pair: first.longest_pair.max(second.longest_pair),
    }
}

/// Returns the totals over the pairs of a page.
pub fn page_totals<A: Allocator>(page: &Page<A>) -> PairTotals
    ensures totals { result ≡ totals_of page.now.pairs }
    ensures small { AreBelow result 8192 }
{
    let mut totals = NONE;
    for i in 0..page.len() {
        totals = join(totals, pair_totals(page.key(i), page.record(i)));
    }
    totals
}

/// Returns the totals over the pairs of all pages.
pub fn all_totals(shapes: &[PageShape]) -> PairTotals
    requires small { All (λ (s : PageShape). AreBelow s.totals 8192) shapes.now }
    requires few { length shapes.now ≤ 2 ^ 32 }
    ensures { (db : Database) (pages : List (ℕ × List Pair)) → shapes.now ≡ map_list (shape_of db) pages
        → result ≡ totals_of (flat_map (λ (e : ℕ × List Pair). e.1) pages) }
{
    let mut totals = NONE;
    for shape in shapes {
        totals = join(totals, shape.totals);
    }
    totals
}

/// Measures of a page that has pairs.
#[derive(Clone, Copy, Debug, PartialEq, Eq)]
pub struct PageShape {
    pub number: u32,
    /// The number of hash bits that lead to the page.
    pub depth: u8,
    /// The number of bytes that are not free.
    pub filled: u32,
    pub totals: PairTotals,
}
