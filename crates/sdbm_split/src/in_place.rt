//! Stores pairs in place, on pages with one owner.
ghost use Rattle.std.specs.Prelude.{◌≡◌, ◌+◌, ◌≤◌, length, true, false};
ghost use Rattle.sdbm_addr.specs.Pairs.{HasDistinctKeys, pair_limit};
ghost use Rattle.sdbm_split.specs.InPlace.{MayStore, with_stored};
ghost use Rattle.sdbm_split.specs.Room.{GoesOn, IsOwnPlace};

use crate::refuses;
use crate::room::goes_on;
use sdbm_addr::Mode;
use sdbm_page::SharedPage;
use std::alloc::Allocator;

/// Stores a pair by changing its page in place. The old pair of the key is removed, and the new pair is the last one. Returns `false` and
/// leaves the page unchanged in three cases, tested in this order: the page has another owner, the key of an insert exists, or the pair
/// does not fit on the page without a split. The pair must be within the length limit, and the page's keys must be distinct. Does not
/// allocate.
pub fn store_on_page<A: Allocator>(
    page: &mut SharedPage<A>,
    key: &[u8],
    value: &[u8],
    mode: Mode,
) -> bool
    requires small { length key.now + length value.now ≤ pair_limit page.old.size }
    requires distinct { HasDistinctKeys page.old.pairs }
    ensures may { result ≡ true → MayStore mode page.old key.now value.now }
    ensures stored { result ≡ true → page.new ≡ with_stored page.old key.now value.now }
    ensures kept { result ≡ false → page.new ≡ page.old }
{
    if page.is_shared() {
        return false;
    }
    let own = page.page().find(key);
    if refuses(mode, own) {
        return false;
    }
    if !goes_on(page.page(), own, key, value) {
        return false;
    }
    put(page, own, key, value)
}

// Adds a pair that fits on the page, and removes the key's old pair, at index `own`, if there is one. Returns `false` if the page has
// another owner.
fn put<A: Allocator>(page: &mut SharedPage<A>, own: Option<usize>, key: &[u8], value: &[u8]) -> bool
    requires small { length key.now + length value.now ≤ pair_limit page.old.size }
    requires room { GoesOn page.old key.now value.now }
    requires own { IsOwnPlace page.old.pairs key.now own }
    requires distinct { HasDistinctKeys page.old.pairs }
    ensures stored { result ≡ true → page.new ≡ with_stored page.old key.now value.now }
    ensures kept { result ≡ false → page.new ≡ page.old }
{
    match own {
        None => page.add(key, value),
        Some(i) => page.replace(i, key, value),
    }
}
