//! The results of stores, computed from the page of a place.
ghost use Rattle.std.specs.Prelude.{◌≡◌, ◌+◌, ◌≤◌, ◌<◌, length, true, IfOk, IfSome, OnErr, Some, None};
ghost use Rattle.sdbm_addr.specs.Pairs.{pair_limit};
ghost use Rattle.store_moves.specs.Works.{stored_first, IsPageOfKey, pairs_lent};
ghost use Rattle.store_moves.specs.Worked.{IsWorked, stored_on, takes_memory};

use crate::worked::{Site, Worked, changed, unchanged};
use sdbm_addr::{Mode, PageSize};
use sdbm_page::{Page, SharedPage};
use sdbm_split::{PlanFault, plan_store};
use std::alloc::{AllocError, Allocator};
use store_cmd::Reply;

// Computes the reply to a store, and its plan.
pub(crate) fn store_in<A: Allocator + Copy>(
    alloc: A,
    page: Option<&Page<A>>,
    site: Site,
    key: &[u8],
    value: &[u8],
    mode: Mode,
) -> Result<Worked<A>, AllocError>
    requires size { IfSome page (λ p. p.now.size ≡ site.size) }
    requires small { length key.now + length value.now ≤ pair_limit site.size }
    requires placed { IsPageOfKey site.place site.kind site.size (pairs_lent page) key.now }
    ensures worked { IfOk result (IsWorked (stored_on site (pairs_lent page.entry) key.now value.now mode)) }
    ensures err { OnErr result (takes_memory (stored_on {A = A} site (pairs_lent page.entry) key.now value.now mode).reply ≡ true) }
{
    match page {
        Some(page) => store_beside(alloc, page, site, key, value, mode),
        None => store_first(alloc, site.size, key, value),
    }
}

// Like `store_in`, on a page that has pairs.
fn store_beside<A: Allocator + Copy>(
    alloc: A,
    page: &Page<A>,
    site: Site,
    key: &[u8],
    value: &[u8],
    mode: Mode,
) -> Result<Worked<A>, AllocError>
    requires size { page.now.size ≡ site.size }
    requires small { length key.now + length value.now ≤ pair_limit site.size }
    requires placed { IsPageOfKey site.place site.kind site.size page.now.pairs key.now }
    ensures worked { IfOk result (IsWorked (stored_on site page.now.pairs key.now value.now mode)) }
    ensures err { OnErr result (takes_memory (stored_on {A = A} site page.now.pairs key.now value.now mode).reply ≡ true) }
{
    match plan_store(alloc, page, site.place, site.kind, key, value, mode) {
        Ok(plan) => Ok(Worked {
            reply: Reply::Stored,
            change: Some(plan),
        }),
        Err(PlanFault::Exists) => Ok(unchanged(Reply::Exists)),
        Err(PlanFault::Crowded) => Ok(unchanged(Reply::Crowded)),
        Err(PlanFault::NoMemory) => Err(AllocError),
    }
}

// Like `store_in`, if there is no page. A page's first pair always fits.
fn store_first<A: Allocator + Copy>(
    alloc: A,
    size: PageSize,
    key: &[u8],
    value: &[u8],
) -> Result<Worked<A>, AllocError>
    requires { length key.now + length value.now ≤ pair_limit size }
    ensures { IfOk result (IsWorked (stored_first size key.now value.now)) }
{
    let mut made = Page::empty(alloc, size)?;
    made.add(key, value);
    let leaf = SharedPage::new(alloc, made)?;
    Ok(changed(alloc, Reply::Stored, leaf))
}
