//! Checks that the result of a command keeps `.pag` within its limit.
ghost use Rattle.std.specs.Prelude.{◌≡◌};
ghost use Rattle.std.specs.List.{list_all};
ghost use Rattle.std.specs.Option.{option_map};
ghost use Rattle.sdbm_files.specs.Limits.{most_pages};
ghost use Rattle.store_moves.specs.Works.{change_of, pairs_lent};
ghost use Rattle.sdbm_addr.specs.Database.{pairs_at};
ghost use Rattle.boddurci_handles.specs.Growth.{has_pairs, has_room, may_grow, most_in};

use sdbm_addr::PageSize;
use sdbm_files::Image;
use sdbm_page::{Page, SharedPage};
use sdbm_split::Plan;
use std::alloc::Global;

// The maximum number of pages of this size in a `.pag`.
fn longest(size: PageSize) -> u32
    ensures { result ≡ most_pages size }
{
    match size {
        PageSize::Small => 1_048_576,
        PageSize::Wide => 131_072,
    }
}

/// The maximum number of pages of a `.pag`: the limit, or the format's maximum if that is less.
pub fn most_pages(size: PageSize, limit: usize) -> u32
    ensures { result ≡ most_in size limit }
{
    let most = longest(size);
    if limit < most as usize {
        return limit as u32;
    }
    most
}

/// Returns true if a change puts pairs only on the first `most` pages. The page with this number may also be past these if
/// it had pairs before the change (`there`).
pub fn may_grow(most: u32, there: bool, number: u32, change: &Option<Plan<Global>>) -> bool
    ensures { result ≡ may_grow most there number (option_map change_of change.now) }
{
    match change {
        None => true,
        Some(plan) => {
            (there || has_room(most, number, &plan.leaf)) && have_room(most, plan.twins.as_slice())
        }
    }
}

/// Returns true if the page with this number has pairs.
pub fn has_pairs(image: &Image<Global>, number: u32) -> bool
    ensures { result ≡ has_pairs (pairs_at image.now number) }
{
    match image.page(number) {
        None => false,
        Some(page) => lends_pairs(Some(page.page())),
    }
}

/// Returns true if a page is given and has pairs.
pub fn lends_pairs(page: Option<&Page<Global>>) -> bool
    ensures { result ≡ has_pairs (pairs_lent page.entry) }
{
    match page {
        None => false,
        Some(page) => page.len() > 0,
    }
}

// Returns true if a page has no pairs, or its number is below `most`.
fn has_room(most: u32, number: u32, page: &SharedPage<Global>) -> bool
    ensures { result ≡ has_room most (number, page.now) }
{
    page.page().is_empty() || number < most
}

// Returns true if `has_room` is true for every twin.
fn have_room(most: u32, twins: &[(u32, SharedPage<Global>)]) -> bool
    ensures { result ≡ list_all (has_room most) twins.now }
{
    twins.iter().all(|twin| has_room(most, twin.0, &twin.1))
}
