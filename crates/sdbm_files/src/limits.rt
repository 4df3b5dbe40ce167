//! The limit on the length of a `.pag`, and the test whether a page is within the limit.
ghost use Rattle.std.specs.Prelude.{◌≡◌};
ghost use Rattle.sdbm_files.specs.Limits.{pag_limit, most_pages, has_place};

use sdbm_addr::PageSize;
use sdbm_page::SharedPage;
use std::alloc::Allocator;

/// The greatest length in bytes of a `.pag` that is read or written: 1 GiB.
pub const PAG_LIMIT: u64 = 1_073_741_824;

// The number of pages in the longest `.pag`.
fn most_pages(size: PageSize) -> u32
    ensures { result ≡ most_pages size }
{
    match size {
        PageSize::Small => 1_048_576,
        PageSize::Wide => 131_072,
    }
}

/// Returns `true` if the page may have this number in a `.pag`: the page ends within the limit or has no pairs.
pub fn has_place<A: Allocator + Copy>(size: PageSize, number: u32, page: &SharedPage<A>) -> bool
    ensures { result ≡ has_place size (number, page.now) }
{
    page.page().is_empty() || number < most_pages(size)
}
