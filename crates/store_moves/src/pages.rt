//! The page of a place.
ghost use Rattle.std.specs.Prelude.{◌≡◌, ◌+◌, IfSome};
ghost use Rattle.sdbm_addr.specs.Database.{pairs_at};
ghost use Rattle.store_moves.specs.Works.{pairs_lent};

use sdbm_files::Image;
use sdbm_page::Page;
use std::alloc::Allocator;

/// Returns the page with a number, or `None` if it has no pairs.
pub(crate) fn page_at<A: Allocator + Copy>(image: &Image<A>, number: u32) -> Option<&Page<A>>
    ensures pairs { pairs_lent result ≡ pairs_at image.now number }
    ensures size { IfSome result (λ page. page.now.size ≡ image.now.size) }
{
    match image.page(number) {
        None => None,
        Some(page) => Some(page.page()),
    }
}
