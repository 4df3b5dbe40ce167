//! Finds the fullest pages.
ghost use Rattle.std.specs.Prelude.{◌≡◌, IfOk, map as map_list};
ghost use Rattle.std.specs.List.Sorted.{IsSortedByKey};
ghost use Rattle.std.specs.Ordering.{nat_cmp};
ghost use Rattle.dbm_stats.specs.Fullest.{AreFullest, room_on};

use crate::totals::PageShape;
use sdbm_addr::PageSize;
use std::alloc::{AllocError, Allocator};

// The maximum number of pages in the result.
const MOST: usize = 5;

/// A page and the number of its free bytes.
#[derive(Clone, Copy, Debug, PartialEq, Eq)]
pub struct PageRoom {
    pub number: u32,
    pub free: u32,
}

/// Finds the fullest pages, at most five, the fullest first. Of two pages with the same number of free bytes, the one with the lower number
/// comes first. The input is in the order of page numbers.
///
/// # Errors
/// `AllocError` if allocation fails.
pub fn fullest_of<A: Allocator + Copy>(
    alloc: A,
    shapes: &[PageShape],
    size: PageSize,
) -> Result<Vec<PageRoom, A>, AllocError>
    requires { IsSortedByKey (λ (s : PageShape). s.number) nat_cmp shapes.now }
    ensures { IfOk result (λ fullest. AreFullest (map_list (room_on size) shapes.now) fullest.items) }
{
    let mut rooms = rooms_of(alloc, shapes, size)?;
    rooms.sort_by_key(|room| room.free)?;
    rooms.truncate(MOST);
    Ok(rooms)
}

// Returns each page with its free bytes.
fn rooms_of<A: Allocator>(
    alloc: A,
    shapes: &[PageShape],
    size: PageSize,
) -> Result<Vec<PageRoom, A>, AllocError>
    ensures { IfOk result (λ rooms. rooms.items ≡ map_list (room_on size) shapes.now) }
{
    let mut rooms = Vec::with_capacity(alloc, shapes.len())?;
    for shape in shapes {
        rooms.push(room_on(shape, size))?;
    }
    Ok(rooms)
}

// Returns a page with its free bytes.
fn room_on(shape: &PageShape, size: PageSize) -> PageRoom
    ensures { result ≡ room_on size shape.now }
{
    PageRoom {
        number: shape.number,
        free: (size.bytes() as u32).saturating_sub(shape.filled),
    }
}
