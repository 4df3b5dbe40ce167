//! Counts pages by how full they are, in tenths.
ghost use Rattle.std.specs.Prelude.{◌≡◌, ◌≤◌, ◌==◌, ◌^◌, IfOk, length, map as map_list};
ghost use Rattle.std.specs.List.{count_by, range_with_len};
ghost use Rattle.dbm_stats.specs.Shapes.{tenth};

use crate::totals::PageShape;
use sdbm_addr::PageSize;
use std::alloc::{AllocError, Allocator};

/// Counts the pages in each tenth, the emptiest tenth first.
///
/// # Errors
/// `AllocError` if allocation fails.
pub fn bars_of<A: Allocator>(
    alloc: A,
    shapes: &[PageShape],
    size: PageSize,
) -> Result<Vec<u32, A>, AllocError>
    requires { length shapes.now ≤ 2 ^ 31 }
    ensures { IfOk result (λ bars. bars.items ≡ map_list (λ i. count_by (λ (s : PageShape). tenth size s.filled == i) shapes.now) (range_with_len 0 10)) }
{
    let mut bars = Vec::new(alloc);
    for i in 0..10 {
        bars.push(count_tenth(shapes, size, i))?;
    }
    Ok(bars)
}

// Counts the pages in tenth `i`.
fn count_tenth(shapes: &[PageShape], size: PageSize, i: u64) -> u32
    requires { length shapes.now ≤ 2 ^ 31 }
    ensures { result ≡ count_by (λ (s : PageShape). tenth size s.filled == i) shapes.now }
{
    let mut count = 0;
    for shape in shapes {
        if tenth(shape.filled, size) == i {
            count += 1;
        }
    }
    count
}

// Returns the tenth, from 0 to 9, of a page with `filled` bytes in use.
fn tenth(filled: u32, size: PageSize) -> u64
    ensures { result ≡ tenth size filled }
{
    let tenths = 10 * filled as u64 / size.bytes() as u64;
    tenths.min(9)
}
