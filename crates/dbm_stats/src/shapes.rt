//! Measures the pages that have pairs.
ghost use Rattle.std.specs.Prelude.{◌≡◌, Some, IfOk, IfSome, option_map, map as map_list};
ghost use Rattle.std.specs.List.{All};
ghost use Rattle.std.specs.FinMap as map;
ghost use Rattle.sdbm_addr.specs.Database.{IsDatabase};
ghost use Rattle.dbm_stats.specs.Totals.{AreBelow};
ghost use Rattle.dbm_stats.specs.Shapes.{filled, shape_of};

use crate::totals::{PageShape, page_totals};
use sdbm_files::Image;
use sdbm_page::{Page, SharedPage};
use std::alloc::{AllocError, Allocator};

/// Measures the pages that have pairs, in the order of their numbers.
///
/// # Errors
/// `AllocError` if allocation fails.
pub fn shapes_of<A: Allocator + Copy>(
    alloc: A,
    image: &Image<A>,
) -> Result<Vec<PageShape, A>, AllocError>
    ensures shapes { IfOk result (λ shapes. shapes.items ≡ map_list (shape_of image.now) (map.entries image.now.pages)) }
    ensures small { IfOk result (λ shapes. All (λ (s : PageShape). AreBelow s.totals 8192) shapes.items) }
{
    let mut shapes = Vec::new(alloc);
    for number in 0..image.page_count() {
        if let Some(shape) = shape_at(image, number as u32) {
            shapes.push(shape)?;
        }
    }
    Ok(shapes)
}

// Measures the page with this number. Returns `None` if the page has no pairs.
fn shape_at<A: Allocator + Copy>(image: &Image<A>, number: u32) -> Option<PageShape>
    ensures shape { result ≡ option_map (λ pairs. shape_of image.now (number, pairs)) (map.get image.now.pages number) }
    ensures small { IfSome result (λ shape. AreBelow shape.totals 8192) }
{
    match image.page(number) {
        Some(page) => Some(page_shape(image, number, page)),
        None => None,
    }
}

// Measures a page that has pairs.
fn page_shape<A: Allocator + Copy>(image: &Image<A>, number: u32, page: &SharedPage<A>) -> PageShape
    requires there { map.get image.now.pages number ≡ Some page.now.pairs }
    requires database { IsDatabase image.now }
    ensures shape { result ≡ shape_of image.now (number, page.now.pairs) }
    ensures small { AreBelow result.totals 8192 }
{
    let page = page.page();
    PageShape {
        number,
        depth: image.place(page.key(0)).depth,
        filled: filled(page),
        totals: page_totals(page),
    }
}

// Returns the number of bytes of a page that are not free.
fn filled<A: Allocator>(page: &Page<A>) -> u32
    ensures { result ≡ filled page.now.pairs }
{
    (page.page_size().bytes() - page.free()) as u32
}
