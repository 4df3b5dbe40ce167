//! The depth of a page is the number of hash bits that lead to the page.
ghost use Rattle.std.specs.Prelude.{◌≡◌, ◌≤◌, ◌^◌, length, map as map_list};
ghost use Rattle.dbm_stats.specs.Depths.{depths_of};

use crate::totals::PageShape;

/// The least depth, the greatest depth, and the sum of the depths of pages. All are 0 if there is no page.
#[derive(Clone, Copy, Debug, PartialEq, Eq)]
pub struct Depths {
    pub least: u8,
    pub greatest: u8,
    pub sum: u64,
}

/// Returns the least depth, the greatest depth and the sum of the depths.
pub fn depths_of(shapes: &[PageShape]) -> Depths
    requires { length shapes.now ≤ 2 ^ 32 }
    ensures { result ≡ depths_of (map_list (λ (s : PageShape). s.depth) shapes.now) }
{
    Depths {
        least: least(shapes),
        greatest: greatest(shapes),
        sum: sum(shapes),
    }
}

// Returns the least depth, or 0 if there is no page.
fn least(shapes: &[PageShape]) -> u8
    ensures { result ≡ (depths_of (map_list (λ (s : PageShape). s.depth) shapes.now)).least }
{
    let mut least = match shapes.first() {
        Some(shape) => shape.depth,
        None => 0,
    };
    for shape in shapes {
        least = least.min(shape.depth);
    }
    least
}

// Returns the greatest depth, or 0 if there is no page.
fn greatest(shapes: &[PageShape]) -> u8
    ensures { result ≡ (depths_of (map_list (λ (s : PageShape). s.depth) shapes.now)).greatest }
{
    let mut greatest = 0u8;
    for shape in shapes {
        greatest = greatest.max(shape.depth);
    }
    greatest
}

// Returns the sum of the depths.
fn sum(shapes: &[PageShape]) -> u64
    requires { length shapes.now ≤ 2 ^ 32 }
    ensures { result ≡ (depths_of (map_list (λ (s : PageShape). s.depth) shapes.now)).sum }
{
    let mut sum = 0;
    for shape in shapes {
        sum += shape.depth as u64;
    }
    sum
}
