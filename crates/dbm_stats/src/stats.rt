//! Statistics of a database: its pairs and their bytes, how full its pages are, and how deep its directory is.
ghost use Rattle.std.specs.Prelude.{◌≡◌, ◌≤◌, ◌^◌, IfOk, length};
ghost use Rattle.std.specs.FinMap as map;
ghost use Rattle.sdbm_addr.specs.Database.{map_of};
ghost use Rattle.dbm_stats.specs.Stats.{AreStats};

use crate::bars::bars_of;
use crate::depths::{Depths, depths_of};
use crate::fullest::{PageRoom, fullest_of};
use crate::shapes::shapes_of;
use crate::splits::count_splits;
use crate::totals::{PageShape, PairTotals, all_totals};
use sdbm_addr::PageSize;
use sdbm_files::Image;
use std::alloc::{AllocError, Allocator};

/// Statistics of a database.
#[derive(Drop)]
pub struct Stats<A: Allocator> {
    /// The number and the lengths of the pairs.
    pub pairs: PairTotals,
    /// The number of pages that have pairs.
    pub used: u32,
    /// The number of pages without pairs before the last page that has pairs. Each is all zeros in `.pag`.
    pub holes: u32,
    /// The length of the `.dir` file in bytes.
    pub dir_bytes: u64,
    /// The length of the `.pag` file in bytes.
    pub pag_bytes: u64,
    /// The length in bytes that the `.pag` file would have if the database were widened.
    pub wide_bytes: u64,
    /// Ten counts of pages by how full they are: less than one tenth, at least one and less than two tenths, and so on. Pages without pairs
    /// are not counted. A full page counts in the last tenth.
    pub bars: Vec<u32, A>,
    /// The fullest pages, at most five, the fullest first. Of two equally full pages, the one with the lower number comes first.
    pub fullest: Vec<PageRoom, A>,
    /// The number of split prefixes: the number of bits that are 1 in the `.dir` file.
    pub splits: u64,
    /// The depths of the pages that have pairs.
    pub depths: Depths,
}

/// Computes the statistics of a database. Reads each pair once, and each page a few times.
///
/// # Errors
/// `AllocError` if allocation fails. More than fifty bytes are allocated for each page that has pairs.
pub fn stats_of<A: Allocator + Copy>(alloc: A, image: &Image<A>) -> Result<Stats<A>, AllocError>
    ensures stats { IfOk result (AreStats image.now) }
    ensures count { IfOk result (λ stats. stats.pairs.count ≡ map.len (map_of image.now)) }
    ensures tenths { IfOk result (λ stats. length stats.bars.items ≡ 10) }
{
    let pages = shapes_of(alloc, image)?;
    let shapes = pages.as_slice();
    let count = image.page_count();
    let used = used_of(shapes);
    let size = image.page_size();
    let bars = bars_of(alloc, shapes, size)?;
    let fullest = fullest_of(alloc, shapes, size)?;
    let directory = image.directory_bytes();
    Ok(Stats {
        pairs: all_totals(shapes),
        used,
        holes: count as u32 - used,
        dir_bytes: directory.len() as u64,
        pag_bytes: image.pag_len(),
        wide_bytes: count * PageSize::Wide.bytes() as u64,
        bars,
        fullest,
        splits: count_splits(directory),
        depths: depths_of(shapes),
    })
}

// Returns the number of pages that have pairs.
fn used_of(shapes: &[PageShape]) -> u32
    requires { length shapes.now ≤ 2 ^ 31 }
    ensures { result ≡ length shapes.now }
{
    shapes.len() as u32
}
