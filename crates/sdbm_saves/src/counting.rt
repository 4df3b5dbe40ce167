// Counts the pages of a `.pag` after a save, from the pages that may have changed.
ghost use Rattle.std.specs.Prelude.{◌≡◌, ◌≢◌, ◌<◌, ◌≤◌, ◌^◌, ◌-◌, ℕ, List, [], length, get_or};
ghost use Rattle.sdbm_addr.specs.Database.{IsDatabase, pairs_at};
ghost use Rattle.sdbm_addr.specs.Files.{IsPageCount};
ghost use Rattle.sdbm_saves.specs.Parts.{IsMarkedIn};

use crate::Marked;
use crate::planning::LIMIT;
use sdbm_files::Image;
use std::alloc::Allocator;

/// Returns the number of pages of `.pag` after the save. The time is proportional to the number of listed pages if the last page of the
/// old file still has pairs. Otherwise, all pages of the database are counted.
pub(crate) fn count_marked<A: Allocator + Copy>(old: Marked<'_>, image: &Image<A>) -> u64
    ensures count { (pag : List ℕ) → IsMarkedIn old.entry image.now pag → IsPageCount image.now result }
    ensures few { result ≤ 2 ^ 32 }
    ensures database { IsDatabase image.now }
{
    let size = image.page_size().bytes();
    let pages = old.len / size;
    if old.len >= LIMIT || pages == 0 || old.len % size != 0 {
        return image.page_count();
    }
    if !image.has_pairs((pages - 1) as u32) {
        return image.page_count();
    }
    count_from(pages as u64, old.numbers, image)
}

// Returns the least count that is at least `first` and greater than each listed number of a page with pairs.
fn count_from<A: Allocator + Copy>(first: u64, numbers: &[u32], image: &Image<A>) -> u64
    requires last { pairs_at image.now (first - 1) ≢ [] }
    requires few { first ≤ 2 ^ 32 }
    ensures least { first ≤ result }
    ensures few { result ≤ 2 ^ 32 }
    ensures last { pairs_at image.now (result - 1) ≢ [] }
    ensures past { (k d : ℕ) → k < length numbers.now → pairs_at image.now (get_or numbers.now k d) ≢ [] → get_or numbers.now k d < result }
{
    let mut count = first;
    for number in numbers {
        count = count_with(count, *number, image);
    }
    count
}

// Returns the count, or the number plus 1 if that is greater and the page has pairs.
fn count_with<A: Allocator + Copy>(count: u64, number: u32, image: &Image<A>) -> u64
    requires last { pairs_at image.now (count - 1) ≢ [] }
    requires few { count ≤ 2 ^ 32 }
    ensures least { count ≤ result }
    ensures few { result ≤ 2 ^ 32 }
    ensures last { pairs_at image.now (result - 1) ≢ [] }
    ensures past { pairs_at image.now number ≢ [] → number < result }
{
    if (number as u64) < count {
        return count;
    }
    if !image.has_pairs(number) {
        return count;
    }
    number as u64 + 1
}
