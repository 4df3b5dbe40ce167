//! Widens databases, with more and more memory until there is enough.

use crate::bench::Bench;
use crate::files::{Files, files_of, same_files};
use sdbm_addr::PageSize;
use sdbm_files::{Image, widen};
use std::alloc::Allocator;
use test_support::{MOST_TIMES, fill};

fn widen_once<A: Allocator + Copy>(image: Image<A>) -> Result<Image<A>, Image<A>> {
    match widen(image) {
        Ok(wide) => Ok(wide),
        Err((_error, refused)) => Err(refused),
    }
}

// Widens a database while all memory of the heap except `spared` bytes is in use.
fn widen_with<A: Allocator + Copy>(
    bench: &Bench<A>,
    image: Image<A>,
    spared: usize,
) -> Option<Result<Image<A>, Image<A>>> {
    let blocks = match bench.heap {
        Some(heap) => fill(bench.global, heap, spared).ok()?,
        None => Vec::new(bench.global),
    };
    let widened = widen_once(image);
    drop(blocks);
    Some(widened)
}

// Returns `true` if a refused database is unchanged.
fn is_as_before<A: Allocator + Copy>(
    bench: &Bench<A>,
    image: &Image<A>,
    size: PageSize,
    files: &Files,
) -> Option<bool> {
    if image.page_size() != size {
        return Some(false);
    }
    Some(same_files(&files_of(bench.global, image)?, files))
}

fn widened_text(times: usize, count: usize) -> &'static str {
    if times == 0 {
        "widened"
    } else if times > count {
        "widened, refused more often"
    } else {
        "widened, refused at first"
    }
}

/// Widens the database with more and more memory until there is enough. Says whether widening was refused at first, and if
/// so, whether more than `count` times. A refusal has to leave the database unchanged.
pub fn widen_text<A: Allocator + Copy>(bench: &mut Bench<A>, count: &str) -> Option<String> {
    let count = count.parse::<usize>().ok()?;
    let mut image = bench.image.take()?;
    let size = image.page_size();
    let files = files_of(bench.global, &image)?;
    for times in 0..MOST_TIMES {
        match widen_with(bench, image, 16 * times)? {
            Ok(wide) => {
                bench.image = Some(wide);
                return String::from_str(bench.global, widened_text(times, count)).ok();
            }
            Err(refused) => image = refused,
        }
        if !is_as_before(bench, &image, size, &files)? {
            return String::from_str(bench.global, "a refusal that changes something").ok();
        }
    }
    None
}
