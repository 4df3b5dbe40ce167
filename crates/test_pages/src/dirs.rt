//! Places in directories of known bits, and the bytes of the directories.

use crate::bench::Bench;
use sdbm_dir::{Dir, DirFault, Place};
use std::alloc::{AllocError, Allocator, Global};
use std::fmt::Write;
use test_support::{read_file, show_file};

// Splits the place of a hash, and returns the bit that is set.
fn split<A: Allocator>(dir: &mut Dir<A>, hash: u32) -> Result<Option<u32>, AllocError> {
    let place = dir.place(hash);
    if place.depth > 30 {
        return Ok(None);
    }
    dir.grow_for(place.bit)?;
    dir.mark(place.bit);
    Ok(Some(place.bit))
}

fn place_of<A: Allocator>(dir: &Dir<A>, hash: u32) -> Place {
    dir.place(hash)
}

fn dir_of<A: Allocator + Copy>(alloc: A, bytes: &[u8]) -> Result<Dir<A>, DirFault> {
    Dir::from_bytes(alloc, bytes)
}

fn split_text<A: Allocator>(global: Global, dir: &mut Dir<A>, hash: &str) -> Option<String> {
    match split(dir, hash.parse::<u32>().ok()?).ok()? {
        Some(bit) => format!(in global; "{bit}").ok(),
        None => String::from_str(global, "deep").ok(),
    }
}

fn place_text<A: Allocator>(global: Global, dir: &Dir<A>, hash: &str) -> Option<String> {
    let place = place_of(dir, hash.parse::<u32>().ok()?);
    format!(in global;
        "page {} depth {} bit {}",
        place.page, place.depth, place.bit
    )
    .ok()
}

fn marked_text<A: Allocator>(global: Global, dir: &Dir<A>, bits: &str) -> Option<String> {
    let mut out = String::from_str(global, "marked").ok()?;
    for word in bits.split(' ') {
        let bit = word.parse::<u32>().ok()?;
        if dir.is_split(bit) {
            write!(out, " {bit}").ok()?;
        }
    }
    Some(out)
}

fn grow_text<A: Allocator>(global: Global, dir: &mut Dir<A>, bit: &str) -> Option<String> {
    dir.grow_for(bit.parse::<u32>().ok()?).ok()?;
    String::from_str(global, "grown").ok()
}

fn bits_text<A: Allocator>(global: Global, dir: &Dir<A>) -> Option<String> {
    let mut out = String::new(global);
    show_file(global, &mut out, dir.bytes()).ok()?;
    Some(out)
}

fn read_dir<A: Allocator + Copy>(bench: &mut Bench<A>, file: &str) -> Option<String> {
    let bytes = read_file(bench.global, file)?;
    match dir_of(bench.alloc, bytes.as_slice()) {
        Ok(dir) => {
            bench.dir = dir;
            String::from_str(bench.global, "dir").ok()
        }
        Err(fault) => format!(in bench.global; "fault {fault:?}").ok(),
    }
}

fn empty_dir<A: Allocator + Copy>(bench: &mut Bench<A>) -> Option<String> {
    bench.dir = Dir::empty(bench.alloc);
    String::from_str(bench.global, "dir").ok()
}

fn again<A: Allocator + Copy>(bench: &mut Bench<A>) -> Option<String> {
    let dir = dir_of(bench.alloc, bench.dir.bytes()).ok()?;
    let same = dir.bytes() == bench.dir.bytes();
    bench.dir = dir;
    let text = if same { "again" } else { "other bytes" };
    String::from_str(bench.global, text).ok()
}

/// The answer to a line of this module. Returns `None` for any other line.
pub fn dir_line<A: Allocator + Copy>(
    bench: &mut Bench<A>,
    word: &str,
    rest: &str,
) -> Option<String> {
    match word {
        "dir" if rest.is_empty() => empty_dir(bench),
        "dir" => read_dir(bench, rest),
        "again" => again(bench),
        "split" => split_text(bench.global, &mut bench.dir, rest),
        "place" => place_text(bench.global, &bench.dir, rest),
        "marked" => marked_text(bench.global, &bench.dir, rest),
        "grow" => grow_text(bench.global, &mut bench.dir, rest),
        "bits" => bits_text(bench.global, &bench.dir),
        _ => None,
    }
}
