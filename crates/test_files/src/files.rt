//! Databases and the bytes of their files.

use crate::bench::{Bench, Known};
use sdbm_addr::{KeyBytes, PageSize};
use sdbm_files::{Image, MemSink, OpenFault, WriteFault};
use std::alloc::{AllocError, Allocator, Global};
use test_support::{cut, read_file, read_kind, read_size, show_file};

/// Both files of a database.
#[derive(Drop)]
pub struct Files {
    pub dir: MemSink<Global>,
    pub pag: MemSink<Global>,
}

/// Returns `true` if both pairs of files have the same bytes.
pub fn same_files(a: &Files, b: &Files) -> bool {
    a.dir.bytes() == b.dir.bytes() && a.pag.bytes() == b.pag.bytes()
}

/// Writes a database.
pub fn write_both<A: Allocator + Copy, B: Allocator>(
    image: &Image<A>,
    dir: &mut MemSink<B>,
    pag: &mut MemSink<B>,
) -> Result<(), WriteFault> {
    image.write(dir, pag)
}

/// Writes a database. Returns `None` if a write fails or if `Image::pag_len` is not the length of `.pag`.
pub fn files_of<A: Allocator + Copy>(global: Global, image: &Image<A>) -> Option<Files> {
    let mut dir = MemSink::new(global);
    let mut pag = MemSink::new(global);
    write_both(image, &mut dir, &mut pag).ok()?;
    if dir.has_failed() || pag.has_failed() {
        return None;
    }
    if pag.bytes().len() as u64 != image.pag_len() {
        return None;
    }
    Some(Files { dir, pag })
}

/// Opens files as a database.
pub fn open_files<A: Allocator + Copy>(
    alloc: A,
    dir: &[u8],
    pag: &[u8],
    kind: KeyBytes,
    size: PageSize,
) -> Result<Image<A>, OpenFault> {
    Image::open(alloc, dir, pag, kind, size)
}

/// Opens known files as a database.
pub fn open_known<A: Allocator + Copy>(alloc: A, known: &Known) -> Result<Image<A>, OpenFault> {
    let dir = known.dir.as_slice();
    let pag = known.pag.as_slice();
    open_files(alloc, dir, pag, known.kind, known.size)
}

fn file_of(global: Global, text: &str) -> Vec<u8> {
    match read_file(global, text) {
        Some(bytes) => bytes,
        None => Vec::new(global),
    }
}

/// Reads the files that a line describes.
pub fn read_known(global: Global, rest: &str) -> Option<Known> {
    let (kind, rest) = cut(rest);
    let (size, rest) = cut(rest);
    let (dir, pag) = rest.strip_prefix("dir ")?.split_once(" pag ")?;
    let kind = read_kind(kind)?;
    let size = read_size(size)?;
    Some(Known {
        kind,
        size,
        dir: file_of(global, dir),
        pag: file_of(global, pag),
    })
}

/// The number of pairs of a database, or the fault of its files.
pub fn opened_text<A: Allocator + Copy>(
    global: Global,
    opened: &Result<Image<A>, OpenFault>,
) -> Option<String> {
    match opened {
        Ok(image) => format!(in global; "count {}", image.count()).ok(),
        Err(fault) => format!(in global; "fault {fault:?}").ok(),
    }
}

fn open<A: Allocator + Copy>(bench: &mut Bench<A>, rest: &str) -> Option<String> {
    let known = read_known(bench.global, rest)?;
    let opened = open_known(bench.alloc, &known);
    let text = opened_text(bench.global, &opened)?;
    bench.known = Some(known);
    bench.image = opened.ok();
    Some(text)
}

/// The number of pairs of a database, its page size and the length of `.pag`.
pub fn count_text<A: Allocator + Copy>(global: Global, image: &Image<A>) -> Option<String> {
    let size = image.page_size();
    format!(in global; "{} {size:?} {}", image.count(), image.pag_len()).ok()
}

fn show_files(global: Global, dir: &[u8], pag: &[u8]) -> Result<String, AllocError> {
    let mut out = String::from_str(global, "dir ")?;
    show_file(global, &mut out, dir)?;
    out.push_str(" pag ")?;
    show_file(global, &mut out, pag)?;
    Ok(out)
}

fn write_text<A: Allocator + Copy>(global: Global, image: &Image<A>) -> Option<String> {
    let files = files_of(global, image)?;
    show_files(global, files.dir.bytes(), files.pag.bytes()).ok()
}

/// The answer to a line of this module. Returns `None` for any other line.
pub fn file_line<A: Allocator + Copy>(
    bench: &mut Bench<A>,
    word: &str,
    rest: &str,
) -> Option<String> {
    match word {
        "open" => open(bench, rest),
        "count" => count_text(bench.global, bench.image.as_ref()?),
        "write" => write_text(bench.global, bench.image.as_ref()?),
        _ => None,
    }
}
