//! Pages: their pairs with their indices, writes in place, room, and bytes.

use crate::bench::Bench;
use crate::edits::edits_text;
use crate::list_page::ListPage;
use crate::page_edits::{add_if_room, empty_page, has_room, place_of, take_out};
use sdbm_addr::PageSize;
use sdbm_page::{Page, PageFault};
use std::alloc::{AllocError, Allocator, Global};
use std::mem;
use test_support::{bytes_of, cut, number, read_file, read_size, show_bytes, show_file};

// Returns `true` if two pages have the same size and the same pairs in the same order.
fn are_equal<A: Allocator>(a: &Page<A>, b: &Page<A>) -> bool {
    if a.page_size() != b.page_size() || a.len() != b.len() {
        return false;
    }
    for i in 0..a.len() {
        if a.key(i) != b.key(i) || a.record(i) != b.record(i) {
            return false;
        }
    }
    true
}

/// Writes the pairs of a page, in order.
pub fn show_pairs_of<A: Allocator>(out: &mut String, page: &Page<A>) -> Result<(), AllocError> {
    for i in 0..page.len() {
        out.push_str(" ")?;
        show_bytes(out, page.key(i))?;
        out.push_str("=")?;
        show_bytes(out, page.record(i))?;
    }
    Ok(())
}

// Overwrites the first byte of a value. Returns `false` if the value is missing or empty.
fn put_first<A: Allocator>(page: &mut Page<A>, i: usize, byte: u8) -> bool {
    if i >= page.len() {
        return false;
    }
    match page.record_mut(i).first_mut() {
        Some(place) => {
            *place = byte;
            true
        }
        None => false,
    }
}

/// Reads bytes as a page. Returns `None` if their number is not the page size.
pub fn read_page<A: Allocator + Copy>(
    alloc: A,
    bytes: &[u8],
    size: PageSize,
) -> Option<Result<Page<A>, PageFault>> {
    if bytes.len() != size.bytes() {
        return None;
    }
    Some(Page::from_bytes(alloc, bytes, size))
}

fn said(global: Global, told: bool, yes: &str, no: &str) -> Option<String> {
    String::from_str(global, if told { yes } else { no }).ok()
}

fn empty<A: Allocator + Copy>(bench: &mut Bench<A>, size: &str) -> Option<String> {
    let size = read_size(size)?;
    let Ok(page) = empty_page(bench.alloc, size) else {
        return String::from_str(bench.global, "refused").ok();
    };
    let text = if page.is_empty() {
        "page"
    } else {
        "a page with pairs"
    };
    bench.page = Some(page);
    bench.list = ListPage::empty(bench.global, size);
    String::from_str(bench.global, text).ok()
}

// Reads bytes as a page and puts it on the bench.
fn put_read<A: Allocator + Copy>(
    bench: &mut Bench<A>,
    bytes: &[u8],
    size: PageSize,
) -> Option<String> {
    match read_page(bench.alloc, bytes, size)? {
        Ok(page) => {
            bench.page = Some(page);
            String::from_str(bench.global, "page").ok()
        }
        Err(fault) => format!(in bench.global; "fault {fault:?}").ok(),
    }
}

/// Reads the bytes of a page, and its size.
pub fn read_page_bytes(global: Global, rest: &str) -> Option<(Vec<u8>, PageSize)> {
    let (size, segments) = cut(rest);
    let size = read_size(size)?;
    let file = format!(in global; "{} {segments}", size.bytes()).ok()?;
    Some((read_file(global, file.as_str())?, size))
}

fn read<A: Allocator + Copy>(bench: &mut Bench<A>, rest: &str) -> Option<String> {
    let (bytes, size) = read_page_bytes(bench.global, rest)?;
    put_read(bench, bytes.as_slice(), size)
}

fn between<A: Allocator + Copy>(bench: &mut Bench<A>, rest: &str) -> Option<String> {
    let (byte, segments) = cut(rest);
    let file = format!(in bench.global; "1024 0:{byte}*1024 {segments}").ok()?;
    let bytes = read_file(bench.global, file.as_str())?;
    put_read(bench, bytes.as_slice(), PageSize::Small)
}

// Adds a pair to the page and to its list.
fn add<A: Allocator + Copy>(bench: &mut Bench<A>, key: &[u8], value: &[u8]) -> Option<String> {
    let added = add_if_room(bench.page.as_mut()?, key, value);
    if added {
        bench.list.add(key, value).ok()?;
    }
    said(bench.global, added, "added", "not added")
}

fn add_line<A: Allocator + Copy>(bench: &mut Bench<A>, rest: &str) -> Option<String> {
    let (key, value) = cut(rest);
    let key = bytes_of(bench.global, key);
    let value = bytes_of(bench.global, value);
    add(bench, key.as_slice(), value.as_slice())
}

// Removes a key's pair from the page and from its list.
fn take_own<A: Allocator + Copy>(bench: &mut Bench<A>, key: &[u8]) -> Option<()> {
    let page = bench.page.as_mut()?;
    if let Some(i) = place_of(page, key) {
        let _out = take_out(page, i);
        bench.list.remove(i);
    }
    Some(())
}

fn replace_line<A: Allocator + Copy>(bench: &mut Bench<A>, rest: &str) -> Option<String> {
    let (key, _) = cut(rest);
    take_own(bench, bytes_of(bench.global, key).as_slice())?;
    add_line(bench, rest)
}

fn remove_line<A: Allocator + Copy>(bench: &mut Bench<A>, place: &str) -> Option<String> {
    let place = number(place);
    let out = take_out(bench.page.as_mut()?, place);
    bench.list.remove(place);
    said(bench.global, out, "removed", "not removed")
}

fn put_line<A: Allocator + Copy>(bench: &mut Bench<A>, rest: &str) -> Option<String> {
    let (place, byte) = cut(rest);
    let byte = bytes_of(bench.global, byte).first().copied().unwrap_or(0);
    let put = put_first(bench.page.as_mut()?, number(place), byte);
    said(bench.global, put, "put", "not put")
}

fn find_line<A: Allocator>(global: Global, page: &Page<A>, key: &str) -> Option<String> {
    match place_of(page, bytes_of(global, key).as_slice()) {
        Some(place) => format!(in global; "{place}").ok(),
        None => String::from_str(global, "none").ok(),
    }
}

fn pairs_line<A: Allocator>(global: Global, page: &Page<A>) -> Option<String> {
    let size = page.page_size();
    let mut out = format!(in global; "{size:?}").ok()?;
    show_pairs_of(&mut out, page).ok()?;
    Some(out)
}

fn image_line<A: Allocator>(global: Global, page: &Page<A>) -> Option<String> {
    let mut out = String::new(global);
    show_file(global, &mut out, page.bytes()).ok()?;
    Some(out)
}

fn list_line<A: Allocator>(list: &ListPage, global: Global, page: &Page<A>) -> Option<String> {
    said(
        global,
        list.is(page).ok()?,
        "as its list",
        "not as its list",
    )
}

fn keep<A: Allocator + Copy>(bench: &mut Bench<A>) -> Option<String> {
    match bench.page.as_ref()?.try_clone() {
        Ok(copy) => {
            bench.copy = Some(copy);
            String::from_str(bench.global, "kept").ok()
        }
        Err(_) => String::from_str(bench.global, "refused").ok(),
    }
}

fn beside<A: Allocator + Copy>(bench: &mut Bench<A>) -> Option<String> {
    mem::swap(&mut bench.page, &mut bench.copy);
    String::from_str(bench.global, "beside").ok()
}

fn same<A: Allocator>(bench: &Bench<A>) -> Option<String> {
    let same = are_equal(bench.page.as_ref()?, bench.copy.as_ref()?);
    said(bench.global, same, "the same", "others")
}

// The answer to a line about the page on the bench.
fn told<A: Allocator>(bench: &Bench<A>, word: &str, rest: &str) -> Option<String> {
    let page = bench.page.as_ref()?;
    match word {
        "find" => find_line(bench.global, page, rest),
        "fits" => {
            let fits = has_room(page, number(rest));
            said(bench.global, fits, "fits", "does not fit")
        }
        "pairs" => pairs_line(bench.global, page),
        "image" => image_line(bench.global, page),
        "list" => list_line(&bench.list, bench.global, page),
        _ => None,
    }
}

/// The answer to a line of this module. Returns `None` for any other line.
pub fn page_line<A: Allocator + Copy>(
    bench: &mut Bench<A>,
    word: &str,
    rest: &str,
) -> Option<String> {
    match word {
        "page" => empty(bench, rest),
        "read" => read(bench, rest),
        "between" => between(bench, rest),
        "add" => add_line(bench, rest),
        "replace" => replace_line(bench, rest),
        "remove" => remove_line(bench, rest),
        "put" => put_line(bench, rest),
        "keep" => keep(bench),
        "beside" => beside(bench),
        "same" => same(bench),
        "edits" => edits_text(bench.global, rest),
        _ => told(bench, word, rest),
    }
}
