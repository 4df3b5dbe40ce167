//! Generated edits, made both on a page and on the list of its pairs.

use crate::list_page::ListPage;
use crate::page_edits::{add_if_room, empty_page, has_room, place_of, take_out};
use sdbm_addr::PageSize;
use sdbm_page::Page;
use std::alloc::{AllocError, Global};
use test_support::{cut, number, read_size};

// The next of a sequence of pseudo-random numbers.
fn next_number(number: u64) -> u64 {
    number
        .wrapping_mul(6364136223846793005)
        .wrapping_add(1442695040888963407)
}

// Edits a page and its list: stores or removes a key of at most two bytes.
fn edit_both(page: &mut Page<Global>, list: &mut ListPage, number: u64) -> Result<(), AllocError> {
    let key = [((number >> 33) % 8) as u8, ((number >> 40) % 3) as u8];
    let key = &key[..(number >> 48) as usize % 3];
    let value = [((number >> 50) % 256) as u8; 200];
    let value = &value[..(number >> 56) as usize % 200];
    if let Some(i) = place_of(page, key) {
        let _out = take_out(page, i);
        list.remove(i);
    }
    if (number >> 37) % 4 > 0 && add_if_room(page, key, value) {
        list.add(key, value)?;
    }
    Ok(())
}

// Returns `true` if a page equals its list, has as much room, and finds a key at the same index.
fn agree(page: &Page<Global>, list: &ListPage, number: u64) -> Result<bool, AllocError> {
    let need = (number >> 52) as usize;
    if has_room(page, need) != list.fits(need) {
        return Ok(false);
    }
    if place_of(page, &[7, 2]) != list.find(&[7, 2]) {
        return Ok(false);
    }
    list.is(page)
}

// Makes `count` edits, and returns the last pseudo-random number. Returns `None` if the page differs from its list.
fn edit_all(
    page: &mut Page<Global>,
    list: &mut ListPage,
    first: u64,
    count: usize,
) -> Result<Option<u64>, AllocError> {
    let mut number = first;
    for _ in 0..count {
        number = next_number(number);
        edit_both(page, list, number)?;
        if !agree(page, list, number)? {
            return Ok(None);
        }
    }
    Ok(Some(number))
}

fn edited(global: Global, size: PageSize, first: u64, count: usize) -> Result<String, AllocError> {
    let mut page = empty_page(global, size)?;
    let mut list = ListPage::empty(global, size);
    match edit_all(&mut page, &mut list, first, count)? {
        Some(last) => format!(in global; "{} pairs as its list, {last}", page.len()),
        None => String::from_str(global, "not as its list"),
    }
}

/// Returns the result of generated edits as text.
pub fn edits_text(global: Global, rest: &str) -> Option<String> {
    let (size, rest) = cut(rest);
    let (first, count) = cut(rest);
    let first = first.parse::<u64>().unwrap_or(0);
    edited(global, read_size(size)?, first, number(count)).ok()
}
