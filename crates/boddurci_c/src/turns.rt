//! Iterates over all pairs: a cursor visits the pages in the order of their numbers, and the pairs of each page in order.
ghost use Rattle.std.specs.Prelude.{◌≡◌, ◌↔◌, ◌<◌, ◌+◌, [], length, IsTrue, IfSome, IfNone};
ghost use Rattle.sdbm_addr.specs.Database.{pairs_at};
ghost use Rattle.sdbm_addr.specs.Pairs.{key_at, value_at};
ghost use Rattle.boddurci_c.specs.Turns.{IsFirstFrom, AreBare, IsNextPair, IsCursorOver, CursorTurns};

use crate::rooms::copy_both;
use boddurci_handles::Status;
use sdbm_files::Image;
use std::alloc::Global;

/// The position of an iteration: a page, the number of pairs of that page already visited, and the page number at which the
/// iteration ends.
#[repr(C)]
#[derive(Clone, Copy)]
pub struct Cursor {
    pub page: u32,
    pub end: u32,
    pub pair: usize,
}

// A pair, and the number of pairs in its page up to and including this pair.
#[derive(Clone, Copy)]
struct Met<'a> {
    key: &'a [u8],
    value: &'a [u8],
    behind: usize,
}

// Returns true if a page has no pairs.
fn is_bare(image: &Image<Global>, number: u32) -> bool
    ensures { IsTrue result ↔ (pairs_at image.now number ≡ []) }
{
    match image.page(number) {
        Some(shared) => shared.page().is_empty(),
        None => true,
    }
}

// Returns true if a page has a pair with the index i.
fn has_pair(image: &Image<Global>, number: u32, i: usize) -> bool
    ensures { IsTrue result ↔ (i < length (pairs_at image.now number)) }
{
    match image.page(number) {
        Some(shared) => i < shared.page().len(),
        None => false,
    }
}

// Returns the first page that has pairs, from `from` up to but not including `end`.
fn next_page(image: &Image<Global>, from: u32, end: u32) -> Option<u32>
    ensures some { IfSome result (IsFirstFrom image.now from end) }
    ensures none { IfNone result (AreBare image.now from end) }
{
    for number in from..end {
        if !is_bare(image, number) {
            return Some(number);
        }
    }
    None
}

// Returns the page of the next pair and the index of the pair in that page, or `None` if no pair is left.
fn seek(image: &Image<Global>, cursor: Cursor) -> Option<(u32, usize)>
    ensures some { IfSome result (λ at. IsNextPair image.now cursor at.0 at.1) }
    ensures none { IfNone result (IsCursorOver image.now cursor) }
{
    if cursor.page >= cursor.end {
        return None;
    }
    if has_pair(image, cursor.page, cursor.pair) {
        return Some((cursor.page, cursor.pair));
    }
    match next_page(image, cursor.page + 1, cursor.end) {
        Some(number) => Some((number, 0)),
        None => None,
    }
}

// Returns pair i of a page.
fn pair_at(image: &Image<Global>, number: u32, i: usize) -> Met<'_>
    requires { i < length (pairs_at image.now number) }
    ensures key { result.key.now ≡ key_at (pairs_at image.now number) i }
    ensures value { result.value.now ≡ value_at (pairs_at image.now number) i }
    ensures behind { result.behind ≡ i + 1 }
{
    let Some(shared) = image.page(number) else {
        unreachable!()
    };
    let page = shared.page();
    let _count = page.len();
    Met {
        key: page.key(i),
        value: page.record(i),
        behind: i + 1,
    }
}

/// Copies the next pair to two buffers if both the key and the value fit, and advances the cursor past it. Sets both lengths unless
/// no pair is left.
pub fn turn(
    image: &Image<Global>,
    cursor: &mut Cursor,
    key: &mut [u8],
    key_len: &mut usize,
    value: &mut [u8],
    value_len: &mut usize,
) -> Status
    ensures { CursorTurns image.now cursor.old cursor.new key.old key.new key_len.new value.old value.new value_len.new result }
{
    let Some((number, i)) = seek(image, *cursor) else {
        return Status::Missing;
    };
    let pair = pair_at(image, number, i);
    *key_len = pair.key.len();
    *value_len = pair.value.len();
    let status = copy_both(pair.key, pair.value, key, value);
    if status == Status::Done {
        cursor.page = number;
        cursor.pair = pair.behind;
    }
    status
}
