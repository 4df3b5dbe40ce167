//! Pages given as bytes: their pairs, and whether writing and reading them again leaves them the same.

use crate::pages::{read_page, read_page_bytes, show_pairs_of};
use sdbm_page::Page;
use std::alloc::Global;
use test_support::tail;

// Returns `true` if a page that is read from a page's bytes has the same bytes.
fn page_stays(global: Global, page: &Page<Global>) -> bool {
    match read_page(global, page.bytes(), page.page_size()) {
        Some(Ok(again)) => again.bytes() == page.bytes(),
        _ => false,
    }
}

/// The pairs of a page, in order, and whether the page stays the same; or the fault of its bytes.
pub fn page_text(global: Global, rest: &str) -> Option<String> {
    let (bytes, size) = read_page_bytes(global, rest)?;
    let page = match read_page(global, bytes.as_slice(), size)? {
        Ok(page) => page,
        Err(fault) => return format!(in global; "fault {fault:?}").ok(),
    };
    let mut out = String::from_str(global, "pairs").ok()?;
    show_pairs_of(&mut out, &page).ok()?;
    out.push_str(tail(page_stays(global, &page))).ok()?;
    Some(out)
}
