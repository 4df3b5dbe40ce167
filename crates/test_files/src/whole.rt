//! Databases given as bytes: the number of their pairs, and whether writing and reading them again leaves them the same.

use crate::files::{files_of, open_files, open_known, opened_text, read_known, same_files};
use sdbm_files::Image;
use std::alloc::Global;
use test_support::tail;

// Returns `true` if writing and reading a database again keeps its number of pairs and the bytes of its files.
fn image_stays(global: Global, image: &Image<Global>) -> Option<bool> {
    let files = files_of(global, image)?;
    let dir = files.dir.bytes();
    let pag = files.pag.bytes();
    let again = open_files(global, dir, pag, image.key_bytes(), image.page_size()).ok()?;
    let second = files_of(global, &again)?;
    Some(again.count() == image.count() && same_files(&second, &files))
}

/// The number of pairs of the database of both files and whether it stays the same, or the fault of the files.
pub fn files_text(global: Global, rest: &str) -> Option<String> {
    let opened = open_known(global, &read_known(global, rest)?);
    let mut out = opened_text(global, &opened)?;
    if let Ok(image) = opened {
        let stays = image_stays(global, &image).unwrap_or(false);
        out.push_str(tail(stays)).ok()?;
    }
    Some(out)
}
