//! Listings of an open database, for the lines of a session.

use crate::rows::{Listing, show_rows};
use dbm_script::{Notation, read_bytes};
use dbm_stats::{figures_text, stats_of};
use sdbm_files::Image;
use std::alloc::{AllocError, Global};

/// A listing that a line of a session requests. Prefixes are in the notation of the session.
#[derive(Clone, Copy)]
pub enum ListingRequest<'a> {
    /// The output of `list`, for the keys with this prefix.
    Pairs(Option<&'a [u8]>),
    /// The output of `keys`, for the keys with this prefix.
    Keys(Option<&'a [u8]>),
    /// The output of `stats`.
    Stats,
}

/// Appends a listing of a database to `text`. Returns `false` and appends nothing if the prefix is invalid.
///
/// # Errors
/// `AllocError` if allocation fails.
pub fn show_listing(
    alloc: Global,
    notation: &Notation<Global>,
    image: &Image<Global>,
    shown: ListingRequest<'_>,
    text: &mut Vec<u8>,
) -> Result<bool, AllocError> {
    match shown {
        ListingRequest::Pairs(prefix) => put_rows(
            alloc,
            notation,
            image,
            prefix,
            Listing::Pairs,
            text,
        ),
        ListingRequest::Keys(prefix) => put_rows(
            alloc,
            notation,
            image,
            prefix,
            Listing::Keys,
            text,
        ),
        ListingRequest::Stats => {
            let stats = stats_of(alloc, image)?;
            let figures = figures_text(alloc, &stats)?;
            text.extend_from_slice(figures.as_slice())?;
            Ok(true)
        }
    }
}

// Appends a row for each pair whose key begins with a prefix. Returns `false` and appends nothing if the prefix is invalid.
fn put_rows(
    alloc: Global,
    notation: &Notation<Global>,
    image: &Image<Global>,
    prefix: Option<&[u8]>,
    listing: Listing,
    text: &mut Vec<u8>,
) -> Result<bool, AllocError> {
    let begin = match prefix {
        Some(word) => read_bytes(alloc, notation, word)?,
        None => read_bytes(alloc, notation, b".")?,
    };
    let Some(begin) = begin else {
        return Ok(false);
    };
    let pairs = image.lend_pairs()?;
    let rows = show_rows(alloc, notation, listing, begin.as_slice(), pairs.as_slice())?;
    text.extend_from_slice(rows.as_slice())?;
    Ok(true)
}
