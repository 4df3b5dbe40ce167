//! Refuses to open files of small pages with wide pages.
use crate::request::context_of;
use dbm_command_line::Request;
use dbm_files::{RunFiles, UnreadPages, take_rest};
use dbm_messages::ServeFault;
use dbm_places::RunPlace;
use sdbm_addr::{KeyBytes, PageSize};
use sdbm_sizes::{MOST_PAGES, page_looks_small, pages_look_small};
use std::alloc::{AllocError, Global};
use std::fs::File;
use std::rt::Files;
use std::time::{Clock, Duration};

// The two ways to hash the keys of a database. The user may have chosen the wrong one.
const KINDS: [KeyBytes; 2] = [KeyBytes::Signed, KeyBytes::Unsigned];

/// Returns `true` if a request opens its files with wide pages and the user does not insist. Files that look small are then refused.
pub fn must_be_wide(request: &Request<'_>) -> bool {
    context_of(request).words.wide && !request.access.insist
}

/// Refuses files that look small. An unread `.pag` is read as a whole only if its last page may be small. One page is enough to tell,
/// because in a database of small pages each wide page that is not all zeros looks small.
///
/// # Errors
/// `OtherSize` if the files look small, `NoMemory` if allocation fails, and the errors of `take_rest`.
pub fn refuse_small<R: Files<File = File> + Clock + AllocGlobal>(
    rt: &R,
    place: RunPlace<'_>,
    taken: RunFiles,
    patience: Option<Duration>,
) -> Result<RunFiles, ServeFault> {
    let directory = taken.bytes.directory.as_slice();
    let taken = match &taken.unread {
        Some(unread) if !may_be_small(rt.alloc(), directory, unread)? => {
            return Ok(taken);
        }
        Some(_) => take_rest(rt, place, taken, patience)?,
        None => taken,
    };
    let directory = taken.bytes.directory.as_slice();
    for kind in KINDS {
        if pages_look_small(rt.alloc(), directory, kind, &taken.bytes.pages)? {
            return Err(ServeFault::OtherSize);
        }
    }
    Ok(taken)
}

// Returns `true` if the last page of a `.pag` looks small, is all zeros, or cannot be read alone.
fn may_be_small(alloc: Global, directory: &[u8], unread: &UnreadPages) -> Result<bool, AllocError> {
    let pages = unread.len / PageSize::Wide.bytes();
    if pages == 0 || pages > MOST_PAGES {
        return Ok(pages != 0);
    }
    let last = (pages - 1) as u32;
    let Ok(page) = unread.page(alloc, last, PageSize::Wide) else {
        return Ok(true);
    };
    if page.iter().all(|byte| *byte == 0) {
        return Ok(true);
    }
    for kind in KINDS {
        if page_looks_small(alloc, directory, kind, last, page.as_slice())? {
            return Ok(true);
        }
    }
    Ok(false)
}
