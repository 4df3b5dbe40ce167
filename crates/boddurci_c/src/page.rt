//! A database of which only the page of one key was read.
ghost use Rattle.std.specs.Prelude.{◌≡◌, ◌⊎◌, ◌%◌, length, true};
ghost use Rattle.sdbm_addr.specs.Pairs.{page_bytes};
ghost use Rattle.boddurci_c.specs.Page.{TurnsTo, PlansPage, bytes_of_plan};
ghost use Rattle.boddurci_handles.specs.declared.status.Status.TheVariants.{Done, Stale};

use crate::rooms::copy_out;
use boddurci_handles::{Db, Status};
use sdbm_addr::PageSize;
use sdbm_saves::Part;
use std::alloc::Global;
use store_marks::Base;
use store_parts::{open_next_part, plan_after};

// Returns true if the page is whole, and the file consists of whole pages.
fn has_whole_pages(part: Part<'_>, size: PageSize) -> bool
    ensures page { result ≡ true → length part.entry.page.now ≡ page_bytes size }
    ensures whole { result ≡ true → part.entry.len % page_bytes size ≡ 0 }
{
    if part.page.len() != size.bytes() {
        return false;
    }
    part.len % size.bytes() == 0
}

/// Replaces the database of a handle by a database that has only the page of a key. The handle keeps its programs and its limit.
/// Returns `BadFiles`, and leaves the database unchanged, if the page is not enough or memory ran out.
pub fn turn_to(db: &mut Db, key: &[u8], part: Part<'_>) -> Status
    ensures { TurnsTo key.now part.entry db.old result db.new }
{
    if !has_whole_pages(part, db.image.page_size()) {
        return Status::BadFiles;
    }
    let Some(image) = open_next_part(&db.image, key, part) else {
        return Status::BadFiles;
    };
    let base = Base::of(&image);
    db.marks.cut(0);
    db.base = base;
    db.image = image;
    Status::Done
}

/// Writes the plan of a database of one page to `room`, and lists in `numbers` the pages that the plan may write; each only if
/// it fits. Sets both lengths. Returns `Stale`, and changes nothing, if the page is not enough or memory ran out.
pub fn plan_page(
    alloc: Global,
    db: &Db,
    part: Part<'_>,
    numbers: &mut [u32],
    count: &mut usize,
    room: &mut [u8],
    len: &mut usize,
) -> Status
    ensures { PlansPage part.entry db.now numbers.old numbers.new count.new room.old room.new len.new result
        ⊎ ((result ≡ Stale) × ((numbers.new ≡ numbers.old) × ((count.new ≡ count.old) × ((room.new ≡ room.old) × (len.new ≡ len.old))))) }
{
    if !has_whole_pages(part, db.image.page_size()) {
        return Status::Stale;
    }
    let Some((written, plan)) = plan_after(alloc, part, &db.image) else {
        return Status::Stale;
    };
    let first = copy_out(written.as_slice(), numbers, count);
    both_done(first, copy_out(bytes_in(&plan), room, len))
}

// Returns the bytes of a plan, or no bytes if there is no plan.
fn bytes_in(plan: &Option<Vec<u8>>) -> &[u8]
    ensures { result.now ≡ bytes_of_plan plan.now }
{
    match plan {
        Some(plan) => plan.as_slice(),
        None => &[],
    }
}

// Returns the first status, or the second status if the first is `Done`.
fn both_done(first: Status, second: Status) -> Status
    ensures done { result ≡ Done → (first ≡ Done) × (second ≡ Done) }
    ensures says { (result ≡ first) ⊎ (result ≡ second) }
{
    match first {
        Status::Done => second,
        other => other,
    }
}
