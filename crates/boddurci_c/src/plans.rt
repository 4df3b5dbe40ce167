//! The plan of a save.
ghost use Rattle.std.specs.Prelude.{◌≡◌, ◌↔◌, ◌⊎◌, ◌*◌, IsTrue, IfOk, IfErr, OnOk};
ghost use Rattle.store_marks.specs.Marks.{AreAmong};
ghost use Rattle.boddurci_c.specs.Plans.{HasRead, PlansFor, PlansOn, DeniesPlan};

use crate::rooms::copy_out;
use boddurci_handles::{Db, Status};
use sdbm_saves::{Marked, SavePlanFault, plan_marked};
use std::alloc::{AllocError, Global};
use store_marks::{Base, Marks};

/// Writes the plan of a save to `room` if it fits, and sets its length either way. The plan turns the old files, of which some
/// pages were read, into those of the database. It is empty if nothing differs. Once the plan is written, the database is its
/// own base, and no page is marked. If the database fits in the longest `.pag`, the new `.pag` is no longer than that.
pub fn plan(alloc: Global, db: &mut Db, old: Marked<'_>, room: &mut [u8], len: &mut usize) -> Status
    ensures { PlansOn old.entry.directory.now old.entry.len old.entry.numbers.now old.entry.pages.now db.old room.old room.new len.new result db.new
        ⊎ (DeniesPlan old.entry.directory.now old.entry.len old.entry.numbers.now old.entry.pages.now db.old result
        × ((db.new ≡ db.old) × ((room.new ≡ room.old) × (len.new ≡ len.old)))) }
{
    let plan = match plan_of(alloc, &*db, old) {
        Ok(plan) => plan,
        Err(status) => return status,
    };
    match copy_out(plan.as_slice(), room, len) {
        Status::Done => {
            let base = Base::of(&db.image);
            db.marks.cut(0);
            db.base = base;
            Status::Done
        }
        status => status,
    }
}

// Returns the bytes of the plan. Returns `Stale` if a marked page was not read, or if the number of bytes is wrong.
fn plan_of(alloc: Global, db: &Db, old: Marked<'_>) -> Result<Vec<u8>, Status>
    ensures ok { IfOk result (λ plan. PlansFor old.entry.directory.now old.entry.len old.entry.numbers.now old.entry.pages.now db.now plan.items) }
    ensures read { OnOk result (HasRead db.now old.entry.numbers.now old.entry.pages.now) }
    ensures err { IfErr result (DeniesPlan old.entry.directory.now old.entry.len old.entry.numbers.now old.entry.pages.now db.now) }
{
    let Some(bytes) = old.numbers.len().checked_mul(db.image.page_size().bytes()) else {
        return Err(Status::Stale);
    };
    if old.pages.len() != bytes {
        return Err(Status::Stale);
    }
    match are_among(alloc, &db.marks, old.numbers) {
        Ok(true) => {}
        Ok(false) => return Err(Status::Stale),
        Err(_) => return Err(Status::NoMemory),
    }
    match plan_marked(alloc, old, &db.image) {
        Ok(Some(plan)) => Ok(plan),
        Ok(None) => Ok(Vec::new(alloc)),
        Err(SavePlanFault::TooLong) => Err(Status::TooLong),
        Err(SavePlanFault::NoMemory) => Err(Status::NoMemory),
    }
}

// Returns true if all marked pages are among the numbers.
fn are_among(alloc: Global, marks: &Marks, numbers: &[u32]) -> Result<bool, AllocError>
    ensures { IfOk result (λ are. IsTrue are ↔ AreAmong marks.now numbers.now) }
{
    let mut given = Marks::new(alloc);
    for number in numbers {
        if marks.has(*number) {
            given.add(*number)?;
        }
    }
    for mark in marks.as_slice() {
        if !given.has(*mark) {
            return Ok(false);
        }
    }
    Ok(true)
}
