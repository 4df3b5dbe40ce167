//! The result of a command on the page of its key, and the plan that saves the change.
ghost use Rattle.std.specs.Prelude.{◌≡◌, ◌%◌, ℕ, List, length, IfSome};
ghost use Rattle.sdbm_addr.specs.Pairs.{page_bytes};
ghost use Rattle.sdbm_saves.specs.Redo.{IsPlan, Knows};
ghost use Rattle.sdbm_saves.specs.Parts.{IsReadSo};
ghost use Rattle.dbm_records.specs.PageRequests.{IsKeyed, request_key};
ghost use Rattle.dbm_records.specs.PageResults.{IsPageResult};

use crate::page_request::PageRequest;
use dbm_reports::{Notes, Report};
use dbm_script::Notation;
use sdbm_addr::{KeyBytes, PageSize};
use sdbm_saves::Part;
use std::alloc::Global;
use store_parts::{open_part, plan_after};

/// The result of a command on the page of its key.
#[derive(Drop)]
pub struct PageResult {
    /// The text to print.
    pub text: Vec<u8>,
    /// The exit status.
    pub status: u8,
    /// The notes for standard error.
    pub notes: Notes,
    /// The numbers of the pages that the plan may write. Each of these pages, except the page that was read, must be all zeros in the file.
    pub numbers: Vec<u32>,
    /// The plan of the save, if the files have to change.
    pub plan: Option<Vec<u8>>,
}

/// Serves a command from the page of its key and plans the save. Returns `None` if that page is not enough; the caller then has to read the
/// whole files. The cases are:
/// - the directory or the page is invalid, or is not as a save leaves it;
/// - the key leads to another page;
/// - the last page of the file would become empty;
/// - `.pag` would exceed `PAG_LIMIT`;
/// - allocation fails.
pub fn answer_on_page(
    alloc: Global,
    notation: &Notation<Global>,
    asked: PageRequest,
    part: Part<'_>,
    kind: KeyBytes,
    size: PageSize,
) -> Option<PageResult>
    requires keyed { IsKeyed asked }
    requires page { length part.page.now ≡ page_bytes size }
    requires whole { part.len % page_bytes size ≡ 0 }
    ensures same { IfSome result (IsPageResult notation.now asked part.entry kind size) }
    ensures plan { IfSome result (λ quick. IfSome quick.plan (λ plan. IsPlan plan.items × ((pag : List ℕ) → IsReadSo part.entry quick.numbers.items size pag → Knows plan.items (pag, part.entry.directory.now)))) }
{
    let image = open_part(alloc, asked.key(), part, kind, size)?;
    let Ok(report) = asked.answer(alloc, notation, image) else {
        return None;
    };
    let Report {
        text,
        status,
        database,
        notes,
    } = report;
    let Some(after) = database else {
        return Some(PageResult {
            text,
            status,
            notes,
            numbers: Vec::new(alloc),
            plan: None,
        });
    };
    let (numbers, plan) = plan_after(alloc, part, &after)?;
    Some(PageResult {
        text,
        status,
        notes,
        numbers,
        plan,
    })
}
