//! Serves a request from the page of its key, without reading the whole `.pag`.
ghost use Rattle.std.specs.Prelude.{◌≡◌, ◌+◌, ◌*◌, ◌%◌, ◌<◌, ◌≤◌, ℕ, List, Option, length, get_or, IfSome, Ok, Some};
ghost use Rattle.sdbm_addr.specs.Pairs.{page_bytes};
ghost use Rattle.sdbm_saves.specs.Redo.{IsPlan, Knows};
ghost use Rattle.sdbm_saves.specs.Recording.{part_pages};
ghost use Rattle.dbm_reports.specs.Databases.{page_size_of};
ghost use Rattle.dbm_records.specs.PageRequests.{IsMeant};
ghost use Rattle.dbm_tool.specs.Services.{service_in};

use dbm_args::Form;
use dbm_command_line::{Ask, Wish};
use dbm_files::{LockedFiles, PlannedPart, SaveOutcome, UnreadPages, save_part};
use dbm_messages::ServeFault;
use dbm_places::FileBytes;
use dbm_records::{
    PageRequest, PageResult, answer_on_page, delete_request, fetch_request, run_request,
    store_request,
};
use dbm_reports::{ReportFault, key_bytes_of, notation_by, page_size_of};
use dbm_script::Notation;
use sdbm_addr::PageSize;
use sdbm_saves::Part;
use std::alloc::Global;
use std::fs::File;
use std::io;
use std::rt::{Files, Runtime};
use store_parts::{has_own_pairs, page_of};

/// Returns `true` if a request may be served from the page of its key.
pub fn may_be_quick(ask: &Ask<'_>) -> bool {
    matches!(
        ask,
        Ask::Wish(Wish::Fetch(_) | Wish::Store(_) | Wish::Delete(_) | Wish::Run(_))
    )
}

/// A request that was served from the page of its key.
#[derive(Drop)]
pub struct PageServed {
    pub result: PageResult,
    /// The outcome of saving the change. `None` means that there was no change, and the lines are not printed yet.
    pub saved: Option<SaveOutcome>,
}

/// Serves a request from the page of its key. The files were taken, but `.pag` was left unread. If there is a change, saves it, releases
/// the lock, and prints the lines. If there is no change, the caller must release the lock and then print the lines. Returns `None` if the
/// page is not enough: nothing was written, and the caller must read the whole `.pag`.
///
/// # Errors
/// `Saved` if the change was saved, but the lines could not be printed; and the errors of a save.
pub fn serve_quick<R: Runtime<File = File> + AllocGlobal>(
    rt: &R,
    wish: Wish<'_>,
    bytes: &FileBytes,
    unread: &UnreadPages,
    held: &mut Option<LockedFiles>,
) -> Result<Option<PageServed>, ServeFault> {
    let alloc = rt.alloc();
    let Ok(notation) = notation_by(alloc, wish.head().notation) else {
        return Ok(None);
    };
    let Some((form, asked)) = asked_of(alloc, &notation, wish, bytes.program.as_slice()) else {
        return Ok(None);
    };
    let directory = bytes.directory.as_slice();
    let Some((number, page)) = page_for(alloc, unread, directory, form, asked.key()) else {
        return Ok(None);
    };
    let part = Part {
        directory,
        len: unread.len,
        number,
        page: page.as_slice(),
    };
    let (kind, size) = (key_bytes_of(form), page_size_of(form));
    let Some(result) = answer_on_page(alloc, &notation, asked, part, kind, size) else {
        return Ok(None);
    };
    if !are_free(alloc, unread, number, result.numbers.as_slice(), size) || !unread.is_guarded(rt) {
        return Ok(None);
    }
    if held.is_none() && result.plan.is_some() {
        return Ok(None);
    }
    let saved = save_quick(rt, held, part, size, &result)?;
    Ok(Some(PageServed { result, saved }))
}

// Saves the change of a command, releases the lock, and prints the lines. Returns `None` if there is no change.
fn save_quick<R: Runtime<File = File> + AllocGlobal>(
    rt: &R,
    held: &mut Option<LockedFiles>,
    part: Part<'_>,
    size: PageSize,
    quick: &PageResult,
) -> Result<Option<SaveOutcome>, ServeFault>
    requires { IfSome quick.now.plan (λ plan. IsPlan plan.items × Knows plan.items (part_pages part size, part.directory.now)) }
{
    let Some(plan) = &quick.plan else {
        return Ok(None);
    };
    let Some(held) = held.take() else {
        return Ok(None);
    };
    let planned = PlannedPart {
        part,
        size,
        plan: plan.as_slice(),
    };
    let lines = quick.text.as_slice();
    let saved = save_part(rt, held, planned, lines, &mut io::writer(rt))?;
    Ok(Some(saved))
}

// Returns the request that may be served from the page of its key, together with the form of its files.
fn asked_of(
    alloc: Global,
    notation: &Notation<Global>,
    wish: Wish<'_>,
    file: &[u8],
) -> Option<(Form, PageRequest)>
    ensures { IfSome result (λ meant. IsMeant meant.0 file.now notation.now (λ given report. (input : Option (List ℕ)) → (service_in notation.now wish.entry given input).reports report) meant.1) }
{
    match wish {
        Wish::Fetch(fetch) => meant(fetch.form, fetch_request(alloc, notation, &fetch)),
        Wish::Store(store) => meant(store.form, store_request(alloc, notation, &store)),
        Wish::Delete(delete) => meant(delete.form, delete_request(alloc, notation, &delete)),
        Wish::Run(run) => match run_request(alloc, notation, &run, file) {
            Ok(asked) => Some((run.form, asked)),
            Err(_) => None,
        },
        _ => None,
    }
}

// Returns the request together with the form of its files, or `None` if there is no request.
fn meant(form: Form, asked: Result<Option<PageRequest>, ReportFault>) -> Option<(Form, PageRequest)>
    ensures { IfSome result (λ meant. (meant.0 ≡ form) × (asked ≡ Ok (Some meant.1))) }
{
    match asked {
        Ok(Some(asked)) => Some((form, asked)),
        _ => None,
    }
}

// Reads the page to which a key leads, and returns its number and its bytes. Returns `None` if the page cannot be read, if the length of
// the file is not a multiple of the page size, or if `ends_with_pairs` is false.
fn page_for(
    alloc: Global,
    unread: &UnreadPages,
    directory: &[u8],
    form: Form,
    key: &[u8],
) -> Option<(u32, Vec<u8>)>
    ensures long { IfSome result (λ read. length read.1.items ≡ page_bytes (page_size_of form.wide)) }
    ensures whole { IfSome result (λ read. unread.now.len % page_bytes (page_size_of form.wide) ≡ 0) }
    ensures past { IfSome result (λ read. (i : ℕ) → i < page_bytes (page_size_of form.wide) → unread.now.len ≤ read.0 * page_bytes (page_size_of form.wide) + i → get_or read.1.items i 0 ≡ 0) }
{
    let size = page_size_of(form);
    if unread.len % size.bytes() != 0 {
        return None;
    }
    let number = page_of(directory, key_bytes_of(form), key);
    let page = unread.page(alloc, number, size).ok()?;
    if !ends_with_pairs(alloc, unread, directory, form) {
        return None;
    }
    Some((number, page))
}

// Returns `true` if the file is empty, or its last page has pairs and all their keys lead to that page. This detects a directory that is
// lost or belongs to another database.
fn ends_with_pairs(alloc: Global, unread: &UnreadPages, directory: &[u8], form: Form) -> bool {
    let (kind, size) = (key_bytes_of(form), page_size_of(form));
    let pages = unread.len / size.bytes();
    if pages == 0 {
        return true;
    }
    let Ok(last) = u32::try_from(pages - 1) else {
        return false;
    };
    let Ok(page) = unread.page(alloc, last, size) else {
        return false;
    };
    has_own_pairs(alloc, directory, kind, size, last, page.as_slice())
}

// Returns `true` if the pages with these numbers, except page `number`, are all zeros.
fn are_free(
    alloc: Global,
    unread: &UnreadPages,
    number: u32,
    numbers: &[u32],
    size: PageSize,
) -> bool {
    for other in numbers {
        if *other != number && !is_free(alloc, unread, *other, size) {
            return false;
        }
    }
    true
}

fn is_free(alloc: Global, unread: &UnreadPages, number: u32, size: PageSize) -> bool {
    match unread.page(alloc, number, size) {
        Ok(page) => page.iter().all(|byte| *byte == 0),
        Err(_) => false,
    }
}
