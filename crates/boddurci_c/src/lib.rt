//! The store for C: handles, and an export for each operation; `include/boddurci.h` documents the statuses. The library keeps no
//! global state, takes no locks, starts no threads, and does no file I/O.
#![tactic(auto)]

ghost use Rattle.std.specs.Prelude.{◌≡◌, ◌≢◌, ◌⊎◌, Option, Some, None, IfOk, IfErr, OnOk, OnErr};
ghost use Rattle.sdbm_addr.specs.Directory.{page_of, Splits};
ghost use Rattle.sdbm_addr.specs.DirectoryFile.{SpellsDirectory};
ghost use Rattle.sdbm_addr.specs.Hash.{hash_of};
ghost use Rattle.store_cmd.specs.declared.Command.TheVariants.{Store, Delete};
ghost use Rattle.boddurci_c.specs.Calls.{CallDenies, Never, CallSays, Fetches, CountsPairs, RunsProgram, DeniesRun, SetsLimit, NumbersProgram, Rejects, WritesFiles, LacksMemory, ListsChanged, Remarks, IsDbOpened, OpensOr, open_word, mode_for, blank_for, kind_for, size_for, empty_registry, status_of_fault, status_of_open};
ghost use Rattle.boddurci_handles.specs.Pieces.{bytes_read};
ghost use Rattle.boddurci_c.specs.Readings.{IsSpent, ReadsOr};
ghost use Rattle.boddurci_c.specs.Stocks.{Stocks};
ghost use Rattle.boddurci_c.specs.Texts.{Assembles, Garbles};
ghost use Rattle.boddurci_c.specs.Turns.{CursorBegins, CursorGoesOn};
ghost use Rattle.boddurci_handles.specs.declared.opened.Db.{Db};
ghost use Rattle.boddurci_c.specs.Plans.{Plans, DeniesPlan};
ghost use Rattle.boddurci_c.specs.Page.{part_for, LacksPages, LacksPlan, PlansPageOf, TurnsPage};
ghost use Rattle.boddurci_c.specs.Tickets.{AsksRun, AsksNot, Works, WorksNot, FinishesOn, WhyNot, FinishesTicket, FinishesNot};
ghost use Rattle.sdbm_files.specs.Opened.{IsOpenFault, SpellsNoDatabase};

mod db;
mod logs;
mod opening;
mod page;
mod plans;
mod rooms;
mod sizes;
mod stocks;
mod texts;
mod turns;
mod units;

use boddurci_handles::{Db, Handle, Job, Reading, Status, Ticket, read_piece};
use db::{ask, delete, end_of, fetch, files, run, store};
pub use logs::{boddurci_log_close, boddurci_log_open, boddurci_log_read, boddurci_log_save};
use opening::{open, open_reading, pages_in};
use page::{plan_page, turn_to};
use plans::plan;
use prog_registry::{ProgId, RegFault, Registry};
use rooms::{copy_both, copy_out, tell};
use sdbm_addr::{KeyBytes, Mode, PageSize};
use sdbm_files::{MemSink, OpenFault};
use sdbm_saves::{Marked, Part};
pub use sizes::{boddurci_looks_small, boddurci_reading_looks_small};
use std::alloc::Global;
use stocks::stock_image;
use store_cmd::Reply;
use store_parts::page_of;
use texts::image_of;
use turns::{Cursor, turn};
use units::unit_of;

// The mode of a store: 0 keeps an existing value, any other number replaces it.
fn mode_of(replace: u32) -> Mode
    ensures { result ≡ mode_for replace }
{
    if replace == 0 {
        Mode::Insert
    } else {
        Mode::Replace
    }
}

/// Stores a value under a key.
#[unsafe(no_mangle)]
pub extern "C" fn boddurci_store(
    alloc: Global,
    slot: &mut Handle,
    key: &[u8],
    value: &[u8],
    replace: u32,
) -> u32
    ensures { CallSays (Store key.now value.now (mode_for replace)) slot.old.held result slot.new.held }
{
    let Some(mut db) = slot.take(alloc) else {
        return Status::Closed.code();
    };
    let done = store(alloc, &mut *db, key, value, mode_of(replace));
    slot.put(db);
    match done {
        Ok(reply) => Status::of_reply(&reply).code(),
        Err(status) => status.code(),
    }
}

/// Removes a key and its value.
#[unsafe(no_mangle)]
pub extern "C" fn boddurci_delete(alloc: Global, slot: &mut Handle, key: &[u8]) -> u32
    ensures { CallSays (Delete key.now) slot.old.held result slot.new.held }
{
    let Some(mut db) = slot.take(alloc) else {
        return Status::Closed.code();
    };
    let done = delete(alloc, &mut *db, key);
    slot.put(db);
    match done {
        Ok(reply) => Status::of_reply(&reply).code(),
        Err(status) => status.code(),
    }
}

/// Copies the value of a key to `room` if it fits, and sets `len` to its length either way. If the key is missing, `room` and
/// `len` are unchanged.
#[unsafe(no_mangle)]
pub extern "C" fn boddurci_fetch(
    alloc: Global,
    slot: &mut Handle,
    key: &[u8],
    room: &mut [u8],
    len: &mut usize,
) -> u32
    ensures { Fetches key.now slot.old.held result slot.new.held room.old room.new len.old len.new
        ⊎ (CallDenies Never slot.old.held result slot.new.held × ((room.new ≡ room.old) × (len.new ≡ len.old))) }
{
    let Some(db) = slot.take(alloc) else {
        return Status::Closed.code();
    };
    let status = fetch(&*db, key, room, len);
    slot.put(db);
    status.code()
}

/// Sets `count` to the number of pairs.
#[unsafe(no_mangle)]
pub extern "C" fn boddurci_count(alloc: Global, slot: &mut Handle, count: &mut usize) -> u32
    ensures { CountsPairs slot.old.held result slot.new.held count.new ⊎ (CallDenies Never slot.old.held result slot.new.held × (count.new ≡ count.old)) }
{
    let Some(db) = slot.take(alloc) else {
        return Status::Closed.code();
    };
    *count = db.image.count();
    slot.put(db);
    Status::Done.code()
}

/// Sets the length in bytes up to which commands may extend `.pag`, rounded down to whole pages. The default is 1 GiB, and a
/// higher limit has no effect. Existing pages above the limit stay.
#[unsafe(no_mangle)]
pub extern "C" fn boddurci_limit(alloc: Global, slot: &mut Handle, bytes: usize) -> u32
    ensures { SetsLimit bytes slot.old.held result slot.new.held ⊎ CallDenies Never slot.old.held result slot.new.held }
{
    let Some(mut db) = slot.take(alloc) else {
        return Status::Closed.code();
    };
    let open = &mut *db;
    open.limit = pages_in(bytes, open.image.page_size());
    slot.put(db);
    Status::Done.code()
}

// The status for a refused program image.
fn fault_status(fault: RegFault) -> Status
    ensures { result ≡ status_of_fault fault }
{
    match fault {
        RegFault::NoMemory => Status::NoMemory,
        RegFault::Decode(_) => Status::Refused,
        RegFault::Verify(_) => Status::Refused,
        RegFault::Full => Status::Refused,
    }
}

/// Submits a program image, and sets `id` to its number. If the image is refused, sets `unit` to the offending unit and writes the
/// text of the fault to `room`.
#[unsafe(no_mangle)]
pub extern "C" fn boddurci_submit(
    alloc: Global,
    slot: &mut Handle,
    image: &[u8],
    id: &mut u32,
    unit: &mut usize,
    room: &mut [u8],
    len: &mut usize,
) -> u32
    ensures { NumbersProgram image.now slot.old.held result slot.new.held id.new
        ⊎ ((Rejects image.now slot.old.held result slot.new.held unit.new room.old room.new len.new × (id.new ≡ id.old))
        ⊎ (CallDenies Never slot.old.held result slot.new.held × ((id.new ≡ id.old) × ((unit.new ≡ unit.old) × ((room.new ≡ room.old) × (len.new ≡ len.old)))))) }
{
    let Some(mut db) = slot.take(alloc) else {
        return Status::Closed.code();
    };
    let open = &mut *db;
    let given = open.registry.submit(image);
    slot.put(db);
    match given {
        Ok(number) => {
            *id = number.0;
            Status::Done.code()
        }
        Err(fault) => {
            *unit = unit_of(fault);
            tell(alloc, &fault, fault_status(fault), room, len).code()
        }
    }
}

/// Submits the stock program with a name, and sets `id` to its number. Returns `NoStock` if there is no such program.
#[unsafe(no_mangle)]
pub extern "C" fn boddurci_submit_stock(
    alloc: Global,
    slot: &mut Handle,
    name: &[u8],
    id: &mut u32,
) -> u32
    ensures { Stocks name.now slot.old.held result slot.new.held id.old id.new }
{
    let Some(mut db) = slot.take(alloc) else {
        return Status::Closed.code();
    };
    let image = match stock_image(alloc, name) {
        Ok(image) => image,
        Err(status) => {
            slot.put(db);
            return status.code();
        }
    };
    let open = &mut *db;
    let given = open.registry.submit(image.as_slice());
    slot.put(db);
    match given {
        Ok(number) => {
            *id = number.0;
            Status::Done.code()
        }
        Err(fault) => fault_status(fault).code(),
    }
}

/// Assembles the text of a program. Copies its image to `image` if it fits, and sets the length of the image either way. On a
/// fault, sets `line` to the line of the fault and writes the text of the fault to `room`.
#[unsafe(no_mangle)]
pub extern "C" fn boddurci_assemble(
    alloc: Global,
    text: &[u8],
    image: &mut [u8],
    image_len: &mut usize,
    line: &mut usize,
    room: &mut [u8],
    len: &mut usize,
) -> u32
    ensures { Assembles text.now result image.old image.new image_len.new
        ⊎ (Garbles text.now result line.new room.old room.new len.new × ((image.new ≡ image.old) × (image_len.new ≡ image_len.old))) }
{
    match image_of(alloc, text) {
        Ok(bytes) => copy_out(bytes.as_slice(), image, image_len).code(),
        Err(fault) => {
            let (status, at) = fault.told();
            *line = at;
            tell(alloc, &fault, status, room, len).code()
        }
    }
}

// Returns the length of the blank record of a run, or `None` if `has_blank` is 0.
fn blank_of(has_blank: u32, blank: usize) -> Option<usize>
    ensures { result ≡ blank_for has_blank blank }
{
    if has_blank == 0 { None } else { Some(blank) }
}

/// Runs the program with a number on the record of a key. If the key is missing and `has_blank` is not 0, the program runs on `blank`
/// zero bytes. Sets the exit number and the reply word of the program. Both are 0 after `Missing` and `Crowded`, and unchanged after
/// any other refusal.
#[unsafe(no_mangle)]
pub extern "C" fn boddurci_run(
    alloc: Global,
    slot: &mut Handle,
    number: u32,
    key: &[u8],
    arg: &[u8],
    has_blank: u32,
    blank: usize,
    now: u64,
    end: &mut u64,
    word: &mut u64,
) -> u32
    ensures { RunsProgram number key.now arg.now (blank_for has_blank blank) now slot.old.held result slot.new.held end.new word.new
        ⊎ (CallDenies (DeniesRun number key.now arg.now (blank_for has_blank blank) now) slot.old.held result slot.new.held × ((end.new ≡ end.old) × (word.new ≡ word.old))) }
{
    let Some(mut db) = slot.take(alloc) else {
        return Status::Closed.code();
    };
    let blank = blank_of(has_blank, blank);
    let done = run(alloc, &mut *db, number, key, arg, blank, now);
    slot.put(db);
    match done {
        Ok(reply) => {
            (*end, *word) = end_of(&reply);
            Status::of_reply(&reply).code()
        }
        Err(status) => status.code(),
    }
}

/// Requests the run that `boddurci_run` would make: puts it under a ticket, with a snapshot of the page of its key. Nothing runs yet,
/// so the status is never `TooLong`. Drops any earlier run under the ticket, unless the new run is refused.
#[unsafe(no_mangle)]
pub extern "C" fn boddurci_ask(
    alloc: Global,
    slot: &mut Handle,
    ticket: &mut Ticket,
    number: u32,
    key: &[u8],
    arg: &[u8],
    has_blank: u32,
    blank: usize,
    now: u64,
) -> u32
    ensures { AsksRun number key.now arg.now (blank_for has_blank blank) now slot.old.held result slot.new.held ticket.new.asked
        ⊎ AsksNot number key.now arg.now (blank_for has_blank blank) now slot.old.held result slot.new.held ticket.old.asked ticket.new.asked }
{
    let Some(db) = slot.take(alloc) else {
        return Status::Closed.code();
    };
    let blank = blank_of(has_blank, blank);
    let asked = ask(alloc, &*db, number, key, arg, blank, now);
    slot.put(db);
    match asked {
        Ok(job) => {
            ticket.put(job);
            Status::Done.code()
        }
        Err(status) => status.code(),
    }
}

/// Computes the run under a ticket on its snapshot of the page. Needs no handle.
#[unsafe(no_mangle)]
pub extern "C" fn boddurci_work(alloc: Global, ticket: &mut Ticket) -> u32
    ensures { Works ticket.old.asked result ticket.new.asked ⊎ WorksNot ticket.old.asked result ticket.new.asked }
{
    let Some(mut job) = ticket.take(alloc) else {
        return Status::NoTicket.code();
    };
    let worked = job.work(alloc);
    ticket.put(job);
    match worked {
        Ok(()) => Status::Done.code(),
        Err(_) => Status::NoMemory.code(),
    }
}

// Executes the computed run of a ticket on a database.
fn finish_on(alloc: Global, db: &mut Db, ticket: &mut Ticket) -> Result<Reply<Global>, Status>
    ensures ok { IfOk result (λ reply. FinishesOn db.old ticket.old.asked reply db.new ticket.new.asked) }
    ensures err { OnErr result (db.new ≡ db.old) }
    ensures same { OnErr result (ticket.new.asked ≡ ticket.old.asked) }
    ensures why { IfErr result (WhyNot ticket.old.asked db.old) }
{
    let Some(mut job) = ticket.take(alloc) else {
        return Err(Status::NoTicket);
    };
    match job.finish(&mut db.image, &mut db.marks, db.limit) {
        Ok(reply) => Ok(reply),
        Err(status) => {
            ticket.put(job);
            Err(status)
        }
    }
}

/// Executes the computed run of a ticket as one step on the current database, if the page of its key is unchanged. Sets the
/// exit number and the reply word like `boddurci_run`, and frees the ticket. After a refusal, the ticket is unchanged.
#[unsafe(no_mangle)]
pub extern "C" fn boddurci_finish(
    alloc: Global,
    slot: &mut Handle,
    ticket: &mut Ticket,
    end: &mut u64,
    word: &mut u64,
) -> u32
    ensures { FinishesTicket slot.old.held result slot.new.held ticket.old.asked ticket.new.asked end.new word.new
        ⊎ (FinishesNot slot.old.held result slot.new.held ticket.old.asked ticket.new.asked × ((end.new ≡ end.old) × (word.new ≡ word.old))) }
{
    let Some(mut db) = slot.take(alloc) else {
        return Status::Closed.code();
    };
    let done = finish_on(alloc, &mut *db, ticket);
    slot.put(db);
    match done {
        Ok(reply) => {
            (*end, *word) = end_of(&reply);
            Status::of_reply(&reply).code()
        }
        Err(status) => status.code(),
    }
}

/// Drops the run under a ticket. The ticket is then free.
#[unsafe(no_mangle)]
pub extern "C" fn boddurci_abandon(alloc: Global, ticket: &mut Ticket)
    ensures { ticket.new.asked ≡ None }
{
    let _ = ticket.take(alloc);
}

/// Begins an iteration over all pairs.
#[unsafe(no_mangle)]
pub extern "C" fn boddurci_first(alloc: Global, slot: &mut Handle, cursor: &mut Cursor) -> u32
    ensures { CursorBegins slot.old.held result slot.new.held cursor.new ⊎ (CallDenies Never slot.old.held result slot.new.held × (cursor.new ≡ cursor.old)) }
{
    let Some(db) = slot.take(alloc) else {
        return Status::Closed.code();
    };
    *cursor = Cursor {
        page: 0,
        end: db.image.page_count() as u32,
        pair: 0,
    };
    slot.put(db);
    Status::Done.code()
}

/// Copies the next pair of an iteration to two buffers if both the key and the value fit. Sets both lengths unless no pair is left.
#[unsafe(no_mangle)]
pub extern "C" fn boddurci_next(
    alloc: Global,
    slot: &mut Handle,
    cursor: &mut Cursor,
    key: &mut [u8],
    key_len: &mut usize,
    value: &mut [u8],
    value_len: &mut usize,
) -> u32
    ensures { CursorGoesOn slot.old.held result slot.new.held cursor.old cursor.new key.old key.new key_len.new value.old value.new value_len.new
        ⊎ (CallDenies Never slot.old.held result slot.new.held
        × ((cursor.new ≡ cursor.old) × ((key.new ≡ key.old) × ((key_len.new ≡ key_len.old) × ((value.new ≡ value.old) × (value_len.new ≡ value_len.old)))))) }
{
    let Some(db) = slot.take(alloc) else {
        return Status::Closed.code();
    };
    let status = turn(&db.image, cursor, key, key_len, value, value_len);
    slot.put(db);
    status.code()
}

/// Writes the bytes of both files of the database to two buffers if both fit. Sets both lengths either way.
#[unsafe(no_mangle)]
pub extern "C" fn boddurci_files(
    alloc: Global,
    slot: &mut Handle,
    dir: &mut [u8],
    dir_len: &mut usize,
    pag: &mut [u8],
    pag_len: &mut usize,
) -> u32
    ensures { WritesFiles slot.old.held result slot.new.held dir.old dir.new pag.old pag.new dir_len.new pag_len.new
        ⊎ (CallDenies LacksMemory slot.old.held result slot.new.held
        × ((dir.new ≡ dir.old) × ((dir_len.new ≡ dir_len.old) × ((pag.new ≡ pag.old) × (pag_len.new ≡ pag_len.old))))) }
{
    let Some(db) = slot.take(alloc) else {
        return Status::Closed.code();
    };
    let done = files(alloc, &*db);
    slot.put(db);
    match done {
        Ok((dir_sink, pag_sink)) => {
            *dir_len = dir_sink.bytes().len();
            *pag_len = pag_sink.bytes().len();
            copy_both(dir_sink.bytes(), pag_sink.bytes(), dir, pag).code()
        }
        Err(_) => Status::NoMemory.code(),
    }
}

/// Writes the numbers of the marked pages, which may differ from the file, to `numbers` if they fit. Sets `count` either way.
#[unsafe(no_mangle)]
pub extern "C" fn boddurci_changed(
    alloc: Global,
    slot: &mut Handle,
    numbers: &mut [u32],
    count: &mut usize,
) -> u32
    ensures { ListsChanged slot.old.held result slot.new.held numbers.old numbers.new count.new
        ⊎ (CallDenies Never slot.old.held result slot.new.held × ((numbers.new ≡ numbers.old) × (count.new ≡ count.old))) }
{
    let Some(db) = slot.take(alloc) else {
        return Status::Closed.code();
    };
    let status = copy_out(db.marks.as_slice(), numbers, count);
    slot.put(db);
    status.code()
}

/// Marks pages as possibly changed. Call this if a plan was not executed.
#[unsafe(no_mangle)]
pub extern "C" fn boddurci_mark(alloc: Global, slot: &mut Handle, numbers: &[u32]) -> u32
    ensures { Remarks numbers.now slot.old.held result slot.new.held ⊎ CallDenies LacksMemory slot.old.held result slot.new.held }
{
    let Some(mut db) = slot.take(alloc) else {
        return Status::Closed.code();
    };
    let open = &mut *db;
    let marked = open.marks.add_all(numbers);
    slot.put(db);
    match marked {
        Ok(()) => Status::Done.code(),
        Err(_) => Status::NoMemory.code(),
    }
}

/// Plans the save that turns the files into those of the database. Writes the plan to `room` if it fits, and sets its length either
/// way. The plan is empty if nothing differs. The caller passes the bytes of `.dir`, the length of `.pag`, and the pages with the
/// given numbers, which must include those of `boddurci_changed`. Bytes past the end of `.pag` count as zeros. Once the plan is
/// written, no page is marked.
#[unsafe(no_mangle)]
pub extern "C" fn boddurci_plan(
    alloc: Global,
    slot: &mut Handle,
    dir: &[u8],
    pag_length: usize,
    numbers: &[u32],
    pages: &[u8],
    room: &mut [u8],
    len: &mut usize,
) -> u32
    ensures { Plans slot.old.held result slot.new.held dir.now pag_length numbers.now pages.now room.old room.new len.new
        ⊎ (CallDenies (DeniesPlan dir.now pag_length numbers.now pages.now) slot.old.held result slot.new.held × ((room.new ≡ room.old) × (len.new ≡ len.old))) }
{
    let Some(mut db) = slot.take(alloc) else {
        return Status::Closed.code();
    };
    let read = Marked {
        directory: dir,
        len: pag_length,
        numbers,
        pages,
    };
    let status = plan(alloc, &mut *db, read, room, len);
    slot.put(db);
    status.code()
}

// Converts two flags from C to a hash kind and a page size.
fn form_of(unsigned_keys: u32, wide: u32) -> (KeyBytes, PageSize)
    ensures kind { result.0 ≡ kind_for unsigned_keys }
    ensures size { result.1 ≡ size_for wide }
{
    match (unsigned_keys, wide) {
        (0, 0) => (KeyBytes::Signed, PageSize::Small),
        (0, _) => (KeyBytes::Signed, PageSize::Wide),
        (_, 0) => (KeyBytes::Unsigned, PageSize::Small),
        (_, _) => (KeyBytes::Unsigned, PageSize::Wide),
    }
}

/// Returns the number of the page of a key, computed from the bytes of `.dir`. These may be invalid: then no clause says which page it is, and
/// `boddurci_open_page` refuses the page.
#[unsafe(no_mangle)]
pub extern "C" fn boddurci_page_of(
    _alloc: Global,
    key: &[u8],
    dir: &[u8],
    unsigned_keys: u32,
) -> u32
    ensures { (splits : Splits) → SpellsDirectory dir.now splits → result ≡ page_of splits (hash_of (kind_for unsigned_keys) key.now) }
{
    let (kind, _) = form_of(unsigned_keys, 0);
    page_of(dir, kind, key)
}

/// Replaces the database of an open handle by a database that has only the page of a key, for one command on that key. The command
/// has the same reply as on the whole database (`store_parts::same_on_whole`). The handle keeps its programs and its limit. The
/// caller passes the bytes of `.dir`, the length of `.pag`, and the number and the bytes of the page; bytes past the end of `.pag`
/// count as zeros. Returns `BadFiles` if that page is not enough, or if memory ran out.
#[unsafe(no_mangle)]
pub extern "C" fn boddurci_open_page(
    alloc: Global,
    slot: &mut Handle,
    key: &[u8],
    dir: &[u8],
    pag_length: usize,
    number: u32,
    page: &[u8],
) -> u32
    ensures { TurnsPage key.now (part_for dir.entry pag_length number page.entry) slot.old.held result slot.new.held ⊎ CallDenies LacksPages slot.old.held result slot.new.held }
{
    let Some(mut db) = slot.take(alloc) else {
        return Status::Closed.code();
    };
    let part = Part {
        directory: dir,
        len: pag_length,
        number,
        page,
    };
    let status = turn_to(&mut *db, key, part);
    slot.put(db);
    status.code()
}

/// Plans the save of a database of one page after its command. Writes the plan to `room` if it fits, and sets its length, which is 0
/// if the files do not change. Also lists in `numbers` the pages that the plan may write, and sets `count`. All of these pages except
/// the page of the database must be zeros in the file. The caller passes the same part as to `boddurci_open_page`. Returns `Stale` if
/// that page is not enough, or if memory ran out.
#[unsafe(no_mangle)]
pub extern "C" fn boddurci_plan_page(
    alloc: Global,
    slot: &mut Handle,
    dir: &[u8],
    pag_length: usize,
    number: u32,
    page: &[u8],
    numbers: &mut [u32],
    count: &mut usize,
    room: &mut [u8],
    len: &mut usize,
) -> u32
    ensures { PlansPageOf (part_for dir.entry pag_length number page.entry) slot.old.held result slot.new.held numbers.old numbers.new count.new room.old room.new len.new
        ⊎ (CallDenies LacksPlan slot.old.held result slot.new.held × ((numbers.new ≡ numbers.old) × ((count.new ≡ count.old) × ((room.new ≡ room.old) × (len.new ≡ len.old))))) }
{
    let Some(db) = slot.take(alloc) else {
        return Status::Closed.code();
    };
    let part = Part {
        directory: dir,
        len: pag_length,
        number,
        page,
    };
    let status = plan_page(alloc, &*db, part, numbers, count, room, len);
    slot.put(db);
    status.code()
}

/// Reads the next piece of a `.pag`. The first piece sets the page size; later pieces do not change it. Returns `BadFiles` if
/// the earlier pieces end inside a page, and `TooLong` if the total would be 2^63 bytes or more; both leave the reading
/// unchanged. If memory runs out, returns `NoMemory` and frees the reading.
#[unsafe(no_mangle)]
pub extern "C" fn boddurci_read(
    alloc: Global,
    reading: &mut Reading,
    wide: u32,
    piece: &[u8],
) -> u32
    ensures { ReadsOr (size_for wide) piece.now reading.old.read result reading.new.read }
{
    let (_, size) = form_of(0, wide);
    read_piece(alloc, reading, size, piece).code()
}

/// Drops the pieces of a `.pag` that were read. The reading is then free.
#[unsafe(no_mangle)]
pub extern "C" fn boddurci_end_reading(alloc: Global, reading: &mut Reading)
    ensures { reading.new.read ≡ None }
{
    let _ = reading.take(alloc);
}

/// Returns 1 if a handle is open, otherwise 0.
#[unsafe(no_mangle)]
pub extern "C" fn boddurci_is_open(alloc: Global, slot: &mut Handle) -> u32
    ensures same { slot.new.held ≡ slot.old.held }
    ensures word { result ≡ open_word slot.old.held }
{
    let Some(db) = slot.take(alloc) else {
        return 0;
    };
    slot.put(db);
    1
}

// Opens a closed handle.
fn open_at(
    alloc: Global,
    slot: &mut Handle,
    registry: Registry<Global>,
    dir: &[u8],
    pag: &[u8],
    kind: KeyBytes,
    size: PageSize,
) -> Result<(), OpenFault>
    requires closed { slot.old.held ≡ None }
    requires empty { registry ≡ empty_registry }
    ensures ok { OnOk result ((d : Db) × ((slot.new.held ≡ Some d) × IsDbOpened kind size dir.now pag.now d)) }
    ensures err { OnErr result (slot.new.held ≡ None) }
    ensures fault { IfErr result (IsOpenFault kind size dir.now pag.now) }
    ensures none { IfErr result (λ fault. fault ≢ OpenFault.NoMemory → SpellsNoDatabase kind size dir.now pag.now) }
{
    let db = open(alloc, registry, dir, pag, kind, size)?;
    match Box::new(alloc, db) {
        Ok(owned) => {
            slot.put(owned);
            Ok(())
        }
        Err(_) => Err(OpenFault::NoMemory),
    }
}

// The status of a fault on opening.
fn open_status(fault: OpenFault) -> Status
    ensures { result ≡ status_of_open fault }
{
    match fault {
        OpenFault::PagLength => Status::BadFiles,
        OpenFault::Page(_, _) => Status::BadFiles,
        OpenFault::Dir(_) => Status::BadFiles,
        OpenFault::Misplaced(_) => Status::BadFiles,
        OpenFault::NoMemory => Status::NoMemory,
    }
}

/// Opens a closed handle on the database in the bytes of both files. Empty files are an empty database. On a fault, writes the
/// text of the fault to `room`.
#[unsafe(no_mangle)]
pub extern "C" fn boddurci_open(
    alloc: Global,
    slot: &mut Handle,
    dir: &[u8],
    pag: &[u8],
    wide: u32,
    unsigned_keys: u32,
    room: &mut [u8],
    len: &mut usize,
) -> u32
    ensures { OpensOr (kind_for unsigned_keys) (size_for wide) dir.now pag.now slot.old.held result slot.new.held room.old room.new len.old len.new }
{
    if boddurci_is_open(alloc, slot) == 1 {
        return Status::Open.code();
    }
    let Ok(registry) = Registry::new(alloc) else {
        return Status::NoMemory.code();
    };
    let (kind, size) = form_of(unsigned_keys, wide);
    match open_at(alloc, slot, registry, dir, pag, kind, size) {
        Ok(()) => Status::Done.code(),
        Err(fault) => tell(alloc, &fault, open_status(fault), room, len).code(),
    }
}

// Opens a closed handle on the pages of a reading, and frees the reading.
fn open_reading_at(
    alloc: Global,
    slot: &mut Handle,
    reading: &mut Reading,
    registry: Registry<Global>,
    dir: &[u8],
    kind: KeyBytes,
    size: PageSize,
) -> Result<(), OpenFault>
    requires closed { slot.old.held ≡ None }
    requires empty { registry ≡ empty_registry }
    ensures ok { OnOk result ((d : Db) × ((slot.new.held ≡ Some d) × IsDbOpened kind size dir.now (bytes_read reading.old.read) d)) }
    ensures err { OnErr result (slot.new.held ≡ None) }
    ensures fault { IfErr result (IsOpenFault kind size dir.now (bytes_read reading.old.read)) }
    ensures none { IfErr result (λ fault. fault ≢ OpenFault.NoMemory → SpellsNoDatabase kind size dir.now (bytes_read reading.old.read)) }
    ensures free { OnOk result (reading.new.read ≡ None) }
    ensures same { OnErr result (reading.new.read ≡ reading.old.read) }
{
    let db = open_reading(alloc, registry, dir, reading, kind, size)?;
    match Box::new(alloc, db) {
        Ok(owned) => {
            slot.put(owned);
            let _ = reading.take(alloc);
            Ok(())
        }
        Err(_) => Err(OpenFault::NoMemory),
    }
}

/// Like `boddurci_open`, for a `.pag` that was read in pieces. Frees the reading if the handle is opened; otherwise the reading
/// is unchanged. A free reading counts as an empty file.
#[unsafe(no_mangle)]
pub extern "C" fn boddurci_open_reading(
    alloc: Global,
    slot: &mut Handle,
    reading: &mut Reading,
    dir: &[u8],
    wide: u32,
    unsigned_keys: u32,
    room: &mut [u8],
    len: &mut usize,
) -> u32
    ensures opens { OpensOr (kind_for unsigned_keys) (size_for wide) dir.now (bytes_read reading.old.read) slot.old.held result slot.new.held room.old room.new len.old len.new }
    ensures reading { IsSpent slot.old.held slot.new.held reading.old.read reading.new.read }
{
    if boddurci_is_open(alloc, slot) == 1 {
        return Status::Open.code();
    }
    let Ok(registry) = Registry::new(alloc) else {
        return Status::NoMemory.code();
    };
    let (kind, size) = form_of(unsigned_keys, wide);
    match open_reading_at(alloc, slot, reading, registry, dir, kind, size) {
        Ok(()) => Status::Done.code(),
        Err(fault) => tell(alloc, &fault, open_status(fault), room, len).code(),
    }
}

/// Closes a handle and frees its database.
#[unsafe(no_mangle)]
pub extern "C" fn boddurci_close(alloc: Global, slot: &mut Handle)
    ensures { slot.new.held ≡ None }
{
    let _ = slot.take(alloc);
}
