//! Operations on an open database.
ghost use Rattle.std.specs.Prelude.{◌≡◌, ◌⊎◌, IfOk, IfErr, OnErr};
ghost use Rattle.std.specs.Arc.{arc_value};
ghost use Rattle.std.specs.declared.alloc.Global.{Global};
ghost use Rattle.std.specs.FinMap as map;
ghost use Rattle.store_cmd.specs.Command.{IsSmall};
ghost use Rattle.store_cmd.specs.declared.Command.TheVariants.{Store, Delete, Run};
ghost use Rattle.store_moves.specs.Works.{HasKey};
ghost use Rattle.boddurci_handles.specs.Growth.{Outgrows};
ghost use Rattle.boddurci_c.specs.Calls.{DoesCommand, DeniesBy, RunsBy, DeniesRun, DeniesAsk, IsRunEnd, FetchesIn, HasFiles};
ghost use Rattle.boddurci_c.specs.Tickets.{IsRunAsked};

use crate::rooms::copy_out;
use boddurci_handles::{Db, Job, Status, has_pairs, may_grow, most_pages};
use bpf_verify::Verified;
use prog_registry::ProgId;
use sdbm_addr::{Bytes, Mode};
use sdbm_files::MemSink;
use std::alloc::{AllocError, Global};
use std::sync::Arc;
use store_cmd::{Command, Program, Reply, check_pair, check_run};
use store_marks::{put_marked, run_there, store_there};
use store_moves::{key_in, work_at};

// Executes a command that has a key and a valid size, unless it would extend `.pag` past its limit.
fn perform(alloc: Global, db: &mut Db, command: Command<Global>) -> Result<Reply<Global>, Status>
    requires keyed { HasKey command }
    requires small { IsSmall db.old.image.size command }
    ensures ok { IfOk result (λ reply. DoesCommand db.old command reply db.new) }
    ensures err { OnErr result (db.new ≡ db.old) }
    ensures why { IfErr result (λ status. (status ≡ Status.NoMemory) ⊎ ((status ≡ Status.TooLong) × Outgrows db.old.limit db.old.image command)) }
{
    let place = db.image.place(key_in(&command));
    let Ok(worked) = work_at(alloc, &db.image, place, 0, &command) else {
        return Err(Status::NoMemory);
    };
    let there = has_pairs(&db.image, place.page);
    let most = most_pages(db.image.page_size(), db.limit);
    if !may_grow(most, there, place.page, &worked.change) {
        return Err(Status::TooLong);
    }
    match put_marked(&mut db.image, &mut db.marks, place, worked.change) {
        Ok(()) => Ok(worked.reply),
        Err(_) => Err(Status::NoMemory),
    }
}

/// Stores a value under a key.
pub fn store(
    alloc: Global,
    db: &mut Db,
    key: &[u8],
    value: &[u8],
    mode: Mode,
) -> Result<Reply<Global>, Status>
    ensures ok { IfOk result (λ reply. DoesCommand db.old (Store key.now value.now mode) reply db.new) }
    ensures err { OnErr result (db.new ≡ db.old) }
    ensures why { IfErr result (DeniesBy db.old (Store key.now value.now mode)) }
{
    if check_pair(key, value.len(), db.image.page_size()).is_err() {
        return Err(Status::PairTooLarge);
    }
    if store_there(&mut db.image, &mut db.marks, key, value, mode) {
        return Ok(Reply::Stored);
    }
    let Ok(own_key) = Bytes::from_slice(alloc, key) else {
        return Err(Status::NoMemory);
    };
    let Ok(own_value) = Bytes::from_slice(alloc, value) else {
        return Err(Status::NoMemory);
    };
    let command = Command::Store {
        key: own_key,
        value: own_value,
        mode,
    };
    perform(alloc, db, command)
}

/// Removes a key and its value.
pub fn delete(alloc: Global, db: &mut Db, key: &[u8]) -> Result<Reply<Global>, Status>
    ensures ok { IfOk result (λ reply. DoesCommand db.old (Delete key.now) reply db.new) }
    ensures err { OnErr result (db.new ≡ db.old) }
    ensures why { IfErr result (DeniesBy db.old (Delete key.now)) }
{
    let Ok(key) = Bytes::from_slice(alloc, key) else {
        return Err(Status::NoMemory);
    };
    perform(alloc, db, Command::Delete { key })
}

/// Copies the value of a key to `room` if it fits, and sets `len` to its length either way. If the key is missing, `room` and
/// `len` are unchanged.
pub fn fetch(db: &Db, key: &[u8], room: &mut [u8], len: &mut usize) -> Status
    ensures { FetchesIn key.now db.now result room.old room.new len.old len.new }
{
    let place = db.image.place(key);
    let Some(shared) = db.image.page(place.page) else {
        return Status::Missing;
    };
    let page = shared.page();
    let Some(i) = page.find(key) else {
        return Status::Missing;
    };
    copy_out(page.record(i), room, len)
}

// Makes the command of a run.
fn run_command(
    alloc: Global,
    program: &Arc<Verified<Global>>,
    key: &[u8],
    arg: &[u8],
    blank: Option<usize>,
    now: u64,
) -> Result<Command<Global>, AllocError>
    ensures { IfOk result (λ command. command ≡ Run key.now (arc_value program.now).code arg.now blank now) }
{
    Ok(Command::Run {
        key: Bytes::from_slice(alloc, key)?,
        prog: Program::new(Arc::try_clone(program)?),
        arg: Bytes::from_slice(alloc, arg)?,
        blank,
        now,
    })
}

/// Runs the program with this number on the record of a key.
pub fn run(
    alloc: Global,
    db: &mut Db,
    number: u32,
    key: &[u8],
    arg: &[u8],
    blank: Option<usize>,
    now: u64,
) -> Result<Reply<Global>, Status>
    ensures ok { IfOk result (λ reply. RunsBy number key.now arg.now blank now reply db.old db.new) }
    ensures err { OnErr result (db.new ≡ db.old) }
    ensures why { IfErr result (DeniesRun number key.now arg.now blank now db.old) }
{
    let Some(program) = db.registry.get(ProgId(number)) else {
        return Err(Status::NoProgram);
    };
    if let Err(fault) = check_run(key, arg, blank, db.image.page_size()) {
        return Err(Status::of_size(fault));
    }
    if let Some(reply) = run_there(&mut db.image, &mut db.marks, program, key, arg, blank, now) {
        return Ok(reply);
    }
    let Ok(command) = run_command(alloc, program, key, arg, blank, now) else {
        return Err(Status::NoMemory);
    };
    perform(alloc, db, command)
}

/// Requests a run of the program with this number. Computes nothing yet.
pub fn ask(
    alloc: Global,
    db: &Db,
    number: u32,
    key: &[u8],
    arg: &[u8],
    blank: Option<usize>,
    now: u64,
) -> Result<Box<Job>, Status>
    ensures ok { IfOk result (λ job. IsRunAsked number key.now arg.now blank now db.now job.value) }
    ensures why { IfErr result (DeniesAsk number key.now arg.now blank now db.now) }
{
    let Some(program) = db.registry.get(ProgId(number)) else {
        return Err(Status::NoProgram);
    };
    if let Err(fault) = check_run(key, arg, blank, db.image.page_size()) {
        return Err(Status::of_size(fault));
    }
    let Ok(command) = run_command(alloc, program, key, arg, blank, now) else {
        return Err(Status::NoMemory);
    };
    let Ok(job) = Job::ask(&db.image, command) else {
        return Err(Status::NoMemory);
    };
    match Box::new(alloc, job) {
        Ok(owned) => Ok(owned),
        Err(_) => Err(Status::NoMemory),
    }
}

/// Returns the bytes of both files, `.dir` first.
pub fn files(alloc: Global, db: &Db) -> Result<(MemSink<Global>, MemSink<Global>), AllocError>
    ensures { IfOk result (λ sinks. HasFiles sinks.0.bytes sinks.1.bytes db.now) }
{
    let mut dir = MemSink::new(alloc);
    let mut pag = MemSink::with_capacity(alloc, db.image.pag_len() as usize)?;
    match db.image.write(&mut dir, &mut pag) {
        Ok(()) => Ok((dir, pag)),
        Err(_) => Err(AllocError),
    }
}

/// Returns the exit number and the reply word of a run, or zeros if the program did not run.
pub fn end_of(reply: &Reply<Global>) -> (u64, u64)
    ensures { IsRunEnd reply.now result.0 result.1 }
{
    match reply {
        Reply::Ran { code, word } => (*code, *word),
        _ => (0, 0),
    }
}
