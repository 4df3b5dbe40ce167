//! `batch`: runs a program on the records of many keys, with parallel workers.
ghost use Rattle.std.specs.Prelude.{◌≡◌, ◌⊎◌, ◌≤◌, ◌++◌, true, length, is_some, IfOk, IfErr, OnOk, Some, map};
ghost use Rattle.std.specs.List.{flat_map};
ghost use Rattle.sdbm_addr.specs.Database.{Database};
ghost use Rattle.std.specs.declared.alloc.Global.{Global};
ghost use Rattle.store_shared.specs.Closed.{IsRefusedClose};
ghost use Rattle.store_shared.specs.Shared.{opened_by};
ghost use Rattle.dbm_script.specs.Shorthand.{spelled_text};
ghost use Rattle.dbm_script.specs.Tasks.{AreTasksOf, IsTasksFault};
ghost use Rattle.dbm_script.specs.declared.shorthand.LineKind.TheVariants.{OfBatch};
ghost use Rattle.dbm_batches.specs.Batches.{DoesTasks, IsClosedAfter, IsBatchReady, IsSubmitted, TasksLeadTo, OnBatch, OnTasks, batch_causes, doing_causes, ready_causes, reply_line, submit_causes, task_causes, task_for};
ghost use Rattle.dbm_messages.specs.declared.fault.ServeFault.TheVariants.{Close};
ghost use Rattle.dbm_messages.specs.Faults.{pool_fault};
ghost use Rattle.dbm_batches.specs.Causes.{HasWishCause};
ghost use Rattle.dbm_reports.specs.Served.{IsPrinted, IsUnserved};

use dbm_args::Form;
use dbm_messages::ServeFault;
use dbm_records::{Batch as BatchRequest, database_and_image};
use dbm_reports::{Given, Notes, Outcome, Report, ReportFault, Unserved, read_input, write_report};
use dbm_script::{
    LineKind, Notation, RunWords, TasksFault, TimeOfDay, read_number, read_tasks, show_reply,
    spell_out,
};
use prog_registry::{ProgId, Registry};
use sdbm_files::Image;
use std::alloc::{AllocError, Global};
use std::io::{Read, Write};
use std::sync::Wait;
use std::thread::Threads;
use store_cmd::Reply;
use store_shared::{Calls, CloseFault, NoGate, Store};
use worker_pool::{Answers, PoolFault, Task, run_jobs};

/// The largest number of workers that an argument may give. The pool itself refuses more than 4,096.
const WORKERS_MOST: u64 = 4_294_967_295;

/// A batch that is ready for its tasks. The program is the only one of the registry.
#[derive(Drop)]
pub struct Batch {
    pub workers: usize,
    pub database: Image<Global>,
    pub registry: Registry<Global>,
    pub program: ProgId,
}

// The result of a batch whose tasks were all done: the reply to each task, and the database after the last one.
#[derive(Drop)]
struct Done {
    replies: Vec<Reply<Global>>,
    database: Image<Global>,
}

/// Runs the subcommand `batch`: does the tasks, and then writes a line for each reply.
///
/// # Errors
/// The errors of `serve` of `dbm_reports`; the fault in `Unreported` is one of `report_batch`.
pub fn serve_batch<T: Threads + Wait + Sync, R: Read, W: Write>(
    rt: &T,
    alloc: Global,
    notation: &Notation<Global>,
    asked: BatchRequest<'_>,
    given: &Given,
    reader: &mut R,
    writer: &mut W,
) -> Result<Outcome, Unserved<ServeFault>>
    ensures ok { IfOk result (λ served. IsPrinted (OnBatch notation.now asked.entry.form given.now asked.entry.workers asked.entry.image asked.entry.time (R.remaining reader.old)) (W.contents writer.old) (W.contents writer.new) served.status served.database) }
    ensures fault { IfErr result (IsUnserved (OnBatch notation.now asked.entry.form given.now asked.entry.workers asked.entry.image asked.entry.time (R.remaining reader.old)) (HasWishCause (batch_causes notation.now asked.entry.form given.now asked.entry.workers asked.entry.image asked.entry.time (R.remaining reader.old))) (W.contents writer.old) (W.contents writer.new)) }
    ensures database { IfOk result (λ served. is_some served.database ≡ true) }
{
    match report_batch(rt, alloc, notation, asked, given, reader) {
        Ok(report) => write_report(report, writer),
        Err(fault) => Err(Unserved::Unreported(fault)),
    }
}

/// Does the tasks on standard input. Each task runs the program of the program file on the database. Reports the replies, and the database
/// to write.
///
/// # Errors
/// The first of these faults:
/// - `BadNumber` if the number of workers is invalid.
/// - The faults of the files of the database, then those of the program's file, then `Submit` if the program is refused.
/// - `Read` if standard input cannot be read, `TooLong` if it is too long, and `BadLine` with the number of the first line that is not a
///   task.
/// - `Pool` if not all tasks were done, and `Close` if the workers' calls differ from those of the store.
///
/// `NoMemory` is possible at any time.
pub fn report_batch<T: Threads + Wait + Sync, R: Read>(
    rt: &T,
    alloc: Global,
    notation: &Notation<Global>,
    asked: BatchRequest<'_>,
    given: &Given,
    reader: &mut R,
) -> Result<Report, ServeFault>
    ensures ok { IfOk result (OnBatch notation.now asked.entry.form given.now asked.entry.workers asked.entry.image asked.entry.time (R.remaining reader.old)) }
    ensures fault { IfErr result (HasWishCause (batch_causes notation.now asked.entry.form given.now asked.entry.workers asked.entry.image asked.entry.time (R.remaining reader.old))) }
{
    let batch = ready_batch(alloc, given, asked.form, asked.workers, asked.image)?;
    let input = read_input(alloc, reader)?;
    run_batch(rt, alloc, notation, batch, asked.time, input.as_slice())
}

// Prepares a batch before standard input is read.
fn ready_batch(
    alloc: Global,
    given: &Given,
    form: Form,
    workers: &str,
    is_image: bool,
) -> Result<Batch, ServeFault>
    ensures ok { IfOk result (IsBatchReady form given.now workers.entry is_image) }
    ensures fault { IfErr result (HasWishCause (ready_causes form given.now workers.entry is_image)) }
{
    let Some(workers) = read_number(workers.as_bytes(), WORKERS_MOST) else {
        return Err(ServeFault::Report(ReportFault::BadNumber));
    };
    let (database, image) = database_and_image(alloc, given, form, is_image)?;
    let (registry, program) = register(alloc, image.as_slice())?;
    Ok(Batch {
        workers: workers as usize,
        database,
        registry,
        program,
    })
}

// Creates a registry with the program of an image, and returns it with the program's number.
fn register(alloc: Global, image: &[u8]) -> Result<(Registry<Global>, ProgId), ServeFault>
    ensures ok { IfOk result (λ r. IsSubmitted image.now r.0.programs r.1) }
    ensures fault { IfErr result (HasWishCause (submit_causes image.now)) }
{
    let mut registry = Registry::new(alloc)?;
    let program = registry.submit(image)?;
    Ok((registry, program))
}

// Does the tasks of a text. Reports their replies, and the database to write.
fn run_batch<T: Threads + Wait + Sync>(
    rt: &T,
    alloc: Global,
    notation: &Notation<Global>,
    batch: Batch,
    time: Option<TimeOfDay>,
    input: &[u8],
) -> Result<Report, ServeFault>
    requires { length input.now ≤ 16777216 }
    ensures ok { IfOk result (λ report. OnTasks notation.now time batch (Some input.now) (λ tasks. DoesTasks notation.now batch tasks report)) }
    ensures fault { IfErr result (HasWishCause (task_causes notation.now time batch (Some input.now))) }
{
    let words = words_of_lines(alloc, notation, time, input)?;
    let tasks = tasks_for(alloc, batch.program, words)?;
    let done = do_tasks(rt, alloc, batch, tasks.as_slice())?;
    Ok(Report {
        text: show_replies(alloc, notation, done.replies.as_slice())?,
        status: 0,
        database: Some(done.database),
        notes: Notes::none(),
    })
}

// Expands the shorthand of a text, and reads the words of its tasks.
fn words_of_lines(
    alloc: Global,
    notation: &Notation<Global>,
    time: Option<TimeOfDay>,
    input: &[u8],
) -> Result<Vec<RunWords<Global>>, TasksFault>
    ensures ok { IfOk result (λ words. AreTasksOf Global notation.now (spelled_text OfBatch time input.now) words.items) }
    ensures fault { IfErr result (IsTasksFault Global notation.now (spelled_text OfBatch time input.now)) }
{
    let lines = spell_out(alloc, LineKind::OfBatch, time, input)?;
    read_tasks(alloc, notation, lines.as_slice())
}

// Returns a task that runs the program for each element of `words`.
fn tasks_for(
    alloc: Global,
    program: ProgId,
    words: Vec<RunWords<Global>>,
) -> Result<Vec<Task<Global>>, AllocError>
    ensures { IfOk result (λ tasks. tasks.items ≡ map (task_for program) words.items) }
{
    let mut tasks = Vec::with_capacity(alloc, words.len())?;
    for asked in words {
        tasks.push_reserved(task_for(program, asked));
    }
    Ok(tasks)
}

// Returns the task that runs a program with these words.
fn task_for(program: ProgId, words: RunWords<Global>) -> Task<Global>
    ensures { result ≡ task_for program words }
{
    Task {
        key: words.key,
        prog: program,
        arg: words.arg,
        blank: words.blank,
        now: words.now,
    }
}

// Opens a store on the database of a batch, does the tasks with its workers, and closes the store.
fn do_tasks<T: Threads + Wait + Sync>(
    rt: &T,
    alloc: Global,
    batch: Batch,
    tasks: &[Task<Global>],
) -> Result<Done, ServeFault>
    ensures ok { IfOk result (λ done. TasksLeadTo batch tasks.now done.replies.items done.database) }
    ensures fault { IfErr result (HasWishCause (doing_causes batch tasks.now)) }
{
    let Batch {
        workers,
        database,
        registry,
        ..
    } = batch;
    let Ok(store) = Store::open(alloc, database, tasks.len(), NoGate) else {
        return Err(ServeFault::NoMemory);
    };
    match run_jobs(rt, alloc, &store, &registry, tasks, workers) {
        Ok(answers) => close(store, answers),
        Err((fault, calls)) => Err(undone(store, fault, calls)),
    }
}

// Closes the store after a fault of the pool. Returns that fault, or the fault of closing if the store does not close with the calls of the
// workers.
fn undone(store: Store<Global, NoGate>, fault: PoolFault, calls: Vec<Calls<Global>>) -> ServeFault
    ensures { (result ≡ pool_fault fault) ⊎ ((reason : CloseFault) × ((result ≡ Close reason) × IsRefusedClose store calls.items reason)) }
{
    match store.close(calls) {
        Ok(_closed) => ServeFault::from(fault),
        Err((reason, _store, _calls)) => ServeFault::Close(reason),
    }
}

// Closes a store with the calls of its workers.
fn close(store: Store<Global, NoGate>, answers: Answers<Global>) -> Result<Done, ServeFault>
    ensures replies { IfOk result (λ done. done.replies ≡ answers.replies) }
    ensures closed { IfOk result (λ done. (before : Database) → store ≡ opened_by before → IsClosedAfter before answers.calls.items done.database) }
    ensures fault { IfErr result (λ fault. (reason : CloseFault) × ((fault ≡ Close reason) × IsRefusedClose store answers.calls.items reason)) }
{
    let Answers { replies, calls } = answers;
    match store.close(calls) {
        Ok(closed) => Ok(Done {
            replies,
            database: closed.image,
        }),
        Err((fault, _store, _calls)) => Err(ServeFault::Close(fault)),
    }
}

// Returns a line for each reply.
fn show_replies(
    alloc: Global,
    notation: &Notation<Global>,
    replies: &[Reply<Global>],
) -> Result<Vec<u8>, AllocError>
    ensures { IfOk result (λ text. text.items ≡ flat_map (reply_line notation.now) replies.now) }
{
    let mut text = Vec::new(alloc);
    for reply in replies {
        show_line(alloc, notation, reply, &mut text)?;
    }
    Ok(text)
}

fn show_line(
    alloc: Global,
    notation: &Notation<Global>,
    reply: &Reply<Global>,
    text: &mut Vec<u8>,
) -> Result<(), AllocError>
    ensures { OnOk result (text.new.items ≡ text.old.items ++ reply_line notation.now reply.now) }
{
    show_reply(alloc, notation, reply, text)?;
    Ok(text.push(b'\n')?)
}
