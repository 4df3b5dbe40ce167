//! The program `dbm`: fetches, stores and lists pairs, runs scripts, and handles programs as text and images.
#![tactic(auto)]

ghost use Rattle.std.specs.Prelude.{◌≡◌};
ghost use Rattle.dbm_tool.specs.Endings.{IsEndingTold};
ghost use Rattle.dbm_tool.specs.declared.ending.Ending.TheVariants.{Failed, Refused};

mod backup;
mod clock;
mod dispatch;
mod ending;
mod printing;
mod quick;
mod request;
mod serve;
mod sizes;
mod stock;

use backup::{refuse_copy, serve_backup};
use clock::{read_clock, read_time};
use dbm_args::Access;
use dbm_command_line::{Ask, Request, ToolFault, Wish, read_words};
use dbm_dump::DumpFault;
use dbm_files::{LockedFiles, RunFiles, SaveOutcome, save_files, take_rest};
use dbm_messages::ServeFault;
use dbm_places::{RunPlace, has_no_files};
use dbm_reports::{Given, NOT_RUN, Outcome, ReportFault};
use dbm_script::{LineKind, SCRIPT_LIMIT, TimeOfDay, read_number};
use dbm_shell::{read_options, serve_session};
use dbm_stderr::{
    DiagnosticContext, PipeWriter, ProgressReader, RecordingReader, advise, is_terminal,
    note_absent, note_bad_lines, note_hex_word, note_holder, note_object, note_of_half_line,
    note_of_line_end, note_pending, note_that, take_and_tell, tell_saving,
};
use ending::{Ending, Served, exit_status};
use printing::{note_program, print_change, print_lines};
use quick::{PageServed, may_be_quick, serve_quick};
use request::{context_of, doubtful_hex, given_of, place_asked, reads_whole, work_asked, work_of};
use sdbm_addr::PageSize;
use sdbm_files::ReadPages;
use sdbm_saves::ReadFiles;
use serve::serve;
use sizes::{must_be_wide, refuse_small};
use std::alloc::{AllocError, Global};
use std::env::VarError;
use std::fs::File;
use std::io::{ErrorKind, Read, Write};
use std::process::ExitCode;
use std::rt::{Files, Runtime};
use std::sync::Wait;
use std::thread::Threads;
use std::time::Duration;
use std::{env, fs, io, thread};
use stock::{check_program, print_programs, stock_file};

// The default for the longest wait for the lock, in seconds, if a run may change the database.
const DEFAULT_PATIENCE: u64 = 60;

fn main(rt: HostRuntime) -> ExitCode {
    let _standard = hold_standard(&rt);
    let ending = match read_args(&rt) {
        Ok(args) => run(&rt, args.as_slice()),
        Err(fault) => tell(&rt, None, Ending::Failed(fault)),
    };
    ExitCode::from(exit_status(&ending))
}

// Opens a folder on each of the descriptors 0, 1 and 2 that is closed, so that no file of a database gets this descriptor. Reads and
// writes on a folder fail.
fn hold_standard<R: Files>(rt: &R) -> [io::Result<R::File>; 3] {
    [fs::open(rt, "/"), fs::open(rt, "/"), fs::open(rt, "/")]
}

// Returns the words of the command line. The first is the program's name.
fn read_args<R: Runtime + AllocGlobal>(rt: &R) -> Result<Vec<String>, ServeFault> {
    match env::args(rt) {
        Ok(args) => Ok(args.collect(rt.alloc())?),
        Err(error) if error.kind() == ErrorKind::OutOfMemory => Err(ServeFault::NoMemory),
        Err(_) => Err(ServeFault::NotText),
    }
}

// Reads the arguments, serves the request, and reports errors.
fn run<R: Runtime<File = File> + AllocGlobal + Threads + Wait + Sync>(
    rt: &R,
    args: &[String],
) -> Ending {
    let alloc = rt.alloc();
    let Ok(words) = words_meant(rt, args) else {
        return tell(rt, None, Ending::Failed(ServeFault::NoMemory));
    };
    match read_words(alloc, words.as_slice()) {
        Ok(request) => serve_and_tell(rt, request),
        Err(ToolFault::NoMemory) => tell(rt, None, Ending::Failed(ServeFault::NoMemory)),
        Err(fault) => {
            let fault = refused_in_lines(alloc, words.as_slice(), fault);
            tell(rt, None, Ending::Refused(fault))
        }
    }
}

// Returns the arguments. If DBM_TEXT is 1 and the subcommand accepts `--text`, adds this option.
fn words_meant<'a, R: Runtime + AllocGlobal>(
    rt: &R,
    args: &'a [String],
) -> Result<Vec<&'a str>, AllocError> {
    let alloc = rt.alloc();
    let words = words_after_name(alloc, args, false)?;
    if !is_on(rt, "DBM_TEXT")? {
        return Ok(words);
    }
    let with_text = words_after_name(alloc, args, true)?;
    match read_words(alloc, with_text.as_slice()) {
        Ok(_) => Ok(with_text),
        Err(ToolFault::NoMemory) => Err(AllocError),
        Err(_) => Ok(words),
    }
}

// Returns the arguments. If `is_text` is true, `--text` follows the first one, the name of the subcommand.
fn words_after_name(
    alloc: Global,
    args: &[String],
    is_text: bool,
) -> Result<Vec<&str>, AllocError> {
    let mut words: Vec<&str> = Vec::new(alloc);
    for arg in args.iter().skip(1) {
        words.push(arg.as_str())?;
        if is_text && words.len() == 1 {
            words.push("--text")?;
        }
    }
    Ok(words)
}

// Serves a request, and reports its notes or its fault.
fn serve_and_tell<R: Runtime<File = File> + AllocGlobal + Threads + Wait + Sync>(
    rt: &R,
    request: Request<'_>,
) -> Ending {
    let context = context_of(&request);
    let doubtful = doubtful_hex(&request.ask);
    let records = !matches!(request.ask, Ask::Wish(Wish::Load(_)) | Ask::Session(_));
    let input = ProgressReader::new(rt, rt.reader(), work_asked(&request.ask));
    let mut reader = RecordingReader::new(rt.alloc(), input, records);
    let verbose = request.access.verbose;
    let outcome = serve_request(rt, request, &mut reader);
    if let Ok(Some(served)) = &outcome {
        note(rt, &context, served, reader.text());
        if let Some(word) = doubtful
            && is_terminal(rt, 2)
        {
            note_hex_word(rt, word);
        }
    }
    let fault = outcome.as_ref().err().copied();
    // The name of the fault is the first line, so the notes follow.
    let ending = tell(rt, Some(&context), Ending::of(outcome));
    match fault {
        Some(ServeFault::BadLine(_)) => note_line_end(rt, LineKind::OfBatch, reader.text()),
        Some(ServeFault::Locked) => note_holder(rt, context.place, verbose),
        _ => (),
    }
    ending
}

// If an argument has a line feed, returns the refusal of the same arguments with `\n` for each line feed. `clap` shows arguments unchanged,
// and an argument must not be able to print a line that looks like a message of this program.
fn refused_in_lines(alloc: Global, words: &[&str], fault: ToolFault) -> ToolFault {
    if !words.iter().any(|word| word.contains('\n')) {
        return fault;
    }
    match words_in_lines(alloc, words) {
        Ok(plain) => refused_again(alloc, plain.as_slice()).unwrap_or(fault),
        Err(_) => fault,
    }
}

// Copies the arguments, with `\n` for each line feed.
fn words_in_lines(alloc: Global, words: &[&str]) -> Result<Vec<String>, AllocError> {
    let mut plain: Vec<String> = Vec::new(alloc);
    for word in words {
        let mut text = String::new(alloc);
        for c in word.chars() {
            if c == '\n' {
                text.push_str("\\n")?;
            } else {
                text.push(c)?;
            }
        }
        plain.push(text)?;
    }
    Ok(plain)
}

// Returns the refusal of the arguments, or `None` if they are accepted or memory ran out.
fn refused_again(alloc: Global, words: &[String]) -> Option<ToolFault> {
    let mut lent: Vec<&str> = Vec::new(alloc);
    for word in words {
        lent.push(word.as_str()).ok()?;
    }
    match read_words(alloc, lent.as_slice()) {
        Err(ToolFault::NoMemory) | Ok(_) => None,
        Err(fault) => Some(fault),
    }
}

// Prints notes that explain an answer. The notes are about missing files, a save that is not yet in the data files, an object file instead
// of an image, bad lines of a script, a line that ends in CR if there are bad lines, and a last line without LF.
fn note<R: Runtime<File = File> + AllocGlobal>(
    rt: &R,
    context: &DiagnosticContext<'_>,
    served: &Served,
    input: &[u8],
) {
    if !context.place.writes {
        note_absent(rt, context);
    }
    if served.is_pending {
        note_pending(rt, context);
    }
    if matches!(served.status, 1 | NOT_RUN) {
        note_object(rt, context);
    }
    if served.notes.bad_lines.count > 0 {
        note_bad_lines(rt, served.notes.bad_lines);
        note_line_end(rt, LineKind::OfScript, input);
    }
    if served.status == 0
        && let Some(lines) = context.lines
        && let Some(note) = note_of_half_line(lines, input)
    {
        note_that(rt, note);
    }
}

// Notes the first line of a script or a batch that ends in CR, if any.
fn note_line_end<R: Runtime>(rt: &R, lines: LineKind, input: &[u8]) {
    if let Some(note) = note_of_line_end(lines, input) {
        note_that(rt, note);
    }
}

// Checks a request, takes its files, and serves it. The checks are: the stock program exists, the base is valid, the timeout is valid, and
// required files exist. If there may be a change, standard output must be writable too, because otherwise the answer would be lost. A run
// that writes holds its lock until its change is saved. Returns `None` if the reader of the answer is gone, which is not a fault.
fn serve_request<R: Runtime<File = File> + AllocGlobal + Threads + Wait + Sync, I: Read>(
    rt: &R,
    request: Request<'_>,
    reader: &mut RecordingReader<I>,
) -> Result<Option<Served>, ServeFault> {
    if let Ask::Wish(wish) = &request.ask {
        check_program(wish)?;
    }
    let place = place_asked(&request.ask);
    if place.base.is_some_and(|base| !is_name(base)) {
        return Err(ServeFault::BadBase);
    }
    if let Ask::Backup(backup) = &request.ask
        && !is_name(backup.to)
    {
        return Ok(Some(refuse_copy(rt, backup, ServeFault::BadBase)));
    }
    let patience = check_access(rt, &request.ask, request.access, place)?;
    // A terminal reports the end of its input only once, so it is not read ahead.
    if place.base.is_some() && reads_whole(&request.ask) && !is_terminal(rt, 0) {
        reader.read_ahead(SCRIPT_LIMIT + 1);
    }
    let taking = Taking { place, patience };
    let taken = take_asked(rt, &request, taking)?;
    serve_ask(rt, request.ask, taking, taken, reader)
}

// Serves a request whose files were taken.
fn serve_ask<R: Runtime<File = File> + AllocGlobal + Threads + Wait + Sync, I: Read>(
    rt: &R,
    ask: Ask<'_>,
    taking: Taking<'_>,
    taken: RunFiles,
    reader: &mut RecordingReader<I>,
) -> Result<Option<Served>, ServeFault> {
    match ask {
        Ask::Wish(wish) => {
            let added = added_words(rt, &wish)?;
            serve_peeked(rt, with_words(wish, &added), taking, taken, reader)
        }
        Ask::Session(session) => {
            serve_session(rt, session, taking.place, taken, reader)?;
            Ok(Some(Served::plain(0)))
        }
        Ask::Backup(backup) => Ok(Some(serve_backup(rt, &backup, taken.bytes)?)),
        Ask::Programs(programs) => {
            let is_read = print_programs(rt, &programs)?;
            Ok(is_read.then_some(Served::plain(0)))
        }
    }
}

// Checks that required files exist. If there may be a change, also checks that standard output is writable. Returns the longest wait for
// the lock.
fn check_access<R: Runtime<File = File> + AllocGlobal>(
    rt: &R,
    ask: &Ask<'_>,
    access: Access<'_>,
    place: RunPlace<'_>,
) -> Result<Option<Duration>, ServeFault> {
    let copies = matches!(ask, Ask::Backup(_));
    let writes = place.writes || copies;
    let patience = patience_of(rt, access.timeout, writes)?;
    if (access.must_exist || copies) && has_no_files(rt, place.base) {
        return Err(ServeFault::Absent);
    }
    if writes && io::writer(rt).write(&[]).is_err() {
        return Err(ServeFault::Write);
    }
    Ok(patience)
}

// Takes the files of a request. Leaves `.pag` unread if one page may be enough. For a stock program, makes its bytes instead of reading a
// file.
fn take_asked<R: Runtime<File = File> + AllocGlobal + Threads + Wait + Sync>(
    rt: &R,
    request: &Request<'_>,
    taking: Taking<'_>,
) -> Result<RunFiles, ServeFault> {
    let Request { ask, access } = request;
    let peeks = may_be_quick(ask) && (access.quick || is_on(rt, "DBM_QUICK")?);
    let Taking { place, patience } = taking;
    let work = work_asked(ask);
    let mut taken = take_and_tell(rt, place, peeks, patience, access.verbose, work)?;
    if must_be_wide(request) {
        taken = match refuse_small(rt, place, taken, patience) {
            Err(ServeFault::OtherSize) => return Err(fault_of_small(rt, ask)),
            other => other?,
        };
    }
    if let Ask::Wish(wish) = ask
        && let Some(program) = stock_file(rt.alloc(), wish)?
    {
        taken.bytes.program = program;
    }
    Ok(taken)
}

// The files of a request, and the longest wait for their lock.
#[derive(Clone, Copy)]
struct Taking<'a> {
    place: RunPlace<'a>,
    patience: Option<Duration>,
}

// Returns `true` if an environment variable is `1`.
fn is_on<R: Runtime + AllocGlobal>(rt: &R, name: &str) -> Result<bool, AllocError> {
    match env::var(rt, name) {
        Ok(word) => Ok(word.as_str() == "1"),
        Err(VarError::OutOfMemory) => Err(AllocError),
        Err(_) => Ok(false),
    }
}

// Returns `true` if the base ends with a file name. A base such as `users/` does not: it would name the files `users/.dir` and
// `users/.pag`.
fn is_name(base: &str) -> bool {
    let last = match base.rsplit_once('/') {
        Some((_, last)) => last,
        None => base,
    };
    !matches!(last, "" | "." | "..")
}

// Returns the longest wait for the lock: the value of `--timeout`, or else that of DBM_TIMEOUT. Without both, the longest wait is a minute
// for a run that may change the database, and otherwise unlimited (`None`).
fn patience_of<R: Runtime + AllocGlobal>(
    rt: &R,
    timeout: Option<&str>,
    writes: bool,
) -> Result<Option<Duration>, ServeFault> {
    if let Some(word) = timeout {
        return match read_number(word.as_bytes(), u64::MAX) {
            Some(seconds) => Ok(Some(Duration::from_secs(seconds))),
            None => Err(ServeFault::Report(ReportFault::BadNumber)),
        };
    }
    Ok(match asked_patience(rt) {
        Some(patience) => Some(patience),
        None if writes => Some(Duration::from_secs(DEFAULT_PATIENCE)),
        None => None,
    })
}

// Returns the timeout in DBM_TIMEOUT. If the variable is not a number, prints a note and treats the variable as unset.
fn asked_patience<R: Runtime + AllocGlobal>(rt: &R) -> Option<Duration> {
    let word = env::var(rt, "DBM_TIMEOUT").ok()?;
    let seconds = read_number(word.as_bytes(), u64::MAX);
    if seconds.is_none() {
        let _ = eprintln!(rt;
            "dbm: note: DBM_TIMEOUT is not a number of seconds, so it is ignored"
        );
    }
    Some(Duration::from_secs(seconds?))
}

// The values that the program adds to a request.
#[derive(Drop)]
struct AddedWords {
    time: Option<String>,
    workers: Option<String>,
    clock: Option<TimeOfDay>,
}

// Finds the values that a request needs: the time of day, and the number of cores. Reads the clock once, after the wait for the lock.
fn added_words<R: Runtime + Threads + AllocGlobal>(
    rt: &R,
    wish: &Wish<'_>,
) -> Result<AddedWords, ServeFault> {
    let alloc = rt.alloc();
    let mut added = AddedWords {
        time: None,
        workers: None,
        clock: None,
    };
    if let Some(unit) = wish.time_asked() {
        added.time = Some(read_clock(rt, alloc, unit)?);
        return Ok(added);
    }
    if wish.asks_clock() {
        added.clock = Some(read_time(rt)?);
    }
    if wish.asks_cores() {
        added.workers = Some(cores_text(rt, alloc)?);
    }
    Ok(added)
}

// Puts the added values into a request.
fn with_words<'a>(wish: Wish<'a>, added: &'a AddedWords) -> Wish<'a> {
    if let Some(time) = &added.time {
        return wish.with_time(time.as_str());
    }
    let wish = match added.clock {
        Some(time) => wish.with_clock(time),
        None => wish,
    };
    match &added.workers {
        Some(workers) => wish.with_workers(workers.as_str()),
        None => wish,
    }
}

// Returns the fault of a request whose files look small: the first fault of its words, or else `OtherSize`. To find a fault of the words,
// serves the request on an empty database and an empty input, where it changes and prints nothing.
fn fault_of_small<R: Runtime<File = File> + AllocGlobal + Threads + Wait + Sync>(
    rt: &R,
    ask: &Ask<'_>,
) -> ServeFault {
    let fault = match ask {
        Ask::Wish(wish) => serve_nothing(rt, wish).err(),
        Ask::Session(session) => read_options(rt.alloc(), session).err(),
        Ask::Backup(_) | Ask::Programs(_) => None,
    };
    match fault {
        Some(fault) if is_of_words(fault) => fault,
        _ => ServeFault::OtherSize,
    }
}

// Serves a request on an empty database, with an empty input and an empty program, and prints nothing.
fn serve_nothing<R: Runtime<File = File> + AllocGlobal + Threads + Wait + Sync>(
    rt: &R,
    wish: &Wish<'_>,
) -> Result<Outcome, ServeFault> {
    let alloc = rt.alloc();
    let added = added_words(rt, wish)?;
    let none = Given {
        dir: Vec::new(alloc),
        pag: ReadPages::new(alloc, PageSize::Wide),
        file: Vec::new(alloc),
    };
    let wish = with_words(*wish, &added);
    serve(rt, alloc, wish, &none, &mut io::empty(), &mut io::sink())
}

// Returns `true` for a fault of the words, which comes before a fault of the files as a database.
fn is_of_words(fault: ServeFault) -> bool {
    matches!(
        fault,
        ServeFault::ReadClock
            | ServeFault::Dump(DumpFault::BadFormat)
            | ServeFault::Report(
                ReportFault::BadLayout
                    | ReportFault::BadHex
                    | ReportFault::BadText
                    | ReportFault::BadNumber
            )
    )
}

// Returns the number of cores that this process may use, in decimal; 1 if the system does not report it.
fn cores_text<R: Threads>(rt: &R, alloc: Global) -> Result<String, AllocError> {
    let cores = match thread::available_parallelism(rt) {
        Ok(cores) => cores.get(),
        Err(_) => 1,
    };
    format!(in alloc; "{cores}")
}

// Serves a request from the page of its key if `.pag` was left unread and that page is enough; otherwise from the whole files.
fn serve_peeked<R: Runtime<File = File> + AllocGlobal + Threads + Wait + Sync, I: Read>(
    rt: &R,
    wish: Wish<'_>,
    taking: Taking<'_>,
    taken: RunFiles,
    reader: &mut RecordingReader<I>,
) -> Result<Option<Served>, ServeFault> {
    let RunFiles {
        bytes,
        mut held,
        unread,
    } = taken;
    let Some(unread) = unread else {
        let taken = RunFiles {
            bytes,
            held,
            unread: None,
        };
        return serve_taken(rt, wish, taken, reader);
    };
    let reads = held.is_none();
    match serve_quick(rt, wish, &bytes, &unread, &mut held)? {
        Some(page) => {
            drop(unread);
            drop(held);
            print_page(rt, wish, bytes.program.as_slice(), page, reads)
        }
        None => {
            let taken = RunFiles {
                bytes,
                held,
                unread: Some(unread),
            };
            let taken = take_rest(rt, taking.place, taken, taking.patience)?;
            serve_taken(rt, wish, taken, reader)
        }
    }
}

// Prints the lines of a request that was served from one page, unless the save has printed the lines.
fn print_page<R: Runtime<File = File> + AllocGlobal>(
    rt: &R,
    wish: Wish<'_>,
    program: &[u8],
    page: PageServed,
    reads: bool,
) -> Result<Option<Served>, ServeFault> {
    let PageServed { result, saved } = page;
    if saved.is_none() && !print_unsaved(rt, reads, result.text.as_slice())? {
        return Ok(None);
    }
    note_program(rt, wish, program, result.notes);
    let is_pending = saved == Some(SaveOutcome::Pending);
    Ok(Some(Served::on_page(&result, is_pending)))
}

// Prints the lines of a request that saved nothing. Returns `false` if the request only reads and the reader of the answer is gone.
fn print_unsaved<R: Runtime>(rt: &R, reads: bool, lines: &[u8]) -> Result<bool, ServeFault> {
    if reads {
        return print_lines(rt, lines);
    }
    print_change(rt, lines)?;
    Ok(true)
}

// Serves a request whose files were taken and read as a whole.
fn serve_taken<R: Runtime<File = File> + AllocGlobal + Threads + Wait + Sync, I: Read>(
    rt: &R,
    wish: Wish<'_>,
    taken: RunFiles,
    reader: &mut RecordingReader<I>,
) -> Result<Option<Served>, ServeFault> {
    let RunFiles { bytes, held, .. } = taken;
    let given = given_of(bytes);
    match held {
        Some(held) => Ok(Some(serve_change(rt, wish, given, held, reader)?)),
        None => serve_reading(rt, wish, &given, reader),
    }
}

// Serves a request that only reads. A truncated dump is a fault, even if the reader of the pipe is gone.
fn serve_reading<R: Runtime<File = File> + AllocGlobal + Threads + Wait + Sync, I: Read>(
    rt: &R,
    wish: Wish<'_>,
    given: &Given,
    reader: &mut RecordingReader<I>,
) -> Result<Option<Served>, ServeFault> {
    let mut writer = PipeWriter::new(io::writer(rt));
    let served = serve(rt, rt.alloc(), wish, given, reader, &mut writer);
    if writer.has_no_reader() && !matches!(wish, Wish::Dump(_)) {
        return Ok(None);
    }
    Ok(Some(Served::of(&served?, false)))
}

// Serves a request that may change its database. The lines are printed after the save is committed and the lock is released.
fn serve_change<R: Runtime<File = File> + AllocGlobal + Threads + Wait + Sync, I: Read>(
    rt: &R,
    wish: Wish<'_>,
    given: Given,
    held: LockedFiles,
    reader: &mut RecordingReader<I>,
) -> Result<Served, ServeFault> {
    let mut lines = Vec::new(rt.alloc());
    let outcome = match serve(rt, rt.alloc(), wish, &given, reader, &mut lines) {
        Ok(outcome) => outcome,
        // Collecting lines in memory fails only if allocation fails.
        Err(ServeFault::Write) => return Err(ServeFault::NoMemory),
        Err(fault) => return Err(fault),
    };
    let mut is_pending = false;
    if let Some(new) = &outcome.database {
        let old = ReadFiles {
            pages: &given.pag,
            directory: given.dir.as_slice(),
        };
        tell_saving(rt, work_of(&wish), new.pag_len());
        let saved = save_files(rt, held, old, new, lines.as_slice(), &mut io::writer(rt))?;
        is_pending = saved == SaveOutcome::Pending;
    }
    note_program(rt, wish, given.file.as_slice(), outcome.notes);
    Ok(Served::of(&outcome, is_pending))
}

// Prints the refusal of the arguments, the help or the version that the arguments request, or the fault and what to do. If a refusal or
// help cannot be printed, the ending becomes the fault `Write`. If a fault cannot be printed, only the status reports it.
fn tell<R: Runtime<File = File> + AllocGlobal>(
    rt: &R,
    context: Option<&DiagnosticContext<'_>>,
    ending: Ending,
) -> Ending
    ensures { IsEndingTold ending result }
{
    match ending {
        Ending::Served(served) => Ending::Served(served),
        Ending::Refused(refusal) => tell_refusal(rt, context, refusal),
        Ending::Failed(fault) => tell_fault(rt, context, fault),
    }
}

fn tell_refusal<R: Runtime<File = File> + AllocGlobal>(
    rt: &R,
    context: Option<&DiagnosticContext<'_>>,
    refusal: ToolFault,
) -> Ending
    ensures { IsEndingTold (Refused refusal) result }
{
    if refusal.print(rt).is_err() {
        return tell_fault(rt, context, ServeFault::Write);
    }
    Ending::Refused(refusal)
}

fn tell_fault<R: Runtime<File = File> + AllocGlobal>(
    rt: &R,
    context: Option<&DiagnosticContext<'_>>,
    fault: ServeFault,
) -> Ending
    ensures { result ≡ Failed fault }
{
    let _ = eprintln!(rt; "dbm: {fault}");
    advise(rt, context, fault);
    Ending::Failed(fault)
}
