//! A request that may need only the page of its key.
ghost use Rattle.std.specs.Prelude.{◌≡◌, ℕ, List, IfOk, IfSome, true};
ghost use Rattle.store_moves.specs.Works.{HasKey};
ghost use Rattle.dbm_records.specs.PageRequests.{AnswersRequest, IsMeant, request_key, FetchComes, StoreComes, DeleteComes, RunComes};

use crate::{
    Delete, Fetch, Run, Store, command_in, look_as, run_image, run_words, store_name, takes_input,
};
use dbm_reports::{Report, ReportFault, change, file_image, word_asked};
use dbm_script::{Notation, RunWords};
use sdbm_files::Image;
use std::alloc::{AllocError, Global};
use store_cmd::Command;

/// A request that may need only the page of its key.
#[derive(Drop)]
pub enum PageRequest {
    /// A fetch.
    Fetch {
        command: Command<Global>,
        /// Prints only the bytes of the value.
        raw: bool,
    },
    /// A store or a delete.
    Change {
        command: Command<Global>,
    },
    /// A run of the program with this image, with an optional expected code.
    Run {
        words: RunWords<Global>,
        program: Vec<u8>,
        expect: Option<u64>,
    },
}

impl PageRequest {
    /// Returns the key of the request.
    pub fn key(&self) -> &[u8]
        ensures { result.now ≡ request_key self.now }
    {
        match self {
            PageRequest::Fetch { command, .. } | PageRequest::Change { command } =>
                store_moves::key_in(command),
            PageRequest::Run { words, .. } => words.key.as_slice(),
        }
    }

    /// Answers the request on a database.
    ///
    /// # Errors
    /// `AllocError` if allocation fails.
    pub fn answer(
        self,
        alloc: Global,
        notation: &Notation<Global>,
        image: Image<Global>,
    ) -> Result<Report, AllocError>
        ensures { IfOk result (AnswersRequest notation.now self image) }
    {
        match self {
            PageRequest::Fetch { command, raw } => look_as(alloc, notation, image, command, raw),
            PageRequest::Change { command } => change(alloc, notation, image, command, None),
            PageRequest::Run {
                words,
                program,
                expect,
            } => run_image(alloc, notation, image, program.as_slice(), words, expect),
        }
    }
}

// Returns `true` if a command is about a key.
fn has_key(command: &Command<Global>) -> bool
    ensures { result ≡ true → HasKey command.now }
{
    match command {
        Command::Fetch { .. }
        | Command::Store { .. }
        | Command::Delete { .. }
        | Command::Run { .. } => true,
        Command::Count => false,
    }
}

/// Reads a fetch. Never returns `None`, because a fetch has a key; no clause says so.
///
/// # Errors
/// `BadHex` (in a text notation `BadText`) if the key is invalid, and `NoMemory` if allocation fails.
pub fn fetch_request(
    alloc: Global,
    notation: &Notation<Global>,
    fetch: &Fetch<'_>,
) -> Result<Option<PageRequest>, ReportFault>
    ensures { IfOk result (λ asked. IfSome asked (λ asked. (file : List ℕ) → IsMeant fetch.now.form file notation.now (FetchComes notation.now fetch.now) asked)) }
{
    let key = word_asked(alloc, notation, fetch.key, fetch.raw_key)?;
    let command = command_in(alloc, notation, b"fetch", &[key.as_slice()])?;
    if !has_key(&command) {
        return Ok(None);
    }
    Ok(Some(PageRequest::Fetch {
        command,
        raw: fetch.raw,
    }))
}

/// Reads a store. Returns `None` if the value is standard input.
///
/// # Errors
/// `BadHex` (in a text notation `BadText`) if the key or the value is invalid, and `NoMemory` if allocation fails.
pub fn store_request(
    alloc: Global,
    notation: &Notation<Global>,
    store: &Store<'_>,
) -> Result<Option<PageRequest>, ReportFault>
    ensures { IfOk result (λ asked. IfSome asked (λ asked. (file : List ℕ) → IsMeant store.now.form file notation.now (StoreComes notation.now store.now) asked)) }
{
    if takes_input(store) {
        return Ok(None);
    }
    let key = word_asked(alloc, notation, store.key, store.raw_key)?;
    let value = word_asked(alloc, notation, store.value, store.raw_value)?;
    let (name, args) = (store_name(store.insert), [key.as_slice(), value.as_slice()]);
    let command = command_in(alloc, notation, name, &args)?;
    if !has_key(&command) {
        return Ok(None);
    }
    Ok(Some(PageRequest::Change { command }))
}

/// Reads a delete. Never returns `None`, because a delete has a key; no clause says so.
///
/// # Errors
/// `BadHex` (in a text notation `BadText`) if the key is invalid, and `NoMemory` if allocation fails.
pub fn delete_request(
    alloc: Global,
    notation: &Notation<Global>,
    delete: &Delete<'_>,
) -> Result<Option<PageRequest>, ReportFault>
    ensures { IfOk result (λ asked. IfSome asked (λ asked. (file : List ℕ) → IsMeant delete.now.form file notation.now (DeleteComes notation.now delete.now) asked)) }
{
    let key = word_asked(alloc, notation, delete.key, delete.raw_key)?;
    let command = command_in(alloc, notation, b"delete", &[key.as_slice()])?;
    if !has_key(&command) {
        return Ok(None);
    }
    Ok(Some(PageRequest::Change { command }))
}

/// Reads a run. `file` has the bytes of the program's file.
///
/// # Errors
/// The errors of `run_words`, then the errors of `file_image`.
pub fn run_request(
    alloc: Global,
    notation: &Notation<Global>,
    run: &Run<'_>,
    file: &[u8],
) -> Result<PageRequest, ReportFault>
    ensures { IfOk result (IsMeant run.entry.now.form file.now notation.now (RunComes notation.now run.entry.now)) }
{
    let key = word_asked(alloc, notation, run.key, run.raw_key)?;
    let (words, expect) = run_words(alloc, notation, key.as_slice(), *run)?;
    let program = file_image(alloc, file, run.image)?;
    Ok(PageRequest::Run {
        words,
        program,
        expect,
    })
}
