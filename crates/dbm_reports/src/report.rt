//! The report of a subcommand, and of a command on an open database.
ghost use Rattle.std.specs.Prelude.{◌≡◌, ◌++◌, ◌∷◌, [], None, IfOk, decimal};
ghost use Rattle.dbm_script.specs.Answers.{answer_text};
ghost use Rattle.dbm_reports.specs.Reports.{IsCommandReport, Looks, ChangesFiles, answer_status, code_status, ok_line, run_status, status_of};

use crate::notes::Notes;
use dbm_script::{Answer, Notation, answer_command, show_answer};
use itoa::Buffer;
use sdbm_files::Image;
use std::alloc::{AllocError, Allocator, Global};
use store_cmd::{Command, Reply};

/// The status if `run` with an expected code does not run the program.
pub const NOT_RUN: u8 = 3;

/// The result of a subcommand: the text to print, the status, the database to save, if any, and the notes.
#[derive(Drop)]
pub struct Report {
    pub text: Vec<u8>,
    pub status: u8,
    pub database: Option<Image<Global>>,
    pub notes: Notes,
}

/// Runs a command and makes its report, without a database to save.
///
/// # Errors
/// `AllocError` if allocation fails.
pub fn look(
    alloc: Global,
    notation: &Notation<Global>,
    image: Image<Global>,
    command: Command<Global>,
) -> Result<Report, AllocError>
    ensures { IfOk result (Looks notation.now image command) }
{
    let mut image = image;
    let report = command_report(alloc, notation, &mut image, command, None)?;
    Ok(report)
}

/// Runs a command and makes its report, with the changed database to save. `expect` is the expected code of a run, if any.
///
/// # Errors
/// `AllocError` if allocation fails.
pub fn change(
    alloc: Global,
    notation: &Notation<Global>,
    image: Image<Global>,
    command: Command<Global>,
    expect: Option<u64>,
) -> Result<Report, AllocError>
    ensures { IfOk result (ChangesFiles notation.now image command expect) }
{
    let mut image = image;
    let report = command_report(alloc, notation, &mut image, command, expect)?;
    Ok(Report {
        text: report.text,
        status: report.status,
        database: Some(image),
        notes: report.notes,
    })
}

// Runs a command and makes its report, without a database.
fn command_report(
    alloc: Global,
    notation: &Notation<Global>,
    image: &mut Image<Global>,
    command: Command<Global>,
    expect: Option<u64>,
) -> Result<Report, AllocError>
    ensures report { IfOk result (IsCommandReport notation.now image.old command expect image.new) }
    ensures none { IfOk result (λ report. report.database ≡ None) }
{
    let answer = answer_command(alloc, image, command)?;
    let text = shown(alloc, notation, &answer)?;
    Ok(Report {
        text,
        status: status_of(&answer, expect),
        database: None,
        notes: Notes::none(),
    })
}

/// Returns the text of an answer as a line.
///
/// # Errors
/// `AllocError` if allocation fails.
pub fn shown(
    alloc: Global,
    notation: &Notation<Global>,
    answer: &Answer<Global>,
) -> Result<Vec<u8>, AllocError>
    ensures { IfOk result (λ line. line.items ≡ answer_text notation.now answer.now ++ 10 ∷ []) }
{
    let mut text = Vec::new(alloc);
    show_answer(alloc, notation, answer, &mut text)?;
    text.push(b'\n')?;
    Ok(text)
}

// Returns the status of an answer, with or without an expected code.
fn status_of(answer: &Answer<Global>, expect: Option<u64>) -> u8
    ensures { result ≡ status_of expect answer.now }
{
    match expect {
        None => answer_status(answer),
        Some(code) => code_status(answer, code),
    }
}

/// Returns the status of an answer without an expected code: 1 if the key is missing or the requested change was not made, otherwise 0.
pub fn answer_status(answer: &Answer<Global>) -> u8
    ensures { result ≡ answer_status answer.now }
{
    match answer {
        Answer::Replied(entry) => match entry.reply {
            Reply::Missing | Reply::Exists | Reply::Crowded => 1,
            _ => 0,
        },
        Answer::Refused(_) => 1,
    }
}

// Returns the status of the answer to a run with an expected code.
fn code_status(answer: &Answer<Global>, code: u64) -> u8
    ensures { result ≡ code_status code answer.now }
{
    match answer {
        Answer::Replied(entry) => run_status(&entry.reply, code),
        Answer::Refused(_) => NOT_RUN,
    }
}

// Returns the status of the reply to a run with an expected code.
fn run_status(reply: &Reply<Global>, code: u64) -> u8
    ensures { result ≡ run_status code reply.now }
{
    match reply {
        Reply::Ran { code: ended, .. } => { if *ended == code { 0 } else { 1 } }
        _ => NOT_RUN,
    }
}

/// Returns a report that only prints a text.
pub fn printed(text: Vec<u8>) -> Report
    ensures text { result.text ≡ text }
    ensures status { result.status ≡ 0 }
    ensures database { result.database ≡ None }
{
    Report {
        text,
        status: 0,
        database: None,
        notes: Notes::none(),
    }
}

/// Returns the line `ok N`.
///
/// # Errors
/// `AllocError` if allocation fails.
pub fn show_ok<A: Allocator + Copy>(alloc: A, count: usize) -> Result<Vec<u8, A>, AllocError>
    ensures { IfOk result (λ text. text.items ≡ ok_line count) }
{
    show_named(alloc, b"ok ", count)
}

/// Returns a line with a number after a name.
///
/// # Errors
/// `AllocError` if allocation fails.
pub fn show_named<A: Allocator + Copy>(
    alloc: A,
    name: &[u8],
    number: usize,
) -> Result<Vec<u8, A>, AllocError>
    ensures { IfOk result (λ text. text.items ≡ name.now ++ (decimal number ++ 10 ∷ [])) }
{
    let mut text = Vec::new(alloc);
    text.extend_from_slice(name)?;
    let mut digits = Buffer::new();
    text.extend_from_slice(digits.format(number).as_bytes())?;
    text.push(b'\n')?;
    Ok(text)
}
