//! `verify`: verifies a program, and prints the verdict.
ghost use Rattle.std.specs.Prelude.{◌≡◌, IfOk, IfSome, IsNone, false, IfErr};
ghost use Rattle.clap.specs.Words.{found_of, rows_of};
ghost use Rattle.dbm_args.specs.CommandLine.{IsSubcommand};
ghost use Rattle.dbm_args.specs.Given.{has_words};
ghost use Rattle.dbm_programs.specs.Verify as spec;
ghost use Rattle.dbm_programs.specs.Verify.{VerifyAsks, verify_head};
ghost use Rattle.bpf_insn.specs.Code.{IsImage};
ghost use Rattle.prog_registry.specs.Judged.{IsJudged, IsProgramOf};
ghost use Rattle.dbm_reports.specs.Causes.{IsCaused, file_causes};
ghost use Rattle.dbm_programs.specs.Judging.{EndsAs, EndsJudged, Explains, IsExplained};

use crate::judging::{judge_image, show_accepted, verify_file};
use bpf_explain::{explain_accepted, explain_refused};
use bpf_insn::{Code, DecodeFault, decode};
use bpf_verify::{Examined, Refused, VerifyFault, examine};
use clap::{ArgMatches, Command};
use dbm_args::arguments::{file, flag, image};
use dbm_args::{Head, Words, has_flag, subcommand, word};
use dbm_reports::{Given, Report, ReportFault, Subcommand, file_image, printed, refused};
use dbm_script::Notation;
use prog_registry::RegFault;
use std::alloc::{AllocError, Global};
use std::io::Read;

/// The arguments of `verify`. `file` has the text of a program, or with `image` its image. With `explain`, the verdict is explained.
#[derive(Clone, Copy, Debug)]
pub struct Verify<'a> {
    pub file: &'a str,
    pub image: bool,
    pub explain: bool,
}

impl<'a> Verify<'a> {
    /// Reads the matches of `verify`. Returns `None` if a required argument is missing.
    pub fn matched(matches: &ArgMatches<'a>) -> Option<Verify<'a>>
        ensures some { IfSome result (VerifyAsks (rows_of (found_of matches.now))) }
        ensures none { IsNone result → has_words spec.verify.rules (rows_of (found_of matches.now)) ≡ false }
    {
        Some(Verify {
            file: word(matches, "FILE")?,
            image: has_flag(matches, "image"),
            explain: has_flag(matches, "explain"),
        })
    }

    /// Returns the file that the subcommand reads.
    pub fn head(&self) -> Head<'a>
        ensures { result ≡ verify_head self.now }
    {
        Head {
            file: Some(self.file),
            image: self.image,
            ..Head::on(None)
        }
    }

    /// Returns the arguments that messages may show.
    pub fn words(&self) -> Words<'a> {
        Words {
            image: self.image,
            file: Some(self.file),
            ..Words::none()
        }
    }
}

/// Declares the subcommand `verify` for `clap`.
///
/// # Errors
/// `AllocError` if allocation fails.
pub fn verify_command<'a>(alloc: Global) -> Result<Command<'a>, AllocError>
    ensures { IfOk result (IsSubcommand spec.verify) }
{
    let args = vec![in alloc;
        file(
            alloc,
            "The program as text, one instruction a line; or @NAME for a stock program"
        ),
        image(alloc),
        flag(
            alloc,
            "explain",
            "Print what the verifier knows before each instruction, and why it refuses the program"
        ),
    ]?;
    let about = "Say whether a program is accepted, or why it is refused";
    let notes =
        "Prints accepted UNITS, its length in units of 8 bytes, or refused FAULT with status 1. With --explain\n\
         that line comes last; if the file is not the image of a program, it is the only one.\n\n\
         Example: dbm verify counter.s";
    subcommand(alloc, "verify", about, notes, args)
}

// With `explain`, the instructions of the program come first, each with the facts known before it, and then the line of `verify_file`. If
// the image cannot be decoded, only that line is printed.
impl Subcommand for Verify<'_> {
    ghost use Rattle.std.specs.Prelude.{false};
    ghost use Rattle.dbm_programs.specs.Verify.{verify_in};
    ghost use Rattle.dbm_reports.specs.Causes.{IsCaused};

    type Fault = ReportFault;

    ghost reports = { λ verify n given input report. (verify_in verify given).reports report };

    ghost causes = { λ verify n given input fault. IsCaused (verify_in verify given).causes fault };

    ghost writes = { λ verify. false };

    ghost reads = { λ verify. false };

    fn report<R: Read>(
        &self,
        alloc: Global,
        _notation: &Notation<Global>,
        given: &Given,
        _reader: &mut R,
    ) -> Result<Report, ReportFault> {
        let file = given.file.as_slice();
        if self.explain {
            return explain_file(alloc, file, self.image);
        }
        verify_file(alloc, file, self.image)
    }
}

fn explain_file(alloc: Global, file: &[u8], is_image: bool) -> Result<Report, ReportFault>
    ensures ok { IfOk result (Explains is_image file.now) }
    ensures fault { IfErr result (IsCaused (file_causes is_image file.now)) }
{
    let image = file_image(alloc, file, is_image)?;
    let source = source_of(file, is_image);
    Ok(explain_image(alloc, image.as_slice(), source)?)
}

// Returns the text of a program's file, or `None` if the file is an image or not UTF-8.
fn source_of(file: &[u8], is_image: bool) -> Option<&str> {
    if is_image {
        return None;
    }
    str::from_utf8(file).ok()
}

// Explains the verdict on a program image.
fn explain_image(alloc: Global, image: &[u8], source: Option<&str>) -> Result<Report, AllocError>
    ensures { IfOk result (IsExplained image.now) }
{
    match decode(alloc, image) {
        Ok(code) => explain_code(alloc, code, image, source),
        Err(DecodeFault::NoMemory) => Err(AllocError),
        Err(_) => judge_image(alloc, image),
    }
}

// Explains the verdict on the code of a program image.
fn explain_code(
    alloc: Global,
    code: Code<Global>,
    image: &[u8],
    source: Option<&str>,
) -> Result<Report, AllocError>
    requires { IsImage code image.now }
    ensures { IfOk result (EndsJudged image.now) }
{
    match examine(alloc, code) {
        Ok(examined) => explain_examined(alloc, examined, image, source),
        Err(
            Refused {
                fault: VerifyFault::NoMemory,
                ..
            },
        ) => Err(AllocError),
        Err(program) => explain_refusal(alloc, program, image, source),
    }
}

// Explains why the verifier accepts a program.
fn explain_examined(
    alloc: Global,
    examined: Examined<Global>,
    image: &[u8],
    source: Option<&str>,
) -> Result<Report, AllocError>
    requires { IsProgramOf image.now examined }
    ensures { IfOk result (EndsJudged image.now) }
{
    let rows = explain_accepted(alloc, &examined)?.text(alloc, source)?;
    let line = show_accepted(alloc, image.len() / 8)?;
    behind(rows, printed(line))
}

// Explains why the verifier refuses a program.
fn explain_refusal(
    alloc: Global,
    program: Refused<Global>,
    image: &[u8],
    source: Option<&str>,
) -> Result<Report, AllocError>
    requires { IsJudged image.now program.fault }
    ensures { IfOk result (EndsJudged image.now) }
{
    let rows = explain_refused(alloc, &program)?.text(alloc, source)?;
    let last = refused(alloc, RegFault::Verify(program.fault), 1, None)?;
    behind(rows, last)
}

// Puts rows and an LF before the text of the report `last`.
fn behind(rows: String, last: Report) -> Result<Report, AllocError>
    ensures { IfOk result (EndsAs last) }
{
    let mut text = rows.into_bytes();
    text.push(b'\n')?;
    text.extend_from_slice(last.text.as_slice())?;
    let Report {
        status,
        database,
        notes,
        ..
    } = last;
    Ok(Report {
        text,
        status,
        database,
        notes,
    })
}

/// Returns a sentence that says why the program in a file is refused, or `None` if the program is accepted or the file is not a program.
///
/// # Errors
/// `AllocError` if allocation fails.
pub fn refusal_of(
    alloc: Global,
    file: &[u8],
    is_image: bool,
) -> Result<Option<String>, AllocError> {
    let Ok(image) = file_image(alloc, file, is_image) else {
        return Ok(None);
    };
    let Ok(code) = decode(alloc, image.as_slice()) else {
        return Ok(None);
    };
    match examine(alloc, code) {
        Ok(_) => Ok(None),
        Err(refused) => {
            let source = source_of(file, is_image);
            let told = explain_refused(alloc, &refused)?.refusal(alloc, source)?;
            Ok(Some(told))
        }
    }
}
