//! `asm`: prints the image of a program, given its text.
ghost use Rattle.std.specs.Prelude.{◌≡◌, IfOk, IfSome, IsNone, false};
ghost use Rattle.clap.specs.Words.{found_of, rows_of};
ghost use Rattle.dbm_args.specs.CommandLine.{IsSubcommand};
ghost use Rattle.dbm_args.specs.Given.{has_words};
ghost use Rattle.dbm_programs.specs.Asm as spec;
ghost use Rattle.dbm_programs.specs.Asm.{AsmAsks, asm_head};

use clap::{ArgMatches, Command};
use dbm_args::arguments::file;
use dbm_args::{Head, Subject, Words, subcommand, word};
use dbm_reports::{Given, Report, ReportFault, Subcommand, printed, text_image};
use dbm_script::Notation;
use std::alloc::{AllocError, Global};
use std::io::Read;

/// The arguments of `asm`.
#[derive(Clone, Copy, Debug)]
pub struct Asm<'a> {
    pub file: &'a str,
}

impl<'a> Asm<'a> {
    /// Reads the matches of `asm`. Returns `None` if a required argument is missing.
    pub fn matched(matches: &ArgMatches<'a>) -> Option<Asm<'a>>
        ensures some { IfSome result (AsmAsks (rows_of (found_of matches.now))) }
        ensures none { IsNone result → has_words spec.asm.rules (rows_of (found_of matches.now)) ≡ false }
    {
        Some(Asm {
            file: word(matches, "FILE")?,
        })
    }

    /// Returns the file that the subcommand reads.
    pub fn head(&self) -> Head<'a>
        ensures { result ≡ asm_head self.now }
    {
        Head {
            file: Some(self.file),
            ..Head::on(None)
        }
    }

    /// Returns the arguments that messages may show.
    pub fn words(&self) -> Words<'a> {
        Words {
            subject: Subject::Asm,
            file: Some(self.file),
            ..Words::none()
        }
    }
}

/// Declares the subcommand `asm` for `clap`.
///
/// # Errors
/// `AllocError` if allocation fails.
pub fn asm_command<'a>(alloc: Global) -> Result<Command<'a>, AllocError>
    ensures { IfOk result (IsSubcommand spec.asm) }
{
    let args = vec![in alloc;
        file(
            alloc,
            "The program as text, one instruction a line; or @NAME for a stock program"
        ),
    ]?;
    let about = "Print the image of a program's text, in hex";
    let notes = "Prints one line, two digits a byte.\n\nExample: dbm asm counter.s";
    subcommand(alloc, "asm", about, notes, args)
}

impl Subcommand for Asm<'_> {
    ghost use Rattle.std.specs.Prelude.{false};
    ghost use Rattle.dbm_programs.specs.Asm.{asm_in};
    ghost use Rattle.dbm_reports.specs.Causes.{IsCaused};

    type Fault = ReportFault;

    ghost reports = { λ asm n given input report. (asm_in given).reports report };

    ghost causes = { λ asm n given input fault. IsCaused (asm_in given).causes fault };

    ghost writes = { λ asm. false };

    ghost reads = { λ asm. false };

    fn report<R: Read>(
        &self,
        alloc: Global,
        _notation: &Notation<Global>,
        given: &Given,
        _reader: &mut R,
    ) -> Result<Report, ReportFault> {
        let image = text_image(alloc, given.file.as_slice())?;
        let mut line = hex::encode(alloc, image.as_slice())?.into_bytes();
        line.push(b'\n')?;
        Ok(printed(line))
    }
}
