//! `disasm`: prints the text of a program, given its image.
ghost use Rattle.std.specs.Prelude.{◌≡◌, IfOk, IfSome, IsNone, false};
ghost use Rattle.clap.specs.Words.{found_of, rows_of};
ghost use Rattle.dbm_args.specs.CommandLine.{IsSubcommand};
ghost use Rattle.dbm_args.specs.Given.{has_words};
ghost use Rattle.dbm_programs.specs.Disasm as spec;
ghost use Rattle.dbm_programs.specs.Disasm.{DisasmAsks, disasm_head};

use bpf_asm::disassemble;
use bpf_insn::{DecodeFault, decode};
use clap::{ArgMatches, Command};
use dbm_args::arguments::file;
use dbm_args::{Head, Subject, Words, subcommand, word};
use dbm_reports::{Given, Report, ReportFault, Subcommand, printed};
use dbm_script::Notation;
use std::alloc::{AllocError, Global};
use std::io::Read;

/// The arguments of `disasm`.
#[derive(Clone, Copy, Debug)]
pub struct Disasm<'a> {
    pub file: &'a str,
}

impl<'a> Disasm<'a> {
    /// Reads the matches of `disasm`. Returns `None` if a required argument is missing.
    pub fn matched(matches: &ArgMatches<'a>) -> Option<Disasm<'a>>
        ensures some { IfSome result (DisasmAsks (rows_of (found_of matches.now))) }
        ensures none { IsNone result → has_words spec.disasm.rules (rows_of (found_of matches.now)) ≡ false }
    {
        Some(Disasm {
            file: word(matches, "FILE")?,
        })
    }

    /// Returns the file that the subcommand reads.
    pub fn head(&self) -> Head<'a>
        ensures { result ≡ disasm_head self.now }
    {
        Head {
            file: Some(self.file),
            image: true,
            ..Head::on(None)
        }
    }

    /// Returns the arguments that messages may show.
    pub fn words(&self) -> Words<'a> {
        Words {
            subject: Subject::Disasm,
            file: Some(self.file),
            ..Words::none()
        }
    }
}

/// Declares the subcommand `disasm` for `clap`.
///
/// # Errors
/// `AllocError` if allocation fails.
pub fn disasm_command<'a>(alloc: Global) -> Result<Command<'a>, AllocError>
    ensures { IfOk result (IsSubcommand spec.disasm) }
{
    let args = vec![in alloc;
        file(
            alloc,
            "The program as the bytes of its image; or @NAME for a stock program"
        ),
    ]?;
    let about = "Print the text of a program's image";
    let notes = "Prints one instruction a line. To make an image from the hex that asm prints:\n\
         dbm asm counter.s | xxd -r -p > counter.image\n\n\
         Example: dbm disasm counter.image";
    subcommand(alloc, "disasm", about, notes, args)
}

impl Subcommand for Disasm<'_> {
    ghost use Rattle.std.specs.Prelude.{false};
    ghost use Rattle.dbm_programs.specs.Disasm.{disasm_in};
    ghost use Rattle.dbm_reports.specs.Causes.{IsCaused};

    type Fault = ReportFault;

    ghost reports = { λ disasm n given input report. (disasm_in given).reports report };

    ghost causes = { λ disasm n given input fault. IsCaused (disasm_in given).causes fault };

    ghost writes = { λ disasm. false };

    ghost reads = { λ disasm. false };

    fn report<R: Read>(
        &self,
        alloc: Global,
        _notation: &Notation<Global>,
        given: &Given,
        _reader: &mut R,
    ) -> Result<Report, ReportFault> {
        let code = match decode(alloc, given.file.as_slice()) {
            Ok(code) => code,
            Err(DecodeFault::NoMemory) => return Err(ReportFault::NoMemory),
            Err(fault) => return Err(ReportFault::Decode(fault)),
        };
        Ok(printed(disassemble(alloc, &code)?.into_bytes()))
    }
}
