//! `run`: runs a program on the record of a key.
ghost use Rattle.std.specs.Prelude.{◌≡◌, IfOk, IfSome, IsNone, false, IfErr};
ghost use Rattle.clap.specs.Words.{found_of, rows_of};
ghost use Rattle.dbm_args.specs.CommandLine.{IsSubcommand};
ghost use Rattle.dbm_args.specs.Given.{has_words};
ghost use Rattle.dbm_records.specs.Run as spec;
ghost use Rattle.dbm_records.specs.Run.{RunAsks, run_head};
ghost use Rattle.dbm_reports.specs.Causes.{IsCaused};
ghost use Rattle.dbm_records.specs.Run.{texts_by};
ghost use Rattle.dbm_records.specs.Running.{AreRunWords, expected_code, word_causes};

use crate::running::{database_and_image, run_image};
use clap::{ArgMatches, Command};
use dbm_args::arguments::{
    base, file, image, insist, key, layout, must_exist, quick, raw_key, required_word, text,
    timeout, unsigned, valued_option, verbose, wide,
};
use dbm_args::{
    Form, Head, Named, NotationOptions, Numbers, Words, form, has_flag, notation, subcommand, word,
};
use dbm_reports::{Given, Report, ReportFault, Subcommand, word_asked};
use dbm_script::{Notation, RunWords, read_number, read_run_words};
use std::alloc::{AllocError, Global};
use std::io::Read;

/// The arguments of `run`, which runs a program on the record of a key. `file` has the text of the program, or with `image` its program
/// image. `expect` is the code that the run has to return.
#[derive(Clone, Copy, Debug)]
pub struct Run<'a> {
    pub base: &'a str,
    pub form: Form,
    pub notation: NotationOptions<'a>,
    pub key: &'a str,
    pub file: &'a str,
    pub arg: &'a str,
    pub blank: &'a str,
    pub now: &'a str,
    pub expect: Option<&'a str>,
    pub image: bool,
    /// The bytes of the argument are the key, without decoding.
    pub raw_key: bool,
}

impl<'a> Run<'a> {
    /// Reads the matches of `run`. Returns `None` if a required argument is missing.
    pub fn matched(matches: &ArgMatches<'a>) -> Option<Run<'a>>
        ensures some { IfSome result (RunAsks (rows_of (found_of matches.now))) }
        ensures none { IsNone result → has_words spec.run.rules (rows_of (found_of matches.now)) ≡ false }
    {
        Some(Run {
            base: word(matches, "BASE")?,
            form: form(matches),
            notation: notation(matches),
            key: word(matches, "KEY")?,
            file: word(matches, "FILE")?,
            arg: word(matches, "ARG")?,
            blank: word(matches, "BLANK")?,
            now: word(matches, "NOW")?,
            expect: word(matches, "expect"),
            image: has_flag(matches, "image"),
            raw_key: has_flag(matches, "raw-key"),
        })
    }

    /// Returns the head of the subcommand: its files and its notation.
    pub fn head(&self) -> Head<'a>
        ensures { result ≡ run_head self.entry.now }
    {
        Head {
            file: Some(self.file),
            image: self.image,
            writes: true,
            notation: self.notation,
            ..Head::on(Some(self.base))
        }
    }

    /// Returns the arguments that messages may show.
    pub fn words(&self) -> Words<'a> {
        Words {
            file: Some(self.file),
            image: self.image,
            first: self.named_key(),
            second: Some(Named {
                name: "ARG",
                word: self.arg,
            }),
            layout: self.notation.layout,
            numbers: Numbers {
                blank: Some(self.blank),
                now: Some(self.now),
                expect: self.expect,
                ..Numbers::none()
            },
            ..Words::on(Some(self.base), self.form)
        }
    }

    // Returns the argument of the key for messages. Returns `None` for a raw key, which is always valid.
    fn named_key(&self) -> Option<Named<'a>> {
        if self.raw_key {
            return None;
        }
        Some(Named {
            name: "KEY",
            word: self.key,
        })
    }
}

/// Declares the subcommand `run` for `clap`.
///
/// # Errors
/// `AllocError` if allocation fails.
pub fn run_command<'a>(alloc: Global) -> Result<Command<'a>, AllocError>
    ensures { IfOk result (IsSubcommand spec.run) }
{
    let args = vec![in alloc;
        base(alloc),
        key(alloc),
        file(
            alloc,
            "The program as text, one instruction a line; or @NAME for a stock program"
        ),
        required_word(
            alloc,
            "ARG",
            "The argument of the program, in hex, or with --text as text; . is empty"
        ),
        required_word(
            alloc,
            "BLANK",
            "If the key is missing, the number of zeros to run on, or . to answer missing",
        ),
        required_word(
            alloc,
            "NOW",
            "The time for the program: a number in its own unit, now for seconds since 1970, or now-ms"
        ),
        valued_option(
            alloc,
            "expect",
            "CODE",
            "Exit with status 0 if the program returns this code, 1 if another, 3 if it does not run"
        ),
        image(alloc),
        raw_key(alloc),
        quick(alloc),
        text(alloc),
        layout(alloc),
        unsigned(alloc),
        wide(alloc),
        insist(alloc),
        must_exist(alloc),
        timeout(alloc),
        verbose(alloc),
    ]?;
    let about = "Run a program on the record of a key";
    let notes =
        "Prints ran CODE WORD, or with status 1 (3 with --expect) missing, crowded (there is no room for a new record) or\n\
         refused FAULT (the program is not accepted, or KEY and BLANK or ARG are too long). CODE 1 saved the\n\
         record, 2 deleted the pair, and any other changed nothing; WORD is the reply of the program.\n\n\
         Example: dbm run users hits @counter . 8 now --text";
    subcommand(alloc, "run", about, notes, args)
}

// The database is saved after the run. If the program is refused, the text is the answer to a script line that submits its image.
impl Subcommand for Run<'_> {
    ghost use Rattle.std.specs.Prelude.{false, true};
    ghost use Rattle.dbm_records.specs.Run.{run_in};
    ghost use Rattle.dbm_reports.specs.Causes.{IsCaused};

    type Fault = ReportFault;

    ghost reports = { λ run n given input report. (run_in n run given).reports report };

    ghost causes = { λ run n given input fault. IsCaused (run_in n run given).causes fault };

    ghost writes = { λ run. true };

    ghost reads = { λ run. false };

    fn report<R: Read>(
        &self,
        alloc: Global,
        notation: &Notation<Global>,
        given: &Given,
        _reader: &mut R,
    ) -> Result<Report, ReportFault> {
        let key = word_asked(alloc, notation, self.key, self.raw_key)?;
        let (words, expect) = run_words(alloc, notation, key.as_slice(), *self)?;
        let (database, image) = database_and_image(alloc, given, self.form, self.image)?;
        Ok(run_image(alloc, notation, database, image.as_slice(), words, expect)?)
    }
}

/// Reads the arguments from left to right, and then the expected code. `key` is the word of the key.
///
/// # Errors
/// `BadHex` (in a text notation `BadText`) if the key or the argument of the program is invalid, `BadNumber` if the blank, the time or the
/// expected code is invalid, and `NoMemory` if allocation fails.
pub fn run_words(
    alloc: Global,
    notation: &Notation<Global>,
    key: &[u8],
    run: Run<'_>,
) -> Result<(RunWords<Global>, Option<u64>), ReportFault>
    ensures ok { IfOk result (λ r. AreRunWords notation.now (texts_by key.now run.entry) r.0 r.1) }
    ensures fault { IfErr result (IsCaused (word_causes notation.now (texts_by key.now run.entry))) }
{
    let arg = run.arg.as_bytes();
    let (blank, now) = (run.blank.as_bytes(), run.now.as_bytes());
    let words = read_run_words(alloc, notation, key, arg, blank, now)?;
    match expected_code(run.expect) {
        Some(expect) => Ok((words, expect)),
        None => Err(ReportFault::BadNumber),
    }
}

// Reads the expected code of a run, if there is one. Returns `None` if the option is not a number.
fn expected_code(expect: Option<&str>) -> Option<Option<u64>>
    ensures { result ≡ expected_code expect.entry }
{
    match expect {
        None => Some(None),
        Some(text) => Some(Some(read_number(text.as_bytes(), u64::MAX)?)),
    }
}
