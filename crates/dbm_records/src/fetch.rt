//! `fetch`: prints the value of a key.
ghost use Rattle.std.specs.Prelude.{◌≡◌, IfOk, IfSome, IsNone, false};
ghost use Rattle.clap.specs.Words.{found_of, rows_of};
ghost use Rattle.dbm_args.specs.CommandLine.{IsSubcommand};
ghost use Rattle.dbm_args.specs.Given.{has_words};
ghost use Rattle.dbm_records.specs.Fetch as spec;
ghost use Rattle.dbm_records.specs.Fetch.{FetchAsks, FetchShows, ShowsValue, bytes_or_none, fetch_head};
ghost use Rattle.dbm_records.specs.Commands.{value_in};

use crate::command::{command_on, named_key, value_of};
use clap::{ArgMatches, Command};
use dbm_args::arguments::{
    base, flag, insist, key, layout, quick, raw_key, text, timeout, unsigned, verbose, wide,
};
use dbm_args::{
    Form, Head, NotationOptions, Words, aliased_subcommand, form, has_flag, notation, word,
};
use dbm_reports::{Given, Notes, Report, ReportFault, Subcommand, answer_status, look, word_asked};
use dbm_script::{Answer, Notation, answer_command};
use sdbm_files::Image;
use std::alloc::{AllocError, Global};
use std::io::Read;
use store_cmd::Command as StoreCommand;

/// The arguments of `fetch`.
#[derive(Clone, Copy, Debug)]
pub struct Fetch<'a> {
    pub base: &'a str,
    pub form: Form,
    pub notation: NotationOptions<'a>,
    pub key: &'a str,
    /// Prints only the bytes of the value.
    pub raw: bool,
    /// The bytes of the argument are the key, without decoding.
    pub raw_key: bool,
}

impl<'a> Fetch<'a> {
    /// Reads the matches of `fetch`. Returns `None` if a required argument is missing.
    pub fn matched(matches: &ArgMatches<'a>) -> Option<Fetch<'a>>
        ensures some { IfSome result (FetchAsks (rows_of (found_of matches.now))) }
        ensures none { IsNone result → has_words spec.fetch.rules (rows_of (found_of matches.now)) ≡ false }
    {
        Some(Fetch {
            base: word(matches, "BASE")?,
            form: form(matches),
            notation: notation(matches),
            key: word(matches, "KEY")?,
            raw: has_flag(matches, "raw"),
            raw_key: has_flag(matches, "raw-key"),
        })
    }

    /// Returns the head of the subcommand: its files and its notation.
    pub fn head(&self) -> Head<'a>
        ensures { result ≡ fetch_head self.now }
    {
        Head {
            notation: self.notation,
            ..Head::on(Some(self.base))
        }
    }

    /// Returns the arguments that messages may show.
    pub fn words(&self) -> Words<'a> {
        Words {
            first: named_key(self.key, self.raw_key),
            layout: self.notation.layout,
            ..Words::on(Some(self.base), self.form)
        }
    }
}

/// Declares the subcommand `fetch` for `clap`.
///
/// # Errors
/// `AllocError` if allocation fails.
pub fn fetch_command<'a>(alloc: Global) -> Result<Command<'a>, AllocError>
    ensures { IfOk result (IsSubcommand spec.fetch) }
{
    let raw = flag(
        alloc,
        "raw",
        "Print only the bytes of the value; nothing if the key is missing",
    );
    let args = vec![in alloc;
        base(alloc),
        key(alloc),
        raw,
        raw_key(alloc),
        quick(alloc),
        text(alloc),
        layout(alloc),
        unsigned(alloc),
        wide(alloc),
        insist(alloc),
        timeout(alloc),
        verbose(alloc),
    ]?;
    let about = "Print the value of a key";
    let notes =
        "Prints found VALUE, or missing with status 1; with --raw only the bytes of the value.\n\n\
         Example: dbm fetch users ab --text";
    aliased_subcommand(alloc, "fetch", "get", about, notes, args)
}

impl Subcommand for Fetch<'_> {
    ghost use Rattle.std.specs.Prelude.{false};
    ghost use Rattle.dbm_records.specs.Fetch.{fetch_in};
    ghost use Rattle.dbm_reports.specs.Causes.{IsCaused};

    type Fault = ReportFault;

    ghost reports = { λ fetch n given input report. (fetch_in n fetch given).reports report };

    ghost causes = { λ fetch n given input fault. IsCaused (fetch_in n fetch given).causes fault };

    ghost writes = { λ fetch. false };

    ghost reads = { λ fetch. false };

    fn report<R: Read>(
        &self,
        alloc: Global,
        notation: &Notation<Global>,
        given: &Given,
        _reader: &mut R,
    ) -> Result<Report, ReportFault> {
        let key = word_asked(alloc, notation, self.key, self.raw_key)?;
        let args = [key.as_slice()];
        let (image, command) = command_on(alloc, notation, given, self.form, b"fetch", &args)?;
        Ok(look_as(alloc, notation, image, command, self.raw)?)
    }
}

/// Makes the report of a fetch: the answer as a line, or with `raw` only the bytes of the value.
///
/// # Errors
/// `AllocError` if allocation fails.
pub fn look_as(
    alloc: Global,
    notation: &Notation<Global>,
    image: Image<Global>,
    command: StoreCommand<Global>,
    raw: bool,
) -> Result<Report, AllocError>
    ensures { IfOk result (FetchShows raw notation.now image command) }
{
    if raw {
        return look_raw(alloc, image, command);
    }
    look(alloc, notation, image, command)
}

// Makes a report with only the bytes of the value.
fn look_raw(
    alloc: Global,
    image: Image<Global>,
    command: StoreCommand<Global>,
) -> Result<Report, AllocError>
    ensures { IfOk result (ShowsValue image command) }
{
    let mut image = image;
    let answer = answer_command(alloc, &mut image, command)?;
    let status = answer_status(&answer);
    Ok(Report {
        text: value_bytes(alloc, answer)?,
        status,
        database: None,
        notes: Notes::none(),
    })
}

// Returns the bytes of the value in an answer, or no bytes if there is no value.
fn value_bytes(alloc: Global, answer: Answer<Global>) -> Result<Vec<u8>, AllocError>
    ensures { IfOk result (λ text. text.items ≡ bytes_or_none (value_in answer)) }
{
    match value_of(answer) {
        Ok(value) => value.as_slice().to_vec(alloc),
        Err(_) => Ok(Vec::new(alloc)),
    }
}
