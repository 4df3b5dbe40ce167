//! `delete`: deletes the pair of a key.
ghost use Rattle.std.specs.Prelude.{◌≡◌, IfOk, IfSome, IsNone, false};
ghost use Rattle.clap.specs.Words.{found_of, rows_of};
ghost use Rattle.dbm_args.specs.CommandLine.{IsSubcommand};
ghost use Rattle.dbm_args.specs.Given.{has_words};
ghost use Rattle.dbm_records.specs.Delete as spec;
ghost use Rattle.dbm_records.specs.Delete.{DeleteAsks, delete_head};

use crate::command::{command_on, named_key};
use clap::{ArgMatches, Command};
use dbm_args::arguments::{
    base, insist, key, layout, must_exist, quick, raw_key, text, timeout, unsigned, verbose, wide,
};
use dbm_args::{
    Form, Head, NotationOptions, Words, aliased_subcommand, form, has_flag, notation, word,
};
use dbm_reports::{Given, Report, ReportFault, Subcommand, change, word_asked};
use dbm_script::Notation;
use std::alloc::{AllocError, Global};
use std::io::Read;

/// The arguments of `delete`.
#[derive(Clone, Copy, Debug)]
pub struct Delete<'a> {
    pub base: &'a str,
    pub form: Form,
    pub notation: NotationOptions<'a>,
    pub key: &'a str,
    /// The bytes of the argument are the key, without decoding.
    pub raw_key: bool,
}

impl<'a> Delete<'a> {
    /// Reads the matches of `delete`. Returns `None` if a required argument is missing.
    pub fn matched(matches: &ArgMatches<'a>) -> Option<Delete<'a>>
        ensures some { IfSome result (DeleteAsks (rows_of (found_of matches.now))) }
        ensures none { IsNone result → has_words spec.delete.rules (rows_of (found_of matches.now)) ≡ false }
    {
        Some(Delete {
            base: word(matches, "BASE")?,
            form: form(matches),
            notation: notation(matches),
            key: word(matches, "KEY")?,
            raw_key: has_flag(matches, "raw-key"),
        })
    }

    /// Returns the head of the subcommand: its files and its notation.
    pub fn head(&self) -> Head<'a>
        ensures { result ≡ delete_head self.now }
    {
        Head {
            writes: true,
            notation: self.notation,
            ..Head::on(Some(self.base))
        }
    }

    /// Returns the arguments that messages may show.
    pub fn words(&self) -> Words<'a> {
        Words {
            first: named_key(self.key, self.raw_key),
            layout: self.notation.layout,
            ..Words::on(Some(self.base), self.form)
        }
    }
}

/// Declares the subcommand `delete` for `clap`.
///
/// # Errors
/// `AllocError` if allocation fails.
pub fn delete_command<'a>(alloc: Global) -> Result<Command<'a>, AllocError>
    ensures { IfOk result (IsSubcommand spec.delete) }
{
    let args = vec![in alloc;
        base(alloc),
        key(alloc),
        raw_key(alloc),
        quick(alloc),
        text(alloc),
        layout(alloc),
        unsigned(alloc),
        wide(alloc),
        insist(alloc),
        must_exist(alloc),
        timeout(alloc),
        verbose(alloc),
    ]?;
    let about = "Delete the pair of a key";
    let notes = "Prints deleted, or missing with status 1.\n\nExample: dbm delete users ab --text";
    aliased_subcommand(alloc, "delete", "del", about, notes, args)
}

impl Subcommand for Delete<'_> {
    ghost use Rattle.std.specs.Prelude.{false, true};
    ghost use Rattle.dbm_records.specs.Delete.{delete_in};
    ghost use Rattle.dbm_reports.specs.Causes.{IsCaused};

    type Fault = ReportFault;

    ghost reports = { λ delete n given input report. (delete_in n delete given).reports report };

    ghost causes = { λ delete n given input fault. IsCaused (delete_in n delete given).causes fault };

    ghost writes = { λ delete. true };

    ghost reads = { λ delete. false };

    fn report<R: Read>(
        &self,
        alloc: Global,
        notation: &Notation<Global>,
        given: &Given,
        _reader: &mut R,
    ) -> Result<Report, ReportFault> {
        let key = word_asked(alloc, notation, self.key, self.raw_key)?;
        let args = [key.as_slice()];
        let (image, command) = command_on(alloc, notation, given, self.form, b"delete", &args)?;
        Ok(change(alloc, notation, image, command, None)?)
    }
}
