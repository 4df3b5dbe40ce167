//! `rename`: changes the key of a pair.
ghost use Rattle.std.specs.Prelude.{◌≡◌, IfOk, IfSome, IsNone, false};
ghost use Rattle.clap.specs.Words.{found_of, rows_of};
ghost use Rattle.dbm_args.specs.CommandLine.{IsSubcommand};
ghost use Rattle.dbm_args.specs.Given.{has_words};
ghost use Rattle.dbm_records.specs.Rename as spec;
ghost use Rattle.dbm_records.specs.Rename.{RenameAsks, rename_head};

use crate::command::{command_on, named_key};
use crate::renaming::rename;
use crate::store::store_name;
use clap::{ArgMatches, Command};
use dbm_args::arguments::{
    base, flag, insist, key, must_exist, required_word, text, timeout, unsigned, verbose, wide,
};
use dbm_args::{
    Form, Head, Named, NotationOptions, Words, form, has_flag, notation, subcommand, word,
};
use dbm_reports::{Given, Report, ReportFault, Subcommand, word_asked};
use dbm_script::Notation;
use std::alloc::{AllocError, Global};
use std::io::Read;

/// The arguments of `rename`. With `replace`, a pair that already has the new key is replaced.
#[derive(Clone, Copy, Debug)]
pub struct Rename<'a> {
    pub base: &'a str,
    pub form: Form,
    pub notation: NotationOptions<'a>,
    pub key: &'a str,
    pub new_key: &'a str,
    pub replace: bool,
    /// The bytes of the arguments are the keys, without decoding.
    pub raw_key: bool,
}

impl<'a> Rename<'a> {
    /// Reads the matches of `rename`. Returns `None` if a required argument is missing.
    pub fn matched(matches: &ArgMatches<'a>) -> Option<Rename<'a>>
        ensures some { IfSome result (RenameAsks (rows_of (found_of matches.now))) }
        ensures none { IsNone result → has_words spec.rename.rules (rows_of (found_of matches.now)) ≡ false }
    {
        Some(Rename {
            base: word(matches, "BASE")?,
            form: form(matches),
            notation: notation(matches),
            key: word(matches, "KEY")?,
            new_key: word(matches, "NEWKEY")?,
            replace: has_flag(matches, "replace"),
            raw_key: has_flag(matches, "raw-key"),
        })
    }

    /// Returns the head of the subcommand: its files and its notation.
    pub fn head(&self) -> Head<'a>
        ensures { result ≡ rename_head self.now }
    {
        Head {
            writes: true,
            notation: self.notation,
            ..Head::on(Some(self.base))
        }
    }

    /// Returns the arguments that messages may show.
    pub fn words(&self) -> Words<'a> {
        Words {
            first: named_key(self.key, self.raw_key),
            second: self.named_new_key(),
            layout: self.notation.layout,
            ..Words::on(Some(self.base), self.form)
        }
    }

    // Returns the argument of the new key for messages, or `None` for a raw key.
    fn named_new_key(&self) -> Option<Named<'a>> {
        if self.raw_key {
            return None;
        }
        Some(Named {
            name: "NEWKEY",
            word: self.new_key,
        })
    }
}

/// Declares the subcommand `rename` for `clap`.
///
/// # Errors
/// `AllocError` if allocation fails.
pub fn rename_command<'a>(alloc: Global) -> Result<Command<'a>, AllocError>
    ensures { IfOk result (IsSubcommand spec.rename) }
{
    let new_key = required_word(
        alloc,
        "NEWKEY",
        "The new key in hex, or with --text as text; . is the empty key",
    );
    let replace = flag(alloc, "replace", "Replace a pair that has the new key");
    let raw_keys = flag(
        alloc,
        "raw-key",
        "Take the bytes of KEY and NEWKEY as they are, without escapes or numbers",
    );
    let args = vec![in alloc;
        base(alloc),
        key(alloc),
        new_key,
        replace,
        raw_keys,
        text(alloc),
        unsigned(alloc),
        wide(alloc),
        insist(alloc),
        must_exist(alloc),
        timeout(alloc),
        verbose(alloc),
    ]?;
    let about = "Give a pair another key";
    let notes =
        "Prints renamed, or with status 1 missing (no pair has KEY), exists (a pair has NEWKEY; only without\n\
         --replace), crowded (there is no room) or refused PairTooLarge. Nothing is changed then.\n\n\
         Example: dbm rename users ab cd --text";
    subcommand(alloc, "rename", about, notes, args)
}

impl Subcommand for Rename<'_> {
    ghost use Rattle.std.specs.Prelude.{false, true};
    ghost use Rattle.dbm_records.specs.Rename.{rename_in};
    ghost use Rattle.dbm_reports.specs.Causes.{IsCaused};

    type Fault = ReportFault;

    ghost reports = { λ rename n given input report. (rename_in n rename given).reports report };

    ghost causes = { λ rename n given input fault. IsCaused (rename_in n rename given).causes fault };

    ghost writes = { λ rename. true };

    ghost reads = { λ rename. false };

    fn report<R: Read>(
        &self,
        alloc: Global,
        notation: &Notation<Global>,
        given: &Given,
        _reader: &mut R,
    ) -> Result<Report, ReportFault> {
        let name = store_name(!self.replace);
        let key = word_asked(alloc, notation, self.key, self.raw_key)?;
        let new = word_asked(alloc, notation, self.new_key, self.raw_key)?;
        let args = [key.as_slice(), new.as_slice()];
        let (image, command) = command_on(alloc, notation, given, self.form, name, &args)?;
        Ok(rename(alloc, notation, image, command)?)
    }
}
