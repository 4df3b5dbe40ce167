//! `store`: stores a pair. With `--insert`, an existing pair is kept.
ghost use Rattle.std.specs.Prelude.{◌≡◌, IfErr, IfOk, IfSome, IsNone, None, false, is_some, true};
ghost use Rattle.clap.specs.Words.{found_of, rows_of};
ghost use Rattle.dbm_args.specs.CommandLine.{IsSubcommand};
ghost use Rattle.dbm_args.specs.Given.{has_words};
ghost use Rattle.dbm_records.specs.Store as spec;
ghost use Rattle.dbm_records.specs.Store.{StoreAsks, store_by, takes_input, with_store_value, store_head};
ghost use Rattle.dbm_reports.specs.Causes.{IsCaused};
ghost use Rattle.dbm_records.specs.Commands.{store_command_name};

use crate::command::{command_on, named_key};
use clap::{ArgMatches, Command};
use dbm_args::arguments::{
    base, flag, insist, key, layout, must_exist, quick, raw_key, required_word, text, timeout,
    unsigned, verbose, wide,
};
use dbm_args::{
    Form, Head, Named, NotationOptions, Words, aliased_subcommand, form, has_flag, notation, word,
};
use dbm_reports::{Given, Report, ReportFault, Subcommand, change, read_input, word_asked};
use dbm_script::Notation;
use sdbm_addr::Bytes;
use std::alloc::{AllocError, Global};
use std::io::Read;
use store_cmd::Command as StoreCommand;

/// The arguments of `store`. With `insert`, an existing pair is kept.
#[derive(Clone, Copy, Debug)]
pub struct Store<'a> {
    pub base: &'a str,
    pub form: Form,
    pub notation: NotationOptions<'a>,
    pub key: &'a str,
    pub value: &'a str,
    pub insert: bool,
    /// The bytes of the argument are the key, without decoding.
    pub raw_key: bool,
    /// The bytes of the argument are the value, without decoding; `-` is standard input.
    pub raw_value: bool,
}

impl<'a> Store<'a> {
    /// Reads the matches of `store`. Returns `None` if a required argument is missing.
    pub fn matched(matches: &ArgMatches<'a>) -> Option<Store<'a>>
        ensures some { IfSome result (StoreAsks (rows_of (found_of matches.now))) }
        ensures none { IsNone result → has_words spec.store.rules (rows_of (found_of matches.now)) ≡ false }
    {
        Some(Store {
            base: word(matches, "BASE")?,
            form: form(matches),
            notation: notation(matches),
            key: word(matches, "KEY")?,
            value: word(matches, "VALUE")?,
            insert: has_flag(matches, "insert"),
            raw_key: has_flag(matches, "raw-key"),
            raw_value: has_flag(matches, "raw-value"),
        })
    }

    /// Returns the head of the subcommand: its files and its notation.
    pub fn head(&self) -> Head<'a>
        ensures { result ≡ store_head self.now }
    {
        Head {
            writes: true,
            notation: self.notation,
            ..Head::on(Some(self.base))
        }
    }

    /// Returns the arguments that messages may show.
    pub fn words(&self) -> Words<'a> {
        Words {
            first: named_key(self.key, self.raw_key),
            second: self.named_value(),
            layout: self.notation.layout,
            ..Words::on(Some(self.base), self.form)
        }
    }

    // Returns the argument of the value for messages, or `None` for a raw value.
    fn named_value(&self) -> Option<Named<'a>> {
        if self.raw_value {
            return None;
        }
        Some(Named {
            name: "VALUE",
            word: self.value,
        })
    }
}

/// Declares the subcommand `store` for `clap`.
///
/// # Errors
/// `AllocError` if allocation fails.
pub fn store_command<'a>(alloc: Global) -> Result<Command<'a>, AllocError>
    ensures { IfOk result (IsSubcommand spec.store) }
{
    let value = required_word(
        alloc,
        "VALUE",
        "The value in hex, or with --text as text; . is the empty value",
    );
    let insert = flag(
        alloc,
        "insert",
        "If the key exists, change nothing and print exists",
    );
    let raw_value = flag(
        alloc,
        "raw-value",
        "Take the bytes of VALUE as they are, without escapes or numbers; - is standard input",
    );
    let args = vec![in alloc;
        base(alloc),
        key(alloc),
        value,
        insert,
        raw_key(alloc),
        raw_value,
        quick(alloc),
        text(alloc),
        layout(alloc),
        unsigned(alloc),
        wide(alloc),
        insist(alloc),
        must_exist(alloc),
        timeout(alloc),
        verbose(alloc),
    ]?;
    let about = "Store a pair; replaces the value of the key";
    let notes =
        "Prints stored, or with status 1 exists (only with --insert), crowded (there is no room) or\n\
         refused PairTooLarge (key and value have more than 1,008 bytes together, or 8,008 with --wide).\n\n\
         Example: dbm store users ab xyz --text --insert";
    aliased_subcommand(alloc, "store", "put", about, notes, args)
}

impl Subcommand for Store<'_> {
    ghost use Rattle.std.specs.Prelude.{false, true};
    ghost use Rattle.dbm_records.specs.Store.{store_in, takes_input};
    ghost use Rattle.dbm_reports.specs.Causes.{IsCaused};

    type Fault = ReportFault;

    ghost reports = { λ store n given input report. (store_in n store given input).reports report };

    ghost causes = { λ store n given input fault. IsCaused (store_in n store given input).causes fault };

    ghost writes = { λ store. true };

    ghost reads = { λ store. takes_input store };

    fn report<R: Read>(
        &self,
        alloc: Global,
        notation: &Notation<Global>,
        given: &Given,
        reader: &mut R,
    ) -> Result<Report, ReportFault> {
        if takes_input(self) {
            return store_input(alloc, notation, given, self, reader);
        }
        store_word(alloc, notation, given, self)
    }
}

/// Returns the first word of the equivalent script line: `insert` or `replace`.
pub fn store_name(insert: bool) -> &'static [u8]
    ensures { result.now ≡ store_command_name insert }
{
    if insert { b"insert" } else { b"replace" }
}

// Stores the value of the argument.
fn store_word(
    alloc: Global,
    notation: &Notation<Global>,
    given: &Given,
    store: &Store<'_>,
) -> Result<Report, ReportFault>
    ensures ok { IfOk result (λ report. (store_by false notation.now store.now given.now None).reports report) }
    ensures fault { IfErr result (IsCaused (store_by false notation.now store.now given.now None).causes) }
    ensures database { IfOk result (λ report. is_some report.database ≡ true) }
{
    let key = word_asked(alloc, notation, store.key, store.raw_key)?;
    let value = word_asked(alloc, notation, store.value, store.raw_value)?;
    let (name, args) = (store_name(store.insert), [key.as_slice(), value.as_slice()]);
    let (image, command) = command_on(alloc, notation, given, store.form, name, &args)?;
    Ok(change(alloc, notation, image, command, None)?)
}

// Stores all of standard input as the value. Reads standard input only after the arguments are checked and the files are opened.
fn store_input<R: Read>(
    alloc: Global,
    notation: &Notation<Global>,
    given: &Given,
    store: &Store<'_>,
    reader: &mut R,
) -> Result<Report, ReportFault>
    ensures ok { IfOk result (λ report. (store_by true notation.now store.now given.now (R.remaining reader.old)).reports report) }
    ensures fault { IfErr result (IsCaused (store_by true notation.now store.now given.now (R.remaining reader.old)).causes) }
    ensures database { IfOk result (λ report. is_some report.database ≡ true) }
{
    let key = word_asked(alloc, notation, store.key, store.raw_key)?;
    let (name, args) = (store_name(store.insert), [key.as_slice(), b".".as_slice()]);
    let (image, command) = command_on(alloc, notation, given, store.form, name, &args)?;
    let value = Bytes::new(read_input(alloc, reader)?);
    let command = with_value(command, value);
    Ok(change(alloc, notation, image, command, None)?)
}

/// Returns `true` if the value is all of standard input.
pub fn takes_input(store: &Store<'_>) -> bool
    ensures { result ≡ takes_input store.now }
{
    store.raw_value && store.value == "-"
}

// Replaces the value of a store.
fn with_value(command: StoreCommand<Global>, value: Bytes<Global>) -> StoreCommand<Global>
    ensures { result ≡ with_store_value value command }
{
    match command {
        StoreCommand::Store { key, mode, .. } => StoreCommand::Store { key, value, mode },
        other => other,
    }
}
