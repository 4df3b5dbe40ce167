//! `list`: lists pairs, sorted by the bytes of their keys.
ghost use Rattle.std.specs.Prelude.{◌≡◌, IfOk, IfErr, IfSome, IsNone, false, is_some};
ghost use Rattle.clap.specs.Words.{found_of, rows_of};
ghost use Rattle.dbm_args.specs.CommandLine.{IsSubcommand};
ghost use Rattle.dbm_args.specs.Given.{has_words};
ghost use Rattle.dbm_reports.specs.Causes.{IsCaused};
ghost use Rattle.dbm_reports.specs.Served.{IsPrinted, IsUnserved};
ghost use Rattle.dbm_databases.specs.List as spec;
ghost use Rattle.dbm_databases.specs.List.{ListAsks, list_in, list_head};

use crate::rows::pairs_listing;
use crate::streamed::serve_rows;
use clap::{ArgMatches, Command};
use dbm_args::arguments::{
    base, insist, json, layout, null, prefix, text, timeout, unsigned, verbose, wide,
};
use dbm_args::{
    Form, Head, Named, NotationOptions, Words, aliased_subcommand, form, has_flag, notation, word,
};
use dbm_reports::{Given, Outcome, ReportFault, Unserved};
use dbm_script::Notation;
use std::alloc::{AllocError, Global};
use std::io::Write;

/// The subcommand `list`. Lists all pairs, or those whose keys begin with a prefix. With `null`, prints each key and each value as raw
/// bytes and a zero byte. With `json`, prints an object for each pair.
#[derive(Clone, Copy, Debug)]
pub struct List<'a> {
    pub base: &'a str,
    pub form: Form,
    pub notation: NotationOptions<'a>,
    pub prefix: Option<&'a str>,
    pub null: bool,
    pub json: bool,
}

impl<'a> List<'a> {
    /// Reads the matches of `list`. Returns `None` if a required argument is missing.
    pub fn matched(matches: &ArgMatches<'a>) -> Option<List<'a>>
        ensures some { IfSome result (ListAsks (rows_of (found_of matches.now))) }
        ensures none { IsNone result → has_words spec.list.rules (rows_of (found_of matches.now)) ≡ false }
    {
        Some(List {
            base: word(matches, "BASE")?,
            form: form(matches),
            notation: notation(matches),
            prefix: word(matches, "prefix"),
            null: has_flag(matches, "null"),
            json: has_flag(matches, "json"),
        })
    }

    /// Returns the head of the subcommand: its files and its notation.
    pub fn head(&self) -> Head<'a>
        ensures { result ≡ list_head self.now }
    {
        Head {
            notation: self.notation,
            ..Head::on(Some(self.base))
        }
    }

    /// Returns the arguments that messages may show.
    pub fn words(&self) -> Words<'a> {
        Words {
            first: match self.prefix {
                Some(word) => Some(Named {
                    name: "--prefix",
                    word,
                }),
                None => None,
            },
            layout: self.notation.layout,
            ..Words::on(Some(self.base), self.form)
        }
    }

    /// Runs the subcommand: writes the rows to `writer` in pieces.
    ///
    /// # Errors
    /// The errors of `serve_rows`.
    pub fn serve<W: Write>(
        &self,
        alloc: Global,
        notation: &Notation<Global>,
        given: &Given,
        writer: &mut W,
    ) -> Result<Outcome, Unserved<ReportFault>>
        ensures ok { IfOk result (λ served. IsPrinted (list_in notation.now self.now given.now).reports (W.contents writer.old) (W.contents writer.new) served.status served.database) }
        ensures fault { IfErr result (IsUnserved (list_in notation.now self.now given.now).reports (IsCaused (list_in notation.now self.now given.now).causes) (W.contents writer.old) (W.contents writer.new)) }
        ensures database { IfOk result (λ served. is_some served.database ≡ false) }
    {
        let listing = pairs_listing(self.null, self.json);
        serve_rows(
            alloc,
            notation,
            given,
            self.form,
            self.prefix,
            listing,
            writer,
        )
    }
}

/// Declares the subcommand `list` for `clap`.
///
/// # Errors
/// `AllocError` if allocation fails.
pub fn list_command<'a>(alloc: Global) -> Result<Command<'a>, AllocError>
    ensures { IfOk result (IsSubcommand spec.list) }
{
    let args = vec![in alloc;
        base(alloc),
        prefix(alloc),
        null(alloc),
        json(alloc),
        text(alloc),
        layout(alloc),
        unsigned(alloc),
        wide(alloc),
        insist(alloc),
        timeout(alloc),
        verbose(alloc),
    ]?;
    let about = "Print all pairs, sorted by the bytes of their keys";
    let notes =
        "Prints KEY VALUE for each pair, both in hex, or . for no bytes; with --json, an object in\n\
         a line for each, with or without -0. With --json --as u64,text the value is numbers and strings,\n\
         and bytes that are not UTF-8 are {\"hex\":\"..\"}. With -0 a zero byte within a key or a value looks\n\
         like an end. If the reader of a pipe ends early, as head does, that is not a fault.\n\n\
         Example: dbm list users --text";
    aliased_subcommand(alloc, "list", "ls", about, notes, args)
}
