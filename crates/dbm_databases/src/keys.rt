//! `keys`: lists keys, sorted by their bytes.
ghost use Rattle.std.specs.Prelude.{◌≡◌, IfOk, IfErr, IfSome, IsNone, false, is_some};
ghost use Rattle.clap.specs.Words.{found_of, rows_of};
ghost use Rattle.dbm_args.specs.CommandLine.{IsSubcommand};
ghost use Rattle.dbm_args.specs.Given.{has_words};
ghost use Rattle.dbm_reports.specs.Causes.{IsCaused};
ghost use Rattle.dbm_reports.specs.Served.{IsPrinted, IsUnserved};
ghost use Rattle.dbm_databases.specs.Keys as spec;
ghost use Rattle.dbm_databases.specs.Keys.{KeysAsks, keys_in, keys_head};

use crate::rows::keys_listing;
use crate::streamed::serve_rows;
use clap::{ArgMatches, Command};
use dbm_args::arguments::{base, insist, null, prefix, text, timeout, unsigned, verbose, wide};
use dbm_args::{
    Form, Head, Named, NotationOptions, Words, form, has_flag, notation, subcommand, word,
};
use dbm_reports::{Given, Outcome, ReportFault, Unserved};
use dbm_script::Notation;
use std::alloc::{AllocError, Global};
use std::io::Write;

/// The subcommand `keys`. Lists all keys, or those that begin with a prefix. With `null`, prints each key as raw bytes and a zero byte.
#[derive(Clone, Copy, Debug)]
pub struct Keys<'a> {
    pub base: &'a str,
    pub form: Form,
    pub notation: NotationOptions<'a>,
    pub prefix: Option<&'a str>,
    pub null: bool,
}

impl<'a> Keys<'a> {
    /// Reads the matches of `keys`. Returns `None` if a required argument is missing.
    pub fn matched(matches: &ArgMatches<'a>) -> Option<Keys<'a>>
        ensures some { IfSome result (KeysAsks (rows_of (found_of matches.now))) }
        ensures none { IsNone result → has_words spec.keys.rules (rows_of (found_of matches.now)) ≡ false }
    {
        Some(Keys {
            base: word(matches, "BASE")?,
            form: form(matches),
            notation: notation(matches),
            prefix: word(matches, "prefix"),
            null: has_flag(matches, "null"),
        })
    }

    /// Returns the head of the subcommand: its files and its notation.
    pub fn head(&self) -> Head<'a>
        ensures { result ≡ keys_head self.now }
    {
        Head {
            notation: self.notation,
            ..Head::on(Some(self.base))
        }
    }

    /// Returns the arguments that messages may show.
    pub fn words(&self) -> Words<'a> {
        Words {
            first: match self.prefix {
                Some(word) => Some(Named {
                    name: "--prefix",
                    word,
                }),
                None => None,
            },
            layout: self.notation.layout,
            ..Words::on(Some(self.base), self.form)
        }
    }

    /// Runs the subcommand: writes the rows to `writer` in pieces.
    ///
    /// # Errors
    /// The errors of `serve_rows`.
    pub fn serve<W: Write>(
        &self,
        alloc: Global,
        notation: &Notation<Global>,
        given: &Given,
        writer: &mut W,
    ) -> Result<Outcome, Unserved<ReportFault>>
        ensures ok { IfOk result (λ served. IsPrinted (keys_in notation.now self.now given.now).reports (W.contents writer.old) (W.contents writer.new) served.status served.database) }
        ensures fault { IfErr result (IsUnserved (keys_in notation.now self.now given.now).reports (IsCaused (keys_in notation.now self.now given.now).causes) (W.contents writer.old) (W.contents writer.new)) }
        ensures database { IfOk result (λ served. is_some served.database ≡ false) }
    {
        let listing = keys_listing(self.null);
        serve_rows(
            alloc,
            notation,
            given,
            self.form,
            self.prefix,
            listing,
            writer,
        )
    }
}

/// Declares the subcommand `keys` for `clap`.
///
/// # Errors
/// `AllocError` if allocation fails.
pub fn keys_command<'a>(alloc: Global) -> Result<Command<'a>, AllocError>
    ensures { IfOk result (IsSubcommand spec.keys) }
{
    let args = vec![in alloc;
        base(alloc),
        prefix(alloc),
        null(alloc),
        text(alloc),
        unsigned(alloc),
        wide(alloc),
        insist(alloc),
        timeout(alloc),
        verbose(alloc),
    ]?;
    let about = "Print all keys, sorted by their bytes";
    let notes = "Prints each key in a line, in hex, or . for no bytes.\n\n\
         Example: dbm keys users --text --prefix user:";
    subcommand(alloc, "keys", about, notes, args)
}
