//! `count`: counts pairs.
ghost use Rattle.std.specs.Prelude.{◌≡◌, ◌+◌, ◌≤◌, ◌<◌, ◌^◌, ◌∷◌, [], length, IfOk, IfSome, IsNone, false};
ghost use Rattle.std.specs.FinMap as map;
ghost use Rattle.clap.specs.Words.{found_of, rows_of};
ghost use Rattle.sdbm_addr.specs.Database.{map_of};
ghost use Rattle.sdbm_files.specs.Lent.{pair_lent, pairs_lent};
ghost use Rattle.dbm_args.specs.CommandLine.{IsSubcommand};
ghost use Rattle.dbm_args.specs.Given.{has_words};
ghost use Rattle.dbm_databases.specs.Count as spec;
ghost use Rattle.dbm_databases.specs.Count.{CountAsks, count_head};
ghost use Rattle.dbm_databases.specs.Rows.{chosen};

use crate::chosen::open_asked;
use clap::{ArgMatches, Command};
use dbm_args::arguments::{base, insist, prefix, text, timeout, unsigned, verbose, wide};
use dbm_args::{Form, Head, Named, NotationOptions, Words, form, notation, subcommand, word};
use dbm_reports::{Given, Report, ReportFault, Subcommand, printed, show_named};
use dbm_script::Notation;
use sdbm_files::Image;
use std::alloc::{AllocError, Global};
use std::io::Read;

/// The subcommand `count`. Counts all pairs, or those whose keys begin with a prefix.
#[derive(Clone, Copy, Debug)]
pub struct Count<'a> {
    pub base: &'a str,
    pub form: Form,
    pub notation: NotationOptions<'a>,
    pub prefix: Option<&'a str>,
}

impl<'a> Count<'a> {
    /// Reads the matches of `count`. Returns `None` if a required argument is missing.
    pub fn matched(matches: &ArgMatches<'a>) -> Option<Count<'a>>
        ensures some { IfSome result (CountAsks (rows_of (found_of matches.now))) }
        ensures none { IsNone result → has_words spec.count.rules (rows_of (found_of matches.now)) ≡ false }
    {
        Some(Count {
            base: word(matches, "BASE")?,
            form: form(matches),
            notation: notation(matches),
            prefix: word(matches, "prefix"),
        })
    }

    /// Returns the head of the subcommand: its files and its notation.
    pub fn head(&self) -> Head<'a>
        ensures { result ≡ count_head self.now }
    {
        Head {
            notation: self.notation,
            ..Head::on(Some(self.base))
        }
    }

    /// Returns the arguments that messages may show.
    pub fn words(&self) -> Words<'a> {
        Words {
            first: match self.prefix {
                Some(word) => Some(Named {
                    name: "--prefix",
                    word,
                }),
                None => None,
            },
            ..Words::on(Some(self.base), self.form)
        }
    }
}

/// Declares the subcommand `count` for `clap`.
///
/// # Errors
/// `AllocError` if allocation fails.
pub fn count_command<'a>(alloc: Global) -> Result<Command<'a>, AllocError>
    ensures { IfOk result (IsSubcommand spec.count) }
{
    let args = vec![in alloc;
        base(alloc),
        prefix(alloc),
        text(alloc),
        unsigned(alloc),
        wide(alloc),
        insist(alloc),
        timeout(alloc),
        verbose(alloc),
    ]?;
    let about = "Count the pairs, or those whose keys begin with a prefix";
    let notes = "Prints count N.\n\n\
         Example: dbm count users --text --prefix user:";
    subcommand(alloc, "count", about, notes, args)
}

impl Subcommand for Count<'_> {
    ghost use Rattle.std.specs.Prelude.{false};
    ghost use Rattle.dbm_databases.specs.Count.{count_in};
    ghost use Rattle.dbm_reports.specs.Causes.{IsCaused};

    type Fault = ReportFault;

    ghost reports = { λ count n given input report. (count_in n count given).reports report };

    ghost causes = { λ count n given input fault. IsCaused (count_in n count given).causes fault };

    ghost writes = { λ count. false };

    ghost reads = { λ count. false };

    fn report<R: Read>(
        &self,
        alloc: Global,
        notation: &Notation<Global>,
        given: &Given,
        _reader: &mut R,
    ) -> Result<Report, ReportFault> {
        let (begin, image) = open_asked(alloc, notation, given, self.form, self.prefix)?;
        let count = count_pairs(&image, begin.as_slice())?;
        Ok(printed(show_named(alloc, b"count ", count)?))
    }
}

// Counts the pairs whose keys begin with a prefix.
fn count_pairs(image: &Image<Global>, prefix: &[u8]) -> Result<usize, AllocError>
    ensures { IfOk result (λ count. count ≡ length (chosen prefix.now (map.entries (map_of image.now)))) }
{
    let pairs = image.lend_pairs()?;
    Ok(count_chosen(pairs.as_slice(), prefix))
}

fn count_chosen(pairs: &[(&[u8], &[u8])], prefix: &[u8]) -> usize
    ensures { result ≡ length (chosen prefix.now (pairs_lent pairs.now)) }
{
    let mut count = 0;
    for pair in pairs {
        count = count_with(count, pair, prefix);
    }
    count
}

// Returns `count`, plus 1 if the key of the pair begins with the prefix.
fn count_with(count: usize, pair: &(&[u8], &[u8]), prefix: &[u8]) -> usize
    requires { count < 2 ^ 63 }
    ensures is { result ≡ count + length (chosen prefix.now (pair_lent pair.now ∷ [])) }
    ensures few { result ≤ count + 1 }
{
    let (key, _value) = *pair;
    if !key.starts_with(prefix) {
        return count;
    }
    count + 1
}
