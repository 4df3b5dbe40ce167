//! `check`: checks whether the files are a database.
ghost use Rattle.std.specs.Prelude.{◌≡◌, IfOk, IfSome, IsNone, false};
ghost use Rattle.clap.specs.Words.{found_of, rows_of};
ghost use Rattle.dbm_args.specs.CommandLine.{IsSubcommand};
ghost use Rattle.dbm_args.specs.Given.{has_words};
ghost use Rattle.dbm_databases.specs.Check as spec;
ghost use Rattle.dbm_databases.specs.Check.{CheckAsks, check_head};
ghost use Rattle.dbm_databases.specs.Listings.{PrintsCount};

use clap::{ArgMatches, Command};
use dbm_args::arguments::{base, insist, json, timeout, unsigned, verbose, wide};
use dbm_args::{Form, Head, Words, form, has_flag, subcommand, word};
use dbm_reports::{Given, Report, ReportFault, Subcommand, open, printed, show_ok};
use dbm_script::Notation;
use dbm_stats::show_count_object;
use sdbm_files::Image;
use std::alloc::{AllocError, Global};
use std::io::Read;

/// The subcommand `check`. Prints the number of pairs if the files are a database.
#[derive(Clone, Copy, Debug)]
pub struct Check<'a> {
    pub base: &'a str,
    pub form: Form,
    pub json: bool,
}

impl<'a> Check<'a> {
    /// Reads the matches of `check`. Returns `None` if a required argument is missing.
    pub fn matched(matches: &ArgMatches<'a>) -> Option<Check<'a>>
        ensures some { IfSome result (CheckAsks (rows_of (found_of matches.now))) }
        ensures none { IsNone result → has_words spec.check.rules (rows_of (found_of matches.now)) ≡ false }
    {
        Some(Check {
            base: word(matches, "BASE")?,
            form: form(matches),
            json: has_flag(matches, "json"),
        })
    }

    /// Returns the head of the subcommand: its files and its notation.
    pub fn head(&self) -> Head<'a>
        ensures { result ≡ check_head self.now }
    {
        Head::on(Some(self.base))
    }

    /// Returns the arguments that messages may show.
    pub fn words(&self) -> Words<'a> {
        Words::on(Some(self.base), self.form)
    }
}

/// Declares the subcommand `check` for `clap`.
///
/// # Errors
/// `AllocError` if allocation fails.
pub fn check_command<'a>(alloc: Global) -> Result<Command<'a>, AllocError>
    ensures { IfOk result (IsSubcommand spec.check) }
{
    let args = vec![in alloc;
        base(alloc),
        json(alloc),
        unsigned(alloc),
        wide(alloc),
        insist(alloc),
        timeout(alloc),
        verbose(alloc),
    ]?;
    let about = "Check that the files are a database";
    let notes =
        "Prints ok N for a database of N pairs. If the files are not a database, prints the fault\n\
         on standard error, with status 2. If neither file exists, the database is empty.\n\n\
         Example: dbm check users";
    subcommand(alloc, "check", about, notes, args)
}

impl Subcommand for Check<'_> {
    ghost use Rattle.std.specs.Prelude.{false};
    ghost use Rattle.dbm_databases.specs.Check.{check_in};
    ghost use Rattle.dbm_reports.specs.Causes.{IsCaused};

    type Fault = ReportFault;

    ghost reports = { λ check n given input report. (check_in check given).reports report };

    ghost causes = { λ check n given input fault. IsCaused (check_in check given).causes fault };

    ghost writes = { λ check. false };

    ghost reads = { λ check. false };

    fn report<R: Read>(
        &self,
        alloc: Global,
        _notation: &Notation<Global>,
        given: &Given,
        _reader: &mut R,
    ) -> Result<Report, ReportFault> {
        let image = open(alloc, given, self.form)?;
        Ok(counted(alloc, &image, self.json)?)
    }
}

// Reports the number of pairs, as a line or as a JSON object.
fn counted(alloc: Global, image: &Image<Global>, json: bool) -> Result<Report, AllocError>
    ensures { IfOk result (λ report. PrintsCount json report image.now) }
{
    if json {
        return Ok(printed(show_count_object(alloc, b"ok", image.count() as u64)?));
    }
    Ok(printed(show_ok(alloc, image.count())?))
}
