//! `widen`: rewrites a database of small pages with wide pages.
ghost use Rattle.std.specs.Prelude.{◌≡◌, IfOk, IfSome, IsNone, false};
ghost use Rattle.clap.specs.Words.{found_of, rows_of};
ghost use Rattle.dbm_args.specs.CommandLine.{IsSubcommand};
ghost use Rattle.dbm_args.specs.Given.{has_words};
ghost use Rattle.dbm_databases.specs.Widen as spec;
ghost use Rattle.dbm_databases.specs.Widen.{WidenAsks, widen_head};
ghost use Rattle.dbm_databases.specs.Widen.{Widens};

use clap::{ArgMatches, Command};
use dbm_args::arguments::{base, must_exist, timeout, unsigned, verbose};
use dbm_args::{Form, Head, Words, has_flag, subcommand, word};
use dbm_reports::{Given, Notes, Report, ReportFault, Subcommand, open, show_ok};
use dbm_script::Notation;
use sdbm_files::{Image, widen};
use std::alloc::{AllocError, Global};
use std::io::Read;

/// The subcommand `widen`.
#[derive(Clone, Copy, Debug)]
pub struct Widen<'a> {
    pub base: &'a str,
    pub unsigned: bool,
}

impl<'a> Widen<'a> {
    /// Reads the matches of `widen`. Returns `None` if a required argument is missing.
    pub fn matched(matches: &ArgMatches<'a>) -> Option<Widen<'a>>
        ensures some { IfSome result (WidenAsks (rows_of (found_of matches.now))) }
        ensures none { IsNone result → has_words spec.widen.rules (rows_of (found_of matches.now)) ≡ false }
    {
        Some(Widen {
            base: word(matches, "BASE")?,
            unsigned: has_flag(matches, "unsigned"),
        })
    }

    /// Returns the head of the subcommand: its files and its notation.
    pub fn head(&self) -> Head<'a>
        ensures { result ≡ widen_head self.now }
    {
        Head {
            writes: true,
            ..Head::on(Some(self.base))
        }
    }

    /// Returns the arguments that messages may show.
    pub fn words(&self) -> Words<'a> {
        Words {
            base: Some(self.base),
            unsigned: self.unsigned,
            ..Words::none()
        }
    }
}

/// Declares the subcommand `widen` for `clap`.
///
/// # Errors
/// `AllocError` if allocation fails.
pub fn widen_command<'a>(alloc: Global) -> Result<Command<'a>, AllocError>
    ensures { IfOk result (IsSubcommand spec.widen) }
{
    let args = vec![in alloc;
        base(alloc),
        unsigned(alloc),
        must_exist(alloc),
        timeout(alloc),
        verbose(alloc),
    ]?;
    let about = "Rewrite a database with pages of 8,192 bytes instead of 1,024";
    let notes =
        "Prints ok N for a database of N pairs. Then open it with --wide; other programs for sdbm files\n\
         cannot read it. To go back, dump it and load the dump without --wide.\n\n\
         Example: dbm widen users";
    subcommand(alloc, "widen", about, notes, args)
}

impl Subcommand for Widen<'_> {
    ghost use Rattle.std.specs.Prelude.{false, true};
    ghost use Rattle.dbm_databases.specs.Widen.{widen_in};
    ghost use Rattle.dbm_reports.specs.Causes.{IsCaused};

    type Fault = ReportFault;

    ghost reports = { λ widen n given input report. (widen_in widen given).reports report };

    ghost causes = { λ widen n given input fault. IsCaused (widen_in widen given).causes fault };

    ghost writes = { λ widen. true };

    ghost reads = { λ widen. false };

    fn report<R: Read>(
        &self,
        alloc: Global,
        _notation: &Notation<Global>,
        given: &Given,
        _reader: &mut R,
    ) -> Result<Report, ReportFault> {
        let form = Form {
            unsigned: self.unsigned,
            wide: false,
        };
        let image = open(alloc, given, form)?;
        Ok(widen_pages(alloc, image)?)
    }
}

// Rewrites the database with wide pages. Reports the number of pairs and the new database.
fn widen_pages(alloc: Global, image: Image<Global>) -> Result<Report, AllocError>
    ensures { IfOk result (λ report. Widens report image) }
{
    let Ok(image) = widen(image) else {
        return Err(AllocError);
    };
    Ok(Report {
        text: show_ok(alloc, image.count())?,
        status: 0,
        database: Some(image),
        notes: Notes::none(),
    })
}
