//! `stats`: prints the statistics of a database.
ghost use Rattle.std.specs.Prelude.{◌≡◌, IfOk, IfSome, IsNone, false, length};
ghost use Rattle.clap.specs.Words.{found_of, rows_of};
ghost use Rattle.dbm_args.specs.CommandLine.{IsSubcommand};
ghost use Rattle.dbm_args.specs.Given.{has_words};
ghost use Rattle.dbm_databases.specs.Stats as spec;
ghost use Rattle.dbm_databases.specs.Stats.{StatsAsks, stats_head};
ghost use Rattle.dbm_databases.specs.Listings.{Figures, figures_shown};

use clap::{ArgMatches, Command};
use dbm_args::arguments::{base, insist, json, timeout, unsigned, verbose, wide};
use dbm_args::{Form, Head, Words, form, has_flag, subcommand, word};
use dbm_reports::{Given, Report, ReportFault, Subcommand, open, printed};
use dbm_script::Notation;
use dbm_stats::{Stats as Numbers, figures_object, figures_text, stats_of};
use sdbm_files::Image;
use std::alloc::{AllocError, Global};
use std::io::Read;

/// The subcommand `stats`.
#[derive(Clone, Copy, Debug)]
pub struct Stats<'a> {
    pub base: &'a str,
    pub form: Form,
    pub json: bool,
}

impl<'a> Stats<'a> {
    /// Reads the matches of `stats`. Returns `None` if a required argument is missing.
    pub fn matched(matches: &ArgMatches<'a>) -> Option<Stats<'a>>
        ensures some { IfSome result (StatsAsks (rows_of (found_of matches.now))) }
        ensures none { IsNone result → has_words spec.stats.rules (rows_of (found_of matches.now)) ≡ false }
    {
        Some(Stats {
            base: word(matches, "BASE")?,
            form: form(matches),
            json: has_flag(matches, "json"),
        })
    }

    /// Returns the head of the subcommand: its files and its notation.
    pub fn head(&self) -> Head<'a>
        ensures { result ≡ stats_head self.now }
    {
        Head::on(Some(self.base))
    }

    /// Returns the arguments that messages may show.
    pub fn words(&self) -> Words<'a> {
        Words::on(Some(self.base), self.form)
    }
}

/// Declares the subcommand `stats` for `clap`.
///
/// # Errors
/// `AllocError` if allocation fails.
pub fn stats_command<'a>(alloc: Global) -> Result<Command<'a>, AllocError>
    ensures { IfOk result (IsSubcommand spec.stats) }
{
    let args = vec![in alloc;
        base(alloc),
        json(alloc),
        unsigned(alloc),
        wide(alloc),
        insist(alloc),
        timeout(alloc),
        verbose(alloc),
    ]?;
    let about = "Print statistics of a database";
    let notes =
        "Prints the number of pairs and bytes, how full the pages are, and how deep the directory is.\n\n\
         Example: dbm stats users";
    subcommand(alloc, "stats", about, notes, args)
}

impl Subcommand for Stats<'_> {
    ghost use Rattle.std.specs.Prelude.{false};
    ghost use Rattle.dbm_databases.specs.Stats.{stats_in};
    ghost use Rattle.dbm_reports.specs.Causes.{IsCaused};

    type Fault = ReportFault;

    ghost reports = { λ stats n given input report. (stats_in stats given).reports report };

    ghost causes = { λ stats n given input fault. IsCaused (stats_in stats given).causes fault };

    ghost writes = { λ stats. false };

    ghost reads = { λ stats. false };

    fn report<R: Read>(
        &self,
        alloc: Global,
        _notation: &Notation<Global>,
        given: &Given,
        _reader: &mut R,
    ) -> Result<Report, ReportFault> {
        let image = open(alloc, given, self.form)?;
        Ok(figures(alloc, &image, self.json)?)
    }
}

// Reports the statistics of a database, as text or as a JSON object.
fn figures(alloc: Global, image: &Image<Global>, json: bool) -> Result<Report, AllocError>
    ensures { IfOk result (λ report. Figures json report image.now) }
{
    let stats = stats_of(alloc, image)?;
    let text = show_figures(alloc, &stats, json)?;
    Ok(printed(text))
}

// Returns statistics as text or as a JSON object.
fn show_figures(alloc: Global, stats: &Numbers<Global>, json: bool) -> Result<Vec<u8>, AllocError>
    requires { length stats.now.bars.items ≡ 10 }
    ensures { IfOk result (λ text. text.items ≡ figures_shown json stats.now) }
{
    if json {
        return figures_object(alloc, stats);
    }
    figures_text(alloc, stats)
}
