//! `each`: runs one program once on each record.
ghost use Rattle.std.specs.Prelude.{◌≡◌, IfErr, IfOk, IfSome, IsNone, false};
ghost use Rattle.clap.specs.Words.{found_of, rows_of};
ghost use Rattle.dbm_args.specs.CommandLine.{IsSubcommand};
ghost use Rattle.dbm_args.specs.Given.{has_words};
ghost use Rattle.dbm_records.specs.Each as spec;
ghost use Rattle.dbm_records.specs.Each.{AreEachWords, EachAsks, each_head, word_causes};
ghost use Rattle.dbm_reports.specs.Causes.{IsCaused};
ghost use Rattle.dbm_script.specs.Notation.{bytes_of_word};

use crate::each_run::{EachWords, run_each};
use crate::running::database_and_image;
use clap::{ArgMatches, Command};
use dbm_args::arguments::{
    base, file, flag, image, insist, layout, must_exist, prefix, required_word, text, timeout,
    unsigned, verbose, wide,
};
use dbm_args::{
    Form, Head, Named, NotationOptions, Numbers, Words, form, has_flag, notation, subcommand, word,
};
use dbm_reports::{Given, Report, ReportFault, Subcommand, bad_words, read_prefix};
use dbm_script::{Notation, read_bytes, read_number};
use std::alloc::{AllocError, Global};
use std::io::Read;

/// The arguments of `each`, which runs a program once on each record, or with `prefix` on each record whose key begins with the prefix. A
/// dry run writes nothing.
#[derive(Clone, Copy, Debug)]
pub struct Each<'a> {
    pub base: &'a str,
    pub form: Form,
    pub notation: NotationOptions<'a>,
    pub file: &'a str,
    pub arg: &'a str,
    pub now: &'a str,
    pub prefix: Option<&'a str>,
    pub image: bool,
    pub dry_run: bool,
}

impl<'a> Each<'a> {
    /// Reads the matches of `each`. Returns `None` if a required argument is missing.
    pub fn matched(matches: &ArgMatches<'a>) -> Option<Each<'a>>
        ensures some { IfSome result (EachAsks (rows_of (found_of matches.now))) }
        ensures none { IsNone result → has_words spec.each.rules (rows_of (found_of matches.now)) ≡ false }
    {
        Some(Each {
            base: word(matches, "BASE")?,
            form: form(matches),
            notation: notation(matches),
            file: word(matches, "FILE")?,
            arg: word(matches, "ARG")?,
            now: word(matches, "NOW")?,
            prefix: word(matches, "prefix"),
            image: has_flag(matches, "image"),
            dry_run: has_flag(matches, "dry-run"),
        })
    }

    /// Returns the head of the subcommand: its files and its notation.
    pub fn head(&self) -> Head<'a>
        ensures { result ≡ each_head self.entry.now }
    {
        Head {
            file: Some(self.file),
            image: self.image,
            writes: !self.dry_run,
            notation: self.notation,
            ..Head::on(Some(self.base))
        }
    }

    /// Returns the arguments that messages may show.
    pub fn words(&self) -> Words<'a> {
        Words {
            file: Some(self.file),
            image: self.image,
            first: Some(Named {
                name: "ARG",
                word: self.arg,
            }),
            second: match self.prefix {
                Some(word) => Some(Named {
                    name: "--prefix",
                    word,
                }),
                None => None,
            },
            layout: self.notation.layout,
            numbers: Numbers {
                now: Some(self.now),
                ..Numbers::none()
            },
            ..Words::on(Some(self.base), self.form)
        }
    }
}

/// Declares the subcommand `each` for `clap`.
///
/// # Errors
/// `AllocError` if allocation fails.
pub fn each_command<'a>(alloc: Global) -> Result<Command<'a>, AllocError>
    ensures { IfOk result (IsSubcommand spec.each) }
{
    let args = vec![in alloc;
        base(alloc),
        file(
            alloc,
            "The program as text, one instruction a line; or @NAME for a stock program"
        ),
        required_word(
            alloc,
            "ARG",
            "The argument of the program, in hex, or with --text as text; . is empty"
        ),
        required_word(
            alloc,
            "NOW",
            "The time for the program: a number in its own unit, now for seconds since 1970, or now-ms"
        ),
        prefix(alloc),
        flag(
            alloc,
            "dry-run",
            "Report what the runs would do, and write nothing"
        ),
        image(alloc),
        text(alloc),
        layout(alloc),
        unsigned(alloc),
        wide(alloc),
        insist(alloc),
        must_exist(alloc),
        timeout(alloc),
        verbose(alloc),
    ]?;
    let about = "Run a program once on each record";
    let notes =
        "Prints N runs, and how many of them ended with which code: 1 saved the record, 2 deleted the pair, and any\n\
         other changed nothing. All runs are one save.\n\n\
         Example: dbm each leases @lease u64:0,u64:0 now --prefix lease: --text\n\
         deletes the leases that have ended.";
    subcommand(alloc, "each", about, notes, args)
}

impl Subcommand for Each<'_> {
    ghost use Rattle.std.specs.Prelude.{false, not};
    ghost use Rattle.dbm_records.specs.Each.{each_in};
    ghost use Rattle.dbm_reports.specs.Causes.{IsCaused};

    type Fault = ReportFault;

    ghost reports = { λ each n given input report. (each_in n each given).reports report };

    ghost causes = { λ each n given input fault. IsCaused (each_in n each given).causes fault };

    ghost writes = { λ each. not each.dry_run };

    ghost reads = { λ each. false };

    fn report<R: Read>(
        &self,
        alloc: Global,
        notation: &Notation<Global>,
        given: &Given,
        _reader: &mut R,
    ) -> Result<Report, ReportFault> {
        let words = each_words(alloc, notation, *self)?;
        let (database, image) = database_and_image(alloc, given, self.form, self.image)?;
        Ok(run_each(alloc, database, image.as_slice(), words, self.dry_run)?)
    }
}

// Reads the argument and the prefix as bytes, and the time as a number.
fn each_words(
    alloc: Global,
    notation: &Notation<Global>,
    each: Each<'_>,
) -> Result<EachWords, ReportFault>
    ensures ok { IfOk result (AreEachWords notation.now each.entry) }
    ensures fault { IfErr result (IsCaused (word_causes notation.now each.entry)) }
{
    let Some(arg) = read_bytes(alloc, notation, each.arg.as_bytes())? else {
        return Err(bad_words(notation));
    };
    let Some(prefix) = read_prefix(alloc, notation, each.prefix)? else {
        return Err(bad_words(notation));
    };
    let Some(now) = read_number(each.now.as_bytes(), u64::MAX) else {
        return Err(ReportFault::BadNumber);
    };
    Ok(EachWords {
        prefix,
        arg,
        time: now,
    })
}
