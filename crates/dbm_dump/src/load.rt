//! `load`: stores the pairs of a dump on standard input.
ghost use Rattle.std.specs.Prelude.{◌≡◌, IfOk, IfSome, IsNone, Some, false};
ghost use Rattle.clap.specs.Words.{found_of, rows_of};
ghost use Rattle.dbm_args.specs.CommandLine.{IsSubcommand};
ghost use Rattle.dbm_args.specs.Given.{has_words};
ghost use Rattle.dbm_dump.specs.Load as spec;
ghost use Rattle.dbm_dump.specs.Load.{LoadAsks, loaded_line, mode_of, load_head};

use crate::copy_fault::CopyFault;
use crate::dump::named_format;
use crate::{DumpFault, Loaded, load_pairs, start_of};
use clap::{ArgMatches, Command};
use dbm_args::arguments::{
    base, flag, insist, must_exist, timeout, unsigned, valued_option, verbose, wide,
};
use dbm_args::{Form, Head, Words, form, has_flag, subcommand, word};
use dbm_reports::{Given, Notes, Report, Subcommand, open};
use dbm_script::Notation;
use itoa::Buffer;
use sdbm_addr::Mode;
use std::alloc::{AllocError, Global};
use std::io::Read;

/// The subcommand `load`. Stores the pairs of a dump on standard input. With `keep`, existing keys keep their values.
#[derive(Clone, Copy, Debug)]
pub struct Load<'a> {
    pub base: &'a str,
    pub form: Form,
    pub format: Option<&'a str>,
    pub keep: bool,
}

impl<'a> Load<'a> {
    /// Reads the matches of `load`. Returns `None` if a required argument is missing.
    pub fn matched(matches: &ArgMatches<'a>) -> Option<Load<'a>>
        ensures some { IfSome result (LoadAsks (rows_of (found_of matches.now))) }
        ensures none { IsNone result → has_words spec.load.rules (rows_of (found_of matches.now)) ≡ false }
    {
        Some(Load {
            base: word(matches, "BASE")?,
            form: form(matches),
            format: word(matches, "format"),
            keep: has_flag(matches, "keep"),
        })
    }

    /// Returns the head of the subcommand: its files and its notation.
    pub fn head(&self) -> Head<'a>
        ensures { result ≡ load_head self.now }
    {
        Head {
            writes: true,
            ..Head::on(Some(self.base))
        }
    }

    /// Returns the arguments that messages may show.
    pub fn words(&self) -> Words<'a> {
        Words {
            first: named_format(self.format),
            ..Words::on(Some(self.base), self.form)
        }
    }
}

/// Declares the subcommand `load` for `clap`.
///
/// # Errors
/// `AllocError` if allocation fails.
pub fn load_command<'a>(alloc: Global) -> Result<Command<'a>, AllocError>
    ensures { IfOk result (IsSubcommand spec.load) }
{
    let help =
        "text, as dump prints, or gdbm, as gdbm_dump prints; by default the first line decides";
    let keep = "Keep the values of existing keys";
    let args = vec![in alloc;
        base(alloc),
        valued_option(alloc, "format", "FORMAT", help),
        flag(alloc, "keep", keep),
        unsigned(alloc),
        wide(alloc),
        insist(alloc),
        must_exist(alloc),
        timeout(alloc),
        verbose(alloc),
    ]?;
    let about = "Store the pairs of a dump on standard input, in one save";
    let notes =
        "Prints loaded N for a dump of N pairs, of any length. A pair replaces the value of its key, unless\n\
         --keep is given. Lines end in LF. If a line is invalid or the dump is truncated, nothing is changed.\n\
         Holds the lock until the input ends, so do not pipe a dump of BASE into a load of BASE.\n\n\
         Example: dbm load users < users.dump";
    subcommand(alloc, "load", about, notes, args)
}

impl Subcommand for Load<'_> {
    ghost use Rattle.std.specs.Prelude.{true};
    ghost use Rattle.dbm_dump.specs.Load.{load_in};
    ghost use Rattle.dbm_dump.specs.Causes.{HasDumpCause};

    type Fault = CopyFault;

    ghost reports = { λ load n given input report. (load_in load given input).reports report };

    ghost causes = { λ load n given input fault. HasDumpCause (load_in load given input).causes fault };

    ghost writes = { λ load. true };

    ghost reads = { λ load. true };

    fn report<R: Read>(
        &self,
        alloc: Global,
        _notation: &Notation<Global>,
        given: &Given,
        reader: &mut R,
    ) -> Result<Report, CopyFault> {
        let Some(start) = start_of(self.format) else {
            return Err(CopyFault::Dump(DumpFault::BadFormat));
        };
        let image = open(alloc, given, self.form)?;
        let loaded = load_pairs(alloc, reader, start, mode_of(self.keep), image)?;
        Ok(loaded_report(alloc, loaded)?)
    }
}

// Returns the mode for storing pairs.
fn mode_of(keep: bool) -> Mode
    ensures { result ≡ mode_of keep }
{
    if keep {
        return Mode::Insert;
    }
    Mode::Replace
}

// Reports the number of pairs in a loaded dump, and the database to write.
fn loaded_report(alloc: Global, loaded: Loaded) -> Result<Report, AllocError>
    ensures { IfOk result (λ report. (report.text.items ≡ loaded_line loaded.count) × ((report.status ≡ 0) × (report.database ≡ Some loaded.image))) }
{
    let Loaded { image, count } = loaded;
    Ok(Report {
        text: show_loaded(alloc, count)?,
        status: 0,
        database: Some(image),
        notes: Notes::none(),
    })
}

// Returns the line `loaded N`.
fn show_loaded(alloc: Global, count: u64) -> Result<Vec<u8>, AllocError>
    ensures { IfOk result (λ text. text.items ≡ loaded_line count) }
{
    let mut text = Vec::new(alloc);
    text.extend_from_slice(b"loaded ")?;
    let mut digits = Buffer::new();
    text.extend_from_slice(digits.format(count).as_bytes())?;
    text.push(b'\n')?;
    Ok(text)
}
