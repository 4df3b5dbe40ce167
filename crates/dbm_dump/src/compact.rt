//! `compact`: rewrites a database in files as small as its pairs allow.
ghost use Rattle.std.specs.Prelude.{◌≡◌, IfNone, IfOk, IfSome, IsNone, false};
ghost use Rattle.std.specs.FinMap as map;
ghost use Rattle.clap.specs.Words.{found_of, rows_of};
ghost use Rattle.sdbm_addr.specs.Database.{empty_database, map_of};
ghost use Rattle.sdbm_files.specs.Lent.{pair_lent, pairs_lent};
ghost use Rattle.dbm_args.specs.CommandLine.{IsSubcommand};
ghost use Rattle.dbm_args.specs.Given.{has_words};
ghost use Rattle.dbm_dump.specs.Compact as spec;
ghost use Rattle.dbm_dump.specs.Compact.{CompactAsks, Compacts, IsUnfit, UnfitAmong, compact_head};
ghost use Rattle.dbm_dump.specs.Loading.{StoresAll, StoresOne};
ghost use Rattle.sdbm_addr.specs.declared.Mode.TheVariants.{Insert};

use crate::fault::DumpFault;
use crate::loading::store_pair;
use clap::{ArgMatches, Command};
use dbm_args::arguments::{base, insist, must_exist, timeout, unsigned, verbose, wide};
use dbm_args::{Form, Head, Words, form, subcommand, word};
use dbm_reports::{Given, Notes, Report, ReportFault, Subcommand, open, show_ok};
use dbm_script::Notation;
use sdbm_addr::{Bytes, KeyBytes, Mode, PageSize};
use sdbm_files::Image;
use std::alloc::{AllocError, Global};
use std::io::Read;

/// The subcommand `compact`. Makes both files of a database as small as its pairs allow.
#[derive(Clone, Copy, Debug)]
pub struct Compact<'a> {
    pub base: &'a str,
    pub form: Form,
}

impl<'a> Compact<'a> {
    /// Reads the matches of `compact`. Returns `None` if a required argument is missing.
    pub fn matched(matches: &ArgMatches<'a>) -> Option<Compact<'a>>
        ensures some { IfSome result (CompactAsks (rows_of (found_of matches.now))) }
        ensures none { IsNone result → has_words spec.compact.rules (rows_of (found_of matches.now)) ≡ false }
    {
        Some(Compact {
            base: word(matches, "BASE")?,
            form: form(matches),
        })
    }

    /// Returns the head of the subcommand: its files and its notation.
    pub fn head(&self) -> Head<'a>
        ensures { result ≡ compact_head self.now }
    {
        Head {
            writes: true,
            ..Head::on(Some(self.base))
        }
    }

    /// Returns the arguments that messages may show.
    pub fn words(&self) -> Words<'a> {
        Words::on(Some(self.base), self.form)
    }
}

/// Declares the subcommand `compact` for `clap`.
///
/// # Errors
/// `AllocError` if allocation fails.
pub fn compact_command<'a>(alloc: Global) -> Result<Command<'a>, AllocError>
    ensures { IfOk result (IsSubcommand spec.compact) }
{
    let args = vec![in alloc;
        base(alloc),
        unsigned(alloc),
        wide(alloc),
        insist(alloc),
        must_exist(alloc),
        timeout(alloc),
        verbose(alloc),
    ]?;
    let about = "Make the files as small as their pairs allow";
    let notes =
        "Prints ok N for a database of N pairs: they are stored anew, in one save, and no pair changes. Prints crowded,\n\
         with status 1, if a pair does not fit in the new files: then nothing changes.\n\n\
         Example: dbm compact users";
    subcommand(alloc, "compact", about, notes, args)
}

impl Subcommand for Compact<'_> {
    ghost use Rattle.std.specs.Prelude.{false, true};
    ghost use Rattle.dbm_dump.specs.Compact.{compact_in};
    ghost use Rattle.dbm_reports.specs.Causes.{IsCaused};

    type Fault = ReportFault;

    ghost reports = { λ compact n given input report. (compact_in compact given).reports report };

    ghost causes = { λ compact n given input fault. IsCaused (compact_in compact given).causes fault };

    ghost writes = { λ compact. true };

    ghost reads = { λ compact. false };

    fn report<R: Read>(
        &self,
        alloc: Global,
        _notation: &Notation<Global>,
        given: &Given,
        _reader: &mut R,
    ) -> Result<Report, ReportFault> {
        let image = open(alloc, given, self.form)?;
        Ok(compacted(alloc, image)?)
    }
}

// Reports the number of pairs and the new database. If a pair does not fit in the new database, reports `crowded` and the old one.
fn compacted(alloc: Global, image: Image<Global>) -> Result<Report, AllocError>
    ensures { IfOk result (λ report. Compacts report image) }
{
    let count = image.count();
    let new = stored_anew(alloc, &image)?;
    match new {
        Some(new) => Ok(Report {
            text: show_ok(alloc, count)?,
            status: 0,
            database: Some(new),
            notes: Notes::none(),
        }),
        None => Ok(Report {
            text: b"crowded\n".to_vec(alloc)?,
            status: 1,
            database: Some(image),
            notes: Notes::none(),
        }),
    }
}

// Stores all pairs of a database in a new database of the same form, in the order of their keys. Returns `None` if a pair does not fit.
fn stored_anew(alloc: Global, image: &Image<Global>) -> Result<Option<Image<Global>>, AllocError>
    ensures some { IfOk result (λ made. IfSome made (λ new. StoresAll Insert (empty_database image.now.kind image.now.size) (map.entries (map_of image.now)) new)) }
    ensures none { IfOk result (λ made. IfNone made (UnfitAmong image.now.kind image.now.size (map.entries (map_of image.now)))) }
{
    let pairs = image.lend_pairs()?;
    stored_in_order(
        alloc,
        image.key_bytes(),
        image.page_size(),
        pairs.as_slice(),
    )
}

// Stores pairs in an empty database, in order. Returns `None` if a pair does not fit.
fn stored_in_order(
    alloc: Global,
    kind: KeyBytes,
    size: PageSize,
    pairs: &[(&[u8], &[u8])],
) -> Result<Option<Image<Global>>, AllocError>
    ensures some { IfOk result (λ made. IfSome made (λ new. StoresAll Insert (empty_database kind size) (pairs_lent pairs.now) new)) }
    ensures none { IfOk result (λ made. IfNone made (UnfitAmong kind size (pairs_lent pairs.now))) }
{
    let mut image = Image::empty(alloc, kind, size);
    for pair in pairs {
        let Some(after) = stored(alloc, image, pair)? else {
            return Ok(None);
        };
        image = after;
    }
    Ok(Some(image))
}

// Stores one pair. Returns `None` if the pair does not fit.
fn stored(
    alloc: Global,
    image: Image<Global>,
    pair: &(&[u8], &[u8]),
) -> Result<Option<Image<Global>>, AllocError>
    ensures some { IfOk result (λ made. IfSome made (StoresOne Insert image (pair_lent pair.now))) }
    ensures none { IfOk result (λ made. IfNone made (IsUnfit image (pair_lent pair.now))) }
{
    let (key, value) = *pair;
    let key = Bytes::from_slice(alloc, key)?;
    let value = Bytes::from_slice(alloc, value)?;
    match store_pair(alloc, Mode::Insert, image, key, value, 0) {
        Ok(after) => Ok(Some(after)),
        Err(DumpFault::NoMemory) => Err(AllocError),
        Err(_) => Ok(None),
    }
}
