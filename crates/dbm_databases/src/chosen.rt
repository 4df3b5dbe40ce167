//! Reads the prefix of a listing, and opens its database.
ghost use Rattle.std.specs.Prelude.{◌≡◌, Some, IfOk, IfErr};
ghost use Rattle.dbm_reports.specs.Causes.{IsCaused};
ghost use Rattle.dbm_reports.specs.Databases.{IsOpened};
ghost use Rattle.dbm_databases.specs.Listings.{listing_causes};
ghost use Rattle.dbm_reports.specs.Words.{prefix_asked};

use dbm_args::Form;
use dbm_reports::{Given, ReportFault, bad_words, open, read_prefix};
use dbm_script::Notation;
use sdbm_addr::Bytes;
use sdbm_files::Image;
use std::alloc::Global;

/// Reads the prefix, and then opens the database in the files.
///
/// # Errors
/// `BadHex`, or `BadText` in a text notation, if the prefix is invalid. The errors of `open`.
pub fn open_asked(
    alloc: Global,
    notation: &Notation<Global>,
    given: &Given,
    form: Form,
    prefix: Option<&str>,
) -> Result<(Bytes<Global>, Image<Global>), ReportFault>
    ensures begin { IfOk result (λ asked. prefix_asked notation.now prefix.entry ≡ Some asked.0) }
    ensures image { IfOk result (λ asked. IsOpened form given.now asked.1) }
    ensures fault { IfErr result (IsCaused (listing_causes notation.now form given.now prefix.entry)) }
{
    let Some(begin) = read_prefix(alloc, notation, prefix)? else {
        return Err(bad_words(notation));
    };
    let image = open(alloc, given, form)?;
    Ok((begin, image))
}
