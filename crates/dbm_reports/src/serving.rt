//! Serves a subcommand: makes its report, then writes the text of the report.
ghost use Rattle.std.specs.Prelude.{◌≡◌, false, IfOk, IfErr, OnOk, IsErrAnd, OnErr, Some, is_some};
ghost use Rattle.sdbm_addr.specs.Database.{Database, IsDatabase};
ghost use Rattle.dbm_reports.specs.Databases.{IsPagTooLong, MayBeWritten};
ghost use Rattle.dbm_reports.specs.Served.{IsPrinted, IsUnserved};

use crate::databases::{Given, is_too_long};
use crate::notes::Notes;
use crate::report::Report;
use crate::subcommand::Subcommand;
use byte_text::write_all;
use dbm_script::Notation;
use sdbm_files::Image;
use std::alloc::Global;
use std::io::{Read, Write};

/// The outcome of a subcommand after its text was written: the status, the database to save, if any, and the notes.
#[derive(Drop)]
pub struct Outcome {
    pub status: u8,
    pub database: Option<Image<Global>>,
    pub notes: Notes,
}

/// The reason why serving a subcommand failed.
#[derive(Drop)]
pub enum Unserved<F: Drop> {
    /// The report failed, and nothing was written.
    Unreported(F),
    /// Writing the text failed.
    Write,
    /// The whole text was written, but `.pag` would be longer than `PAG_LIMIT`.
    TooLong,
}

/// Serves a subcommand: makes its report, then writes the text of the report.
///
/// # Errors
/// `Unreported` with the fault of `report`, before anything is written; `Write` if the writer fails, after a prefix of the text was
/// written; and `TooLong`, after the whole text was written, if `.pag` would be longer than `PAG_LIMIT`.
pub fn serve<S: Subcommand, R: Read, W: Write>(
    alloc: Global,
    notation: &Notation<Global>,
    subcommand: &S,
    given: &Given,
    reader: &mut R,
    writer: &mut W,
) -> Result<Outcome, Unserved<S::Fault>>
    ensures ok { IfOk result (λ outcome. IsPrinted (S.reports subcommand.now notation.now given.now (R.remaining reader.old)) (W.contents writer.old) (W.contents writer.new) outcome.status outcome.database) }
    ensures fault { IfErr result (IsUnserved (S.reports subcommand.now notation.now given.now (R.remaining reader.old)) (S.causes subcommand.now notation.now given.now (R.remaining reader.old)) (W.contents writer.old) (W.contents writer.new)) }
    ensures database { IfOk result (λ outcome. is_some outcome.database ≡ S.writes subcommand.now) }
    ensures unread { S.reads subcommand.now ≡ false → R.remaining reader.new ≡ R.remaining reader.old }
{
    match subcommand.report(alloc, notation, given, reader) {
        Ok(report) => write_report(report, writer),
        Err(fault) => Err(Unserved::Unreported(fault)),
    }
}

/// Writes the text of a report.
///
/// # Errors
/// `Write` if the writer fails, after a prefix of the text was written; and `TooLong`, after the whole text was written, if `.pag` would be
/// longer than `PAG_LIMIT`.
pub fn write_report<F: Drop, W: Write>(
    report: Report,
    writer: &mut W,
) -> Result<Outcome, Unserved<F>>
    ensures ok { IfOk result (λ outcome. IsPrinted (λ told. told ≡ report) (W.contents writer.old) (W.contents writer.new) outcome.status outcome.database) }
    ensures fault { IfErr result (IsUnserved (λ told. told ≡ report) (λ fault. ⊥) (W.contents writer.old) (W.contents writer.new)) }
    ensures database { IfOk result (λ outcome. outcome.database ≡ report.database) }
    ensures notes { IfOk result (λ outcome. outcome.notes ≡ report.notes) }
{
    let Ok(()) = write_all(writer, report.text.as_slice()) else {
        return Err(Unserved::Write);
    };
    let Ok(()) = check_length(&report.database) else {
        return Err(Unserved::TooLong);
    };
    Ok(Outcome {
        status: report.status,
        database: report.database,
        notes: report.notes,
    })
}

// Fails if the database to save is too large.
fn check_length(database: &Option<Image<Global>>) -> Result<(), ()>
    ensures ok { OnOk result (MayBeWritten database.now) }
    ensures long { OnErr result ((db : Database) × ((database.now ≡ Some db) × (IsDatabase db × IsPagTooLong db))) }
{
    match database {
        Some(image) => {
            if is_too_long(image) {
                return Err(());
            }
            Ok(())
        }
        None => Ok(()),
    }
}
