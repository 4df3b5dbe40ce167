//! Writes the rows of a listing through a buffer of limited size.
ghost use Rattle.std.specs.Prelude.{◌≡◌, ◌+◌, ◌<◌, ◌^◌, [], None, cond, false, length, IfOk, IfErr, IsSomeAnd, OnOk, OnErr};
ghost use Rattle.std.specs.Io.KnownBytes.{Appends, Keeps};
ghost use Rattle.sdbm_files.specs.Lent.{pairs_lent};
ghost use Rattle.dbm_reports.specs.Causes.{IsCaused};
ghost use Rattle.dbm_reports.specs.Reports.{OnDatabase, Prints};
ghost use Rattle.dbm_reports.specs.Served.{IsPrinted, IsUnserved};
ghost use Rattle.dbm_databases.specs.Listings.{Lists, listing_causes};
ghost use Rattle.dbm_databases.specs.Rows.{rows};
ghost use Rattle.dbm_reports.specs.Words.{prefix_asked};
ghost use Rattle.byte_text.specs.Writing.{WritesPart};
ghost use Rattle.dbm_databases.specs.Streams.{IsSplit};

use crate::chosen::open_asked;
use crate::rows::{Listing, show_chosen};
use byte_text::{CutShort, write_all};
use dbm_args::Form;
use dbm_reports::{Given, Notes, Outcome, ReportFault, Unserved};
use dbm_script::Notation;
use sdbm_files::Image;
use std::alloc::{AllocError, Global};
use std::io::Write;

// The initial capacity of the buffer for rows, in bytes.
const ROOM: usize = 131_072;

// The buffer is written once it has at least this many bytes.
const FULL: usize = 65_536;

// The length of a text in bytes is below this limit.
const TEXT_LIMIT: usize = 0x8000_0000_0000_0000;

/// Serves a listing: reads the prefix, opens the database, and writes a row for each pair whose key begins with the prefix. The rows are
/// made twice: first to count their bytes, and then to write them.
///
/// # Errors
/// `Unreported` with the fault if nothing was written: a fault of `open_asked`, or `NoMemory` if allocation fails or the rows have 2^63 or
/// more bytes. `Write` if the writer fails, or if allocation fails after some rows were written.
pub fn serve_rows<W: Write>(
    alloc: Global,
    notation: &Notation<Global>,
    given: &Given,
    form: Form,
    prefix: Option<&str>,
    listing: Listing,
    writer: &mut W,
) -> Result<Outcome, Unserved<ReportFault>>
    ensures ok { IfOk result (λ served. IsPrinted (λ report. IsSomeAnd (prefix_asked notation.now prefix.entry) (λ begin. OnDatabase form given.now (Lists notation.now listing begin report))) (W.contents writer.old) (W.contents writer.new) served.status served.database) }
    ensures fault { IfErr result (IsUnserved (λ report. IsSomeAnd (prefix_asked notation.now prefix.entry) (λ begin. OnDatabase form given.now (Lists notation.now listing begin report))) (IsCaused (listing_causes notation.now form given.now prefix.entry)) (W.contents writer.old) (W.contents writer.new)) }
    ensures database { IfOk result (λ served. served.database ≡ None) }
{
    match open_asked(alloc, notation, given, form, prefix) {
        Ok((begin, image)) => {
            let prefix = begin.as_slice();
            print_rows(alloc, notation, &image, listing, prefix, writer)
        }
        Err(fault) => Err(Unserved::Unreported(fault)),
    }
}

// Counts the bytes of the rows of a database, and then writes the rows.
fn print_rows<W: Write>(
    alloc: Global,
    notation: &Notation<Global>,
    image: &Image<Global>,
    listing: Listing,
    prefix: &[u8],
    writer: &mut W,
) -> Result<Outcome, Unserved<ReportFault>>
    ensures ok { IfOk result (λ served. IsPrinted (λ report. Lists notation.now listing prefix.now report image.now) (W.contents writer.old) (W.contents writer.new) served.status served.database) }
    ensures fault { IfErr result (IsUnserved (λ report. Lists notation.now listing prefix.now report image.now) (λ fault. fault ≡ ReportFault.NoMemory) (W.contents writer.old) (W.contents writer.new)) }
    ensures database { IfOk result (λ served. served.database ≡ None) }
{
    let Ok(pairs) = image.lend_pairs() else {
        return Err(Unserved::Unreported(ReportFault::NoMemory));
    };
    let lent = pairs.as_slice();
    let Ok(mut room) = measured_room(alloc, notation, listing, prefix, lent) else {
        return Err(Unserved::Unreported(ReportFault::NoMemory));
    };
    match write_rows(alloc, notation, listing, prefix, lent, &mut room, writer) {
        Ok(()) => Ok(Outcome {
            status: 0,
            database: None,
            notes: Notes::none(),
        }),
        Err(fault) => Err(fault),
    }
}

// Makes all rows once to check that they have fewer than 2^63 bytes. Returns an empty buffer with enough capacity to write the rows.
fn measured_room(
    alloc: Global,
    notation: &Notation<Global>,
    listing: Listing,
    prefix: &[u8],
    pairs: &[(&[u8], &[u8])],
) -> Result<Vec<u8>, AllocError>
    ensures small { IfOk result (λ room. length (rows notation.now listing prefix.now (pairs_lent pairs.now)) < 2 ^ 63) }
    ensures empty { IfOk result (λ room. room.items ≡ []) }
{
    let mut room = Vec::with_capacity(alloc, ROOM)?;
    let mut count = 0;
    for pair in pairs {
        show_chosen(alloc, notation, listing, prefix, pair, &mut room)?;
        count = count_full(count, &mut room)?;
    }
    sum_of(count, room.len())?;
    room.clear();
    Ok(room)
}

// If the buffer is full, adds its length to `count` and clears the buffer. Returns the count.
fn count_full(count: usize, room: &mut Vec<u8>) -> Result<usize, AllocError>
    ensures { IfOk result (λ sum. sum + length room.new.items ≡ count + length room.old.items) }
{
    if room.len() < FULL {
        return Ok(count);
    }
    let sum = sum_of(count, room.len())?;
    room.clear();
    Ok(sum)
}

// Returns the sum of two lengths. Fails if the sum is not below `TEXT_LIMIT`.
fn sum_of(count: usize, more: usize) -> Result<usize, AllocError>
    ensures sum { IfOk result (λ sum. sum ≡ count + more) }
    ensures small { IfOk result (λ sum. sum < 2 ^ 63) }
{
    let Some(sum) = count.checked_add(more) else {
        return Err(AllocError);
    };
    if sum >= TEXT_LIMIT {
        return Err(AllocError);
    }
    Ok(sum)
}

// Makes the rows in the empty buffer `room`, and writes them.
fn write_rows<W: Write>(
    alloc: Global,
    notation: &Notation<Global>,
    listing: Listing,
    prefix: &[u8],
    pairs: &[(&[u8], &[u8])],
    room: &mut Vec<u8>,
    writer: &mut W,
) -> Result<(), Unserved<ReportFault>>
    requires empty { room.old.items ≡ [] }
    requires small { length (rows notation.now listing prefix.now (pairs_lent pairs.now)) < 2 ^ 63 }
    ensures ok { OnOk result (Appends (W.contents writer.old) (W.contents writer.new) (rows notation.now listing prefix.now (pairs_lent pairs.now))) }
    ensures fault { IfErr result (IsUnserved (Prints (rows notation.now listing prefix.now (pairs_lent pairs.now))) (λ fault. fault ≡ ReportFault.NoMemory) (W.contents writer.old) (W.contents writer.new)) }
{
    let mut is_written = false;
    for pair in pairs {
        let Ok(()) = show_chosen(alloc, notation, listing, prefix, pair, room) else {
            return Err(want_of_memory(is_written));
        };
        let Ok(now_written) = write_full(is_written, room, writer) else {
            return Err(Unserved::Write);
        };
        is_written = now_written;
    }
    let Ok(()) = write_all(writer, room.as_slice()) else {
        return Err(Unserved::Write);
    };
    Ok(())
}

// Returns the fault if allocation fails for a row.
fn want_of_memory(is_written: bool) -> Unserved<ReportFault>
    ensures { result ≡ cond is_written Unserved.Write (Unserved.Unreported ReportFault.NoMemory) }
{
    if is_written {
        return Unserved::Write;
    }
    Unserved::Unreported(ReportFault::NoMemory)
}

// If the buffer is full, writes and clears it. Returns `true` if any bytes have been written so far.
fn write_full<W: Write>(
    is_written: bool,
    room: &mut Vec<u8>,
    writer: &mut W,
) -> Result<bool, CutShort>
    ensures ok { OnOk result (IsSplit (W.contents writer.old) (W.contents writer.new) room.new.items room.old.items) }
    ensures kept { IfOk result (λ now. now ≡ false → (is_written ≡ false) × Keeps (W.contents writer.old) (W.contents writer.new)) }
    ensures part { OnErr result (WritesPart (W.contents writer.old) (W.contents writer.new) room.old.items) }
{
    if room.len() < FULL {
        return Ok(is_written);
    }
    write_all(writer, room.as_slice())?;
    room.clear();
    Ok(true)
}
