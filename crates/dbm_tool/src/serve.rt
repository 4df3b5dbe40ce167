//! Serves a request on the bytes of its files, standard input and standard output.
ghost use Rattle.std.specs.Prelude.{◌≡◌, false, IfOk, IfErr, is_some};
ghost use Rattle.dbm_command_line.specs.Wishes.{writes_files};
ghost use Rattle.dbm_tool.specs.Outcomes.{IsRequestServed, IsRequestUnserved};
ghost use Rattle.dbm_tool.specs.Services.{reads_input};

use crate::dispatch::serve_wish;
use dbm_command_line::Wish;
use dbm_messages::ServeFault;
use dbm_reports::{Given, Outcome};
use std::alloc::Global;
use std::io::{Read, Write};
use std::sync::Wait;
use std::thread::Threads;

/// Serves a request: reads its arguments, opens the database, reads standard input if the request needs it, executes the request, and
/// writes the text of the result. The outcome has a database if and only if the request saves one (`Head::writes`).
///
/// # Errors
/// The first fault in this order. Faults that `ReportFault` names are inside `Report`.
/// - `BadLayout` if the layout of values is invalid. For a dump or a load, `BadFormat` of `Dump` if the format is unknown.
/// - `BadHex` (in a text notation `BadText`) if an argument is not valid bytes, and `BadNumber` if a number is invalid.
/// - `Open` if the files cannot be opened.
/// - `NotText` or `Assemble` if the program's file is not the text of a program. For `disasm`, `Decode` if the file is not the image of a
///   program. For a batch, `Submit` if the program is refused.
/// - `Read` if standard input could not be read, and `TooLong` if it has more than 16,777,216 bytes. For a load, `Dump` with the fault of
///   the dump.
/// - For a script, `OutputTooLong` if the answers are longer than `--max-output` allows.
/// - For a batch, `BadLine` with the first line that is not a task, `Pool` if not all tasks were done, and `Close` if the store does not
///   close.
/// - `Write` if only a prefix of the text was written, and `FileTooLong`, after the whole text was written, if `.pag` would exceed
///   `PAG_LIMIT`. On any other fault nothing was written.
///
/// `NoMemory` may occur at any step before the text is written. No other fault contains `NoMemory`, except that of a task.
pub fn serve<T: Threads + Wait + Sync, R: Read, W: Write>(
    rt: &T,
    alloc: Global,
    wish: Wish<'_>,
    given: &Given,
    reader: &mut R,
    writer: &mut W,
) -> Result<Outcome, ServeFault>
    ensures served { IfOk result (λ outcome. IsRequestServed wish.entry given.now (R.remaining reader.old) (W.contents writer.old) (W.contents writer.new) outcome.status outcome.database) }
    ensures fault { IfErr result (IsRequestUnserved wish.entry given.now (R.remaining reader.old) (W.contents writer.old) (W.contents writer.new)) }
    ensures unread { reads_input wish.entry ≡ false → R.remaining reader.new ≡ R.remaining reader.old }
    ensures database { IfOk result (λ outcome. is_some outcome.database ≡ writes_files wish.entry) }
{
    serve_wish(rt, alloc, wish, given, reader, writer)
}
