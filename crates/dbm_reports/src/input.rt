//! Reads standard input.
ghost use Rattle.std.specs.Prelude.{◌≡◌, ◌≤◌, length, IfOk, IfErr, IfSome};
ghost use Rattle.dbm_reports.specs.Causes.{IsCaused, input_causes};

use crate::fault::ReportFault;
use dbm_script::{ScriptFault, read_all};
use std::alloc::Global;
use std::io::Read;

/// Reads all of standard input, at most 16,777,216 bytes.
///
/// # Errors
/// `Read` if reading fails or is interrupted, `TooLong` if there are more bytes, and `NoMemory` if allocation fails. On error, the bytes
/// read so far are lost.
pub fn read_input<R: Read>(alloc: Global, reader: &mut R) -> Result<Vec<u8>, ReportFault>
    ensures ok { IfOk result (λ all. IfSome (R.remaining reader.old) (λ input. all.items ≡ input)) }
    ensures short { IfOk result (λ all. length all.items ≤ 16777216) }
    ensures fault { IfErr result (IsCaused (input_causes (R.remaining reader.old))) }
{
    match read_all(alloc, reader) {
        Ok(all) => Ok(all),
        Err(ScriptFault::Read) => Err(ReportFault::Read),
        Err(ScriptFault::TooLong) => Err(ReportFault::TooLong),
        Err(ScriptFault::NoMemory) => Err(ReportFault::NoMemory),
        Err(ScriptFault::Write) => unreachable!(),
    }
}
