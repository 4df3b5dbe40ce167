//! Reads a reader to its end.
ghost use Rattle.std.specs.Prelude.{◌≡◌, ◌<◌, ◌≤◌, length, IfOk, IfErr, IfSome, IsErrOf};

use crate::fault::ScriptFault;
use std::alloc::Allocator;
use std::io::Read;

/// The largest script, in bytes.
pub const SCRIPT_LIMIT: usize = 16_777_216;

/// Reads all remaining bytes of a reader. Fails with `Read` if a read fails or is interrupted, with `TooLong` if there are more than
/// `SCRIPT_LIMIT` bytes, and with `NoMemory` if allocation fails.
pub fn read_all<A: Allocator + Copy, R: Read>(
    alloc: A,
    reader: &mut R,
) -> Result<Vec<u8, A>, ScriptFault>
    ensures all { IfOk result (λ all. IfSome (R.remaining reader.old) (λ input. all.items ≡ input)) }
    ensures short { IfOk result (λ all. length all.items ≤ SCRIPT_LIMIT) }
    ensures fault { IfErr result (λ fault. fault ≡ ScriptFault.Write → ⊥) }
    ensures long { IsErrOf result ScriptFault.TooLong → IfSome (R.remaining reader.old) (λ input. SCRIPT_LIMIT < length input) }
{
    let mut all = Vec::new(alloc);
    let mut buffer = [0; 8192];
    loop {
        let Ok(count) = reader.read(&mut buffer) else {
            return Err(ScriptFault::Read);
        };
        if count == 0 {
            return Ok(all);
        }
        if count > SCRIPT_LIMIT - all.len() {
            return Err(ScriptFault::TooLong);
        }
        let Ok(()) = all.extend_from_slice(&buffer[..count]) else {
            return Err(ScriptFault::NoMemory);
        };
    }
}
