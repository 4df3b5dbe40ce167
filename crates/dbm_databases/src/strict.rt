//! Checks the lines of a strict script.
ghost use Rattle.std.specs.Prelude.{◌≡◌, IfOk};
ghost use Rattle.dbm_databases.specs.Playing.{has_bad_line, is_bad_line};

use dbm_script::{BadLines, LineCount, Notation, first_piece, read_line};
use std::alloc::{AllocError, Global};

/// Returns `true` if a line of a script is neither empty nor a request.
///
/// # Errors
/// `AllocError` if allocation fails.
pub fn has_bad_line(
    alloc: Global,
    notation: &Notation<Global>,
    script: &[u8],
) -> Result<bool, AllocError>
    ensures { IfOk result (λ bad. bad ≡ has_bad_line notation.now script.now) }
{
    let mut rest = Some(script);
    while let Some(left) = rest {
        let (line, after) = first_piece(b'\n', left);
        let bad = is_bad_line(alloc, notation, line)?;
        if bad {
            return Ok(true);
        }
        rest = after;
    }
    Ok(false)
}

/// Finds the bad lines of a script, for a note. No clause describes the result.
///
/// # Errors
/// `AllocError` if allocation fails.
pub fn find_bad_lines(
    alloc: Global,
    notation: &Notation<Global>,
    script: &[u8],
) -> Result<BadLines, AllocError> {
    let mut counted = LineCount::new();
    for line in script.split(|byte| *byte == b'\n') {
        counted.add(!is_bad_line(alloc, notation, line)?);
    }
    Ok(counted.bad_lines())
}

// Returns `true` if a line is neither empty nor a request.
fn is_bad_line(alloc: Global, notation: &Notation<Global>, line: &[u8]) -> Result<bool, AllocError>
    ensures { IfOk result (λ bad. bad ≡ is_bad_line notation.now line.now) }
{
    if line.is_empty() {
        return Ok(false);
    }
    Ok(read_line(alloc, notation, line)?.is_none())
}
