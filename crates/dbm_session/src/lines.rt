//! The kinds of lines in a session.
ghost use Rattle.std.specs.Prelude.{◌≡◌};
ghost use Rattle.dbm_session.specs.Sessions.{asks_change, begins_change, is_own, is_save};

/// The answer to a line that is not a request.
const BAD_LINE: &[u8] = b"bad line\n";

/// Returns `true` if a line requests a save.
pub fn is_save(line: &[u8]) -> bool
    ensures { result ≡ is_save line.now }
{
    line == b"save".as_slice()
}

/// Returns `true` if a line is for the host: it is not part of the script language.
pub fn is_own(line: &[u8]) -> bool
    ensures { result ≡ is_own line.now }
{
    line == b"help".as_slice() || line.starts_with(b".")
}

/// Returns `true` if a script line with this answer requests a change: a store, a delete, a run or an addition, even if it is refused.
/// A bad line requests nothing.
pub fn asks_change(line: &[u8], answer: &[u8]) -> bool
    ensures { result ≡ asks_change line.now answer.now }
{
    begins_change(line) && answer != BAD_LINE
}

fn begins_change(line: &[u8]) -> bool
    ensures { result ≡ begins_change line.now }
{
    line.starts_with(b"replace ")
        || line.starts_with(b"put ")
        || line.starts_with(b"insert ")
        || line.starts_with(b"delete ")
        || line.starts_with(b"del ")
        || line.starts_with(b"run ")
        || line.starts_with(b"incr ")
}
