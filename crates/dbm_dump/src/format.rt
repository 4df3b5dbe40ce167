//! The formats of dumps, and their names.
ghost use Rattle.std.specs.Prelude.{◌≡◌};
ghost use Rattle.dbm_dump.specs.Formats.{format_of, named, start_in, start_of};

use crate::stage::{Role, Stage};

/// The format of a dump.
#[derive(Clone, Copy, Debug, PartialEq, Eq)]
pub enum Format {
    /// `text`, our own format: a header, a line for each pair in hex, and a last line that marks the dump as complete.
    Plain,
    /// `gdbm`: the ASCII format of `gdbm_dump` and `gdbm_load`.
    Gdbm,
    /// `redis`: a SET command for each pair, for `redis-cli --pipe`. It can be written but not read.
    Redis,
}

/// Returns the format to write, by default our own. Returns `None` if the name is unknown.
pub fn format_of(name: Option<&str>) -> Option<Format>
    ensures { result ≡ format_of name.entry }
{
    match name {
        None => Some(Format::Plain),
        Some(name) => named(name.as_bytes()),
    }
}

/// Returns the first stage of reading a dump, by the name of its format. Without a name, the first line determines the format. Returns
/// `None` if the format is unknown or cannot be read.
pub fn start_of(name: Option<&str>) -> Option<Stage>
    ensures { result ≡ start_of name.entry }
{
    match name {
        None => Some(Stage::First),
        Some(name) => start_in(named(name.as_bytes())),
    }
}

// Returns the first stage of reading a format, or `None` if the format cannot be read.
fn start_in(format: Option<Format>) -> Option<Stage>
    ensures { result ≡ start_in format }
{
    match format {
        Some(Format::Plain) => Some(Stage::Title),
        Some(Format::Gdbm) => {
            Some(Stage::Between {
                seen: 0,
                role: Role::Key,
            })
        }
        Some(Format::Redis) | None => None,
    }
}

// Returns the format with this name.
fn named(name: &[u8]) -> Option<Format>
    ensures { result ≡ named name.now }
{
    if name == b"text".as_slice() {
        return Some(Format::Plain);
    }
    if name == b"gdbm".as_slice() {
        return Some(Format::Gdbm);
    }
    if name == b"redis".as_slice() {
        return Some(Format::Redis);
    }
    None
}
