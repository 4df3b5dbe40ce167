// Bytes of the data files, and the old bytes in a plan.
ghost use Rattle.std.specs.Prelude.{◌≡◌, ◌≤◌, ◌+◌, length, get_or};
ghost use Rattle.sdbm_saves.specs.Redo.{size_of, was_of, span_of};

use crate::plan::number;

/// Returns the byte of a file at this offset, or zero past the end of the file.
pub fn byte_at(file: &[u8], at: usize) -> u8
    ensures { result ≡ get_or file.now at 0 }
{
    if at < file.len() { file[at] } else { 0 }
}

/// Returns the old bytes of the first change in `change`.
pub fn was_of(change: &[u8]) -> &[u8]
    requires { span_of change.now ≤ length change.now }
    ensures is { result.now ≡ was_of change.now }
    ensures long { length result.now ≡ size_of change.now }
{
    let size = number(change, 5);
    &change[9 + size..9 + (size + size)]
}

/// The bytes of both data files of a database.
#[derive(Clone, Copy)]
pub struct Contents<'a> {
    /// The bytes of `.pag`.
    pub pages: &'a [u8],
    /// The bytes of `.dir`.
    pub directory: &'a [u8],
}
