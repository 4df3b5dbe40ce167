//! Reads the blank of a run.
ghost use Rattle.std.specs.Prelude.{◌≡◌};
ghost use Rattle.dbm_script.specs.Numbers.{blank_of};

use byte_text::read_number;

/// The largest blank, in bytes.
const BLANK_MOST: u64 = 65_535;

/// Reads the blank of a run: the number of zero bytes with which the record of a missing key begins, or a dot if the program must not run
/// on a missing key. Returns `None` if the word is invalid. Allocates nothing.
pub fn read_blank(text: &[u8]) -> Option<Option<usize>>
    ensures { result ≡ blank_of text.now }
{
    if text == b".".as_slice() {
        return Some(None);
    }
    match read_number(text, BLANK_MOST) {
        Some(len) => Some(Some(len as usize)),
        None => None,
    }
}
