//! Raw words and prefixes.
ghost use Rattle.std.specs.Prelude.{◌≡◌, IfOk};
ghost use Rattle.dbm_reports.specs.Words.{prefix_asked, word_asked};

use dbm_script::{Notation, read_bytes, show_bytes};
use sdbm_addr::Bytes;
use std::alloc::{AllocError, Global};

/// Returns an argument as a word of the notation: the argument itself, or if `raw` is true the text of its bytes.
///
/// # Errors
/// `AllocError` if allocation fails.
pub fn word_asked(
    alloc: Global,
    notation: &Notation<Global>,
    word: &str,
    raw: bool,
) -> Result<Vec<u8>, AllocError>
    ensures { IfOk result (λ text. text.items ≡ word_asked raw notation.now word.now) }
{
    if !raw {
        return word.as_bytes().to_vec(alloc);
    }
    let mut text = Vec::new(alloc);
    show_bytes(notation, word.as_bytes(), &mut text)?;
    Ok(text)
}

/// Reads a prefix. Without the option, the prefix is empty. Returns `None` if the word is invalid in the notation.
///
/// # Errors
/// `AllocError` if allocation fails.
pub fn read_prefix(
    alloc: Global,
    notation: &Notation<Global>,
    prefix: Option<&str>,
) -> Result<Option<Bytes<Global>>, AllocError>
    ensures { IfOk result (λ begin. begin ≡ prefix_asked notation.now prefix.entry) }
{
    match prefix {
        None => Ok(Some(Bytes::new(Vec::new(alloc)))),
        Some(word) => read_bytes(alloc, notation, word.as_bytes()),
    }
}
