//! The words of a run, except its program.
ghost use Rattle.std.specs.Prelude.{◌≡◌, IfErr, IfOk, Some};
ghost use Rattle.dbm_script.specs.Tasks.{IsWordFault, bad_bytes, run_words_of};
ghost use Rattle.dbm_script.specs.declared.run_words.WordFault.TheVariants.{NoMemory};

use crate::notations::{Notation, read_bytes};
use crate::numbers::read_blank;
use byte_text::read_number;
use sdbm_addr::Bytes;
use std::alloc::{AllocError, Allocator};

/// The meaning of the words of a run, except its program. The run is on the record of the key, or on a blank if the key is missing.
#[derive(Drop)]
pub struct RunWords<A: Allocator> {
    pub key: Bytes<A>,
    pub arg: Bytes<A>,
    pub blank: Option<usize>,
    /// The time that is passed to the program.
    pub now: u64,
}

/// The reason why four words are not the words of a run.
#[derive(Clone, Copy, Debug, PartialEq, Eq)]
pub enum WordFault {
    /// The key or the argument is not valid hex.
    BadHex,
    /// The key or the argument is not valid text.
    BadText,
    /// The key and the argument are valid, but the blank or the time is not.
    BadNumber,
    /// Allocation failed.
    NoMemory,
}

impl From<AllocError> for WordFault {
    ghost from_gives = { λ _ fault. fault ≡ NoMemory };

    fn from(_error: AllocError) -> WordFault {
        WordFault::NoMemory
    }
}

/// Reads four words: a key, an argument, a blank and a time.
///
/// # Errors
/// `BadHex` (in a text notation `BadText`) if the key or the argument is invalid; otherwise `BadNumber` if the blank or the time is
/// invalid; and `NoMemory` if allocation fails.
pub fn read_run_words<A: Allocator + Copy>(
    alloc: A,
    notation: &Notation<A>,
    key: &[u8],
    arg: &[u8],
    blank: &[u8],
    now: &[u8],
) -> Result<RunWords<A>, WordFault>
    ensures words { IfOk result (λ words. run_words_of notation.now key.now arg.now blank.now now.now ≡ Some words) }
    ensures fault { IfErr result (IsWordFault notation.now key.now arg.now blank.now now.now) }
{
    let Some(key) = read_bytes(alloc, notation, key)? else {
        return Err(bad_bytes(notation));
    };
    let Some(arg) = read_bytes(alloc, notation, arg)? else {
        return Err(bad_bytes(notation));
    };
    let Some(blank) = read_blank(blank) else {
        return Err(WordFault::BadNumber);
    };
    let Some(now) = read_number(now, u64::MAX) else {
        return Err(WordFault::BadNumber);
    };
    Ok(RunWords {
        key,
        arg,
        blank,
        now,
    })
}

// Returns the fault for invalid bytes.
fn bad_bytes<A: Allocator>(notation: &Notation<A>) -> WordFault
    ensures { result ≡ bad_bytes notation.now }
{
    if notation.is_hex() {
        return WordFault::BadHex;
    }
    WordFault::BadText
}

/// Like `read_run_words`, but returns `None` if the words are not the words of a run.
///
/// # Errors
/// `AllocError` if allocation fails.
pub(crate) fn words_asked<A: Allocator + Copy>(
    alloc: A,
    notation: &Notation<A>,
    key: &[u8],
    arg: &[u8],
    blank: &[u8],
    now: &[u8],
) -> Result<Option<RunWords<A>>, AllocError>
    ensures { IfOk result (λ words. words ≡ run_words_of notation.now key.now arg.now blank.now now.now) }
{
    match read_run_words(alloc, notation, key, arg, blank, now) {
        Ok(words) => Ok(Some(words)),
        Err(WordFault::NoMemory) => Err(AllocError),
        Err(WordFault::BadHex) => Ok(None),
        Err(WordFault::BadText) => Ok(None),
        Err(WordFault::BadNumber) => Ok(None),
    }
}
