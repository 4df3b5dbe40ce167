//! Changes the key of a pair.
ghost use Rattle.std.specs.Prelude.{◌≡◌, IfOk, IfErr, None, Some, true};
ghost use Rattle.dbm_records.specs.Rename.{RenamesBy, Renames, StoresAnew, is_stored, is_store_command};

use crate::command::value_of;
use dbm_reports::{Notes, Report, answer_status, shown};
use dbm_script::{Answer, Notation, answer_command};
use sdbm_addr::{Bytes, Mode};
use sdbm_files::Image;
use std::alloc::{AllocError, Global};
use store_cmd::{Command, Reply};

/// Changes the key of a pair. `keys` is a store command whose value is the new key.
///
/// # Errors
/// `AllocError` if allocation fails.
pub fn rename(
    alloc: Global,
    notation: &Notation<Global>,
    image: Image<Global>,
    keys: Command<Global>,
) -> Result<Report, AllocError>
    requires { is_store_command keys ≡ true }
    ensures { IfOk result (RenamesBy notation.now image keys) }
{
    let Command::Store { key, value, mode } = keys else {
        unreachable!()
    };
    let mut image = image;
    let (text, status) = rename_pair(alloc, notation, &mut image, key, value, mode)?;
    Ok(Report {
        text,
        status,
        database: Some(image),
        notes: Notes::none(),
    })
}

// Changes the key of a pair. Returns the line to print, and the status.
fn rename_pair(
    alloc: Global,
    notation: &Notation<Global>,
    image: &mut Image<Global>,
    key: Bytes<Global>,
    new: Bytes<Global>,
    mode: Mode,
) -> Result<(Vec<u8>, u8), AllocError>
    ensures { IfOk result (λ r. Renames notation.now image.old key new mode image.new r.0.items r.1) }
{
    let copy = key.try_clone(alloc)?;
    let answer = answer_command(alloc, image, Command::Fetch { key: copy })?;
    match value_of(answer) {
        Ok(value) => store_anew(alloc, notation, image, key, new, value, mode),
        Err(answer) => Ok((shown(alloc, notation, &answer)?, answer_status(&answer))),
    }
}

// Stores a value under the new key, and then deletes the old key if it is different.
fn store_anew(
    alloc: Global,
    notation: &Notation<Global>,
    image: &mut Image<Global>,
    key: Bytes<Global>,
    new: Bytes<Global>,
    value: Bytes<Global>,
    mode: Mode,
) -> Result<(Vec<u8>, u8), AllocError>
    ensures { IfOk result (λ r. StoresAnew notation.now image.old key new value mode image.new r.0.items r.1) }
{
    let is_same = key == new;
    let store = Command::Store {
        key: new,
        value,
        mode,
    };
    let answer = answer_command(alloc, image, store)?;
    if !is_stored(&answer) {
        return Ok((shown(alloc, notation, &answer)?, answer_status(&answer)));
    }
    let text = b"renamed\n".as_slice().to_vec(alloc)?;
    if is_same {
        return Ok((text, 0));
    }
    let _gone = answer_command(alloc, image, Command::Delete { key })?;
    Ok((text, 0))
}

// Returns `true` if an answer says that a pair was stored.
fn is_stored(answer: &Answer<Global>) -> bool
    ensures { result ≡ is_stored answer.now }
{
    match answer {
        Answer::Replied(entry) => matches!(entry.reply, Reply::Stored),
        Answer::Refused(_) => false,
    }
}
