//! Reads commands from the words of a line or of a command line.
ghost use Rattle.std.specs.Prelude.{◌≡◌, ◌∷◌, map, IfOk};
ghost use Rattle.dbm_script.specs.Commands.{fetch_of, delete_of, store_of, command_of_words};
ghost use Rattle.dbm_script.specs.Notation.{bytes_of_word};

use crate::notations::{Notation, read_bytes};
use sdbm_addr::Mode;
use std::alloc::{AllocError, Allocator};
use store_cmd::Command;

/// Reads a command from its name and its arguments. Returns `None` if the words are not a command.
///
/// # Errors
/// `AllocError` if allocation fails.
pub fn read_command<A: Allocator + Copy>(
    alloc: A,
    notation: &Notation<A>,
    name: &[u8],
    args: &[&[u8]],
) -> Result<Option<Command<A>>, AllocError>
    ensures { IfOk result (λ command. command ≡ command_of_words notation.now (name.now ∷ map (λ x. x.now) args.now)) }
{
    match args {
        [] => {
            if name == b"count".as_slice() {
                Ok(Some(Command::Count))
            } else {
                Ok(None)
            }
        }
        [key] => {
            if name == b"fetch".as_slice() {
                read_fetch(alloc, notation, key)
            } else if name == b"delete".as_slice() {
                read_delete(alloc, notation, key)
            } else {
                Ok(None)
            }
        }
        [key, value] => {
            if name == b"insert".as_slice() {
                read_store(alloc, notation, key, value, Mode::Insert)
            } else if name == b"replace".as_slice() {
                read_store(alloc, notation, key, value, Mode::Replace)
            } else {
                Ok(None)
            }
        }
        _ => Ok(None),
    }
}

fn read_fetch<A: Allocator + Copy>(
    alloc: A,
    notation: &Notation<A>,
    key: &[u8],
) -> Result<Option<Command<A>>, AllocError>
    ensures { IfOk result (λ command. command ≡ fetch_of (bytes_of_word notation.now key.now)) }
{
    match read_bytes(alloc, notation, key)? {
        Some(key) => Ok(Some(Command::Fetch { key })),
        None => Ok(None),
    }
}

fn read_delete<A: Allocator + Copy>(
    alloc: A,
    notation: &Notation<A>,
    key: &[u8],
) -> Result<Option<Command<A>>, AllocError>
    ensures { IfOk result (λ command. command ≡ delete_of (bytes_of_word notation.now key.now)) }
{
    match read_bytes(alloc, notation, key)? {
        Some(key) => Ok(Some(Command::Delete { key })),
        None => Ok(None),
    }
}

fn read_store<A: Allocator + Copy>(
    alloc: A,
    notation: &Notation<A>,
    key: &[u8],
    value: &[u8],
    mode: Mode,
) -> Result<Option<Command<A>>, AllocError>
    ensures { IfOk result (λ command. command ≡ store_of (bytes_of_word notation.now key.now) (bytes_of_word notation.now value.now) mode) }
{
    let Some(key) = read_bytes(alloc, notation, key)? else {
        return Ok(None);
    };
    let Some(value) = read_bytes(alloc, notation, value)? else {
        return Ok(None);
    };
    Ok(Some(Command::Store { key, value, mode }))
}
