//! Commands and replies that own no memory.

use crate::values::{Value, bytes_of, is_value, value_of};
use sdbm_addr::{Bytes, Mode};
use std::alloc::{AllocError, Global};
use store_cmd::{Command, Program, Reply, SharedCommand};

/// The keys, sorted by their bytes, and their hashes. The hashes of `0000` and `0808` differ first in the tenth bit. Those of
/// `003f` and `3f` are equal, and that of `0100` differs from them first in the 17th.
pub const KEYS: [(&[u8], u32); 8] = [
    (b"\x00\x00", 0),
    (b"\x00\x3f", 63),
    (b"\x01\x00", 65599),
    (b"\x08\x08", 524800),
    (b"\x3f", 63),
    (b"\x61", 97),
    (b"\x62", 98),
    (b"\x63", 99),
];

/// A run on a key. The program is given by its index.
#[derive(Clone, Copy, Debug)]
pub struct Run {
    pub key: usize,
    pub program: usize,
    pub arg: Value,
    pub blank: Option<usize>,
    pub now: u64,
}

/// A command on a key. The key is given by its index in `KEYS`.
#[derive(Clone, Copy, Debug)]
pub enum Ask {
    Fetch(usize),
    Insert(usize, Value),
    Replace(usize, Value),
    Delete(usize),
    Run(Run),
    Count,
}

/// A reply.
#[derive(Clone, Copy, Debug, PartialEq, Eq)]
pub enum Told {
    Found(Value),
    Missing,
    Stored,
    Exists,
    Crowded,
    Deleted,
    /// A program's exit number and its reply word.
    Ran(u64, u64),
    Count(usize),
    /// A value whose bytes after the first eight are not all the same.
    Wrong,
}

/// A key's bytes.
pub fn key_of(key: usize) -> &'static [u8] {
    match KEYS.get(key) {
        Some((bytes, _)) => bytes,
        None => b"",
    }
}

fn key_bytes(alloc: Global, key: usize) -> Result<Bytes<Global>, AllocError> {
    Bytes::from_slice(alloc, key_of(key))
}

fn store(
    alloc: Global,
    key: usize,
    value: Value,
    mode: Mode,
) -> Result<Command<Global>, AllocError> {
    Ok(Command::Store {
        key: key_bytes(alloc, key)?,
        value: Bytes::new(bytes_of(alloc, value)?),
        mode,
    })
}

fn make_run(
    alloc: Global,
    programs: &[Program<Global>],
    run: Run,
) -> Result<Command<Global>, AllocError> {
    let Some(prog) = programs.get(run.program) else {
        return Err(AllocError);
    };
    Ok(Command::Run {
        key: key_bytes(alloc, run.key)?,
        prog: prog.try_clone()?,
        arg: Bytes::new(bytes_of(alloc, run.arg)?),
        blank: run.blank,
        now: run.now,
    })
}

fn command_of(
    alloc: Global,
    programs: &[Program<Global>],
    ask: Ask,
) -> Result<Command<Global>, AllocError> {
    match ask {
        Ask::Fetch(key) => Ok(Command::Fetch {
            key: key_bytes(alloc, key)?,
        }),
        Ask::Insert(key, value) => store(alloc, key, value, Mode::Insert),
        Ask::Replace(key, value) => store(alloc, key, value, Mode::Replace),
        Ask::Delete(key) => Ok(Command::Delete {
            key: key_bytes(alloc, key)?,
        }),
        Ask::Run(run) => make_run(alloc, programs, run),
        Ask::Count => Ok(Command::Count),
    }
}

/// Makes the shared command.
pub fn shared_of(
    alloc: Global,
    programs: &[Program<Global>],
    ask: Ask,
) -> Result<SharedCommand<Global>, AllocError> {
    match SharedCommand::new(alloc, command_of(alloc, programs, ask)?) {
        Ok(command) => Ok(command),
        Err(_) => Err(AllocError),
    }
}

/// Converts a reply to one that owns no memory.
pub fn said_by(reply: &Reply<Global>) -> Told {
    match reply {
        Reply::Found(value) => match value_of(value.as_slice()) {
            Some(value) => Told::Found(value),
            None => Told::Wrong,
        },
        Reply::Missing => Told::Missing,
        Reply::Stored => Told::Stored,
        Reply::Exists => Told::Exists,
        Reply::Crowded => Told::Crowded,
        Reply::Deleted => Told::Deleted,
        Reply::Ran { code, word } => Told::Ran(*code, *word),
        Reply::Count(count) => Told::Count(*count),
    }
}

// Returns `true` if a command is this run.
fn is_run(command: &Command<Global>, programs: &[Program<Global>], run: Run) -> bool {
    let Command::Run {
        key,
        prog,
        arg,
        blank,
        now,
    } = command
    else {
        return false;
    };
    let Some(own) = programs.get(run.program) else {
        return false;
    };
    key.as_slice() == key_of(run.key)
        && prog.equals(own)
        && is_value(arg.as_slice(), run.arg)
        && *blank == run.blank
        && *now == run.now
}

/// Returns `true` if a command is that of `ask`.
pub fn is_asked(command: &Command<Global>, programs: &[Program<Global>], ask: Ask) -> bool {
    if let Ask::Run(run) = ask {
        return is_run(command, programs, run);
    }
    match (command, ask) {
        (Command::Fetch { key }, Ask::Fetch(own)) => key.as_slice() == key_of(own),
        (Command::Delete { key }, Ask::Delete(own)) => key.as_slice() == key_of(own),
        (Command::Store { key, value, mode }, Ask::Insert(own, given)) => {
            key.as_slice() == key_of(own)
                && is_value(value.as_slice(), given)
                && *mode == Mode::Insert
        }
        (Command::Store { key, value, mode }, Ask::Replace(own, given)) => {
            key.as_slice() == key_of(own)
                && is_value(value.as_slice(), given)
                && *mode == Mode::Replace
        }
        (Command::Count, Ask::Count) => true,
        _ => false,
    }
}
