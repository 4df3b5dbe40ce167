//! Commands and replies in words.

use crate::bytes::{read_bytes, show_bytes};
use bpf_insn::{decode, encode};
use bpf_verify::verify;
use sdbm_addr::{Bytes, Mode};
use std::alloc::{AllocError, Allocator, Global};
use std::fmt::Write;
use std::sync::Arc;
use store_cmd::{Command, Program, Reply};

fn read_key<A: Allocator + Copy>(alloc: A, word: &str) -> Option<Bytes<A>> {
    Some(Bytes::new(read_bytes(alloc, word)?))
}

fn read_store<A: Allocator + Copy>(alloc: A, words: &str, mode: Mode) -> Option<Command<A>> {
    let (key, value) = words.split_once(' ')?;
    Some(Command::Store {
        key: read_key(alloc, key)?,
        value: read_key(alloc, value)?,
        mode,
    })
}

// The accepted program of an image in hex.
fn read_program<A: Allocator + Copy>(alloc: A, word: &str) -> Option<Program<A>> {
    let image = read_bytes(alloc, word)?;
    let code = decode(alloc, image.as_slice()).ok()?;
    let accepted = verify(alloc, code).ok()?;
    Some(Program::new(Arc::new(alloc, accepted).ok()?))
}

// Reads the length of a blank, or `.` for no blank.
fn read_blank(word: &str) -> Option<Option<usize>> {
    if word == "." {
        return Some(None);
    }
    Some(Some(word.parse::<usize>().ok()?))
}

fn read_run<A: Allocator + Copy>(alloc: A, words: &str) -> Option<Command<A>> {
    let (key, rest) = words.split_once(' ')?;
    let (image, rest) = rest.split_once(' ')?;
    let (arg, rest) = rest.split_once(' ')?;
    let (blank, now) = rest.split_once(' ')?;
    Some(Command::Run {
        key: read_key(alloc, key)?,
        prog: read_program(alloc, image)?,
        arg: read_key(alloc, arg)?,
        blank: read_blank(blank)?,
        now: now.parse::<u64>().ok()?,
    })
}

/// Reads a command: `fetch KEY`, `insert KEY VALUE`, `replace KEY VALUE`, `delete KEY`, `run KEY IMAGE ARG BLANK NOW` or
/// `count`. The image has to be that of an accepted program; `.` means no blank.
pub fn read_command<A: Allocator + Copy>(alloc: A, words: &str) -> Option<Command<A>> {
    let (name, rest) = words.split_once(' ').unwrap_or((words, ""));
    match name {
        "fetch" => Some(Command::Fetch {
            key: read_key(alloc, rest)?,
        }),
        "insert" => read_store(alloc, rest, Mode::Insert),
        "replace" => read_store(alloc, rest, Mode::Replace),
        "delete" => Some(Command::Delete {
            key: read_key(alloc, rest)?,
        }),
        "run" => read_run(alloc, rest),
        "count" => Some(Command::Count),
        _ => None,
    }
}

fn show_program<A: Allocator>(
    global: Global,
    out: &mut String,
    prog: &Program<A>,
) -> Result<(), AllocError> {
    let image = encode(global, prog.verified().code())?;
    show_bytes(out, image.as_slice())
}

fn show_blank(out: &mut String, blank: Option<usize>) -> Result<(), AllocError> {
    match blank {
        Some(len) => write!(out, "{len}"),
        None => out.push_str("."),
    }
}

/// Writes a command in the words that `read_command` reads.
pub fn show_command<A: Allocator>(
    global: Global,
    out: &mut String,
    command: &Command<A>,
) -> Result<(), AllocError> {
    match command {
        Command::Fetch { key } => {
            out.push_str("fetch ")?;
            show_bytes(out, key.as_slice())
        }
        Command::Store { key, value, mode } => {
            out.push_str(match mode {
                Mode::Insert => "insert ",
                Mode::Replace => "replace ",
            })?;
            show_bytes(out, key.as_slice())?;
            out.push_str(" ")?;
            show_bytes(out, value.as_slice())
        }
        Command::Delete { key } => {
            out.push_str("delete ")?;
            show_bytes(out, key.as_slice())
        }
        Command::Run {
            key,
            prog,
            arg,
            blank,
            now,
        } => {
            out.push_str("run ")?;
            show_bytes(out, key.as_slice())?;
            out.push_str(" ")?;
            show_program(global, out, prog)?;
            out.push_str(" ")?;
            show_bytes(out, arg.as_slice())?;
            out.push_str(" ")?;
            show_blank(out, *blank)?;
            write!(out, " {now}")
        }
        Command::Count => out.push_str("count"),
    }
}

/// Writes a reply.
pub fn show_reply<A: Allocator>(out: &mut String, reply: &Reply<A>) -> Result<(), AllocError> {
    match reply {
        Reply::Found(value) => {
            out.push_str("found ")?;
            show_bytes(out, value.as_slice())
        }
        Reply::Missing => out.push_str("missing"),
        Reply::Stored => out.push_str("stored"),
        Reply::Exists => out.push_str("exists"),
        Reply::Crowded => out.push_str("crowded"),
        Reply::Deleted => out.push_str("deleted"),
        Reply::Ran { code, word } => write!(out, "ran {code} {word}"),
        Reply::Count(count) => write!(out, "count {count}"),
    }
}

/// Writes pairs, each after a space.
pub fn show_pairs<A: Allocator>(
    out: &mut String,
    pairs: &[(Bytes<A>, Bytes<A>)],
) -> Result<(), AllocError> {
    for (key, value) in pairs {
        out.push_str(" ")?;
        show_bytes(out, key.as_slice())?;
        out.push_str("=")?;
        show_bytes(out, value.as_slice())?;
    }
    Ok(())
}
