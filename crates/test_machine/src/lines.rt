//! Reads programs and their input from words.

use bpf_asm::assemble;
use bpf_helpers::Env;
use bpf_insn::{Code, decode};
use std::alloc::Global;

/// The answer to a line of an unknown kind.
pub const UNREAD: &str = "a line that cannot be read";

/// The input of a program.
#[derive(Drop)]
pub struct Input {
    pub env: Env,
    pub bytes: Vec<u8>,
    pub argument: Vec<u8>,
}

/// Reads bytes in hex; `+N` after them appends N zeros.
pub fn read_bytes(alloc: Global, word: &str) -> Option<Vec<u8>> {
    let (digits, zeros) = match word.split_once('+') {
        Some((digits, zeros)) => (digits, zeros.parse::<u16>().ok()?),
        None => (word, 0),
    };
    let digits = if digits == "." { "" } else { digits };
    let mut bytes = hex::decode(alloc, digits).ok()?;
    for _ in 0..zeros {
        bytes.push(0).ok()?;
    }
    Some(bytes)
}

// Reads the environment for the helpers. Also returns the rest of the words.
fn read_env(words: &str) -> Option<(Env, &str)> {
    let (now, rest) = words.split_once(' ')?;
    let (key, rest) = rest.split_once(' ')?;
    let (who, rest) = rest.split_once(' ')?;
    let present = match key {
        "there" => true,
        "absent" => false,
        _ => return None,
    };
    let env = Env {
        now: now.parse::<u64>().ok()?,
        present,
        who: who.parse::<u64>().ok()?,
    };
    Some((env, rest))
}

/// Reads the input of a program. Also returns the rest of the words.
pub fn read_input(alloc: Global, words: &str) -> Option<(Input, &str)> {
    let (bytes, rest) = words.split_once(' ')?;
    let (argument, rest) = rest.split_once(' ')?;
    let (env, rest) = read_env(rest)?;
    let input = Input {
        env,
        bytes: read_bytes(alloc, bytes)?,
        argument: read_bytes(alloc, argument)?,
    };
    Some((input, rest))
}

// The program of an image or a text.
fn read_program(alloc: Global, kind: &str, program: &str) -> Option<Code> {
    match kind {
        "image" => {
            let image = read_bytes(alloc, program)?;
            decode(alloc, &image).ok()
        }
        "text" => {
            let text = program.replace(alloc, " / ", "\n").ok()?;
            assemble(alloc, text.as_str()).ok()
        }
        _ => None,
    }
}

/// Reads a program of the given kind, and its input.
pub fn read_run(alloc: Global, kind: &str, words: &str) -> Option<(Code, Input)> {
    let (input, program) = read_input(alloc, words)?;
    Some((read_program(alloc, kind, program)?, input))
}
