//! Reads requests from the lines of a script.
ghost use Rattle.std.specs.Prelude.{◌≡◌, ◌∷◌, [], map, IfOk};
ghost use Rattle.dbm_script.specs.Pieces.{pieces_of};
ghost use Rattle.dbm_script.specs.Commands.{command_of_words};
ghost use Rattle.dbm_script.specs.Notation.{bytes_of_word, hex_bytes};
ghost use Rattle.dbm_script.specs.Numbers.{number_of, blank_of};
ghost use Rattle.dbm_script.specs.Lines.{plain, program_of, ask_of_run, ask_of, incr_of};

use crate::commands::read_command;
use crate::incr::IncrAsk;
use crate::notations::{Notation, read_bytes, read_hex};
use crate::pieces::first_piece;
use crate::run_words::words_asked;
use crate::running::RunAsk;
use byte_text::{read_number, read_signed};
use sdbm_addr::Bytes;
use std::alloc::{AllocError, Allocator};
use store_cmd::Command;

/// The request in a line.
#[derive(Drop)]
pub enum Ask<A: Allocator> {
    /// A command on the database.
    Plain(Command<A>),
    /// Submit the program with this image, and return its number.
    Program(Bytes<A>),
    /// Run the program with this number on the record of a key, or on a blank if the key is missing.
    Run(RunAsk<A>),
    /// Add to the number of a key.
    Incr(IncrAsk<A>),
}

/// Reads the request in a line. Returns `None` if the line is not a request. Words are separated by one space. A program image is in hex in
/// each notation.
///
/// # Errors
/// `AllocError` if allocation fails.
pub fn read_line<A: Allocator + Copy>(
    alloc: A,
    notation: &Notation<A>,
    line: &[u8],
) -> Result<Option<Ask<A>>, AllocError>
    ensures { IfOk result (λ ask. ask ≡ ask_of notation.now (pieces_of 32 line.now)) }
{
    let (name, rest) = first_piece(b' ', line);
    let Some(rest) = rest else {
        return read_plain(alloc, notation, name, &[]);
    };
    let (first, rest) = first_piece(b' ', rest);
    let Some(rest) = rest else {
        return read_two(alloc, notation, name, first);
    };
    let (second, rest) = first_piece(b' ', rest);
    let Some(rest) = rest else {
        return read_three(alloc, notation, name, first, second);
    };
    read_long(alloc, notation, name, first, second, rest)
}

// Reads the request in a name, two words, and the rest of the line.
fn read_long<A: Allocator + Copy>(
    alloc: A,
    notation: &Notation<A>,
    name: &[u8],
    key: &[u8],
    prog: &[u8],
    rest: &[u8],
) -> Result<Option<Ask<A>>, AllocError>
    ensures { IfOk result (λ ask. ask ≡ ask_of notation.now (name.now ∷ (key.now ∷ (prog.now ∷ pieces_of 32 rest.now)))) }
{
    let (arg, rest) = first_piece(b' ', rest);
    let Some(rest) = rest else {
        return Ok(None);
    };
    let (blank, rest) = first_piece(b' ', rest);
    let Some(rest) = rest else {
        return Ok(None);
    };
    let (now, rest) = first_piece(b' ', rest);
    match rest {
        None => read_six(alloc, notation, name, key, prog, arg, blank, now),
        Some(_) => Ok(None),
    }
}

// Reads the request in a name and five words.
fn read_six<A: Allocator + Copy>(
    alloc: A,
    notation: &Notation<A>,
    name: &[u8],
    key: &[u8],
    prog: &[u8],
    arg: &[u8],
    blank: &[u8],
    now: &[u8],
) -> Result<Option<Ask<A>>, AllocError>
    ensures { IfOk result (λ ask. ask ≡ ask_of notation.now (name.now ∷ (key.now ∷ (prog.now ∷ (arg.now ∷ (blank.now ∷ (now.now ∷ []))))))) }
{
    if name == b"run".as_slice() {
        return read_run(alloc, notation, key, prog, arg, blank, now);
    }
    Ok(None)
}

fn read_run<A: Allocator + Copy>(
    alloc: A,
    notation: &Notation<A>,
    key: &[u8],
    prog: &[u8],
    arg: &[u8],
    blank: &[u8],
    now: &[u8],
) -> Result<Option<Ask<A>>, AllocError>
    ensures { IfOk result (λ ask. ask ≡ ask_of_run (bytes_of_word notation.now key.now) (number_of 4294967295 prog.now) (bytes_of_word notation.now arg.now) (blank_of blank.now) (number_of 18446744073709551615 now.now)) }
{
    let Some(prog) = read_prog(prog) else {
        return Ok(None);
    };
    let Some(words) = words_asked(alloc, notation, key, arg, blank, now)? else {
        return Ok(None);
    };
    Ok(Some(Ask::Run(RunAsk {
        key: words.key,
        prog,
        arg: words.arg,
        blank: words.blank,
        now: words.now,
    })))
}

// Reads the number of a program.
fn read_prog(text: &[u8]) -> Option<u32>
    ensures { result ≡ number_of 4294967295 text.now }
{
    match read_number(text, 4_294_967_295) {
        Some(number) => Some(number as u32),
        None => None,
    }
}

// Reads the request in a name and one word.
fn read_two<A: Allocator + Copy>(
    alloc: A,
    notation: &Notation<A>,
    name: &[u8],
    word: &[u8],
) -> Result<Option<Ask<A>>, AllocError>
    ensures { IfOk result (λ ask. ask ≡ ask_of notation.now (name.now ∷ (word.now ∷ []))) }
{
    if name == b"program".as_slice() {
        return read_program(alloc, word);
    }
    if name == b"incr".as_slice() {
        return read_incr(alloc, notation, word, Some(1));
    }
    read_plain(alloc, notation, name, &[word])
}

// Reads the request in a name and two words.
fn read_three<A: Allocator + Copy>(
    alloc: A,
    notation: &Notation<A>,
    name: &[u8],
    first: &[u8],
    second: &[u8],
) -> Result<Option<Ask<A>>, AllocError>
    ensures { IfOk result (λ ask. ask ≡ ask_of notation.now (name.now ∷ (first.now ∷ (second.now ∷ [])))) }
{
    if name == b"incr".as_slice() {
        return read_incr(alloc, notation, first, read_signed(second));
    }
    read_plain(alloc, notation, name, &[first, second])
}

// Reads an addition to the number of a key. Returns `None` if `amount` is `None` or the key is invalid.
fn read_incr<A: Allocator + Copy>(
    alloc: A,
    notation: &Notation<A>,
    key: &[u8],
    amount: Option<u64>,
) -> Result<Option<Ask<A>>, AllocError>
    ensures { IfOk result (λ ask. ask ≡ incr_of (bytes_of_word notation.now key.now) amount) }
{
    let Some(amount) = amount else {
        return Ok(None);
    };
    match read_bytes(alloc, notation, key)? {
        Some(key) => Ok(Some(Ask::Incr(IncrAsk { key, amount }))),
        None => Ok(None),
    }
}

fn read_program<A: Allocator + Copy>(alloc: A, image: &[u8]) -> Result<Option<Ask<A>>, AllocError>
    ensures { IfOk result (λ ask. ask ≡ program_of (hex_bytes image.now)) }
{
    match read_hex(alloc, image)? {
        Some(image) => Ok(Some(Ask::Program(image))),
        None => Ok(None),
    }
}

// Reads a command on the database. Returns `None` if the words are not a command.
fn read_plain<A: Allocator + Copy>(
    alloc: A,
    notation: &Notation<A>,
    name: &[u8],
    args: &[&[u8]],
) -> Result<Option<Ask<A>>, AllocError>
    ensures { IfOk result (λ ask. ask ≡ plain (command_of_words notation.now (name.now ∷ map (λ x. x.now) args.now))) }
{
    match read_command(alloc, notation, name, args)? {
        Some(command) => Ok(Some(Ask::Plain(command))),
        None => Ok(None),
    }
}
