//! Fast path: answers short lines in hex without building a command. It allocates memory only for the answers.
ghost use Rattle.std.specs.Prelude.{◌≡◌, ◌≤◌, ◌∷◌, [], List, Some, IfOk, IfSome, OnOk, codes, take, true};
ghost use Rattle.bpf_verify.specs.Verified.{Accepted};
ghost use Rattle.dbm_script.specs.Direct.{IfAnswered, IfDone, store_name};
ghost use Rattle.dbm_script.specs.Notation.{hex_bytes, reads_hex};
ghost use Rattle.dbm_script.specs.Pieces.{pieces_of};
ghost use Rattle.dbm_script.specs.Script.{AddsBytes, AnswersCommand};
ghost use Rattle.store_cmd.specs.declared.Command.TheVariants.{Fetch, Store};
ghost use Rattle.sdbm_addr.specs.Database.{Database};
ghost use Rattle.store_marks.specs.Noted.{Notes};
ghost use Rattle.store_moves.specs.Rewrites.{command_of};
ghost use Rattle.dbm_script.specs.declared.notations.Notation.{Notation};

use crate::answers::{show_found, show_reply};
use crate::digits::decode_into;
use crate::notations::Notation;
use crate::numbers::read_blank;
use crate::pieces::{first_piece, first_short_piece};
use byte_text::read_number;
use prog_registry::{ProgId, Registry};
use sdbm_addr::Mode;
use sdbm_files::Image;
use std::alloc::{AllocError, Allocator};
use store_cmd::{check_pair, check_run};
use store_marks::{Changes, run_noted, store_noted};
use store_moves::{RunInput, ran};

/// The longest word, in bytes after decoding, that is read without allocation.
const SHORT: usize = 64;

/// Answers a line in hex as session 0 and appends the answer to `text`, without other allocation. The words must be short, and the line
/// must be a fetch, a store that `store_noted` executes, or a run that `run_noted` executes. Otherwise returns `false` and changes nothing.
///
/// # Errors
/// `AllocError` if allocation fails. On error, discard `text`: it may be partial. A store or a run may have taken effect.
pub(crate) fn answer_directly<A: Allocator + Copy>(
    alloc: A,
    notation: &Notation<A>,
    image: &mut Image<A>,
    changes: &mut Changes,
    registry: &Registry<A>,
    line: &[u8],
    text: &mut Vec<u8, A>,
) -> Result<bool, AllocError>
    ensures done { IfOk result (λ done. IfDone A notation.now registry.now.programs (pieces_of 32 line.now) done image.old text.old.items image.new text.new.items) }
    ensures kept { OnOk result ((image.new.kind ≡ image.old.kind) × (image.new.size ≡ image.old.size)) }
    ensures notes { (base : Database) → Notes changes.old base image.old → Notes changes.new base image.new }
{
    if !notation.is_hex() {
        return Ok(false);
    }
    let (name, rest) = first_short_piece(b' ', line);
    let Some(words) = rest else {
        return Ok(false);
    };
    if name == b"fetch".as_slice() {
        return fetch_directly(alloc, notation, image, words, text);
    }
    if name == b"replace".as_slice() {
        return store_directly(notation, image, changes, words, Mode::Replace, text);
    }
    if name == b"insert".as_slice() {
        return store_directly(notation, image, changes, words, Mode::Insert, text);
    }
    if name == b"run".as_slice() {
        return run_directly(alloc, notation, image, changes, registry, words, text);
    }
    Ok(false)
}

// Decodes a word in hex to the beginning of `room`, and returns the number of bytes. Returns `None` if the word is too long or not hex.
fn read_short(word: &[u8], room: &mut [u8; SHORT]) -> Option<usize>
    ensures within { IfSome result (λ count. count ≤ 64) }
    ensures bytes { IfSome result (λ count. hex_bytes word.now ≡ Some (take count room.new)) }
{
    if word == b".".as_slice() {
        return Some(0);
    }
    let count = word.len() / 2;
    if word.len() % 2 != 0 || count == 0 || count > SHORT {
        return None;
    }
    if !decode_into(word, &mut room[..count]) {
        return None;
    }
    Some(count)
}

// Answers a fetch, given the word after its name.
fn fetch_directly<A: Allocator + Copy>(
    alloc: A,
    notation: &Notation<A>,
    image: &Image<A>,
    word: &[u8],
    text: &mut Vec<u8, A>,
) -> Result<bool, AllocError>
    requires { reads_hex notation.now ≡ true }
    ensures { IfOk result (λ done. (programs : List Accepted) → IfDone A notation.now programs (codes "fetch" ∷ pieces_of 32 word.now) done image.now text.old.items image.now text.new.items) }
{
    let mut room = [0; SHORT];
    let Some(count) = read_short(word, &mut room) else {
        return Ok(false);
    };
    answer_fetch(alloc, notation, image, &room[..count], text)?;
    Ok(true)
}

// Answers a fetch of a key.
fn answer_fetch<A: Allocator + Copy>(
    alloc: A,
    notation: &Notation<A>,
    image: &Image<A>,
    key: &[u8],
    text: &mut Vec<u8, A>,
) -> Result<(), AllocError>
    ensures { OnOk result (AddsBytes text.old.items text.new.items (λ added. AnswersCommand A notation.now image.now (Fetch key.now) added image.now)) }
{
    let place = image.place(key);
    let Some(shared) = image.page(place.page) else {
        return text.extend_from_slice(b"missing");
    };
    let page = shared.page();
    match page.find(key) {
        None => text.extend_from_slice(b"missing"),
        Some(i) => show_found(alloc, notation, page.record(i), text),
    }
}

// Answers a store, given the words after its name.
fn store_directly<A: Allocator + Copy>(
    notation: &Notation<A>,
    image: &mut Image<A>,
    changes: &mut Changes,
    words: &[u8],
    mode: Mode,
    text: &mut Vec<u8, A>,
) -> Result<bool, AllocError>
    requires { reads_hex notation.now ≡ true }
    ensures done { IfOk result (λ done. (programs : List Accepted) → IfDone A notation.now programs (store_name mode ∷ pieces_of 32 words.now) done image.old text.old.items image.new text.new.items) }
    ensures kept { OnOk result ((image.new.kind ≡ image.old.kind) × (image.new.size ≡ image.old.size)) }
    ensures notes { (base : Database) → Notes changes.old base image.old → Notes changes.new base image.new }
{
    let (key, rest) = first_piece(b' ', words);
    let Some(value) = rest else {
        return Ok(false);
    };
    let mut key_room = [0; SHORT];
    let Some(key_count) = read_short(key, &mut key_room) else {
        return Ok(false);
    };
    let mut value_room = [0; SHORT];
    let Some(value_count) = read_short(value, &mut value_room) else {
        return Ok(false);
    };
    answer_store(
        image,
        changes,
        &key_room[..key_count],
        &value_room[..value_count],
        mode,
        text,
    )
}

// Answers a store, if `store_noted` can execute it.
fn answer_store<A: Allocator + Copy>(
    image: &mut Image<A>,
    changes: &mut Changes,
    key: &[u8],
    value: &[u8],
    mode: Mode,
    text: &mut Vec<u8, A>,
) -> Result<bool, AllocError>
    ensures done { IfOk result (λ done. (notation : Notation A) → IfAnswered A notation (Store key.now value.now mode) done image.old text.old.items image.new text.new.items) }
    ensures kept { OnOk result ((image.new.kind ≡ image.old.kind) × (image.new.size ≡ image.old.size)) }
    ensures notes { (base : Database) → Notes changes.old base image.old → Notes changes.new base image.new }
{
    if check_pair(key, value.len(), image.page_size()).is_err() {
        return Ok(false);
    }
    if !store_noted(image, changes, key, value, mode) {
        return Ok(false);
    }
    text.extend_from_slice(b"stored")?;
    Ok(true)
}

// Answers a run, given the words after its name.
fn run_directly<A: Allocator + Copy>(
    alloc: A,
    notation: &Notation<A>,
    image: &mut Image<A>,
    changes: &mut Changes,
    registry: &Registry<A>,
    words: &[u8],
    text: &mut Vec<u8, A>,
) -> Result<bool, AllocError>
    requires { reads_hex notation.now ≡ true }
    ensures done { IfOk result (λ done. IfDone A notation.now registry.now.programs (codes "run" ∷ pieces_of 32 words.now) done image.old text.old.items image.new text.new.items) }
    ensures kept { OnOk result ((image.new.kind ≡ image.old.kind) × (image.new.size ≡ image.old.size)) }
    ensures notes { (base : Database) → Notes changes.old base image.old → Notes changes.new base image.new }
{
    let (key, rest) = first_piece(b' ', words);
    let Some(rest) = rest else {
        return Ok(false);
    };
    let (prog, rest) = first_short_piece(b' ', rest);
    let Some(rest) = rest else {
        return Ok(false);
    };
    let (arg, rest) = first_short_piece(b' ', rest);
    let Some(rest) = rest else {
        return Ok(false);
    };
    let (blank, rest) = first_short_piece(b' ', rest);
    let Some(rest) = rest else {
        return Ok(false);
    };
    let (now, rest) = first_short_piece(b' ', rest);
    match rest {
        None => run_words(
            alloc, notation, image, changes, registry, key, prog, arg, blank, now, text,
        ),
        Some(_) => Ok(false),
    }
}

// Answers a run, given its five words.
fn run_words<A: Allocator + Copy>(
    alloc: A,
    notation: &Notation<A>,
    image: &mut Image<A>,
    changes: &mut Changes,
    registry: &Registry<A>,
    key: &[u8],
    prog: &[u8],
    arg: &[u8],
    blank: &[u8],
    now: &[u8],
    text: &mut Vec<u8, A>,
) -> Result<bool, AllocError>
    requires { reads_hex notation.now ≡ true }
    ensures done { IfOk result (λ done. IfDone A notation.now registry.now.programs (codes "run" ∷ (key.now ∷ (prog.now ∷ (arg.now ∷ (blank.now ∷ (now.now ∷ [])))))) done image.old text.old.items image.new text.new.items) }
    ensures kept { OnOk result ((image.new.kind ≡ image.old.kind) × (image.new.size ≡ image.old.size)) }
    ensures notes { (base : Database) → Notes changes.old base image.old → Notes changes.new base image.new }
{
    let mut key_room = [0; SHORT];
    let Some(key_count) = read_short(key, &mut key_room) else {
        return Ok(false);
    };
    let mut arg_room = [0; SHORT];
    let Some(arg_count) = read_short(arg, &mut arg_room) else {
        return Ok(false);
    };
    let Some(prog) = read_number(prog, 4_294_967_295) else {
        return Ok(false);
    };
    let Some(blank) = read_blank(blank) else {
        return Ok(false);
    };
    let Some(now) = read_number(now, u64::MAX) else {
        return Ok(false);
    };
    let Some(owned) = registry.get(ProgId(prog as u32)) else {
        return Ok(false);
    };
    let input = RunInput {
        session: 0,
        time: now,
        key: &key_room[..key_count],
        program: &**owned,
        arg: &arg_room[..arg_count],
        blank,
    };
    answer_run_input(alloc, notation, image, changes, &input, text)
}

// Answers a run, if `run_noted` can execute it.
fn answer_run_input<A: Allocator + Copy>(
    alloc: A,
    notation: &Notation<A>,
    image: &mut Image<A>,
    changes: &mut Changes,
    input: &RunInput<'_, A>,
    text: &mut Vec<u8, A>,
) -> Result<bool, AllocError>
    requires { input.now.session ≡ 0 }
    ensures done { IfOk result (λ done. IfAnswered A notation.now (command_of input.now) done image.old text.old.items image.new text.new.items) }
    ensures kept { OnOk result ((image.new.kind ≡ image.old.kind) × (image.new.size ≡ image.old.size)) }
    ensures notes { (base : Database) → Notes changes.old base image.old → Notes changes.new base image.new }
{
    if check_run(input.key, input.arg, input.blank, image.page_size()).is_err() {
        return Ok(false);
    }
    let Some(ended) = run_noted(image, changes, input) else {
        return Ok(false);
    };
    show_reply(alloc, notation, &ran(ended), text)?;
    Ok(true)
}
