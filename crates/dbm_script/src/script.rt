//! Runs a whole script as one session.
ghost use Rattle.std.specs.Prelude.{◌≡◌, ◌<◌, ◌≤◌, List, ℕ, Option, Some, IfOk, OnOk, IfErr, IfSome, IsErrOf, ◌∷◌, [], length};
ghost use Rattle.std.specs.Io.KnownBytes.{Appends, Keeps};
ghost use Rattle.byte_text.specs.Writing.{WritesPart};
ghost use Rattle.sdbm_addr.specs.Database.{Database};
ghost use Rattle.store_marks.specs.Noted.{Notes};
ghost use Rattle.dbm_script.specs.Pieces.{pieces_of};
ghost use Rattle.dbm_script.specs.Lines.{ask_of};
ghost use Rattle.dbm_script.specs.Shorthand.{spelled_text};
ghost use Rattle.dbm_script.specs.Images.{ImageVerdict};
ghost use Rattle.dbm_script.specs.Script.{AnswersExceed, IsScriptRun, RunsLines, AnswersLine, AddsBytes, stage};

use crate::answering::answer_one;
use crate::bad_lines::{BadLines, LineCount};
use crate::direct::answer_directly;
use crate::fault::{LinesFault, ScriptFault};
use crate::images::answer_image;
use crate::incr::answer_incr;
use crate::lines::{Ask, read_line};
use crate::notations::Notation;
use crate::pieces::first_piece;
use crate::running::answer_run;
use crate::shorthand::{LineKind, TimeOfDay, spell_line};
use crate::streams::read_all;
use byte_text::write_all;
use prog_registry::Registry;
use sdbm_files::Image;
use std::alloc::{AllocError, Allocator};
use std::io::{Read, Write};
use store_marks::Changes;

/// The result of running a script.
#[derive(Drop)]
pub struct ScriptRun<A: Allocator> {
    /// The database after the script.
    pub image: Image<A>,
    /// The text of the answers.
    pub text: Vec<u8, A>,
    /// The bad lines, for a note. No clause constrains them.
    pub bad_lines: BadLines,
}

/// Reads a script, runs all its lines on a database as session 0, and writes the answers. Returns the resulting database.
///
/// # Errors
/// `Read` if the reader fails, `TooLong` if the script has more than 16,777,216 bytes, `Write` if the writer fails or accepts no byte, and
/// `NoMemory` if allocation fails. On error, the database is dropped, and except after `Write` nothing was written.
pub fn run_script<A: Allocator + Copy, R: Read, W: Write>(
    alloc: A,
    notation: &Notation<A>,
    reader: &mut R,
    writer: &mut W,
    image: Image<A>,
) -> Result<Image<A>, ScriptFault>
    ensures ok { IfOk result (λ after. IfSome (R.remaining reader.old) (λ input. (text : List ℕ) ×
        (IsScriptRun A notation.now image input text after × Appends (W.contents writer.old) (W.contents writer.new) text))) }
    ensures short { IfOk result (λ _. IfSome (R.remaining reader.old) (λ input. length input ≤ 16777216)) }
    ensures part { IsErrOf result ScriptFault.Write → IfSome (R.remaining reader.old) (λ input. (text : List ℕ) × ((after : Database) ×
        (IsScriptRun A notation.now image input text after × WritesPart (W.contents writer.old) (W.contents writer.new) text))) }
    ensures nothing { IfErr result (λ fault. (fault ≡ ScriptFault.Write → ⊥) → Keeps (W.contents writer.old) (W.contents writer.new)) }
    ensures kept { IfOk result (λ after. (after.kind ≡ image.kind) × (after.size ≡ image.size)) }
    ensures long { IsErrOf result ScriptFault.TooLong → IfSome (R.remaining reader.old) (λ input. 16777216 < length input) }
{
    let input = read_all(alloc, reader)?;
    let Ok((after, text)) = run_lines(alloc, notation, image, input.as_slice(), u64::MAX) else {
        return Err(ScriptFault::NoMemory);
    };
    write_all(writer, text.as_slice())?;
    Ok(after)
}

/// Runs the lines of a script on a database as session 0. Returns the resulting database and the text of the answers. Submitted programs
/// are dropped at the end.
///
/// # Errors
/// `OutputTooLong` at the first line whose answer makes the text longer than `most` bytes, and `NoMemory` if allocation fails. On error,
/// the database is dropped.
pub fn run_lines<A: Allocator + Copy>(
    alloc: A,
    notation: &Notation<A>,
    image: Image<A>,
    input: &[u8],
    most: u64,
) -> Result<(Image<A>, Vec<u8, A>), LinesFault>
    ensures runs { IfOk result (λ r. IsScriptRun A notation.now image input.now r.1.items r.0) }
    ensures short { IfOk result (λ r. length r.1.items ≤ most) }
    ensures long { IsErrOf result LinesFault.OutputTooLong → AnswersExceed A notation.now image input.now most }
    ensures kept { IfOk result (λ r. (r.0.kind ≡ image.kind) × (r.0.size ≡ image.size)) }
{
    let mut image = image;
    let mut changes = Changes::Any;
    let mut registry = Registry::new(alloc)?;
    let mut text = Vec::new(alloc);
    let mut rest = Some(input);
    while let Some(left) = rest {
        let (line, after) = first_piece(b'\n', left);
        answer_line(
            alloc,
            notation,
            &mut image,
            &mut changes,
            &mut registry,
            line,
            &mut text,
        )?;
        if text.len() as u64 > most {
            return Err(LinesFault::OutputTooLong);
        }
        rest = after;
    }
    Ok((image, text))
}

/// Like `run_lines` after `spell_out`, but expands the shorthand one line at a time, so the expanded script is never in memory as a whole.
///
/// # Errors
/// `OutputTooLong` at the first line whose answer makes the text longer than `most` bytes, and `NoMemory` if allocation fails. On error,
/// the database is dropped.
pub fn run_spelled<A: Allocator + Copy>(
    alloc: A,
    notation: &Notation<A>,
    image: Image<A>,
    time: Option<TimeOfDay>,
    input: &[u8],
    most: u64,
) -> Result<ScriptRun<A>, LinesFault>
    ensures runs { IfOk result (λ run. IsScriptRun A notation.now image (spelled_text LineKind.OfScript time input.now) run.text.items run.image) }
    ensures short { IfOk result (λ run. length run.text.items ≤ most) }
    ensures long { IsErrOf result LinesFault.OutputTooLong → AnswersExceed A notation.now image (spelled_text LineKind.OfScript time input.now) most }
    ensures kept { IfOk result (λ run. (run.image.kind ≡ image.kind) × (run.image.size ≡ image.size)) }
{
    let mut image = image;
    let mut changes = Changes::Any;
    let mut registry = Registry::new(alloc)?;
    let mut text = Vec::new(alloc);
    let mut line = Vec::new(alloc);
    let mut counted = LineCount::new();
    let mut rest = Some(input);
    while let Some(left) = rest {
        let (short, after) = first_piece(b'\n', left);
        line.clear();
        spell_line(LineKind::OfScript, time, short, &mut line)?;
        let is_command = answer_line(
            alloc,
            notation,
            &mut image,
            &mut changes,
            &mut registry,
            line.as_slice(),
            &mut text,
        )?;
        counted.add(is_command);
        if text.len() as u64 > most {
            return Err(LinesFault::OutputTooLong);
        }
        rest = after;
    }
    Ok(ScriptRun {
        image,
        text,
        bad_lines: counted.bad_lines(),
    })
}

/// Answers one line on a database as session 0. Appends the answer and an LF to `text`; an empty line has no answer. A program that the
/// line submits is added to the registry, and a page that the line changes is noted in `changes`. Returns `false` if the line is bad; no
/// clause says so.
///
/// # Errors
/// `AllocError` if allocation fails.
pub fn answer_line<A: Allocator + Copy>(
    alloc: A,
    notation: &Notation<A>,
    image: &mut Image<A>,
    changes: &mut Changes,
    registry: &mut Registry<A>,
    line: &[u8],
    text: &mut Vec<u8, A>,
) -> Result<bool, AllocError>
    ensures answer { OnOk result (AddsBytes text.old.items text.new.items (λ added. (told : List (Option ImageVerdict)) ×
        RunsLines A notation.now (stage image.old registry.old.programs) (line.now ∷ []) told added (stage image.new registry.new.programs))) }
    ensures kept { OnOk result ((image.new.kind ≡ image.old.kind) × (image.new.size ≡ image.old.size)) }
    ensures notes { (base : Database) → Notes changes.old base image.old → Notes changes.new base image.new }
{
    if line.is_empty() {
        return Ok(true);
    }
    let is_command = answer_words(alloc, notation, image, changes, registry, line, text)?;
    text.push(b'\n')?;
    Ok(is_command)
}

// Appends the answer to a line without its LF: `bad line` if the line is not a request. Returns `true` if it is a request.
fn answer_words<A: Allocator + Copy>(
    alloc: A,
    notation: &Notation<A>,
    image: &mut Image<A>,
    changes: &mut Changes,
    registry: &mut Registry<A>,
    line: &[u8],
    text: &mut Vec<u8, A>,
) -> Result<bool, AllocError>
    ensures answer { OnOk result (AddsBytes text.old.items text.new.items (λ added. (told : Option ImageVerdict) ×
        AnswersLine A notation.now (stage image.old registry.old.programs) (ask_of notation.now (pieces_of 32 line.now)) told added (stage image.new registry.new.programs))) }
    ensures kept { OnOk result ((image.new.kind ≡ image.old.kind) × (image.new.size ≡ image.old.size)) }
    ensures notes { (base : Database) → Notes changes.old base image.old → Notes changes.new base image.new }
{
    if answer_directly(alloc, notation, image, changes, registry, line, text)? {
        return Ok(true);
    }
    match read_line(alloc, notation, line)? {
        None => {
            text.extend_from_slice(b"bad line")?;
            Ok(false)
        }
        Some(ask) => {
            answer_ask(alloc, notation, image, changes, registry, ask, text)?;
            Ok(true)
        }
    }
}

// Answers a request.
fn answer_ask<A: Allocator + Copy>(
    alloc: A,
    notation: &Notation<A>,
    image: &mut Image<A>,
    changes: &mut Changes,
    registry: &mut Registry<A>,
    ask: Ask<A>,
    text: &mut Vec<u8, A>,
) -> Result<(), AllocError>
    ensures answer { OnOk result (AddsBytes text.old.items text.new.items (λ added. (told : Option ImageVerdict) ×
        AnswersLine A notation.now (stage image.old registry.old.programs) (Some ask) told added (stage image.new registry.new.programs))) }
    ensures kept { OnOk result ((image.new.kind ≡ image.old.kind) × (image.new.size ≡ image.old.size)) }
    ensures notes { (base : Database) → Notes changes.old base image.old → Notes changes.new base image.new }
{
    match ask {
        Ask::Plain(command) => answer_one(alloc, notation, image, changes, command, text),
        Ask::Program(bytes) => answer_image(alloc, registry, bytes.as_slice(), text),
        Ask::Run(run) => answer_run(alloc, notation, image, changes, registry, run, text),
        Ask::Incr(incr) => answer_incr(alloc, notation, image, changes, registry, incr, text),
    }
}
