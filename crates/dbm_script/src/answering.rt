//! Answers one command.
ghost use Rattle.std.specs.Prelude.{◌≡◌, ◌<◌, IfOk, OnOk, OnErr};
ghost use Rattle.dbm_script.specs.Answers.{IsAnswerTo};
ghost use Rattle.dbm_script.specs.Script.{AnswersCommand, AddsBytes};
ghost use Rattle.sdbm_addr.specs.Database.{Database};
ghost use Rattle.store_marks.specs.Noted.{Notes};

use crate::answers::{Answer, show_answer};
use crate::notations::Notation;
use sdbm_files::Image;
use std::alloc::{AllocError, Allocator};
use store_cmd::{Command, check_sizes};
use store_marks::{Changes, act_noted};

/// The session number of all commands in a script.
const SCRIPT_SESSION: u64 = 0;

// Runs a command and appends the answer to `text`.
pub(crate) fn answer_one<A: Allocator + Copy>(
    alloc: A,
    notation: &Notation<A>,
    image: &mut Image<A>,
    changes: &mut Changes,
    command: Command<A>,
    text: &mut Vec<u8, A>,
) -> Result<(), AllocError>
    ensures answer { OnOk result (AddsBytes text.old.items text.new.items (λ added. AnswersCommand A notation.now image.old command added image.new)) }
    ensures kept { OnOk result ((image.new.kind ≡ image.old.kind) × (image.new.size ≡ image.old.size)) }
    ensures notes { (base : Database) → Notes changes.old base image.old → Notes changes.new base image.new }
{
    let answer = answer_noted(alloc, image, changes, command)?;
    show_answer(alloc, notation, &answer, text)
}

/// Runs a command on a database as session 0, without a trail.
///
/// # Errors
/// `AllocError` if allocation fails. The database is then unchanged.
pub fn answer_command<A: Allocator + Copy>(
    alloc: A,
    image: &mut Image<A>,
    command: Command<A>,
) -> Result<Answer<A>, AllocError>
    ensures answer { IfOk result (λ answer. IsAnswerTo A image.old command answer image.new) }
    ensures kept { OnOk result ((image.new.kind ≡ image.old.kind) × (image.new.size ≡ image.old.size)) }
    ensures err { OnErr result (image.new ≡ image.old) }
{
    let mut changes = Changes::Any;
    answer_noted(alloc, image, &mut changes, command)
}

// Like `answer_command`. Notes the pages that change.
fn answer_noted<A: Allocator + Copy>(
    alloc: A,
    image: &mut Image<A>,
    changes: &mut Changes,
    command: Command<A>,
) -> Result<Answer<A>, AllocError>
    ensures answer { IfOk result (λ answer. IsAnswerTo A image.old command answer image.new) }
    ensures kept { OnOk result ((image.new.kind ≡ image.old.kind) × (image.new.size ≡ image.old.size)) }
    ensures err { OnErr result (image.new ≡ image.old) }
    ensures notes { (base : Database) → Notes changes.old base image.old → Notes changes.new base image.new }
{
    if let Err(fault) = check_sizes(&command, image.page_size()) {
        return Ok(Answer::Refused(fault));
    }
    match act_noted(alloc, image, changes, SCRIPT_SESSION, command) {
        Ok(entry) => Ok(Answer::Replied(entry)),
        Err((error, _command)) => Err(error),
    }
}
