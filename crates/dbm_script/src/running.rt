//! Lines that run programs.
ghost use Rattle.std.specs.Prelude.{◌≡◌, IfOk, OnOk, option_map, slice_get};
ghost use Rattle.dbm_script.specs.Script.{AddsBytes, AnswersRun, run_command};
ghost use Rattle.sdbm_addr.specs.Database.{Database};
ghost use Rattle.store_marks.specs.Noted.{Notes};

use crate::answering::answer_one;
use crate::notations::Notation;
use prog_registry::{ProgId, Registry};
use sdbm_addr::Bytes;
use sdbm_files::Image;
use std::alloc::{AllocError, Allocator};
use std::sync::Arc;
use store_cmd::{Command, Program};
use store_marks::Changes;

/// The run that a line requests. The program, given by its number, runs on the record of the key, or on a blank if the key is missing.
#[derive(Drop)]
pub struct RunAsk<A: Allocator> {
    pub key: Bytes<A>,
    pub prog: u32,
    pub arg: Bytes<A>,
    pub blank: Option<usize>,
    /// The time that is passed to the program.
    pub now: u64,
}

/// Runs a program of a registry on a database as session 0, and appends the answer to `text`. Notes the pages that change.
///
/// # Errors
/// `AllocError` if allocation fails. On error, discard `text`: it may be partial.
pub fn answer_run<A: Allocator + Copy>(
    alloc: A,
    notation: &Notation<A>,
    image: &mut Image<A>,
    changes: &mut Changes,
    registry: &Registry<A>,
    run: RunAsk<A>,
    text: &mut Vec<u8, A>,
) -> Result<(), AllocError>
    ensures answer { OnOk result (AddsBytes text.old.items text.new.items (λ added.
        AnswersRun A notation.now image.old (run_command registry.now.programs run.key run.prog run.arg run.blank run.now) added image.new)) }
    ensures kept { OnOk result ((image.new.kind ≡ image.old.kind) × (image.new.size ≡ image.old.size)) }
    ensures notes { (base : Database) → Notes changes.old base image.old → Notes changes.new base image.new }
{
    match command_of_run(registry, run)? {
        None => text.extend_from_slice(b"refused NoProgram"),
        Some(command) => answer_one(alloc, notation, image, changes, command, text),
    }
}

/// Makes the command of a run. Returns `None` if no program has the number `run.prog`.
///
/// # Errors
/// `AllocError` if the reference count of the program is at its maximum.
pub fn command_of_run<A: Allocator>(
    registry: &Registry<A>,
    run: RunAsk<A>,
) -> Result<Option<Command<A>>, AllocError>
    ensures { IfOk result (λ command. command ≡ run_command registry.now.programs run.key run.prog run.arg run.blank run.now) }
{
    let Some(prog) = shared_program(registry, run.prog)? else {
        return Ok(None);
    };
    Ok(Some(Command::Run {
        key: run.key,
        prog,
        arg: run.arg,
        blank: run.blank,
        now: run.now,
    }))
}

// Returns the program with this number, shared with the registry.
fn shared_program<A: Allocator>(
    registry: &Registry<A>,
    prog: u32,
) -> Result<Option<Program<A>>, AllocError>
    ensures { IfOk result (λ program. program ≡ option_map (λ p. p.code) (slice_get registry.now.programs prog)) }
{
    let Some(owned) = registry.get(ProgId(prog)) else {
        return Ok(None);
    };
    Ok(Some(Program::new(Arc::try_clone(owned)?)))
}
