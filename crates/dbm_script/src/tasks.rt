//! Tasks: lines that describe runs of one given program.
ghost use Rattle.std.specs.Prelude.{◌≡◌, ◌++◌, ◌∷◌, [], List, IfOk, IfErr, true, false};
ghost use Rattle.dbm_script.specs.Pieces.{pieces_of};
ghost use Rattle.dbm_script.specs.Tasks.{AreTasksOf, AddsTask, IsBadLine, IsTasksFault, task_of};
ghost use Rattle.dbm_script.specs.declared.tasks.TasksFault.TheVariants.{NoMemory};

use crate::notations::Notation;
use crate::pieces::first_piece;
use crate::run_words::{RunWords, words_asked};
use std::alloc::{AllocError, Allocator};

/// The reason why a text is not a list of tasks.
#[derive(Clone, Copy, Debug, PartialEq, Eq)]
pub enum TasksFault {
    /// The number, from 1 on, of the first line that is neither empty nor a task.
    BadLine(usize),
    /// Allocation failed.
    NoMemory,
}

impl From<AllocError> for TasksFault {
    ghost from_gives = { λ _ fault. fault ≡ NoMemory };

    fn from(_error: AllocError) -> TasksFault {
        TasksFault::NoMemory
    }
}

/// Reads the tasks of a text. Each line is empty or has the four words of a task, `KEY ARG BLANK NOW`.
///
/// # Errors
/// `BadLine` with the number of the first line that is neither empty nor a task, and `NoMemory` if allocation fails.
pub fn read_tasks<A: Allocator + Copy>(
    alloc: A,
    notation: &Notation<A>,
    input: &[u8],
) -> Result<Vec<RunWords<A>, A>, TasksFault>
    ensures ok { IfOk result (λ tasks. AreTasksOf A notation.now input.now tasks.items) }
    ensures fault { IfErr result (IsTasksFault A notation.now input.now) }
{
    let mut tasks = Vec::new(alloc);
    let mut number = 0;
    let mut rest = Some(input);
    while let Some(left) = rest {
        let (line, after) = first_piece(b'\n', left);
        number += 1;
        if !add_task(alloc, notation, line, &mut tasks)? {
            return Err(TasksFault::BadLine(number));
        }
        rest = after;
    }
    Ok(tasks)
}

// Appends the task of a line to `tasks`; an empty line has no task. Returns `false` if the line is bad.
fn add_task<A: Allocator + Copy>(
    alloc: A,
    notation: &Notation<A>,
    line: &[u8],
    tasks: &mut Vec<RunWords<A>, A>,
) -> Result<bool, AllocError>
    ensures { IfOk result (λ good. AddsTask A notation.now line.now good tasks.old.items tasks.new.items) }
{
    if line.is_empty() {
        return Ok(true);
    }
    let Some(task) = read_task(alloc, notation, line)? else {
        return Ok(false);
    };
    tasks.push(task)?;
    Ok(true)
}

// Reads the task of a line. Returns `None` if the line is not a task.
fn read_task<A: Allocator + Copy>(
    alloc: A,
    notation: &Notation<A>,
    line: &[u8],
) -> Result<Option<RunWords<A>>, AllocError>
    ensures { IfOk result (λ task. task ≡ task_of notation.now (pieces_of 32 line.now)) }
{
    let (key, rest) = first_piece(b' ', line);
    let Some(rest) = rest else {
        return Ok(None);
    };
    let (arg, rest) = first_piece(b' ', rest);
    let Some(rest) = rest else {
        return Ok(None);
    };
    let (blank, rest) = first_piece(b' ', rest);
    let Some(rest) = rest else {
        return Ok(None);
    };
    let (now, rest) = first_piece(b' ', rest);
    match rest {
        None => words_asked(alloc, notation, key, arg, blank, now),
        Some(_) => Ok(None),
    }
}
