//! Groups of a worker's tasks. One call of the session runs all tasks of a group.
ghost use Rattle.std.specs.Prelude.{◌≡◌, ◌<◌, ◌≤◌, ◌+◌, IfOk, IfErr, OnErr, Some, length, vec_len, vec_capacity};
ghost use Rattle.std.specs.List.{slice_get};
ghost use Rattle.std.specs.Vec.Iter.{into_iter_items};
ghost use Rattle.worker_pool.specs.Tasks.{run_of, code_of_program, IsKnown, AreTasksKnown, IsTaskRefusal, IsRefusalFor};
ghost use Rattle.worker_pool.specs.Groups.{AreRunsFrom, IsAhead, IsNextIndex, place_behind};

use crate::task::Task;
use prog_registry::{ProgId, Registry};
use std::alloc::{AllocError, Allocator};
use std::sync::{Arc, Wait};
use std::vec::IntoIter;
use store_cmd::{Command, Program, Refusal, Reply, SharedCommand, SizeFault, check_run};
use store_shared::{Gate, Session};

/// The maximum number of tasks in a group. With smaller groups, four workers lose more time when the lock changes hands. A full
/// group of short runs holds the lock for about 30 microseconds.
const GROUP: usize = 128;

/// Runs a group of a worker's tasks, beginning with the task at index `at`, and returns the outcome of each task. Reserves room
/// for all replies first. If the task at `at` cannot be prepared, or memory runs out, returns the refusal and runs no task.
pub(crate) fn call_group<R: Wait, A: Allocator + Copy, G: Gate>(
    rt: &R,
    registry: &Registry<A>,
    tasks: &[Task<A>],
    at: usize,
    workers: usize,
    session: &mut Session<'_, A, G>,
    replies: &mut Vec<Reply<A>, A>,
) -> Result<IntoIter<Result<Reply<A>, Refusal>, A>, Refusal>
    requires known { AreTasksKnown registry.now.programs tasks.now }
    requires within { at < length tasks.now }
    requires some { 0 < workers }
    ensures ahead { IfOk result (λ outcomes. IsAhead registry.now.programs tasks.entry.now workers at session.old (into_iter_items outcomes) session.new) }
    ensures some { IfOk result (λ outcomes. 0 < length (into_iter_items outcomes)) }
    ensures room { IfOk result (λ outcomes. length (into_iter_items outcomes) + vec_len replies.new ≤ vec_capacity replies.new) }
    ensures refused { IfErr result (λ refusal. (task : Task A) → slice_get tasks.entry.now at ≡ Some task → IsTaskRefusal session.old.size (run_of registry.now.programs task) refusal) }
    ensures err { OnErr result (session.new ≡ session.old) }
    ensures replies { replies.new.items ≡ replies.old.items }
{
    let alloc = *replies.allocator();
    let calls = ready_group(alloc, registry, tasks, at, workers, session)?;
    let Ok(()) = replies.reserve(calls.len()) else {
        return Err(Refusal::NoMemory);
    };
    let mut outcomes = Vec::new(alloc);
    match session.call_all(rt, calls, &mut outcomes) {
        Ok(()) => Ok(outcomes.into_iter()),
        Err(_) => Err(Refusal::NoMemory),
    }
}

// Prepares the runs of a worker's tasks from index `at`, up to the first task that cannot be prepared. If that is the task at
// `at`, returns its refusal.
fn ready_group<A: Allocator + Copy, G: Gate>(
    alloc: A,
    registry: &Registry<A>,
    tasks: &[Task<A>],
    at: usize,
    workers: usize,
    session: &Session<'_, A, G>,
) -> Result<Vec<SharedCommand<A>, A>, Refusal>
    requires known { AreTasksKnown registry.now.programs tasks.now }
    requires within { at < length tasks.now }
    requires some { 0 < workers }
    ensures runs { IfOk result (λ calls. AreRunsFrom registry.now.programs tasks.entry.now workers at calls.items) }
    ensures some { IfOk result (λ calls. 0 < length calls.items) }
    ensures refused { IfErr result (λ refusal. (task : Task A) → slice_get tasks.entry.now at ≡ Some task → IsTaskRefusal session.now.size (run_of registry.now.programs task) refusal) }
{
    match ready_task(alloc, registry, &tasks[at], session) {
        Ok(ready) => {
            let mut calls = Vec::new(alloc);
            let Ok(()) = calls.push(ready) else {
                return Err(Refusal::NoMemory);
            };
            Ok(ready_more(alloc, registry, tasks, at, workers, session, calls))
        }
        Err(refusal) => Err(refusal),
    }
}

// Appends the runs of the next tasks, up to the first task that cannot be prepared.
fn ready_more<A: Allocator + Copy, G: Gate>(
    alloc: A,
    registry: &Registry<A>,
    tasks: &[Task<A>],
    at: usize,
    workers: usize,
    session: &Session<'_, A, G>,
    calls: Vec<SharedCommand<A>, A>,
) -> Vec<SharedCommand<A>, A>
    requires known { AreTasksKnown registry.now.programs tasks.now }
    requires within { at < length tasks.now }
    requires some { 0 < workers }
    requires runs { AreRunsFrom registry.now.programs tasks.now workers at calls.items }
    requires one { place_behind workers at calls.items ≡ at + workers }
    requires any { 0 < length calls.items }
    ensures runs { AreRunsFrom registry.now.programs tasks.entry.now workers at result.items }
    ensures any { 0 < length result.items }
{
    let mut calls = calls;
    let mut last = at;
    while calls.len() < GROUP {
        let Some(next) = place_after(tasks, last, workers) else {
            return calls;
        };
        let Ok(ready) = ready_task(alloc, registry, &tasks[next], session) else {
            return calls;
        };
        let Ok(()) = calls.push(ready) else {
            return calls;
        };
        last = next;
    }
    calls
}

/// Returns the index of the worker's next task after index `at`, or `None` if there is no such task.
pub(crate) fn place_after<A: Allocator>(
    tasks: &[Task<A>],
    at: usize,
    workers: usize,
) -> Option<usize>
    requires { at < length tasks.now }
    ensures { IsNextIndex (length tasks.now) at workers result }
{
    if workers >= tasks.len() - at {
        return None;
    }
    Some(at + workers)
}

// Prepares the run of a task. Checks the sizes of the task before copying anything.
fn ready_task<A: Allocator + Copy, G: Gate>(
    alloc: A,
    registry: &Registry<A>,
    task: &Task<A>,
    session: &Session<'_, A, G>,
) -> Result<SharedCommand<A>, Refusal>
    requires known { IsKnown registry.now.programs task.now }
    ensures ok { IfOk result (λ ready. ready ≡ run_of registry.now.programs task.entry.now) }
    ensures refused { IfErr result (IsTaskRefusal session.now.size (run_of registry.now.programs task.entry.now)) }
{
    if let Err(fault) = check_run(
        task.key.as_slice(),
        task.arg.as_slice(),
        task.blank,
        session.page_size(),
    ) {
        return Err(refusal_for(fault));
    }
    match command_of(alloc, registry, task) {
        Ok(command) => Ok(command),
        Err(_) => Err(Refusal::NoMemory),
    }
}

// Returns the refusal for an invalid size.
fn refusal_for(fault: SizeFault) -> Refusal
    ensures { IsRefusalFor fault result }
{
    match fault {
        SizeFault::PairTooLarge => Refusal::PairTooLarge,
        SizeFault::ArgTooLong => Refusal::ArgTooLong,
    }
}

// Makes the command of a task. Returns an error if allocation fails or the program cannot have another owner.
fn command_of<A: Allocator + Copy>(
    alloc: A,
    registry: &Registry<A>,
    task: &Task<A>,
) -> Result<SharedCommand<A>, AllocError>
    requires { IsKnown registry.now.programs task.now }
    ensures { IfOk result (λ command. command ≡ run_of registry.now.programs task.entry.now) }
{
    let key = task.key.try_clone(alloc)?;
    let prog = program_of(registry, task.prog)?;
    let arg = task.arg.try_clone(alloc)?;
    let command = Command::Run {
        key,
        prog,
        arg,
        blank: task.blank,
        now: task.now,
    };
    match SharedCommand::new(alloc, command) {
        Ok(command) => Ok(command),
        Err(_) => Err(AllocError),
    }
}

// Adds an owner to the registered program with this number. Returns an error if the owner count is at its maximum.
fn program_of<A: Allocator + Copy>(
    registry: &Registry<A>,
    id: ProgId,
) -> Result<Program<A>, AllocError>
    requires { id.0 < length registry.now.programs }
    ensures { IfOk result (λ program. program ≡ code_of_program registry.now.programs id.0) }
{
    let Some(program) = registry.get(id) else {
        unreachable!()
    };
    Ok(Program::new(Arc::try_clone(program)?))
}
