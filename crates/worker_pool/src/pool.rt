//! Runs tasks by a pool of workers: makes the workers, runs the tasks, and gathers the results.
ghost use Rattle.std.specs.Prelude.{◌≡◌, ◌↔◌, ◌≤◌, [], IsTrue, IfNone, IfOk, IfErr, IfSome, OnOk, length, vec_len, vec_capacity};
ghost use Rattle.sdbm_addr.specs.declared.PageSize.{PageSize};
ghost use Rattle.std.specs.List.{All};
ghost use Rattle.worker_pool.specs.Tasks.{AreTasksKnown, IsFirstUnknown, IsKnown};
ghost use Rattle.worker_pool.specs.Shares.{IsUnused};
ghost use Rattle.worker_pool.specs.Pool.{MayBegin, AreDone, IsPoolFault, IsUnfinished, IsUnready};

use crate::crew::{Worker, hire, set_to_work};
use crate::gather::{Room, dismiss, first_refused, gather};
use crate::task::{Answers, PoolFault, Task};
use prog_registry::Registry;
use std::alloc::Allocator;
use std::sync::Wait;
use std::thread::Threads;
use store_shared::{Calls, Gate, Store};

/// Runs tasks with the given number of workers. Each worker has a new session of the store, and its own thread if a thread can
/// be made. Worker `i % workers` runs task `i`; each worker runs its tasks in ascending order. A refused task is skipped, and
/// all other tasks are run.
///
/// # Errors
/// On any error, the calls of the sessions that were made are returned in the order of the workers. `Store::close` needs these
/// calls, and they say which tasks were run. Checked in this order:
/// - `NoWorkers` if `workers` is 0.
/// - `NoProgram` with the first task whose program is not in the registry.
/// - `NoMemory` if there is no memory for the lists of replies, calls and workers, or `NoSession` if the store makes too few
///   sessions. No task was run.
/// - `Refused` with the first refused task and its refusal. The refusal is `NoMemory` if there was no memory for that task.
pub fn run_jobs<R: Threads + Wait + Sync, A: Allocator + Copy + Send + Sync, G: Gate>(
    rt: &R,
    alloc: A,
    store: &Store<A, G>,
    registry: &Registry<A>,
    tasks: &[Task<A>],
    workers: usize,
) -> Result<Answers<A>, (PoolFault, Vec<Calls<A>, A>)>
    ensures ok { IfOk result (λ answers. AreDone store.now.size registry.now.programs tasks.now workers answers.replies.items answers.calls.items) }
    ensures err { IfErr result (λ refused. IsPoolFault store.now.size registry.now.programs tasks.now workers refused.0 refused.1.items) }
{
    match make_ready(alloc, registry, tasks, workers) {
        Ok(ready) => run_ready(rt, alloc, store, registry, tasks, workers, ready),
        Err(fault) => Err((fault, Vec::new(alloc))),
    }
}

// The lists that are allocated before a session is made: one for the workers, and those for their results.
#[derive(Drop)]
struct Ready<'a, A: Allocator, G: Gate> {
    crew: Vec<Worker<'a, A, G>, A>,
    room: Room<A>,
}

// Checks the arguments and allocates all lists. The store is not an argument, so no task was run if this function fails.
fn make_ready<'a, A: Allocator + Copy, G: Gate>(
    alloc: A,
    registry: &Registry<A>,
    tasks: &[Task<A>],
    workers: usize,
) -> Result<Ready<'a, A, G>, PoolFault>
    ensures begun { OnOk result (MayBegin registry.now.programs tasks.now workers) }
    ensures crew { IfOk result (λ ready. (ready.crew.items ≡ []) × (workers ≤ vec_capacity ready.crew)) }
    ensures replies { IfOk result (λ ready. (ready.room.replies.items ≡ []) × (length tasks.now ≤ vec_capacity ready.room.replies) × (vec_len ready.room.replies ≡ 0)) }
    ensures lists { IfOk result (λ ready. (ready.room.lists.items ≡ []) × (workers ≤ vec_capacity ready.room.lists)) }
    ensures calls { IfOk result (λ ready. (ready.room.calls.items ≡ []) × (workers ≤ vec_capacity ready.room.calls)) }
    ensures err { IfErr result (IsUnready registry.now.programs tasks.now workers) }
{
    if workers == 0 {
        return Err(PoolFault::NoWorkers);
    }
    if let Some(task) = first_unknown(registry, tasks) {
        return Err(PoolFault::NoProgram(task));
    }
    let Ok(crew) = Vec::with_capacity(alloc, workers) else {
        return Err(PoolFault::NoMemory);
    };
    let Ok(room) = Room::new(alloc, tasks.len(), workers) else {
        return Err(PoolFault::NoMemory);
    };
    Ok(Ready { crew, room })
}

// Makes the sessions and runs the tasks.
fn run_ready<'a, R: Threads + Wait + Sync, A: Allocator + Copy + Send + Sync, G: Gate>(
    rt: &R,
    alloc: A,
    store: &'a Store<A, G>,
    registry: &Registry<A>,
    tasks: &[Task<A>],
    workers: usize,
    ready: Ready<'a, A, G>,
) -> Result<Answers<A>, (PoolFault, Vec<Calls<A>, A>)>
    requires begun { MayBegin registry.now.programs tasks.now workers }
    requires crew { (ready.crew.items ≡ []) × (workers ≤ vec_capacity ready.crew) }
    requires replies { (ready.room.replies.items ≡ []) × (length tasks.now ≤ vec_capacity ready.room.replies) × (vec_len ready.room.replies ≡ 0) }
    requires lists { (ready.room.lists.items ≡ []) × (workers ≤ vec_capacity ready.room.lists) }
    requires calls { (ready.room.calls.items ≡ []) × (workers ≤ vec_capacity ready.room.calls) }
    ensures ok { IfOk result (λ answers. AreDone store.now.size registry.now.programs tasks.now workers answers.replies.items answers.calls.items) }
    ensures err { IfErr result (λ refused. IsUnfinished store.now.size registry.now.programs tasks.now workers refused.0 refused.1.items) }
{
    let Ready { crew, room } = ready;
    match hire(rt, alloc, store, workers, crew) {
        Ok(crew) => run_crew(rt, registry, tasks, crew, room),
        Err(crew) => {
            let Room {
                mut lists,
                mut calls,
                ..
            } = room;
            dismiss(crew, &mut lists, &mut calls);
            Err((PoolFault::NoSession, calls))
        }
    }
}

// Runs all tasks and gathers the results.
fn run_crew<R: Threads + Wait + Sync, A: Allocator + Copy + Send + Sync, G: Gate>(
    rt: &R,
    registry: &Registry<A>,
    tasks: &[Task<A>],
    crew: Vec<Worker<'_, A, G>, A>,
    room: Room<A>,
) -> Result<Answers<A>, (PoolFault, Vec<Calls<A>, A>)>
    requires begun { MayBegin registry.now.programs tasks.now (length crew.items) }
    requires unused { All (λ x. IsUnused x.session x.replies.items) crew.items }
    requires replies { (room.replies.items ≡ []) × (length tasks.now ≤ vec_capacity room.replies) × (vec_len room.replies ≡ 0) }
    requires lists { (room.lists.items ≡ []) × (length crew.items ≤ vec_capacity room.lists) }
    requires calls { (room.calls.items ≡ []) × (length crew.items ≤ vec_capacity room.calls) }
    ensures ok { IfOk result (λ answers. (size : PageSize) → All (λ x. x.session.size ≡ size) crew.entry.items → AreDone size registry.now.programs tasks.now (length crew.entry.items) answers.replies.items answers.calls.items) }
    ensures err { IfErr result (λ refused. (size : PageSize) → All (λ x. x.session.size ≡ size) crew.entry.items → IsUnfinished size registry.now.programs tasks.now (length crew.entry.items) refused.0 refused.1.items) }
{
    let mut crew = crew;
    set_to_work(rt, registry, tasks, crew.as_mut_slice());
    let refused = first_refused(crew.as_slice());
    let Room {
        mut replies,
        mut lists,
        mut calls,
    } = room;
    dismiss(crew, &mut lists, &mut calls);
    if let Some((task, refusal)) = refused {
        return Err((PoolFault::Refused(task, refusal), calls));
    }
    gather(tasks, lists.as_mut_slice(), &mut replies);
    Ok(Answers { replies, calls })
}

// Returns the index of the first task whose program is not in the registry, if there is such a task.
fn first_unknown<A: Allocator>(registry: &Registry<A>, tasks: &[Task<A>]) -> Option<usize>
    ensures none { IfNone result (AreTasksKnown registry.now.programs tasks.now) }
    ensures some { IfSome result (IsFirstUnknown registry.now.programs tasks.now) }
{
    for at in 0..tasks.len() {
        if !is_known(registry, &tasks[at]) {
            return Some(at);
        }
    }
    None
}

// Returns `true` if the program of a task is in the registry.
fn is_known<A: Allocator>(registry: &Registry<A>, task: &Task<A>) -> bool
    ensures { IsTrue result ↔ IsKnown registry.now.programs task.entry.now }
{
    registry.get(task.prog).is_some()
}
