//! The work of one worker.
ghost use Rattle.std.specs.Prelude.{◌≡◌, ◌<◌, ◌≤◌, ◌+◌, ◌%◌, length, vec_len, vec_capacity};
ghost use Rattle.std.specs.Vec.Iter.{into_iter_items};
ghost use Rattle.worker_pool.specs.Tasks.{AreTasksKnown};
ghost use Rattle.worker_pool.specs.Shares.{first_with, HasWorked, IsUnused};
ghost use Rattle.worker_pool.specs.Groups.{HasTried, HasCalled, IsReplyTaken, IsProgress};

use crate::group::{call_group, place_after};
use crate::task::Task;
use prog_registry::Registry;
use std::alloc::Allocator;
use std::sync::Wait;
use std::vec::IntoIter;
use store_cmd::{Refusal, Reply};
use store_shared::{Gate, Session};

// The progress of a worker: the index of its next task, if a task is left, and its first refused task with the refusal.
#[derive(Clone, Copy)]
struct Progress {
    next: Option<usize>,
    first: Option<(usize, Refusal)>,
}

/// Runs a worker's share of the tasks in order: every `workers`-th task, beginning with the task at index `worker`. Skips
/// refused tasks. Returns the index of the first refused task and its refusal, or `None` if no task was refused.
pub(crate) fn do_share<R: Wait, A: Allocator + Copy, G: Gate>(
    rt: &R,
    registry: &Registry<A>,
    tasks: &[Task<A>],
    worker: usize,
    workers: usize,
    session: &mut Session<'_, A, G>,
    replies: &mut Vec<Reply<A>, A>,
) -> Option<(usize, Refusal)>
    requires worker { worker < workers }
    requires known { AreTasksKnown registry.now.programs tasks.now }
    requires unused { IsUnused session.old replies.old.items }
    ensures worked { HasWorked registry.now.programs tasks.now workers worker session.new replies.new.items result }
    ensures size { session.new.size ≡ session.old.size }
{
    let mut first = None;
    let mut at = worker;
    while at < tasks.len() {
        let progress = do_group(rt, registry, tasks, at, workers, session, replies, first);
        first = progress.first;
        let Some(next) = progress.next else {
            return first;
        };
        at = next;
    }
    first
}

// Runs a group of the worker's tasks, beginning with the task at index `at`.
fn do_group<R: Wait, A: Allocator + Copy, G: Gate>(
    rt: &R,
    registry: &Registry<A>,
    tasks: &[Task<A>],
    at: usize,
    workers: usize,
    session: &mut Session<'_, A, G>,
    replies: &mut Vec<Reply<A>, A>,
    first: Option<(usize, Refusal)>,
) -> Progress
    requires known { AreTasksKnown registry.now.programs tasks.now }
    requires within { at < length tasks.now }
    requires some { 0 < workers }
    requires tried { HasTried registry.now.programs tasks.now workers (at % workers) at session.old replies.old.items first }
    ensures progress { IsProgress registry.now.programs tasks.now workers (at % workers) at session.new replies.new.items result }
    ensures size { session.new.size ≡ session.old.size }
{
    match call_group(rt, registry, tasks, at, workers, session, replies) {
        Ok(outcomes) => take_all(
            registry, tasks, at, workers, session, outcomes, replies, first,
        ),
        Err(refusal) => Progress {
            next: place_after(tasks, at, workers),
            first: earlier(first, at, Some(refusal)),
        },
    }
}

// Records the outcomes of a group of runs that begins with the task at index `at`.
fn take_all<A: Allocator + Copy, G: Gate>(
    registry: &Registry<A>,
    tasks: &[Task<A>],
    at: usize,
    workers: usize,
    session: &Session<'_, A, G>,
    outcomes: IntoIter<Result<Reply<A>, Refusal>, A>,
    replies: &mut Vec<Reply<A>, A>,
    first: Option<(usize, Refusal)>,
) -> Progress
    requires within { at < length tasks.now }
    requires some { 0 < workers }
    requires any { 0 < length (into_iter_items outcomes) }
    requires room { length (into_iter_items outcomes) + vec_len replies.old ≤ vec_capacity replies.old }
    requires called { HasCalled registry.now.programs tasks.now workers (at % workers) at (into_iter_items outcomes) session.now replies.old.items first }
    ensures { IsProgress registry.now.programs tasks.now workers (at % workers) at session.now replies.new.items result }
{
    let mut first = first;
    let mut at = at;
    for outcome in outcomes {
        let refusal = take(outcome, replies);
        first = earlier(first, at, refusal);
        let Some(next) = place_after(tasks, at, workers) else {
            return Progress { next: None, first };
        };
        at = next;
    }
    Progress {
        next: Some(at),
        first,
    }
}

// Appends the reply of an answered call to `replies`, which has capacity for one more. Returns the refusal of any other call.
fn take<A: Allocator>(
    outcome: Result<Reply<A>, Refusal>,
    replies: &mut Vec<Reply<A>, A>,
) -> Option<Refusal>
    requires { vec_len replies.old + 1 ≤ vec_capacity replies.old }
    ensures taken { IsReplyTaken outcome replies.old.items replies.new.items result }
    ensures len { vec_len replies.new ≤ vec_len replies.old + 1 }
    ensures room { vec_capacity replies.new ≡ vec_capacity replies.old }
{
    match outcome {
        Ok(reply) => {
            replies.push_reserved(reply);
            None
        }
        Err(refusal) => Some(refusal),
    }
}

// Returns the first refused task: `first` if it is a task, otherwise the task at index `at` if that task was refused.
fn earlier(
    first: Option<(usize, Refusal)>,
    at: usize,
    refusal: Option<Refusal>,
) -> Option<(usize, Refusal)>
    ensures { result ≡ first_with first at refusal }
{
    if first.is_some() {
        return first;
    }
    match refusal {
        Some(refusal) => Some((at, refusal)),
        None => None,
    }
}
