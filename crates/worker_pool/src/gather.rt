//! Gathers the calls and the replies of workers.
ghost use Rattle.std.specs.Prelude.{◌≡◌, ◌<◌, ◌+◌, ◌≤◌, ◌++◌, [], ℕ, map, IsTrue, IfOk, length, slice_index_or, vec_len, vec_capacity};
ghost use Rattle.std.specs.Vec.Iter.{into_iter_items};
ghost use Rattle.store_shared.specs.Shared.{calls_left};
ghost use Rattle.worker_pool.specs.Shares.{share_of, IsFirstIn, IsLowerOf};

use crate::crew::Worker;
use crate::task::Task;
use std::alloc::{AllocError, Allocator};
use std::vec::IntoIter;
use store_cmd::{Refusal, Reply};
use store_shared::{Calls, Gate};

/// The lists for the results of workers. They are allocated before anything runs.
#[derive(Drop)]
pub(crate) struct Room<A: Allocator> {
    /// The replies of all tasks.
    pub(crate) replies: Vec<Reply<A>, A>,
    /// The replies of each worker.
    pub(crate) lists: Vec<IntoIter<Reply<A>, A>, A>,
    /// The calls of each worker.
    pub(crate) calls: Vec<Calls<A>, A>,
}

impl<A: Allocator + Copy> Room<A> {
    /// Allocates lists for this number of tasks and workers, or returns an error if allocation fails.
    pub(crate) fn new(alloc: A, tasks: usize, workers: usize) -> Result<Self, AllocError>
        ensures replies { IfOk result (λ room. (room.replies.items ≡ []) × (tasks ≤ vec_capacity room.replies) × (vec_len room.replies ≡ 0)) }
        ensures lists { IfOk result (λ room. (room.lists.items ≡ []) × (workers ≤ vec_capacity room.lists)) }
        ensures calls { IfOk result (λ room. (room.calls.items ≡ []) × (workers ≤ vec_capacity room.calls)) }
    {
        Ok(Room {
            replies: Vec::with_capacity(alloc, tasks)?,
            lists: Vec::with_capacity(alloc, workers)?,
            calls: Vec::with_capacity(alloc, workers)?,
        })
    }
}

/// Returns the first refused task of all workers and its refusal, or `None` if no task was refused.
pub(crate) fn first_refused<A: Allocator, G: Gate>(
    crew: &[Worker<'_, A, G>],
) -> Option<(usize, Refusal)>
    ensures { IsFirstIn (map (λ x. x.refused) crew.now) result }
{
    let mut first = None;
    for worker in crew {
        first = lower(first, worker.refused);
    }
    first
}

// Returns the refused task with the lower index. `None` counts as later than any task.
fn lower(one: Option<(usize, Refusal)>, other: Option<(usize, Refusal)>) -> Option<(usize, Refusal)>
    ensures { IsLowerOf one other result }
{
    let Some(first) = one else {
        return other;
    };
    let Some(second) = other else {
        return one;
    };
    if second.0 < first.0 {
        return other;
    }
    one
}

/// Ends the sessions of workers. Adds their replies to `lists` and their calls to `calls`.
pub(crate) fn dismiss<A: Allocator + Copy, G: Gate>(
    crew: Vec<Worker<'_, A, G>, A>,
    lists: &mut Vec<IntoIter<Reply<A>, A>, A>,
    calls: &mut Vec<Calls<A>, A>,
)
    requires lists { (lists.old.items ≡ []) × (length crew.items ≤ vec_capacity lists.old) }
    requires calls { (calls.old.items ≡ []) × (length crew.items ≤ vec_capacity calls.old) }
    ensures lists { map (λ list. into_iter_items list) lists.new.items ≡ map (λ x. x.replies.items) crew.entry.items }
    ensures calls { calls.new.items ≡ map (λ x. calls_left x.session) crew.entry.items }
{
    for worker in crew {
        let Worker {
            session,
            replies,
            ..
        } = worker;
        lists.push_reserved(replies.into_iter());
        calls.push_reserved(session.into_calls());
    }
}

/// Takes one reply from each worker's list in turn, which gives the replies in the order of the tasks.
pub(crate) fn gather<A: Allocator>(
    tasks: &[Task<A>],
    lists: &mut [IntoIter<Reply<A>, A>],
    replies: &mut Vec<Reply<A>, A>,
)
    requires some { 0 < length lists.old }
    requires shares { (w : ℕ) (d : _) → w < length lists.old → length (into_iter_items (slice_index_or lists.old w d)) ≡ length (share_of (length lists.old) w tasks.now) }
    requires room { (replies.old.items ≡ []) × (length tasks.now ≤ vec_capacity replies.old) × (vec_len replies.old ≡ 0) }
    ensures all { length replies.new.items ≡ length tasks.now }
    ensures shares { (w : ℕ) (d : _) → w < length lists.old → share_of (length lists.old) w replies.new.items ≡ into_iter_items (slice_index_or lists.old w d) }
{
    let workers = lists.len();
    for at in 0..tasks.len() {
        let Some(reply) = lists[at % workers].next() else {
            unreachable!()
        };
        replies.push_reserved(reply);
    }
}
