//! Workers, each with its own session.
ghost use Rattle.std.specs.Prelude.{◌≡◌, ◌<◌, ◌+◌, ◌≤◌, ◌++◌, [], ℕ, map, IsTrue, IfNone, IfOk, IfErr, IfSome, OnErr, length, slice_get, slice_index_or, vec_len, vec_capacity};
ghost use Rattle.std.specs.List.{All};
ghost use Rattle.worker_pool.specs.Shares.{IsUnused, HasWorked};
ghost use Rattle.worker_pool.specs.Pool.{MayBegin};

use crate::share::do_share;
use crate::task::Task;
use prog_registry::Registry;
use std::alloc::Allocator;
use std::sync::Wait;
use std::thread;
use std::thread::Threads;
use store_cmd::{Refusal, Reply};
use store_shared::{Gate, Session, Store};

/// A worker: its session, its replies, and its first refused task with the refusal.
#[derive(Drop)]
pub(crate) struct Worker<'a, A: Allocator, G: Gate> {
    pub(crate) session: Session<'a, A, G>,
    pub(crate) replies: Vec<Reply<A>, A>,
    pub(crate) refused: Option<(usize, Refusal)>,
}

/// Makes the workers, each with a new session. If the store makes too few sessions, returns the workers made so far as an error.
pub(crate) fn hire<'a, R: Wait, A: Allocator + Copy, G: Gate>(
    rt: &R,
    alloc: A,
    store: &'a Store<A, G>,
    workers: usize,
    crew: Vec<Worker<'a, A, G>, A>,
) -> Result<Vec<Worker<'a, A, G>, A>, Vec<Worker<'a, A, G>, A>>
    requires none { crew.items ≡ [] }
    requires room { workers ≤ vec_capacity crew }
    ensures all { IfOk result (λ crew. length crew.items ≡ workers) }
    ensures unused { IfOk result (λ crew. All (λ x. IsUnused x.session x.replies.items) crew.items) }
    ensures sizes { IfOk result (λ crew. All (λ x. x.session.size ≡ store.now.size) crew.items) }
    ensures few { IfErr result (λ crew. length crew.items < workers) }
    ensures idle { IfErr result (λ crew. All (λ x. IsUnused x.session x.replies.items) crew.items) }
{
    let mut crew = crew;
    for worker in 0..workers {
        let Ok(session) = store.session(rt) else {
            return Err(crew);
        };
        crew.push_reserved(Worker {
            session,
            replies: Vec::new(alloc),
            refused: None,
        });
    }
    Ok(crew)
}

/// Runs each worker's share. A worker runs in its own thread if a thread can be made; the workers without a thread run one
/// after another.
pub(crate) fn set_to_work<R: Threads + Wait + Sync, A: Allocator + Copy + Send + Sync, G: Gate>(
    rt: &R,
    registry: &Registry<A>,
    tasks: &[Task<A>],
    crew: &mut [Worker<'_, A, G>],
)
    requires begun { MayBegin registry.now.programs tasks.now (length crew.old) }
    requires unused { All (λ x. IsUnused x.session x.replies.items) crew.old }
    ensures sizes { (w : ℕ) → IfSome (slice_get crew.new w) (λ x. IfSome (slice_get crew.old w) (λ y. x.session.size ≡ y.session.size)) }
    ensures worked { (w : ℕ) → IfSome (slice_get crew.new w) (λ x. HasWorked registry.now.programs tasks.now (length crew.old) w x.session x.replies.items x.refused) }
{
    let workers = crew.len();
    let share = move |at: usize, worker: &mut Worker<'_, A, G>|
        requires { (at < workers) × (MayBegin registry.now.programs tasks.now workers × IsUnused worker.now.session worker.now.replies.items) }
        ensures size { worker.exit.now.session.size ≡ worker.entry.now.session.size }
        ensures worked { HasWorked registry.entry.now.programs tasks.entry.now workers at worker.exit.now.session worker.exit.now.replies.items worker.exit.now.refused }
    {
        worker.refused = do_share(
            rt,
            registry,
            tasks,
            at,
            workers,
            &mut worker.session,
            &mut worker.replies,
        )
    };
    thread::for_each_mut(rt, crew, workers, &share);
}
