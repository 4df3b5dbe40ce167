//! The store that sessions share.
ghost use Rattle.std.specs.Prelude.{◌≡◌, IfOk, IfErr};

use desk_core::{Desk, Done, Job};
use sdbm_addr::{KeyBytes, PageSize};
use std::alloc::{AllocError, Allocator};
use std::marker::Model;
use std::sync::{Condvar, Mutex};
use store_cmd::Opening;

/// A hook around the jobs of sessions, which can observe or delay the jobs. All its methods are called without the lock.
pub trait Gate: Sync + Drop {
    /// Computes a session's job like `Job::work`. If out of memory, returns the job.
    fn work<A: Allocator + Copy>(
        &self,
        session: u64,
        job: Job<A>,
    ) -> Result<Done<A>, (AllocError, Job<A>)>
        ensures ok { IfOk result (λ done. done ≡ job) }
        ensures returned { IfErr result (λ refused. refused.1 ≡ job) };

    /// Called after a session's job was finished; not called for a count or a refused call.
    fn after(&self, session: u64);

    /// Returns true if every command about a key must come as a job. If false, a session may answer a command without a job,
    /// and then `work` and `after` are not called.
    fn wants_jobs(&self) -> bool {
        true
    }
}

/// A gate that only computes jobs, and does not require them.
#[derive(Clone, Copy, Debug)]
pub struct NoGate;

impl Gate for NoGate {
    fn work<A: Allocator + Copy>(
        &self,
        _session: u64,
        job: Job<A>,
    ) -> Result<Done<A>, (AllocError, Job<A>)>
        ensures ok { IfOk result (λ done. done ≡ job) }
        ensures returned { IfErr result (λ refused. refused.1 ≡ job) }
    {
        job.work()
    }

    fn after(&self, _session: u64) {}

    fn wants_jobs(&self) -> bool {
        false
    }
}

/// The state that the lock protects.
#[derive(Drop)]
pub(crate) struct Core<A: Allocator> {
    pub(crate) desk: Desk<A>,
    // the number of sessions made
    pub(crate) sessions: u64,
    // true if a session waits for a ticket to be closed
    pub(crate) waited_for: bool,
}

/// A database shared by sessions. It is modelled as its hash kind, its page size, and the pairs with which it was opened.
#[derive(Drop)]
pub struct Store<A: Allocator, G: Gate> {
    pub(crate) alloc: A,
    pub(crate) gate: G,
    pub(crate) kind: KeyBytes,
    pub(crate) size: PageSize,
    pub(crate) opening: Opening<A>,
    pub(crate) core: Mutex<Core<A>>,
    pub(crate) changed: Condvar,
}

impl<A: Allocator, G: Gate> Model for Store<A, G> {
    ghost use Rattle.store_shared.specs.Shared.{Opened};

    ghost Value = { Opened };

    ghost view = { λ a. record { kind = a.kind; size = a.size; opening = a.opening } };
}
