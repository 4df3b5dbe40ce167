//! A gate at which sessions meet.
ghost use Rattle.std.specs.Prelude.{◌≡◌, IfOk, IfErr};

use desk_core::{Done, Job};
use std::alloc::{AllocError, Allocator};
use std::sync::atomic::{AtomicU64, Ordering};
use store_shared::Gate;

// The number of polls after which a thread stops waiting.
const TURNS: u64 = 1_000_000_000;

/// A meeting of sessions at work. It has the number of sessions that have to meet, a flag that no job comes to the gate, the
/// number of jobs that came, the number of times that session 1 finished, and the number of waits that timed out.
#[derive(Drop)]
pub struct Meeting {
    wanted: AtomicU64,
    passed: AtomicU64,
    came: AtomicU64,
    done: AtomicU64,
    vain: AtomicU64,
}

impl Meeting {
    /// Creates a meeting that makes no session wait.
    pub fn new() -> Self {
        Meeting {
            wanted: AtomicU64::new(0),
            passed: AtomicU64::new(0),
            came: AtomicU64::new(0),
            done: AtomicU64::new(0),
            vain: AtomicU64::new(0),
        }
    }

    /// Keeps all jobs from the gate from now on.
    pub fn pass(&self) {
        self.passed.store(1, Ordering::SeqCst);
    }

    /// Makes `wanted` sessions meet from now on, or none if `wanted` is 0. Resets the counts, and lets all jobs come to the
    /// gate.
    pub fn want(&self, wanted: u64) {
        self.passed.store(0, Ordering::SeqCst);
        for count in [&self.came, &self.done, &self.vain] {
            count.store(0, Ordering::SeqCst);
        }
        self.wanted.store(wanted, Ordering::SeqCst);
    }

    /// The number of jobs that came, and the number of waits that timed out.
    pub fn counts(&self) -> (u64, u64) {
        (
            self.came.load(Ordering::SeqCst),
            self.vain.load(Ordering::SeqCst),
        )
    }

    // Waits until a count is reached, or counts a wait that timed out.
    fn wait_for(&self, count: &AtomicU64, wanted: u64) {
        for _ in 0..TURNS {
            if count.load(Ordering::SeqCst) >= wanted {
                return;
            }
        }
        self.vain.fetch_add(1, Ordering::SeqCst);
    }

    // Records that a session is at work, and waits for the others.
    fn come(&self, session: u64) {
        self.came.fetch_add(1, Ordering::SeqCst);
        let wanted = self.wanted.load(Ordering::SeqCst);
        if wanted == 0 {
            return;
        }
        self.wait_for(&self.came, wanted);
        if session == 0 {
            self.wait_for(&self.done, 1);
        }
    }
}

/// A gate that holds sessions at work until they have met, if a meeting is set.
#[derive(Clone, Copy)]
pub struct MeetingGate<'a> {
    pub meeting: &'a Meeting,
}

impl<'a> Gate for MeetingGate<'a> {
    fn work<A: Allocator + Copy>(
        &self,
        session: u64,
        job: Job<A>,
    ) -> Result<Done<A>, (AllocError, Job<A>)>
        ensures ok { IfOk result (λ done. done ≡ job) }
        ensures returned { IfErr result (λ refused. refused.1 ≡ job) }
    {
        self.meeting.come(session);
        job.work()
    }

    fn after(&self, session: u64) {
        if session == 1 {
            self.meeting.done.fetch_add(1, Ordering::SeqCst);
        }
    }

    fn wants_jobs(&self) -> bool {
        self.meeting.passed.load(Ordering::SeqCst) == 0
    }
}
