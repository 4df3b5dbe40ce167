//! A gate that observes and delays jobs.
ghost use Rattle.std.specs.Prelude.{◌≡◌, IfOk, IfErr};

use desk_core::{Done, Job};
use std::alloc::{AllocError, Allocator};
use std::fmt::Write;
use std::sync::atomic::{AtomicU64, Ordering};
use store_shared::Gate;

/// The behavior of a gate.
#[derive(Clone, Copy)]
pub enum Manner {
    /// Computes the jobs.
    Free,
    /// Wants no jobs, so that sessions take no ticket.
    Passing,
    /// Returns the first job, as if allocation failed.
    Refusing,
    /// Holds each of two sessions at work until both have arrived, and session 0 until the other has finished.
    Meeting,
    /// Holds the first job of session 0 at work until this number of jobs arrived. Then holds the job for a while, so that
    /// other jobs wait for its page, and computes it.
    Keeping(u64),
    /// Holds a job like `Keeping`, and then returns it, as if allocation failed.
    Dropping(u64),
    /// Wants a job only for the first call, and holds that job at work for a while. The other calls wait until the job has
    /// arrived, and take no ticket.
    First,
}

/// The state of a gate: its behavior, and counts of the calls of `wants_jobs`, of the held jobs that began, of the jobs that
/// arrived, of the jobs that finished, and of the waits that timed out.
#[derive(Drop)]
pub struct Watch {
    manner: Manner,
    asked: AtomicU64,
    began: AtomicU64,
    came: AtomicU64,
    finished: AtomicU64,
    gave_up: AtomicU64,
}

// The number of polls after which a thread stops waiting.
const TURNS: u64 = 1_000_000_000;

// The number of polls for which `linger` waits. They take far longer than another thread needs to begin to wait.
const LINGERED: u64 = 20_000_000;

impl Watch {
    /// A watch whose counts are zero.
    pub fn new(manner: Manner) -> Self {
        Watch {
            manner,
            asked: AtomicU64::new(0),
            began: AtomicU64::new(0),
            came: AtomicU64::new(0),
            finished: AtomicU64::new(0),
            gave_up: AtomicU64::new(0),
        }
    }

    /// The watched gate.
    pub fn gate(&self) -> WatchedGate<'_> {
        WatchedGate { watch: self }
    }

    /// Writes the counts.
    pub fn show(&self, out: &mut String) -> Result<(), AllocError> {
        let came = self.came.load(Ordering::SeqCst);
        let finished = self.finished.load(Ordering::SeqCst);
        let gave_up = self.gave_up.load(Ordering::SeqCst);
        writeln!(
            out,
            "gate: {came} came, {finished} finished, {gave_up} gave up"
        )
    }

    // Waits until a count is reached, or counts a wait that timed out.
    fn wait_for(&self, count: &AtomicU64, wanted: u64) {
        for _ in 0..TURNS {
            if count.load(Ordering::SeqCst) >= wanted {
                return;
            }
        }
        self.gave_up.fetch_add(1, Ordering::SeqCst);
    }

    // Holds the first job of session 0 until `wanted` jobs arrived, and then for a while. The other sessions wait until that
    // job has arrived. Returns `true` if the job was held.
    fn keeps(&self, session: u64, wanted: u64) -> bool {
        if session != 0 {
            self.wait_for(&self.began, 1);
            return false;
        }
        if self.began.fetch_add(1, Ordering::SeqCst) > 0 {
            return false;
        }
        self.wait_for(&self.came, wanted);
        self.linger();
        true
    }

    // Waits for a while.
    fn linger(&self) {
        for _ in 0..LINGERED {
            self.came.load(Ordering::SeqCst);
        }
    }

    // Returns `true` if a call should come as a job.
    fn wants_jobs(&self) -> bool {
        match self.manner {
            Manner::Passing => false,
            Manner::First => {
                if self.asked.fetch_add(1, Ordering::SeqCst) == 0 {
                    return true;
                }
                self.wait_for(&self.began, 1);
                false
            }
            _ => true,
        }
    }

    // Records that a session's job arrived. Returns `true` if it should be computed.
    fn comes(&self, session: u64) -> bool {
        let before = self.came.fetch_add(1, Ordering::SeqCst);
        match self.manner {
            Manner::Free | Manner::Passing => true,
            Manner::Refusing => before > 0,
            Manner::Meeting => {
                self.wait_for(&self.came, 2);
                if session == 0 {
                    self.wait_for(&self.finished, 1);
                }
                true
            }
            Manner::Keeping(wanted) => {
                self.keeps(session, wanted);
                true
            }
            Manner::Dropping(wanted) => !self.keeps(session, wanted),
            Manner::First => {
                self.began.fetch_add(1, Ordering::SeqCst);
                self.linger();
                true
            }
        }
    }
}

/// The gate of a watch.
#[derive(Clone, Copy)]
pub struct WatchedGate<'w> {
    watch: &'w Watch,
}

impl<'w> Gate for WatchedGate<'w> {
    fn work<A: Allocator + Copy>(
        &self,
        session: u64,
        job: Job<A>,
    ) -> Result<Done<A>, (AllocError, Job<A>)>
        ensures ok { IfOk result (λ done. done ≡ job) }
        ensures returned { IfErr result (λ refused. refused.1 ≡ job) }
    {
        if !self.watch.comes(session) {
            return Err((AllocError, job));
        }
        job.work()
    }

    fn after(&self, _session: u64) {
        self.watch.finished.fetch_add(1, Ordering::SeqCst);
    }

    fn wants_jobs(&self) -> bool {
        self.watch.wants_jobs()
    }
}
