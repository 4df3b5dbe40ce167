//! Tasks and their results.
use prog_registry::ProgId;
use sdbm_addr::Bytes;
use std::alloc::Allocator;
use store_cmd::{Refusal, Reply};
use store_shared::Calls;

/// A run of a registered program on the record of a key, with the operands of `Session::run`.
#[derive(Drop)]
pub struct Task<A: Allocator> {
    pub key: Bytes<A>,
    pub prog: ProgId,
    pub arg: Bytes<A>,
    /// The number of zero bytes on which the program runs if the key is missing.
    pub blank: Option<usize>,
    /// The time that the program sees.
    pub now: u64,
}

/// The results of a list of tasks that were all run.
#[derive(Drop)]
pub struct Answers<A: Allocator> {
    /// A reply for each task, in the order of the tasks.
    pub replies: Vec<Reply<A>, A>,
    /// The calls of each worker, in the order of the workers.
    pub calls: Vec<Calls<A>, A>,
}

/// The reason why some task was not run.
#[derive(Clone, Copy, Debug, PartialEq, Eq)]
pub enum PoolFault {
    /// There are no workers. No session was made.
    NoWorkers,
    /// The index of the first task whose program is not in the registry. No session was made.
    NoProgram(usize),
    /// The store made too few sessions. No task was run.
    NoSession,
    /// Never returned. A worker for which no thread can be made runs without its own thread.
    NoThread(usize),
    /// The index of the first refused task, and its refusal.
    Refused(usize, Refusal),
    /// There is no memory for the lists of replies, calls and workers. No session was made.
    NoMemory,
}
