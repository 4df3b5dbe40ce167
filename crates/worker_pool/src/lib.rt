//! Runs tasks on one store by a pool of workers. A task is a run of a registered program. Each worker has its own session and,
//! if a thread can be made, its own thread.
#![tactic(auto)]

mod crew;
mod fault_text;
mod gather;
mod group;
mod pool;
mod share;
mod task;

pub use pool::run_jobs;
pub use task::{Answers, PoolFault, Task};
