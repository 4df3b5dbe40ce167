//! The values of a program's registers, the answers of its helpers, and the meaning of its runs.
//!
//! `helper_of` and `call` find a helper by its number, and `result` returns its possible answers.
//! `memory` reads and writes numbers and bytes for both machines. The definitions of a step, of
//! safety and of the meaning of a run are in `specs/`.
#![tactic(auto)]

mod ends;
mod helpers;
mod limits;
pub mod memory;
mod values;

pub use ends::Ended;
pub use helpers::{Helper, call, copies, helper_of, known, result, takes_number};
pub use limits::{ARGUMENT_LIMIT, COPY_LIMIT, RECORD_LIMIT};
pub use values::{Env, Region, Value};
