//! Explains in text why the verifier accepts or refuses a program.
//!
//! `explain_accepted` and `explain_refused` return a program's instructions, each with the facts that the verifier knows before it. `text`
//! prints the instructions as a table. For a refused program, a sentence follows with the register, its bounds and the broken requirement.
#![tactic(auto)]

mod explaining;
mod facts;
mod lines;
mod moves;
mod needs;
mod reading;
mod sentences;
mod source;
mod structure;
mod table;

pub use explaining::{Explanation, explain_accepted, explain_refused};
pub use lines::Line;
