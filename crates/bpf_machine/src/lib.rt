//! The machine that runs accepted programs on a record.
//!
//! `run` runs only accepted programs: each register is a plain word, and `run` does not check again what the verifier has proved.
//! `run_checked` of `bpf_reference` runs any code, accepted or not, and checks each instruction first.
#![tactic(auto)]

mod access;
mod arithmetic;
mod begin;
mod calls;
mod copies;
mod cores;
mod places;
mod reaching;
mod ready;
mod regions;
mod running;
mod turns;

pub use bpf_helpers::Ended;
pub use bpf_reference::{Checked, run_checked};
pub use running::run;
