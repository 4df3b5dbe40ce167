//! The machine that runs any code, accepted or not.
//!
//! `run_checked` checks each instruction before the instruction has any effect, and stops if the definitions give no effect: for example,
//! if an unset register is read. Tests compare the machine for accepted programs with this machine.
#![tactic(auto)]

mod arithmetic;
mod calls;
mod checked;
mod copies;
mod cpu;
mod jumps;
mod loads;
mod places;
mod steps;
mod stores;
mod values;

pub use checked::{Checked, run_checked};
