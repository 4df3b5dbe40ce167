//! The verifier: accepts or refuses programs, and computes the state before each of their instructions.
//!
//! `verify` checks a program's structure, and then visits its reached instructions once, in order, with the state before each. An
//! accepted program is safe: it never reads an unset register, touches nothing outside its record, argument and stack, stays in its
//! code, and takes at most as many steps as it has instructions.
#![tactic(auto)]

mod examined;
mod fault;
mod ghost_states;
mod judging;
mod kinds;
mod pass;
mod refused;
mod structure;
mod table;
mod verified;
mod visits;

pub use bpf_flow::State;
pub use bpf_range::Kind;
pub use examined::Examined;
pub use fault::VerifyFault;
pub use judging::{examine, verify};
pub use refused::Refused;
pub use table::States;
pub use verified::Verified;
