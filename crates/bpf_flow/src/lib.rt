//! The state of a program's registers, and the effect of one instruction on it.
//!
//! A `State` says which values each register may hold. `flow` and `flow_branch` compute the state after an
//! instruction from the state before it, or report the instruction's fault. `join_states` joins two states. The
//! states are true of every run: from a configuration that fits the state before an instruction, the run ends or
//! continues to a configuration that fits a state after it.
#![tactic(auto)]

mod after;
mod alu;
mod branches;
mod calls;
mod fault;
mod joining;
mod loads;
mod memory;
mod numbers;
mod state;

pub use after::flow;
pub use branches::flow_branch;
pub use fault::FlowFault;
pub use joining::join_states;
pub use state::{State, Way};
