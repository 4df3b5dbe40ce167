//! A store shared by threads. Sessions call one desk under a lock and run long programs without it. The store leaves one legal
//! history, which contains each session's calls in their order.
#![tactic(auto)]

mod close;
mod fault_text;
mod grouping;
mod life;
mod one_pass;
mod passing;
mod serving;
mod session;
mod store;

pub use close::CloseFault;
pub use life::{Closed, SessionFault};
pub use session::{Calls, Session};
pub use store::{Gate, NoGate, Store};
