//! The holds on pages. Each hold has a page, a mode, and the ticket that owns it.
#![tactic(auto)]

mod few;
mod hold_queue;
pub mod holds;
mod indexed;
pub mod modes;
mod pages;
mod uses;

pub use holds::{HoldFault, Holds};
pub use modes::{Busy, Held, Hold, Ticket};
