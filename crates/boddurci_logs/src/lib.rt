//! Lists the file operations that open the log of a base, save in the log, close it, or read it. C executes them; the exports
//! for C are in `boddurci_c`.
#![tactic(auto)]

mod opening;
mod out;
mod place;
mod saving;
mod tails;
mod words;

pub use opening::{open, read};
pub use place::LogPlace;
pub use saving::{close, save};
pub use tails::{append, apply, join, lay, share};
