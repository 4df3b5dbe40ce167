//! Reads the files of a database, and saves them so that a crash cannot damage them.
#![tactic(auto)]

mod copying;
mod durable;
mod files;
mod host;
mod limit;
mod peeking;
mod receipt;
mod saving;
mod session_log;
mod sight;
mod states;
mod writing;

pub use copying::{CopyOutcome, save_copy};
pub use files::{LockedFiles, RunFiles, read_again, read_program, take_files, take_rest};
pub use host::RealFiles;
pub use peeking::UnreadPages;
pub use receipt::{Receipt, Saved};
pub use saving::{Change, Planned, SaveOutcome, save_change, save_plan};
pub use session_log::{SessionSaves, close_session, save_session};
pub use writing::{PlannedPart, save_files, save_part};
