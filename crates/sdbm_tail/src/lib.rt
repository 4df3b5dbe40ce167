//! The tail of a shared log: its last records, which are not applied to the data files yet, and of which some may not be synced. Saves that
//! share a sync append their records, sync the log once, and apply the joined plan of the tail later.
#![tactic(auto)]

mod joining;
mod laws;
mod laying;
mod steps;

pub use joining::{JoinFault, Joined, join_next};
pub use laws::tail_law;
pub use laying::lay_part;
pub use steps::{AppendSteps, append_steps, apply_steps, share_steps};
