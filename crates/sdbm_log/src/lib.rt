//! A log of saves. A save appends one record to the redo file and syncs this file once, which commits the save. Then both data files are
//! written in place without a sync. A checkpoint syncs the data files and empties the log. The functions here return lists of steps, and
//! the caller makes the calls, for example with `make_steps` on a disk. Nothing here opens, locks or names files.
#![tactic(auto)]

mod knowing;
mod log;
mod making;
mod opening;
mod reading;
mod records;
mod runs;
mod saving;
mod steps;
#[cfg(test)]
mod tests;

pub use log::{HEADER, Log};
pub use making::make_steps;
pub use opening::{OpenSteps, close_steps, open_steps, recover_steps};
pub use reading::{ReadSteps, read_steps};
pub use records::{
    LogFault, LogFiles, SHARED_AT, first_plan, has_plan, is_log, is_whole, join_heads, plan_of,
    push_record, records_end,
};
pub use runs::{Crashes, all_lists, all_runs};
pub use saving::{SaveSteps, has_room, save_steps};
pub use steps::{HEAD, RECORD_AT, RECORD_HEAD, Step, push_apply};
