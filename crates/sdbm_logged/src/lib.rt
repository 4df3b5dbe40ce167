//! Performs the steps of `sdbm_log` on a disk: opens a log, saves in it, closes it, and recovers the files after an interrupted save.
#![tactic(auto)]

mod closing;
mod fault;
mod keeping;
mod once;
mod opening;
mod recovering;
mod room;
mod saving;
mod settling;

pub use closing::close_log;
pub use fault::OpenFault;
pub use keeping::{DataBytes, Keeper, KeptDisk, LoggedDisk, NextSave, save_first, save_next};
pub use once::{close_kept, open_for, save_once};
pub use opening::open_log;
pub use recovering::{lay_both, recover_log};
pub use saving::{LogSave, PLAN_LIMIT, save_by};
