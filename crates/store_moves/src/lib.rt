//! The effect of one command on a database: its reply, and the changed pages and bits.
#![tactic(auto)]

mod action;
mod in_place;
mod page_copy;
mod pages;
mod runs;
mod stores;
mod work;
mod worked;

pub use action::{act, act_run, act_run_at, act_store, act_store_at, key_in, put_in, work_at};
pub use in_place::{is_run, run_in_place, try_store};
pub use page_copy::PageCopy;
pub use runs::{RunInput, ran};
pub use work::work_on;
pub use worked::Worked;
