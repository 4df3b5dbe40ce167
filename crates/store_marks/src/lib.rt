//! Notes which pages a command changes. A save then has to compare only these pages with the files.
#![tactic(auto)]

mod base;
mod changes;
mod marks;
mod noted;

pub use base::Base;
pub use changes::{act_marked, put_marked, run_marked, run_there, store_there};
pub use marks::Marks;
pub use noted::{Changes, act_noted, run_noted, store_noted};
