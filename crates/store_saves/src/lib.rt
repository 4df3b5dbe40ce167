//! A disk whose log stays open from one save to the next, together with the database that its files have. A save then compares only the
//! pages that have changed since the last one.
#![tactic(auto)]

mod noted;
mod saved;

pub use saved::{AfterSave, SavedDisk};
