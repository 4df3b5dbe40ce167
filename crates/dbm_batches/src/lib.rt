//! The subcommand `batch`, which runs a program on the records of many keys with parallel workers.
#![tactic(auto)]

mod batch;

pub use batch::serve_batch;
