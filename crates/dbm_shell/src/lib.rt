//! The host of a session: the files of its database, the clock, and the terminal.
#![tactic(auto)]

mod host_log;
mod serving;
mod shell;
mod terminal_lines;

pub use serving::{read_options, serve_session};
