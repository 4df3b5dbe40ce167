//! Shared parts of the tests of the store: bytes, commands and replies as the words of lines, comparisons of trails, and heaps
//! without memory.
#![tactic(auto)]

mod bytes;
mod commands;
mod memory;
mod names;
mod parse;
mod reading;
mod same;
mod segments;

pub use bytes::{read_bytes, show_bytes};
pub use commands::{read_command, show_command, show_pairs, show_reply};
pub use memory::{MOST_TIMES, fill};
pub use names::{read_kind, read_size};
pub use parse::{bytes_of, cut, number, tail};
pub use reading::read_all;
pub use same::same_trail;
pub use segments::{read_file, show_file};
