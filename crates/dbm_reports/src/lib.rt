//! The trait of subcommands, and `serve`, which serves any of them. The shared parts of subcommands are also here: opening the database,
//! answering a command, reading standard input, and reading the file of a program.
#![tactic(auto)]

mod databases;
mod fault;
mod input;
mod notations;
mod notes;
mod program_file;
mod report;
mod serving;
mod subcommand;
mod words;

pub use databases::{Given, is_too_long, key_bytes_of, open, page_size_of};
pub use fault::{ReportFault, bad_words};
pub use input::read_input;
pub use notations::notation_by;
pub use notes::Notes;
pub use program_file::{file_image, refused, text_image};
pub use report::{
    NOT_RUN, Report, answer_status, change, look, printed, show_named, show_ok, shown,
};
pub use serving::{Outcome, Unserved, serve, write_report};
pub use subcommand::Subcommand;
pub use words::{read_prefix, word_asked};
