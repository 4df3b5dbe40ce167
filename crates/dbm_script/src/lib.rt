//! Scripts: each line of a text is a command on a store. Runs the lines and writes the answers.
#![tactic(auto)]

mod answering;
mod answers;
mod bad_lines;
mod commands;
mod digits;
mod direct;
mod fault;
mod images;
mod incr;
mod line_reader;
mod lines;
mod notations;
mod numbers;
mod pieces;
mod run_words;
mod running;
mod script;
mod shorthand;
mod streams;
mod tasks;

pub use answering::answer_command;
pub use answers::{Answer, show_answer, show_reply};
pub use bad_lines::{BadLines, LineCount};
pub use byte_text::read_number;
pub use commands::read_command;
pub use fault::{LinesFault, ScriptFault};
pub use images::{answer_image, show_refusal};
pub use incr::{IncrAsk, NUMBER_LEN, counter_argument};
pub use line_reader::{LineFault, LineReader};
pub use lines::{Ask, read_line};
pub use notations::{Notation, read_bytes, show_bytes, show_value};
pub use numbers::read_blank;
pub use pieces::first_piece;
pub use run_words::{RunWords, WordFault, read_run_words};
pub use running::{RunAsk, answer_run, command_of_run};
pub use script::{ScriptRun, answer_line, run_lines, run_script, run_spelled};
pub use shorthand::{LineKind, TimeOfDay, spell_line, spell_out};
pub use streams::{SCRIPT_LIMIT, read_all};
pub use tasks::{TasksFault, read_tasks};
