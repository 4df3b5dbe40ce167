//! Prints sentences and notes on standard error: during a wait, after a fault, and after an answer. The crate also has a reader that
//! records standard input, a reader that shows progress, and a writer that notices a pipe without a reader.
#![tactic(auto)]

mod context;
mod findings;
mod line_notes;
mod piped;
mod progress;
mod recording;
mod telling;
mod terminal;
mod waiting;

pub use context::DiagnosticContext;
pub use line_notes::{note_of_half_line, note_of_line_end};
pub use piped::PipeWriter;
pub use progress::{ProgressReader, Work, tell_saving};
pub use recording::RecordingReader;
pub use telling::{
    advise, note_absent, note_bad_lines, note_hex_word, note_object, note_pending, note_refusal,
    note_that, note_unsaved, note_waiting_save,
};
pub use terminal::is_terminal;
pub use waiting::{note_holder, take_and_tell};
