//! The reasons why a run of the program fails, and the sentences on standard error: one after a fault, and notes about an answer. Other
//! crates print them.
#![tactic(auto)]

mod advice;
mod dumps;
mod fault;
mod files;
mod finding;
mod notes;
mod programs;
mod sentence;
mod sessions;
mod words;

pub use advice::{Look, look_for, memory_sentence, sentence_of};
pub use fault::ServeFault;
pub use files::finding_sentence;
pub use finding::{Finding, Matter, Reason};
pub use notes::{
    absent_note, bad_lines_note, half_line_note, hex_word_note, holder_note, line_end_note,
    object_note, pending_note, refusal_note, unsaved_note, wait_note,
};
pub use sentence::{Part, Sentence};
