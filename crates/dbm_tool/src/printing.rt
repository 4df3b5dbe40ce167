//! Prints lines on standard output, and the reason why a program is refused on standard error.

use byte_text::write_all;
use dbm_command_line::Wish;
use dbm_messages::ServeFault;
use dbm_programs::refusal_of;
use dbm_reports::Notes;
use dbm_stderr::{PipeWriter, note_refusal};
use std::io;
use std::rt::Runtime;

/// Prints the lines of a request that changes nothing. Returns `false` if standard output is a pipe whose reader is gone. That is not a
/// fault: a reader such as `head` stops when it has read enough.
///
/// # Errors
/// `Write` if the lines cannot be printed.
pub fn print_lines<R: Runtime>(rt: &R, lines: &[u8]) -> Result<bool, ServeFault> {
    let mut writer = PipeWriter::new(io::writer(rt));
    match write_all(&mut writer, lines) {
        Ok(()) => Ok(true),
        Err(_) if writer.has_no_reader() => Ok(false),
        Err(_) => Err(ServeFault::Write),
    }
}

/// Prints the lines of a request that might have changed something.
///
/// # Errors
/// `Write` if the lines cannot be printed.
pub fn print_change<R: Runtime>(rt: &R, lines: &[u8]) -> Result<(), ServeFault> {
    match write_all(&mut io::writer(rt), lines) {
        Ok(()) => Ok(()),
        Err(_) => Err(ServeFault::Write),
    }
}

/// If the verifier refuses the program of a request, prints a note with the reason. `file` has the bytes of the program's file. If memory
/// runs out, prints no note.
pub fn note_program<R: Runtime + AllocGlobal>(rt: &R, wish: Wish<'_>, file: &[u8], notes: Notes) {
    let head = wish.head();
    if !notes.refuses_program {
        return;
    }
    if let Ok(Some(refusal)) = refusal_of(rt.alloc(), file, head.image) {
        note_refusal(
            rt,
            head.file.unwrap_or("FILE"),
            head.image,
            refusal.as_str(),
        );
    }
}
