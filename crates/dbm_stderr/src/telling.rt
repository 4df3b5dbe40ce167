//! Prints sentences on standard error after a fault, and notes after an answer.

use crate::context::DiagnosticContext;
use crate::findings::{find_object, find_too_long, find_unread, find_unsafe, find_unwritten};
use dbm_args::Words;
use dbm_messages::{
    Finding, Look, Sentence, ServeFault, absent_note, bad_lines_note, finding_sentence,
    hex_word_note, look_for, memory_sentence, object_note, pending_note, refusal_note, sentence_of,
    unsaved_note,
};
use dbm_places::{has_no_files, names_of, resolve, sources};
use dbm_script::BadLines;
use std::alloc::AllocError;
use std::fs::File;
use std::rt::Runtime;

// Prints a sentence after a text. Errors of standard error are ignored.
fn say<R: Runtime>(rt: &R, before: &str, sentence: Sentence<'_>) {
    let _ = eprintln!(rt; "{before}{sentence}");
}

/// Prints one line with the cause of a fault, and what to do.
pub fn advise<R: Runtime<File = File> + AllocGlobal>(
    rt: &R,
    context: Option<&DiagnosticContext<'_>>,
    fault: ServeFault,
) {
    let done = match context {
        Some(context) => advise_on(rt, context, fault),
        None => {
            tell_found(rt, &Words::none(), fault, None);
            Ok(())
        }
    };
    if done.is_err() {
        say(rt, "  ", memory_sentence());
    }
}

// Like `advise`, with the arguments of the request. For some faults, examines the files again to find the file that the fault is about.
fn advise_on<R: Runtime<File = File> + AllocGlobal>(
    rt: &R,
    context: &DiagnosticContext<'_>,
    fault: ServeFault,
) -> Result<(), AllocError> {
    // After these two faults the names may lead elsewhere, so the message shows the base that the user named.
    let base = match fault {
        ServeFault::Moved(_) | ServeFault::Changed => None,
        _ => base_behind(rt, context.words.base),
    };
    let words = &with_base(context.words, base.as_ref());
    match look_for(fault) {
        Look::Nothing => tell_found(rt, words, fault, None),
        Look::Object => tell_object(rt, words, fault),
        Look::Unread => tell_unread(rt, words, fault)?,
        Look::Unwritten => tell_unwritten(rt, words, fault)?,
        Look::Unsafe => tell_unsafe(rt, words, fault)?,
        Look::TooLong => {
            let sources = sources(rt.alloc(), context.place)?;
            tell_found(rt, words, fault, find_too_long(rt, sources.as_slice()));
        }
    }
    Ok(())
}

// Replaces the base of the arguments, if another base is given.
fn with_base<'a>(words: Words<'a>, base: Option<&'a String>) -> Words<'a> {
    match base {
        Some(base) => Words {
            base: Some(base.as_str()),
            ..words
        },
        None => words,
    }
}

// Resolves a base. If its files are links to the files of another base, returns that base, otherwise the base itself.
fn base_behind<R: Runtime<File = File> + AllocGlobal>(
    rt: &R,
    base: Option<&str>,
) -> Option<String> {
    resolve(rt, base?).ok()
}

fn tell_object<R: Runtime<File = File> + AllocGlobal>(
    rt: &R,
    words: &Words<'_>,
    fault: ServeFault,
) {
    let found = match words.file {
        Some(file) => find_object(rt, file),
        None => None,
    };
    tell_found(rt, words, fault, found);
}

fn tell_unread<R: Runtime<File = File> + AllocGlobal>(
    rt: &R,
    words: &Words<'_>,
    fault: ServeFault,
) -> Result<(), AllocError> {
    let Some(base) = words.base else {
        tell_found(rt, words, fault, find_unread(rt, None, words.file));
        return Ok(());
    };
    let names = names_of(rt.alloc(), base)?;
    tell_found(rt, words, fault, find_unread(rt, Some(&names), words.file));
    Ok(())
}

fn tell_unwritten<R: Runtime<File = File> + AllocGlobal>(
    rt: &R,
    words: &Words<'_>,
    fault: ServeFault,
) -> Result<(), AllocError> {
    let Some(base) = words.base else {
        return Ok(());
    };
    let names = names_of(rt.alloc(), base)?;
    tell_found(rt, words, fault, find_unwritten(rt, &names));
    Ok(())
}

fn tell_unsafe<R: Runtime<File = File> + AllocGlobal>(
    rt: &R,
    words: &Words<'_>,
    fault: ServeFault,
) -> Result<(), AllocError> {
    let Some(base) = words.base else {
        return Ok(());
    };
    let names = names_of(rt.alloc(), base)?;
    tell_found(rt, words, fault, find_unsafe(rt, &names));
    Ok(())
}

// Prints the sentence on what was found in the files, or if nothing was found, the sentence of the fault.
fn tell_found<R: Runtime + AllocGlobal>(
    rt: &R,
    words: &Words<'_>,
    fault: ServeFault,
    found: Option<Finding<'_>>,
) {
    if let Some(found) = found {
        return say(rt, "  ", finding_sentence(found));
    }
    if let Some(sentence) = sentence_of(rt.alloc(), words, fault) {
        say(rt, "  ", sentence);
    }
}

/// Prints a note.
pub fn note_that<R: Runtime>(rt: &R, note: Sentence<'_>) {
    say(rt, "dbm: note: ", note);
}

/// Notes that neither file of the database exists.
pub fn note_absent<R: Runtime<File = File> + AllocGlobal>(rt: &R, context: &DiagnosticContext<'_>) {
    if let Some(base) = context.place.base
        && has_no_files(rt, Some(base))
    {
        note_that(rt, absent_note(base));
    }
}

/// Notes that a save is durable in the redo file, but not yet written to the data files.
pub fn note_pending<R: Runtime>(rt: &R, context: &DiagnosticContext<'_>) {
    note_waiting_save(rt, context.place.base);
}

/// Like `note_pending`, for a base.
pub fn note_waiting_save<R: Runtime>(rt: &R, base: Option<&str>) {
    note_that(rt, pending_note(base.unwrap_or("BASE")));
}

/// Notes the number of lines of a session whose changes are not saved.
pub fn note_unsaved<R: Runtime>(rt: &R, lines: u64) {
    note_that(rt, unsaved_note(lines));
}

/// Notes that a refused program image is an object file, if it is one.
pub fn note_object<R: Runtime<File = File>>(rt: &R, context: &DiagnosticContext<'_>) {
    if let Some(file) = context.place.file
        && context.words.image
        && find_object(rt, file).is_some()
    {
        note_that(rt, object_note(file));
    }
}

/// Notes the first bad line of a script and the number of further bad lines. Prints nothing if there are none.
pub fn note_bad_lines<R: Runtime>(rt: &R, bad_lines: BadLines) {
    if bad_lines.count > 0 {
        note_that(rt, bad_lines_note(bad_lines.first, bad_lines.count - 1));
    }
}

/// Notes the reason why a program is refused, and how to see more.
pub fn note_refusal<R: Runtime>(rt: &R, file: &str, is_image: bool, refusal: &str) {
    note_that(rt, refusal_note(refusal, file, is_image));
}

/// Notes that an argument was read as hex and may be meant as text.
pub fn note_hex_word<R: Runtime>(rt: &R, word: &str) {
    note_that(rt, hex_word_note(word));
}
