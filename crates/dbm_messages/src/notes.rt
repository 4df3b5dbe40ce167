//! Notes that explain an answer that the user may not expect.

use crate::sentence::{Part, Sentence, plain, with_one, with_three, with_two};

/// The note that neither file of the database exists.
pub fn absent_note<'a>(base: &'a str) -> Sentence<'a> {
    let base = Part::Name(base);
    with_two(
        "neither {}.dir nor {}.pag exists, so the database is empty",
        base,
        base,
    )
}

/// The note that a save is durable in the redo file, but not yet complete in the data files.
pub fn pending_note<'a>(base: &'a str) -> Sentence<'a> {
    let base = Part::Name(base);
    with_three(
        "the change is saved in {}.redo, but {}.pag and {}.dir could not be written completely, for example because the disk is full. The next command that writes finishes this; until then programs other than dbm may see a part of the change",
        base,
        base,
        base,
    )
}

/// The note that the changes of `lines` lines of a session are not saved.
pub fn unsaved_note(lines: u64) -> Sentence<'static> {
    if lines == 1 {
        return plain("not saved: the change of 1 line");
    }
    with_one("not saved: the changes of {} lines", Part::Number(lines))
}

/// The note that a refused program image is an object file.
pub fn object_note<'a>(file: &'a str) -> Sentence<'a> {
    with_one(
        "{} is an ELF object and not an image. Use its section .text, or make the image with tools/bpfcc",
        Part::Name(file),
    )
}

/// The note with the reason why a program is refused, and the command that explains it.
pub fn refusal_note<'a>(refusal: &'a str, file: &'a str, image: bool) -> Sentence<'a> {
    let option = if image { " --image" } else { "" };
    with_three(
        "{}. See dbm verify --explain{} {}",
        Part::Text(refusal),
        Part::Text(option),
        Part::Name(file),
    )
}

/// The note that the run waits for the lock of a base. It has the number and the name of the process that holds the lock, if the system
/// reports them.
pub fn wait_note<'a>(base: &'a str, holder: Option<u64>, name: Option<&'a String>) -> Sentence<'a> {
    let base = Part::Name(base);
    let Some(process) = holder else {
        return with_one(
            "waiting for {}, which another process has open; --timeout SECONDS limits the wait",
            base,
        );
    };
    let name = match name {
        Some(name) => Part::Name(name.as_str()),
        None => Part::Text("?"),
    };
    with_three(
        "waiting for {}, which process {} ({}) has open; --timeout SECONDS limits the wait",
        base,
        Part::Number(process),
        name,
    )
}

/// The note that a process held the lock of a base for the whole wait.
pub fn holder_note<'a>(base: &'a str, process: u64, name: Option<&'a String>) -> Sentence<'a> {
    let name = match name {
        Some(name) => Part::Name(name.as_str()),
        None => Part::Text("?"),
    };
    with_three(
        "process {} ({}) has {} open",
        Part::Number(process),
        name,
        Part::Name(base),
    )
}

/// The note about the bad lines of a script: the number of the first one, counted from 1, and how many more there are.
pub fn bad_lines_note(first: u64, more: u64) -> Sentence<'static> {
    let first = Part::Number(first);
    if more == 0 {
        return with_one("line {} of the script is a bad line", first);
    }
    with_two(
        "line {} of the script is a bad line, and so are {} more",
        first,
        Part::Number(more),
    )
}

/// The note that a line of a script or a batch ends in CR. `line` is the number of the first one, counted from 1.
pub fn line_end_note(line: u64) -> Sentence<'static> {
    with_one(
        "line {} ends in CR; lines must end in LF alone. With --text, write a CR within a value as \\x0d or hex:0d",
        Part::Number(line),
    )
}

/// The note that the last line of a script or a batch has no LF, and was run. `line` is its number, counted from 1.
pub fn half_line_note(line: u64) -> Sentence<'static> {
    with_one(
        "line {}, the last one, has no LF, and was run as it is. If its sender was interrupted, it may be incomplete",
        Part::Number(line),
    )
}

/// The note that an argument was read as hex, but may be meant as text.
pub fn hex_word_note<'a>(word: &'a str) -> Sentence<'a> {
    with_one(
        "{} was read as hex. If it is text, use --text, or set DBM_TEXT=1",
        Part::Name(word),
    )
}
