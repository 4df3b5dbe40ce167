//! The sentence for each fault: the cause, and what to do.

use crate::dumps::dump_sentence;
use crate::fault::ServeFault;
use crate::files::{
    absent_sentence, base_sentence, changed_sentence, exists_sentence, lock_sentence,
    moved_sentence, open_sentence, redo_sentence, small_sentence, too_long_sentence,
    unread_sentence, untaken_sentence, unwritten_sentence,
};
use crate::programs::{
    assemble_sentence, decode_sentence, no_text_sentence, pool_sentence, stock_sentence,
    submit_sentence,
};
use crate::sentence::{Part, Sentence, plain, with_one};
use crate::sessions::session_sentence;
use crate::words::{hex_sentence, layout_sentence, number_sentence, text_sentence};
use dbm_args::{Subject, Words};
use dbm_reports::ReportFault;
use prog_registry::RegFault;
use std::alloc::Global;

/// The file to look for before a fault is reported, so that the message can name it.
#[derive(Clone, Copy)]
pub enum Look {
    /// No file.
    Nothing,
    /// The file that cannot be read.
    Unread,
    /// The file that is too long.
    TooLong,
    /// The file that cannot be written.
    Unwritten,
    /// The unsafe file next to the database.
    Unsafe,
    /// An object file instead of a program.
    Object,
}

/// Returns the file to look for before this fault is reported.
pub fn look_for(fault: ServeFault) -> Look {
    match fault {
        ServeFault::ReadFile => Look::Unread,
        ServeFault::FileTooLong => Look::TooLong,
        ServeFault::WriteFile => Look::Unwritten,
        ServeFault::Unsafe => Look::Unsafe,
        ServeFault::Report(ReportFault::NotText | ReportFault::Assemble(_) | ReportFault::Decode(_))
        | ServeFault::Submit(RegFault::Decode(_)) => Look::Object,
        _ => Look::Nothing,
    }
}

/// Returns the sentence that explains a fault: the cause, and what to do. If the file of `look_for` was found, print `finding_sentence`
/// instead. Returns `None` if the arguments do not show the cause.
pub fn sentence_of<'a>(
    alloc: Global,
    words: &Words<'a>,
    fault: ServeFault,
) -> Option<Sentence<'a>> {
    if matches!(words.subject, Subject::Session)
        && let Some(sentence) = session_sentence(fault)
    {
        return Some(sentence);
    }
    match fault {
        ServeFault::Report(fault) => report_sentence(alloc, words, fault),
        ServeFault::Dump(fault) => Some(or_memory(dump_sentence(words, fault))),
        ServeFault::Submit(fault) => Some(or_memory(submit_sentence(words, fault))),
        ServeFault::Pool(fault) => Some(or_memory(pool_sentence(fault))),
        ServeFault::FileTooLong => Some(too_long_sentence(words.base?, words.wide)),
        ServeFault::WriteFile => Some(unwritten_sentence(words.base?)),
        fault => Some(rest_sentence(words, fault)),
    }
}

/// The sentence if memory runs out.
pub fn memory_sentence() -> Sentence<'static> {
    plain(
        "Out of memory: dbm holds both files of a database and everything that it prints. ulimit -v shows a limit.",
    )
}

fn or_memory<'a>(sentence: Option<Sentence<'a>>) -> Sentence<'a> {
    sentence.unwrap_or(memory_sentence())
}

// The sentence for any other fault, for example of the files, the clock or standard output.
fn rest_sentence<'a>(words: &Words<'a>, fault: ServeFault) -> Sentence<'a> {
    match fault {
        ServeFault::ReadFile => unread_sentence(words.base),
        ServeFault::BadRedo => redo_sentence(words.base),
        ServeFault::Unsafe => untaken_sentence(words.base),
        ServeFault::OtherSize => small_sentence(words.base),
        ServeFault::BadBase => base_sentence(words.base),
        ServeFault::Absent => absent_sentence(words.base),
        ServeFault::Exists => exists_sentence(words.base),
        ServeFault::NoStock => stock_sentence(words.file),
        ServeFault::Locked => lock_sentence(words.base, words.numbers.timeout),
        ServeFault::Moved(file) => moved_sentence(words.base, file),
        ServeFault::Changed => changed_sentence(words.base),
        ServeFault::ReadClock => {
            plain("The system does not report the time of day. Give NOW as a number.")
        }
        ServeFault::BadLine(number) => with_one(
            "Line {} of standard input is not a task. Write KEY ARG BLANK NOW, separated by single spaces; with --clock NOW may be now or now-ms.",
            Part::Number(number as u64),
        ),
        ServeFault::Close(_) => plain(
            "The workers' calls differ from those of the store, which should never happen. Nothing was written.",
        ),
        ServeFault::Write => plain(
            "Standard output is closed or cannot be written, for example because a disk is full. Nothing was changed.",
        ),
        ServeFault::Saved => plain(
            "The change is saved, but its answer could not be printed: standard output cannot be written, for example because a disk is full.",
        ),
        ServeFault::NoMemory => memory_sentence(),
        _ => plain("A word of the command line is not UTF-8."),
    }
}

// The sentence for a fault of the arguments, the contents of the files or standard input.
fn report_sentence<'a>(
    alloc: Global,
    words: &Words<'a>,
    fault: ReportFault,
) -> Option<Sentence<'a>> {
    match fault {
        ReportFault::BadHex => hex_sentence(alloc, words),
        ReportFault::BadText => text_sentence(alloc, words),
        ReportFault::BadLayout => Some(layout_sentence(words.layout)),
        ReportFault::BadNumber => number_sentence(words.numbers),
        ReportFault::Open(fault) => Some(or_memory(open_sentence(words, fault))),
        ReportFault::NotText => Some(no_text_sentence(words)),
        ReportFault::Assemble(fault) => Some(or_memory(assemble_sentence(words, fault))),
        ReportFault::Decode(fault) => Some(or_memory(decode_sentence(words, fault))),
        ReportFault::Read => {
            Some(plain(
                "Standard input is closed or cannot be read, for example because it is a folder.",
            ))
        }
        ReportFault::TooLong => {
            Some(plain(
                "Standard input has more than 16 MiB. Split the script or batch, and run each part.",
            ))
        }
        ReportFault::OutputTooLong => {
            Some(plain(
                "The answers have more bytes than --max-output allows. Nothing was changed.",
            ))
        }
        ReportFault::NoMemory => Some(memory_sentence()),
    }
}
