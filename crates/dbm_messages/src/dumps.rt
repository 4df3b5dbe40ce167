//! Sentences about a dump that could not be written or loaded.

use crate::sentence::{Part, Sentence, plain, with_one, with_three, with_two};
use dbm_args::{Named, Words};
use dbm_dump::{DumpFault, KeyHead};

/// The sentence for a fault of a dump. Returns `None` for `Read` and `NoMemory`.
pub fn dump_sentence<'a>(words: &Words<'a>, fault: DumpFault) -> Option<Sentence<'a>> {
    match fault {
        DumpFault::BadFormat => Some(format_sentence(words.first)),
        DumpFault::BadDump(1) => Some(plain(
            "Line 1 is not the first line of a dump in this format: our own begins with \"boddurci dump 1\", and one of gdbm in ASCII with #. Lines end in LF. Nothing was changed.",
        )),
        DumpFault::BadDump(line) => Some(with_one(
            "Line {} of the dump is invalid in its place: it is not a pair, the dump has more or fewer pairs than it says, or the line ends in CR. Nothing was changed.",
            Part::Number(line),
        )),
        DumpFault::TooLarge(line, key) => Some(large_sentence(words.wide, line, key)),
        DumpFault::Crowded(line, key) => Some(crowded_sentence(words.wide, line, key)),
        DumpFault::CutOff => Some(plain(
            "The dump ends before its last line, so it was probably truncated. Nothing was changed.",
        )),
        DumpFault::Read | DumpFault::NoMemory => None,
    }
}

// The sentence for an unknown format.
fn format_sentence<'a>(format: Option<Named<'a>>) -> Sentence<'a> {
    let word = match format {
        Some(format) => format.word,
        None => "",
    };
    with_one(
        "--format is {}: dump writes text, gdbm and redis, and load reads text and gdbm.",
        Part::Quoted(word),
    )
}

// The sentence for a line whose pair does not fit.
fn crowded_sentence(wide: bool, line: u64, key: KeyHead) -> Sentence<'static> {
    let (line, key) = (Part::Number(line), Part::Key(key));
    if wide {
        return with_two(
            "Line {} of the dump: there is no room for the pair with the key {}, because too many keys have similar hashes. Nothing was changed.",
            line,
            key,
        );
    }
    with_two(
        "Line {} of the dump: there is no room for the pair with the key {}, because too many keys have similar hashes. Nothing was changed. Wide pages (--wide) may have room for it.",
        line,
        key,
    )
}

// The sentence for a line that is too long, or has a pair that is too large.
fn large_sentence(wide: bool, line: u64, key: Option<KeyHead>) -> Sentence<'static> {
    let most = if wide { 8008 } else { 1008 };
    let (line, most) = (Part::Number(line), Part::Number(most));
    match key {
        Some(key) if wide => with_three(
            "Line {} of the dump: the pair with the key {} has more than {} bytes, key and value together. Nothing was changed.",
            line,
            Part::Key(key),
            most,
        ),
        Some(key) => with_three(
            "Line {} of the dump: the pair with the key {} has more than {} bytes, key and value together. Nothing was changed. With --wide, in a new or widened database, they may have 8008.",
            line,
            Part::Key(key),
            most,
        ),
        None if wide => with_two(
            "Line {} of the dump is too long, or its key and value have more than {} bytes together. Nothing was changed.",
            line,
            most,
        ),
        None => with_two(
            "Line {} of the dump is too long, or its key and value have more than {} bytes together. Nothing was changed. With --wide they may have 8008.",
            line,
            most,
        ),
    }
}
