//! Sentences about the files of a database: files that the system refuses, and files that are not a database.

use crate::finding::{Finding, Matter};
use crate::sentence::{Part, Sentence, plain, with_four, with_one, with_three, with_two};
use dbm_args::Words;
use dbm_places::{MovedFile, folder_of};
use sdbm_files::OpenFault;

/// The base as a part of a sentence.
pub fn base_part<'a>(base: Option<&'a str>) -> Part<'a> {
    Part::Name(base.unwrap_or("BASE"))
}

/// The sentence for a file or a folder with a problem.
pub fn finding_sentence<'a>(found: Finding<'a>) -> Sentence<'a> {
    let name = Part::Name(found.name);
    match found.matter {
        Matter::Absent => with_one("{} does not exist.", name),
        Matter::DeadLink => with_one("{} is a link to a file that does not exist.", name),
        Matter::Unread(reason) => with_two("{} cannot be read: {}.", name, Part::Reason(reason)),
        Matter::Unwritten(reason) => {
            with_two("{} cannot be written: {}.", name, Part::Reason(reason))
        }
        Matter::NoFolder => with_one("Cannot create a file in {}: it is not a folder.", name),
        Matter::LostFolder(reason) => {
            let reason = Part::Reason(reason);
            with_two("Cannot create a file in the folder {}: {}.", name, reason)
        }
        Matter::TooLong(limit) => with_two(
            "{} has more than {} bytes, the limit for such a file.",
            name,
            Part::Number(limit),
        ),
        Matter::NoOwnFile => with_one(
            "{} is a link, a folder or another special file. Remove it.",
            name,
        ),
        Matter::Unsafe { owner, mode } => with_three(
            "{} belongs to user {} and has mode 0{}, so another user may have planted it. If you trust that user, let that user run a command that writes, which recovers it, or let root give it to the owner of .pag. Otherwise remove it.",
            name,
            Part::Number(u64::from(owner)),
            octal(mode),
        ),
        Matter::Object => with_one(
            "{} is an ELF object. Use its section .text as the image, or make the image with tools/bpfcc.",
            name,
        ),
    }
}

/// The sentence for files that could not be read, if the second look finds no refused file.
pub fn unread_sentence<'a>(base: Option<&'a str>) -> Sentence<'a> {
    let Some(base) = base else {
        return plain("The file could not be read, but can be read now. Try again.");
    };
    let base = Part::Name(base);
    with_two(
        "{}.pag and {}.dir do not lead to the two files of one database. Make both of them links, or neither.",
        base,
        base,
    )
}

/// The sentence for files that could not be written, if the second look finds no refused file.
pub fn unwritten_sentence<'a>(base: &'a str) -> Sentence<'a> {
    with_two(
        "{}.lock, .writer, .redo, .dir or .pag could not be created or written. Check that you may write to the folder {}, that its disk has room, and that ulimit -f allows files of this length.",
        Part::Name(base),
        Part::Name(folder_of(base)),
    )
}

/// The sentence for a database that would be too long.
pub fn too_long_sentence<'a>(base: &'a str, wide: bool) -> Sentence<'a> {
    let text = if wide {
        "{}.pag would have more than 1 GiB after the command. Nothing was changed."
    } else {
        "{}.pag would have more than 1 GiB after the command. Nothing was changed. Wide pages hold more, especially with values of more than 300 bytes: use dbm widen."
    };
    with_one(text, Part::Name(base))
}

/// The sentence for a redo file that belongs to other data files, or was not written by a save.
pub fn redo_sentence<'a>(base: Option<&'a str>) -> Sentence<'a> {
    with_one(
        "{}.redo has an unfinished save that does not match these files: an older copy was restored, another program wrote them, or no save has left it. Restore the files that it belongs to, or remove it to use the files as they are.",
        base_part(base),
    )
}

/// The sentence for an unsafe file next to a database, if the second look finds no unsafe file.
pub fn untaken_sentence<'a>(base: Option<&'a str>) -> Sentence<'a> {
    let base = base_part(base);
    with_three(
        "{}.lock, {}.writer or {}.redo looked as if another user had planted it, and no longer does. Try again.",
        base,
        base,
        base,
    )
}

// The permission bits, as an octal number of three digits.
fn octal(mode: u32) -> Part<'static> {
    let digits = mode / 64 % 8 * 100 + mode / 8 % 8 * 10 + mode % 8;
    Part::Number(u64::from(digits))
}

/// The sentence for a base that is empty or names a folder.
pub fn base_sentence<'a>(base: Option<&'a str>) -> Sentence<'a> {
    match base {
        Some("") => plain("The name of the database is empty. Give a name without .dir or .pag."),
        base => with_one(
            "{} is a folder. Give the name of a database in it, without .dir or .pag.",
            Part::Quoted(base.unwrap_or("BASE")),
        ),
    }
}

/// The sentence for a missing database that must exist.
pub fn absent_sentence<'a>(base: Option<&'a str>) -> Sentence<'a> {
    let base = base_part(base);
    with_two(
        "Neither {}.dir nor {}.pag exists. Check the name of the database.",
        base,
        base,
    )
}

/// The sentence for a copy whose files exist already.
pub fn exists_sentence<'a>(base: Option<&'a str>) -> Sentence<'a> {
    let base = base_part(base);
    with_two(
        "{}.dir or {}.pag already exists. Give the copy another name, or remove these files first.",
        base,
        base,
    )
}

/// The sentence for a lock that another run held for the whole wait.
pub fn lock_sentence<'a>(base: Option<&'a str>, timeout: Option<&str>) -> Sentence<'a> {
    let base = base_part(base);
    match timeout {
        Some("0") => with_one(
            "Another process has {} open. Without --timeout 0 the command waits.",
            base,
        ),
        _ => with_one(
            "Another process had {} open all the time. Use --timeout SECONDS to wait longer.",
            base,
        ),
    }
}

/// The sentence for files whose pages look small.
pub fn small_sentence(base: Option<&str>) -> Sentence<'_> {
    let base = base_part(base);
    with_two(
        "{}.pag looks like a file of small pages, which a change with --wide would destroy. Omit --wide, or make the pages wide with dbm widen {}. If they are wide, add --insist. Nothing was changed.",
        base,
        base,
    )
}

/// The sentence for a file whose name now refers to another file or to no file.
pub fn moved_sentence<'a>(base: Option<&'a str>, file: MovedFile) -> Sentence<'a> {
    let base = base_part(base);
    match file {
        MovedFile::Lock => with_one(
            "{}.lock was removed or replaced while this command held it, so another process may be writing. Nothing was saved. Leave the lock in place, and run the command again.",
            base,
        ),
        MovedFile::Writer => with_one(
            "{}.writer was removed or replaced while this command held it, so another process may be writing. Nothing was saved. Leave it in place, and run the command again.",
            base,
        ),
        MovedFile::Pages => with_one(
            "{}.pag is not the file that this command has read: it was renamed, removed or replaced. Nothing was saved. Run the command again to use the present files.",
            base,
        ),
        MovedFile::Directory => with_one(
            "{}.dir is not the file that this command has read: it was renamed, removed or replaced. Nothing was saved. Run the command again to use the present files.",
            base,
        ),
    }
}

/// The sentence for data files that another program has written.
pub fn changed_sentence(base: Option<&str>) -> Sentence<'_> {
    let base = base_part(base);
    with_two(
        "Another program has written {}.pag or {}.dir since this command read or saved them. Nothing was saved, so its changes remain. Run the command again, or start a new session.",
        base,
        base,
    )
}

/// The sentence for files that are not a database. Returns `None` if memory ran out.
pub fn open_sentence<'a>(words: &Words<'a>, fault: OpenFault) -> Option<Sentence<'a>> {
    let base = base_part(words.base);
    match fault {
        OpenFault::PagLength => Some(with_three(
            "The length of {}.pag is not a multiple of its page size, {} bytes: it was truncated, is not an sdbm file, or was written {}.",
            base,
            Part::Text(page_bytes(words.wide)),
            Part::Text(other_width(words.wide)),
        )),
        OpenFault::Page(page, _) => Some(with_three(
            "Page {} of {}.pag is damaged, or the database was written {}.",
            Part::Number(page as u64),
            base,
            Part::Text(other_width(words.wide)),
        )),
        OpenFault::Dir(_) => {
            Some(with_one("{}.dir is damaged, or is not a directory of sdbm.", base))
        }
        OpenFault::Misplaced(page) => Some(with_four(
            "A key on page {} of {}.pag belongs to another page: the database was written {}, or {}.dir belongs to another database.",
            Part::Number(page as u64),
            base,
            Part::Text(other_hash(words.unsigned)),
            base,
        )),
        OpenFault::NoMemory => None,
    }
}

// The number of bytes of a page.
fn page_bytes(wide: bool) -> &'static str {
    if wide { "8,192" } else { "1,024" }
}

// The option that opens the files with the other page size.
fn other_width(wide: bool) -> &'static str {
    if wide {
        "without --wide"
    } else {
        "with --wide"
    }
}

// The option for the other way to hash keys.
fn other_hash(unsigned: bool) -> &'static str {
    if unsigned {
        "without --unsigned"
    } else {
        "with --unsigned"
    }
}
