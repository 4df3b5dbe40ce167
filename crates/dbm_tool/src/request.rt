//! Extracts the files of a request, and the parts that sentences show.
ghost use Rattle.std.specs.Prelude.{◌≡◌, option_map};
ghost use Rattle.dbm_command_line.specs.Wishes.{wish_base, wish_file, writes_files};
ghost use Rattle.dbm_tool.specs.Stock.{file_in};
ghost use Rattle.sdbm_files.specs.Limits.{pag_limit};

use crate::stock::{file_in, file_or_unknown};
use dbm_args::{Named, Numbers, Words};
use dbm_command_line::{Ask, Request, Wish};
use dbm_dump::Backup;
use dbm_places::{FileBytes, RunPlace};
use dbm_reports::Given;
use dbm_script::LineKind;
use dbm_session::Session;
use dbm_stderr::{DiagnosticContext, Work};
use sdbm_addr::PageSize;
use sdbm_files::PAG_LIMIT;

/// Returns the files of a request on a database or a program.
pub fn place_of<'a>(wish: &Wish<'a>) -> RunPlace<'a>
    ensures base { option_map (λ text. text.now) result.base ≡ wish_base wish.now }
    ensures file { option_map (λ text. text.now) result.file ≡ file_in (wish_file wish.now) }
    ensures writes { result.writes ≡ writes_files wish.now }
    ensures limit { result.pages_limit ≡ pag_limit }
{
    let head = wish.head();
    RunPlace {
        base: head.base,
        file: file_in(head.file),
        writes: head.writes,
        pages_limit: PAG_LIMIT,
        page_size: size_of(&wish.words()),
    }
}

// Returns the page size that the options select.
fn size_of(words: &Words<'_>) -> PageSize {
    if words.wide {
        PageSize::Wide
    } else {
        PageSize::Small
    }
}

/// Converts the bytes of the files into the input of a report.
pub fn given_of(bytes: FileBytes) -> Given
    ensures { result ≡ record { dir = bytes.directory; pag = bytes.pages; file = bytes.program } }
{
    Given {
        dir: bytes.directory,
        pag: bytes.pages,
        file: bytes.program,
    }
}

/// Returns the parts of a request that notes and sentences show.
pub fn context_of<'a>(request: &Request<'a>) -> DiagnosticContext<'a> {
    let words = words_of(&request.ask);
    let numbers = Numbers {
        timeout: request.access.timeout,
        ..words.numbers
    };
    DiagnosticContext {
        place: place_asked(&request.ask),
        words: Words { numbers, ..words },
        lines: lines_of(&request.ask),
    }
}

// Returns the arguments that a sentence may show.
fn words_of<'a>(ask: &Ask<'a>) -> Words<'a> {
    match ask {
        Ask::Wish(wish) => Words {
            base: wish.head().base,
            file: file_or_unknown(wish.head().file),
            ..wish.words()
        },
        Ask::Session(session) => session.words(),
        Ask::Backup(backup) => backup.words(),
        Ask::Programs(programs) => programs.words(),
    }
}

// Returns the kind of lines on standard input, if it is a script or a batch.
fn lines_of(ask: &Ask<'_>) -> Option<LineKind> {
    match ask {
        Ask::Wish(Wish::Script(_)) => Some(LineKind::OfScript),
        Ask::Wish(Wish::Batch(_)) => Some(LineKind::OfBatch),
        _ => None,
    }
}

// Returns the place of a request without files.
fn no_place() -> RunPlace<'static> {
    RunPlace {
        base: None,
        file: None,
        writes: false,
        pages_limit: PAG_LIMIT,
        page_size: PageSize::Small,
    }
}

/// Returns the files of a request.
pub fn place_asked<'a>(ask: &Ask<'a>) -> RunPlace<'a> {
    match ask {
        Ask::Wish(wish) => place_of(wish),
        Ask::Session(session) => place_of_session(session),
        Ask::Backup(backup) => place_of_backup(backup),
        Ask::Programs(_) => no_place(),
    }
}

// Returns the files that a backup reads.
fn place_of_backup<'a>(backup: &Backup<'a>) -> RunPlace<'a> {
    RunPlace {
        base: Some(backup.base),
        file: None,
        writes: false,
        pages_limit: PAG_LIMIT,
        page_size: size_of(&backup.words()),
    }
}

// Returns the files of a session.
fn place_of_session<'a>(session: &Session<'a>) -> RunPlace<'a> {
    RunPlace {
        base: Some(session.base),
        file: None,
        writes: true,
        pages_limit: PAG_LIMIT,
        page_size: size_of(&session.words()),
    }
}

/// Returns `true` if a request needs its whole input before it changes anything: the lines of a script or a batch, or a value. The input is
/// then read before the wait for the lock, because the program that writes the input may need the lock too.
pub fn reads_whole(ask: &Ask<'_>) -> bool {
    match ask {
        Ask::Wish(Wish::Script(_) | Wish::Batch(_)) => true,
        Ask::Wish(Wish::Store(store)) => store.raw_value && store.value == "-",
        _ => false,
    }
}

/// Returns the kind of work of a request, if the work is slow on a large database.
pub fn work_asked(ask: &Ask<'_>) -> Option<Work> {
    match ask {
        Ask::Wish(wish) => work_of(wish),
        Ask::Backup(_) => Some(Work::Backup),
        Ask::Session(_) | Ask::Programs(_) => None,
    }
}

/// Like `work_asked`, for a `Wish`.
pub fn work_of(wish: &Wish<'_>) -> Option<Work> {
    match wish {
        Wish::Check(_) => Some(Work::Check),
        Wish::Dump(_) => Some(Work::Dump),
        Wish::Load(_) => Some(Work::Load),
        Wish::Widen(_) => Some(Work::Widen),
        _ => None,
    }
}

/// Returns the first argument of a store that was read as hex but may be meant as text, because it has only letters, like `cafe`.
pub fn doubtful_hex<'a>(ask: &Ask<'a>) -> Option<&'a str> {
    let Ask::Wish(wish @ Wish::Store(_)) = ask else {
        return None;
    };
    let notation = wish.head().notation;
    if notation.text || notation.layout.is_some() {
        return None;
    }
    let words = wish.words();
    lettered(words.first).or(lettered(words.second))
}

// Returns the argument if it has only letters.
fn lettered(named: Option<Named<'_>>) -> Option<&str> {
    match named {
        Some(named) if named.word.bytes().all(|byte| byte.is_ascii_alphabetic()) => {
            Some(named.word)
        }
        _ => None,
    }
}
