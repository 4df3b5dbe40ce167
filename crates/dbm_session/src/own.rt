//! The lines of a session that scripts do not have.

ghost use Rattle.std.specs.Prelude.{◌≡◌, IfOk, IfSome, codes, nat_eq, true};
ghost use Rattle.std.specs.List.{starts_with};

use dbm_databases::{ListingRequest, show_listing};
use dbm_reports::{ReportFault, text_image};
use dbm_script::Notation;
use sdbm_files::Image;
use std::alloc::{AllocError, Global};

const HELP: &[u8] = b"\
get KEY              put KEY VALUE       del KEY
insert KEY VALUE     incr KEY [AMOUNT]   count
program IMAGE        run KEY PROG ARG BLANK NOW
.list [PREFIX]       .keys [PREFIX]      .stats
.program FILE        .program @NAME      save
The end of the input saves and ends the session: at a terminal Ctrl-D, quit or exit.
";

/// A line that scripts do not have.
#[derive(Clone, Copy)]
pub enum OwnLine<'a> {
    /// Requests the pairs, the keys or the statistics of the database.
    Shows(ListingRequest<'a>),
    /// Requests the help, which lists the lines of a session.
    Help,
    /// Submits the program with this name: the name of its file, or `@` and the name of a stock program.
    Program(&'a [u8]),
    /// An invalid line.
    Bad,
}

/// Reads a line that scripts do not have. A prefix may follow `.list` and `.keys`.
pub fn read_own(line: &[u8]) -> OwnLine<'_> {
    if line == b"help".as_slice() || line == b".help".as_slice() {
        return OwnLine::Help;
    }
    if line == b".stats".as_slice() {
        return OwnLine::Shows(ListingRequest::Stats);
    }
    if line == b".list".as_slice() {
        return OwnLine::Shows(ListingRequest::Pairs(None));
    }
    if line == b".keys".as_slice() {
        return OwnLine::Shows(ListingRequest::Keys(None));
    }
    if let Some(word) = line.strip_prefix(b".list ") {
        return OwnLine::Shows(ListingRequest::Pairs(Some(word)));
    }
    if let Some(word) = line.strip_prefix(b".keys ") {
        return OwnLine::Shows(ListingRequest::Keys(Some(word)));
    }
    match line.strip_prefix(b".program ") {
        Some(name) => OwnLine::Program(name),
        None => OwnLine::Bad,
    }
}

/// Appends to `text` the answer to a line that scripts do not have. `OwnLine::Bad`, `OwnLine::Program` and an invalid prefix are answered
/// `bad line`.
///
/// # Errors
/// `AllocError` if allocation fails.
pub fn show_own(
    alloc: Global,
    notation: &Notation<Global>,
    image: &Image<Global>,
    line: OwnLine<'_>,
    text: &mut Vec<u8>,
) -> Result<(), AllocError> {
    let is_shown = match line {
        OwnLine::Shows(shown) => show_listing(alloc, notation, image, shown, text)?,
        OwnLine::Help => {
            text.extend_from_slice(HELP)?;
            true
        }
        OwnLine::Program(_) | OwnLine::Bad => false,
    };
    if !is_shown {
        text.extend_from_slice(b"bad line\n")?;
    }
    Ok(())
}

/// Returns the script line that submits the program whose text is `file`. If `file` is not the text of a program, appends a line with the
/// fault to `text` and returns `None`. A text without instructions is an empty program, which the verifier refuses.
///
/// # Errors
/// `AllocError` if allocation fails.
pub fn program_line(
    alloc: Global,
    file: &[u8],
    text: &mut Vec<u8>,
) -> Result<Option<Vec<u8>>, AllocError>
    ensures { IfOk result (λ line. IfSome line (λ full. starts_with nat_eq full.items (codes "program ") ≡ true)) }
{
    let image = match text_image(alloc, file) {
        Ok(image) => image,
        Err(ReportFault::NoMemory) => return Err(AllocError),
        Err(fault) => {
            show_fault(alloc, fault, text)?;
            return Ok(None);
        }
    };
    let mut line = Vec::new(alloc);
    line.extend_from_slice(b"program ")?;
    if image.is_empty() {
        line.push(b'.')?;
        return Ok(Some(line));
    }
    let digits = hex::encode(alloc, image.as_slice())?;
    line.extend_from_slice(digits.as_bytes())?;
    Ok(Some(line))
}

// Appends a line with the reason for refusing the text of a program.
fn show_fault(alloc: Global, fault: ReportFault, text: &mut Vec<u8>) -> Result<(), AllocError> {
    let line = format!(in alloc; "refused {fault}\n")?;
    text.extend_from_slice(line.as_bytes())
}
