//! Sentences about a session that ended with a fault.

use crate::fault::ServeFault;
use crate::sentence::{Part, Sentence, plain, with_one};
use dbm_reports::ReportFault;

/// The sentence for a fault of a session. Returns `None` if a session has the same sentence as other subcommands.
pub fn session_sentence(fault: ServeFault) -> Option<Sentence<'static>> {
    match fault {
        ServeFault::Write => Some(plain(
            "An answer could not be written, perhaps because the program that reads them has ended. Earlier saves remain.",
        )),
        ServeFault::Report(ReportFault::TooLong) => Some(plain(
            "A line has more than 16 MiB. Earlier saves remain.",
        )),
        ServeFault::FileTooLong => Some(plain(
            "The .pag of the database would have more than 1 GiB, so it was not saved. Earlier saves remain.",
        )),
        ServeFault::CutLine(line) => Some(with_one(
            "Line {}, the last one, has no LF, so it may be incomplete and was not run. The changes of the lines before it are saved.",
            Part::Number(line),
        )),
        _ => None,
    }
}
