//! Serves a session on the files of its database.

use crate::shell::{Options, Shell};
use crate::terminal_lines::TerminalLines;
use dbm_files::{RunFiles, SessionSaves};
use dbm_messages::ServeFault;
use dbm_places::{FileBytes, FilesFault, RunPlace};
use dbm_reports::{Given, ReportFault, notation_by, open};
use dbm_script::Notation;
use dbm_session::{Every, Session, SessionEnd, SessionFault, read_every, run_session};
use dbm_stderr::is_terminal;
use sdbm_files::Image;
use std::alloc::Global;
use std::fs::File;
use std::io::{self, Read};
use std::rt::Runtime;
use std::time::Clock;

/// Answers the lines of a reader on the database in the files of `taken`, and saves the database in these files. Until the session ends, no
/// other run may change the database; other runs may read it between two saves.
///
/// # Errors
/// - Before a line is read: `Report` with `BadLayout` if the layout of values is invalid, with `BadNumber` if `--save-every` is invalid, or
///   with `Open` if the files cannot be opened; and `WriteFile` if the files were taken without the lock for changes.
/// - While lines are answered: `Report` with `Read`, or with `TooLong` if a line has more than 16,777,216 bytes; `Write` if an answer was
///   not written; the errors of a save; and `NoMemory` if allocation fails. The changes since the last save are then lost, and a note gives
///   the number of lines that requested changes.
/// - `CutLine` if the input ends within a line. That line is not run, and the changes before it are saved.
pub fn serve_session<R: Runtime<File = File> + Clock + AllocGlobal, I: Read>(
    rt: &R,
    session: Session<'_>,
    place: RunPlace<'_>,
    taken: RunFiles,
    reader: &mut I,
) -> Result<(), ServeFault> {
    let (notation, every) = read_options(rt.alloc(), &session)?;
    let RunFiles { bytes, held, .. } = taken;
    let Some(held) = held else {
        return Err(ServeFault::WriteFile);
    };
    let image = opened(rt.alloc(), session, bytes)?;
    let saves = SessionSaves::begin(rt, place, &held);
    let options = Options {
        notation: &notation,
        every,
        clock: session.clock,
    };
    let mut shell = Shell::new(rt, place, &held, saves, options);
    answer_lines(rt, &notation, image, reader, &mut shell)
}

/// Reads the options of a session: the notation of its lines, and the rule for its saves.
///
/// # Errors
/// `Report` with `BadLayout` if the layout of values is invalid, and with `BadNumber` if `--save-every` is invalid; `NoMemory` if
/// allocation fails.
pub fn read_options(
    alloc: Global,
    session: &Session<'_>,
) -> Result<(Notation<Global>, Every), ServeFault> {
    let notation = notation_by(alloc, session.notation)?;
    match read_every(session.save_every) {
        Some(every) => Ok((notation, every)),
        None => Err(ServeFault::Report(ReportFault::BadNumber)),
    }
}

// Opens the database in the files, and drops the bytes of the files.
fn opened(
    alloc: Global,
    session: Session<'_>,
    bytes: FileBytes,
) -> Result<Image<Global>, ServeFault> {
    let given = Given {
        dir: bytes.directory,
        pag: bytes.pages,
        file: bytes.program,
    };
    Ok(open(alloc, &given, session.form)?)
}

// Answers the lines of a reader. After a fault, reports the number of lines whose changes are lost.
fn answer_lines<R: Runtime<File = File> + Clock + AllocGlobal, I: Read>(
    rt: &R,
    notation: &Notation<Global>,
    image: Image<Global>,
    reader: &mut I,
    shell: &mut Shell<'_, R>,
) -> Result<(), ServeFault> {
    let mut writer = io::writer(rt);
    let mut lines = TerminalLines::new(reader, is_terminal(rt, 0));
    let ended = run_session(rt.alloc(), notation, image, &mut lines, &mut writer, shell);
    shell.end_saves();
    match ended {
        Ok(
            SessionEnd {
                half_line: Some(line),
                ..
            },
        ) => Err(ServeFault::CutLine(line)),
        Ok(_) => Ok(()),
        Err(fault) => {
            shell.tell_unsaved();
            Err(serve_fault(fault))
        }
    }
}

// Converts the fault of a session into a fault of the program.
fn serve_fault(fault: SessionFault<FilesFault>) -> ServeFault {
    match fault {
        SessionFault::Read => ServeFault::Report(ReportFault::Read),
        SessionFault::TooLong => ServeFault::Report(ReportFault::TooLong),
        SessionFault::Write => ServeFault::Write,
        SessionFault::NoMemory => ServeFault::NoMemory,
        SessionFault::Save(fault) => ServeFault::from(fault),
    }
}
