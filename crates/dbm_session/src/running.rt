//! Answers the lines of a session one by one.
ghost use Rattle.std.specs.Prelude.{◌≡◌, ◌<◌, ◌∷◌, [], IfErr, IfOk, IfSome, OnErr, OnOk};
ghost use Rattle.std.specs.List.{All};
ghost use Rattle.std.specs.Io.KnownBytes.{Appends};
ghost use Rattle.dbm_script.specs.Pieces.{pieces_of};
ghost use Rattle.dbm_script.specs.Script.{stage};
ghost use Rattle.store_marks.specs.Noted.{AreNoted};
ghost use Rattle.dbm_session.specs.HostCalls.{DidSave, Logs};
ghost use Rattle.dbm_session.specs.Sessions.{AnsweredOwn, AnsweredTimed, Answered, SessionEnds, IsOfScript, RunsAsScript, SavesAtMostOne, SavesMaybe, SessionStops, WritesSome, ended_lines, half_after, half_line};

use crate::fault::SessionFault;
use crate::host::{Host, Own};
use crate::lines::{asks_change, is_own, is_save};
use byte_text::write_all;
use dbm_script::{LineKind, LineReader, Notation, SCRIPT_LIMIT, answer_line, spell_line};
use prog_registry::Registry;
use sdbm_files::Image;
use std::alloc::{AllocError, Global};
use std::io::{Read, Write};
use store_marks::Changes;

/// The result of a session: the database after its lines, which was saved.
#[derive(Drop)]
pub struct SessionEnd {
    pub image: Image<Global>,
    /// The number, from 1 on, of an incomplete last line. It has no LF, and was not run.
    pub half_line: Option<u64>,
}

// The state of a session: the database, the pages that have changed since the last save, and the programs that its lines have submitted.
#[derive(Drop)]
struct Session {
    image: Image<Global>,
    changes: Changes,
    registry: Registry<Global>,
}

/// Answers the lines of a reader until its end, then saves the database. The answer to each line is written and flushed before the next
/// line is read.
///
/// The line `save` saves the database; its answer `saved` is written once the save is committed. The host answers `help` and lines that
/// begin with `.`. Any other line is answered as in a script, at the time that the host returns for it. Submitted programs can be run until
/// the session ends. If `Host::is_due` returns `true` after a script line, the database is saved before the answer to the line is written.
///
/// Each line ends with LF. If the input ends within a line, that line is not run, and its number is returned.
///
/// # Errors
/// `Read` if the reader fails, `TooLong` if a line has more than 16,777,216 bytes, `Write` if the writer fails, `Save` if a save fails, and
/// `NoMemory` if allocation fails. The session then ends without another save. The files hold the last save that succeeded; after `Save`,
/// they may hold the failed one.
pub fn run_session<R: Read, W: Write, H: Host>(
    alloc: Global,
    notation: &Notation<Global>,
    image: Image<Global>,
    reader: &mut R,
    writer: &mut W,
    host: &mut H,
) -> Result<SessionEnd, SessionFault<H::Fault>>
    ensures ok { IfOk result (λ ended. IfSome (R.remaining reader.old) (λ input. SessionEnds notation.now image (ended_lines (pieces_of 10 input)) (W.contents writer.old) (W.contents writer.new) (H.log host.old) (H.log host.new) ended.image)) }
    ensures half { IfOk result (λ ended. IfSome (R.remaining reader.old) (λ input. ended.half_line ≡ half_line (pieces_of 10 input))) }
    ensures part { IfErr result (λ _. IfSome (R.remaining reader.old) (λ input. SessionStops notation.now image (ended_lines (pieces_of 10 input)) (W.contents writer.old) (W.contents writer.new) (H.log host.old) (H.log host.new))) }
    ensures script { IfOk result (λ ended. IfSome (R.remaining reader.old) (λ input. All IsOfScript (ended_lines (pieces_of 10 input)) → RunsAsScript notation.now image (ended_lines (pieces_of 10 input)) (W.contents writer.old) (W.contents writer.new) (H.log host.old) (H.log host.new) ended.image)) }
    ensures kept { IfOk result (λ ended. (ended.image.kind ≡ image.kind) × (ended.image.size ≡ image.size)) }
{
    let registry = Registry::new(alloc)?;
    let mut session = Session {
        image,
        changes: Changes::Any,
        registry,
    };
    let mut lines = LineReader::new(alloc);
    let (mut line, mut text) = (Vec::new(alloc), Vec::new(alloc));
    for count in 0..u64::MAX {
        host.ask(false);
        if !lines.next_ended(reader, &mut line, SCRIPT_LIMIT)? {
            return end(alloc, session, host, half_after(count, &line));
        }
        session = answer_next(alloc, notation, session, host, line.as_slice(), &mut text)?;
        say(writer, text.as_slice())?;
    }
    Err(SessionFault::TooLong)
}

// Returns the number of an incomplete last line after `count` complete lines, or `None` if `line` is empty: then no line is incomplete.
fn half_after(count: u64, line: &Vec<u8>) -> Option<u64>
    requires { count < 18446744073709551615 }
    ensures { result ≡ half_after count line.now.items }
{
    if line.is_empty() {
        return None;
    }
    Some(count + 1)
}

// Saves the final database.
fn end<H: Host>(
    alloc: Global,
    session: Session,
    host: &mut H,
    half_line: Option<u64>,
) -> Result<SessionEnd, SessionFault<H::Fault>>
    requires noted { AreNoted (H.saved host.old) session.changes session.image }
    ensures ok { IfOk result (λ ended. (ended.image ≡ session.image) × Logs (H.log host.old) (H.log host.new) (DidSave session.image ∷ [])) }
    ensures half { IfOk result (λ ended. ended.half_line ≡ half_line) }
    ensures lost { OnErr result (SavesAtMostOne (H.log host.old) (H.log host.new)) }
{
    let Session {
        image,
        mut changes,
        ..
    } = session;
    host.ask(true);
    save(alloc, &image, &mut changes, host)?;
    Ok(SessionEnd { image, half_line })
}

// Saves the database. Then no page has changed.
fn save<H: Host>(
    alloc: Global,
    image: &Image<Global>,
    changes: &mut Changes,
    host: &mut H,
) -> Result<(), SessionFault<H::Fault>>
    requires noted { AreNoted (H.saved host.old) changes.old image.now }
    ensures kept { OnOk result (Logs (H.log host.old) (H.log host.new) (DidSave image.now ∷ [])) }
    ensures noted { OnOk result (AreNoted (H.saved host.new) changes.new image.now) }
    ensures lost { OnErr result (SavesAtMostOne (H.log host.old) (H.log host.new)) }
{
    match host.save(image, changes) {
        Ok(()) => {
            *changes = Changes::none(alloc);
            Ok(())
        }
        Err(fault) => Err(SessionFault::Save(fault)),
    }
}

// Writes an answer, and flushes it.
fn say<W: Write, F: Drop>(writer: &mut W, text: &[u8]) -> Result<(), SessionFault<F>>
    ensures ok { OnOk result (Appends (W.contents writer.old) (W.contents writer.new) text.now) }
    ensures part { OnErr result (WritesSome (W.contents writer.old) (W.contents writer.new) text.now) }
{
    let Ok(()) = write_all(writer, text) else {
        return Err(SessionFault::Write);
    };
    match writer.flush() {
        Ok(()) => Ok(()),
        Err(_) => Err(SessionFault::Write),
    }
}

// Answers a line. Replaces `text` by the answer.
fn answer_next<H: Host>(
    alloc: Global,
    notation: &Notation<Global>,
    session: Session,
    host: &mut H,
    line: &[u8],
    text: &mut Vec<u8>,
) -> Result<Session, SessionFault<H::Fault>>
    requires noted { AreNoted (H.saved host.old) session.changes session.image }
    ensures answers { IfOk result (λ after. Answered notation.now (stage session.image session.registry.programs) line.now text.new.items (H.log host.old) (H.log host.new) (stage after.image after.registry.programs)) }
    ensures lost { OnErr result (SavesAtMostOne (H.log host.old) (H.log host.new)) }
    ensures kept { IfOk result (λ after. (after.image.kind ≡ session.image.kind) × (after.image.size ≡ session.image.size)) }
    ensures noted { IfOk result (λ after. AreNoted (H.saved host.new) after.changes after.image) }
{
    text.clear();
    if is_save(line) {
        text.extend_from_slice(b"saved\n")?;
        let Session {
            image,
            mut changes,
            registry,
        } = session;
        save(alloc, &image, &mut changes, host)?;
        return Ok(Session {
            image,
            changes,
            registry,
        });
    }
    if is_own(line) {
        return answer_own(alloc, notation, session, host, line, text);
    }
    let Session {
        image,
        mut changes,
        registry,
    } = answer_scripted(alloc, notation, session, host, line, text)?;
    let asks_change = asks_change(line, text.as_slice());
    save_if_due(alloc, &image, &mut changes, host, asks_change)?;
    Ok(Session {
        image,
        changes,
        registry,
    })
}

// Saves the database after a line if the host requests it.
fn save_if_due<H: Host>(
    alloc: Global,
    image: &Image<Global>,
    changes: &mut Changes,
    host: &mut H,
    asks_change: bool,
) -> Result<(), SessionFault<H::Fault>>
    requires noted { AreNoted (H.saved host.old) changes.old image.now }
    ensures kept { OnOk result (SavesMaybe (H.log host.old) (H.log host.new) image.now) }
    ensures noted { OnOk result (AreNoted (H.saved host.new) changes.new image.now) }
    ensures lost { OnErr result (SavesAtMostOne (H.log host.old) (H.log host.new)) }
{
    if host.is_due(asks_change) {
        save(alloc, image, changes, host)?;
    }
    Ok(())
}

// Answers a line of the host.
fn answer_own<H: Host>(
    alloc: Global,
    notation: &Notation<Global>,
    session: Session,
    host: &mut H,
    line: &[u8],
    text: &mut Vec<u8>,
) -> Result<Session, SessionFault<H::Fault>>
    requires noted { AreNoted (H.saved host.old) session.changes session.image }
    ensures answers { IfOk result (λ after. AnsweredOwn notation.now (stage session.image session.registry.programs) text.new.items (H.log host.old) (H.log host.new) (stage after.image after.registry.programs)) }
    ensures lost { OnErr result (SavesAtMostOne (H.log host.old) (H.log host.new)) }
    ensures kept { IfOk result (λ after. (after.image.kind ≡ session.image.kind) × (after.image.size ≡ session.image.size)) }
    ensures noted { IfOk result (λ after. AreNoted (H.saved host.new) after.changes after.image) }
{
    match host.answer_own(line, &session.image, text)? {
        Own::Shown => Ok(session),
        Own::Line(line) => {
            text.clear();
            Ok(answer_scripted(alloc, notation, session, host, line.as_slice(), text)?)
        }
    }
}

// Answers a script line at the time that the host returns.
fn answer_scripted<H: Host>(
    alloc: Global,
    notation: &Notation<Global>,
    session: Session,
    host: &mut H,
    line: &[u8],
    text: &mut Vec<u8>,
) -> Result<Session, AllocError>
    requires empty { text.old.items ≡ [] }
    requires noted { AreNoted (H.saved host.old) session.changes session.image }
    ensures answers { IfOk result (λ after. AnsweredTimed notation.now (stage session.image session.registry.programs) line.now text.new.items (H.log host.old) (H.log host.new) (stage after.image after.registry.programs)) }
    ensures lost { OnErr result (SavesAtMostOne (H.log host.old) (H.log host.new)) }
    ensures kept { IfOk result (λ after. (after.image.kind ≡ session.image.kind) × (after.image.size ≡ session.image.size)) }
    ensures noted { IfOk result (λ after. AreNoted (H.saved host.new) after.changes after.image) }
{
    let time = host.time();
    let mut spelled = Vec::new(alloc);
    spell_line(LineKind::OfScript, time, line, &mut spelled)?;
    let Session {
        mut image,
        mut changes,
        mut registry,
    } = session;
    let _is_command = answer_line(
        alloc,
        notation,
        &mut image,
        &mut changes,
        &mut registry,
        spelled.as_slice(),
        text,
    )?;
    Ok(Session {
        image,
        changes,
        registry,
    })
}
