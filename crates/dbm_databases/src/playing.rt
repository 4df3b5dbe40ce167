//! Runs a script on a database.
ghost use Rattle.std.specs.Prelude.{◌≡◌, Some, IfOk, IfErr, true};
ghost use Rattle.sdbm_addr.specs.Database.{Database};
ghost use Rattle.dbm_script.specs.Shorthand.{spelled_text};
ghost use Rattle.dbm_reports.specs.Causes.{IsCaused};
ghost use Rattle.dbm_reports.specs.Reports.{OnDatabase};
ghost use Rattle.dbm_databases.specs.Playing.{PlaysScript, PlaysAs, PlaysAlone, PlaysOn, alone_causes, output_limit, play_causes, script_causes, spelled_input};

use crate::strict::{find_bad_lines, has_bad_line};
use dbm_args::Form;
use dbm_reports::{
    Given, Notes, Report, ReportFault, key_bytes_of, open, page_size_of, read_input,
};
use dbm_script::{
    BadLines, LineKind, Notation, ScriptRun, TimeOfDay, read_number, run_spelled, spell_out,
};
use sdbm_files::Image;
use std::alloc::Global;
use std::io::Read;

/// The status of a strict script that did not run.
const BARRED: u8 = 1;

/// Returns the limit of the answers in bytes, by default `u64::MAX`. Returns `None` if the option is not a number.
pub fn output_limit(max_output: Option<&str>) -> Option<u64>
    ensures { result ≡ output_limit max_output.entry }
{
    match max_output {
        None => Some(u64::MAX),
        Some(text) => read_number(text.as_bytes(), u64::MAX),
    }
}

/// Runs a script on an empty database, which is then dropped.
///
/// # Errors
/// The errors of `read_input` and of `play_as`.
pub fn report_alone<R: Read>(
    alloc: Global,
    notation: &Notation<Global>,
    form: Form,
    most: u64,
    strict: bool,
    time: Option<TimeOfDay>,
    reader: &mut R,
) -> Result<Report, ReportFault>
    ensures ok { IfOk result (PlaysAlone strict notation.now form (spelled_input time (R.remaining reader.old)) most) }
    ensures fault { IfErr result (IsCaused (alone_causes notation.now form time (R.remaining reader.old) most)) }
{
    let image = Image::empty(alloc, key_bytes_of(form), page_size_of(form));
    let script = read_input(alloc, reader)?;
    let Report {
        text,
        status,
        notes,
        ..
    } = play_as(
        alloc,
        notation,
        image,
        time,
        script.as_slice(),
        most,
        strict,
    )?;
    Ok(Report {
        text,
        status,
        database: None,
        notes,
    })
}

/// Runs a script on the database in the files.
///
/// # Errors
/// The errors of `open`, of `read_input` and of `play_as`.
pub fn report_played<R: Read>(
    alloc: Global,
    notation: &Notation<Global>,
    given: &Given,
    form: Form,
    most: u64,
    strict: bool,
    time: Option<TimeOfDay>,
    reader: &mut R,
) -> Result<Report, ReportFault>
    ensures ok { IfOk result (λ report. OnDatabase form given.now (PlaysOn strict notation.now (spelled_input time (R.remaining reader.old)) most report)) }
    ensures fault { IfErr result (IsCaused (script_causes notation.now form given.now time (R.remaining reader.old) most)) }
{
    let image = open(alloc, given, form)?;
    let script = read_input(alloc, reader)?;
    play_as(
        alloc,
        notation,
        image,
        time,
        script.as_slice(),
        most,
        strict,
    )
}

// Runs a script. A strict script with a bad line does not run.
fn play_as(
    alloc: Global,
    notation: &Notation<Global>,
    image: Image<Global>,
    time: Option<TimeOfDay>,
    script: &[u8],
    most: u64,
    strict: bool,
) -> Result<Report, ReportFault>
    ensures ok { IfOk result (λ report. (after : Database) × (PlaysAs strict notation.now image (Some (spelled_text LineKind.OfScript time script.now)) most after report × (report.database ≡ Some after))) }
    ensures fault { IfErr result (IsCaused (play_causes notation.now image (Some (spelled_text LineKind.OfScript time script.now)) most)) }
{
    if strict {
        return play_strictly(alloc, notation, image, time, script, most);
    }
    play(alloc, notation, image, time, script, most)
}

// Runs a script if it has no bad line, and otherwise reports the bad lines.
fn play_strictly(
    alloc: Global,
    notation: &Notation<Global>,
    image: Image<Global>,
    time: Option<TimeOfDay>,
    script: &[u8],
    most: u64,
) -> Result<Report, ReportFault>
    ensures ok { IfOk result (λ report. (after : Database) × (PlaysAs true notation.now image (Some (spelled_text LineKind.OfScript time script.now)) most after report × (report.database ≡ Some after))) }
    ensures fault { IfErr result (IsCaused (play_causes notation.now image (Some (spelled_text LineKind.OfScript time script.now)) most)) }
{
    let lines = spell_out(alloc, LineKind::OfScript, time, script)?;
    let bad = has_bad_line(alloc, notation, lines.as_slice())?;
    if bad {
        // If memory runs out, the report has no note.
        let bad_lines = find_bad_lines(alloc, notation, lines.as_slice()).unwrap_or(
            BadLines::none(),
        );
        return Ok(Report {
            text: Vec::new(alloc),
            status: BARRED,
            database: Some(image),
            notes: Notes::of_lines(bad_lines),
        });
    }
    play(alloc, notation, image, time, script, most)
}

// Runs a script. The report has the answers, of at most `most` bytes, and the database to write.
fn play(
    alloc: Global,
    notation: &Notation<Global>,
    image: Image<Global>,
    time: Option<TimeOfDay>,
    script: &[u8],
    most: u64,
) -> Result<Report, ReportFault>
    ensures ok { IfOk result (λ report. (after : Database) × (PlaysScript notation.now image (Some (spelled_text LineKind.OfScript time script.now)) most after report × (report.database ≡ Some after))) }
    ensures fault { IfErr result (IsCaused (play_causes notation.now image (Some (spelled_text LineKind.OfScript time script.now)) most)) }
{
    let ScriptRun {
        image,
        text,
        bad_lines,
    } = run_spelled(alloc, notation, image, time, script, most)?;
    Ok(Report {
        text,
        status: 0,
        database: Some(image),
        notes: Notes::of_lines(bad_lines),
    })
}
