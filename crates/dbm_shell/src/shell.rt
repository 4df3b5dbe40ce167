//! The host of a session: the files of the database, the clock, and the terminal at which lines are typed.
ghost use Rattle.std.specs.Prelude.{◌≡◌, ◌++◌, ◌∷◌, [], IfOk, IfSome, OnOk, codes, nat_eq, true};
ghost use Rattle.std.specs.List.{starts_with};
ghost use Rattle.store_marks.specs.Noted.{AreNoted};
ghost use Rattle.dbm_session.specs.HostCalls.{DidSave};

use crate::host_log::HostLog;
use dbm_files::{
    LockedFiles, SaveOutcome, SessionSaves, close_session, read_program, save_session,
};
use dbm_messages::ServeFault;
use dbm_places::{FilesFault, RunPlace};
use dbm_reports::is_too_long;
use dbm_script::{Notation, TimeOfDay};
use dbm_session::{Every, Host, Own, OwnLine, program_line, read_own, show_own};
use dbm_stderr::{is_terminal, note_unsaved, note_waiting_save};
use sdbm_files::Image;
use std::alloc::{AllocError, Global};
use std::fs::File;
use std::rt::Runtime;
use std::time::{Clock, Duration, SystemTime, UNIX_EPOCH};
use stock_names::{NAMES, ProgramWord, read_word};
use store_marks::Changes;

/// The options of a session: the notation of its lines, the rule for its automatic saves, and whether lines may use the time of day.
#[derive(Clone, Copy)]
pub struct Options<'a> {
    pub notation: &'a Notation<Global>,
    pub every: Every,
    pub clock: bool,
}

/// The files of a session's database, the clock, and the terminal at which lines are typed, if there is one. Only clauses read the field
/// `log`, which has the saves and the times that the shell returned.
#[derive(Drop)]
pub struct Shell<'a, R: Runtime<File = File>> {
    rt: &'a R,
    place: RunPlace<'a>,
    held: &'a LockedFiles,
    saves: SessionSaves<'a, R>,
    options: Options<'a>,
    is_prompted: bool,
    // The number of lines that requested changes since the last save.
    changes: u64,
    has_saved: bool,
    // The time of the last save, or of the start. If it is `None`, a save after some seconds is due as soon as a line requests a change.
    saved_at: Option<Duration>,
    log: HostLog,
}

impl<'a, R: Runtime<File = File> + Clock + AllocGlobal> Shell<'a, R> {
    /// Makes the host of a session before any line is read.
    pub fn new(
        rt: &'a R,
        place: RunPlace<'a>,
        held: &'a LockedFiles,
        saves: SessionSaves<'a, R>,
        options: Options<'a>,
    ) -> Self {
        Shell {
            rt,
            place,
            held,
            saves,
            options,
            is_prompted: is_terminal(rt, 0) && is_terminal(rt, 2),
            changes: 0,
            has_saved: false,
            saved_at: rt.monotonic().ok(),
            log: HostLog::none(),
        }
    }

    /// Reports the number of lines whose changes are not saved, if there are any.
    pub fn tell_unsaved(&self) {
        if self.changes > 0 {
            note_unsaved(self.rt, self.changes);
        }
    }

    // Returns the time of day, or `None` if lines may not use the time or the system does not report it.
    fn clock_time(&self) -> Option<TimeOfDay> {
        if !self.options.clock {
            return None;
        }
        let since = SystemTime::now(self.rt)
            .ok()?
            .duration_since(UNIX_EPOCH)
            .ok()?;
        Some(TimeOfDay {
            seconds: since.as_secs(),
            millis: u64::try_from(since.as_millis()).ok()?,
        })
    }

    // Saves a database in the files, and returns the log with this save appended. No other function logs a save.
    fn save_logged(&mut self, image: &Image<Global>, noted: &Changes) -> Result<HostLog, FilesFault>
        requires noted { AreNoted self.old.saves noted.now image.now }
        ensures logged { IfOk result (λ log. log.calls ≡ self.old.log.calls ++ DidSave image.now ∷ []) }
        ensures saved { OnOk result (IfSome self.new.saves (λ base. base ≡ image.now)) }
        ensures same { self.new.log.calls ≡ self.old.log.calls }
    {
        let (rt, place, held) = (self.rt, self.place, self.held);
        let saved = save_session(rt, place, held, &mut self.saves, image, noted)?;
        if saved.outcome == SaveOutcome::Pending {
            note_waiting_save(self.rt, self.place.base);
        }
        Ok(self.log.with_save(&saved.receipt))
    }

    /// Closes the log of the session, so that both data files are complete. If this fails and the session has saved, notes that the next
    /// writing run will finish the save.
    pub fn end_saves(&mut self) {
        if close_session(self.rt, self.held, &mut self.saves).is_err() && self.has_saved {
            note_waiting_save(self.rt, self.place.base);
        }
    }

    // Returns the seconds since the last save, or `u64::MAX` if the system reports no time.
    fn seconds(&self) -> u64 {
        let (Some(saved_at), Ok(now)) = (self.saved_at, self.rt.monotonic()) else {
            return u64::MAX;
        };
        now.saturating_sub(saved_at).as_secs()
    }

    // Reads the file of a program.
    fn read_file(&self, name: &[u8]) -> Result<Vec<u8>, FilesFault> {
        match str::from_utf8(name) {
            Ok(name) => read_program(self.rt, name),
            Err(_) => Err(FilesFault::ReadFile),
        }
    }

    // Returns the line that submits the named program: a stock program, or the program in the file with this name. If there is no such
    // program, appends a line with the reason to `text` and returns `None`.
    fn program(&self, name: &[u8], text: &mut Vec<u8>) -> Result<Option<Vec<u8>>, AllocError>
        ensures { IfOk result (λ line. IfSome line (λ full. starts_with nat_eq full.items (codes "program ") ≡ true)) }
    {
        let alloc = self.rt.alloc();
        let read = match read_word(name) {
            ProgramWord::Stock(stock) => {
                let file = stock.file(alloc, false)?;
                return program_line(alloc, file.as_slice(), text);
            }
            ProgramWord::Unknown => {
                let line = format!(in alloc; "refused {}: {NAMES}\n", ServeFault::NoStock)?;
                text.extend_from_slice(line.as_bytes())?;
                return Ok(None);
            }
            ProgramWord::File => self.read_file(name),
        };
        match read {
            Ok(file) => program_line(alloc, file.as_slice(), text),
            Err(FilesFault::NoMemory) => Err(AllocError),
            Err(fault) => {
                let fault = ServeFault::from(fault);
                let line = format!(in alloc; "refused {fault}\n")?;
                text.extend_from_slice(line.as_bytes())?;
                Ok(None)
            }
        }
    }
}

impl<R: Runtime<File = File> + Clock + AllocGlobal> Host for Shell<'_, R> {
    ghost use Rattle.std.specs.Prelude.{Some};

    type Fault = FilesFault;

    ghost log = { λ shell. Some shell.log.calls };

    ghost saved = { λ shell. shell.saves };

    fn ask(&mut self, is_over: bool) {
        if !self.is_prompted {
            return;
        }
        if is_over {
            let _ = eprintln!(self.rt; "");
        } else {
            let _ = eprint!(self.rt; "dbm> ");
        }
    }

    fn time(&mut self) -> Option<TimeOfDay> {
        let time = self.clock_time();
        self.log = self.log.with_time(&time);
        time
    }

    fn is_due(&mut self, asks_change: bool) -> bool {
        if asks_change {
            self.changes = self.changes.saturating_add(1);
        }
        let every = self.options.every;
        every != Every::Never && every.is_due(self.changes, self.seconds())
    }

    fn answer_own(
        &mut self,
        line: &[u8],
        image: &Image<Global>,
        text: &mut Vec<u8>,
    ) -> Result<Own, AllocError> {
        let alloc = self.rt.alloc();
        let asked = read_own(line);
        if let OwnLine::Program(name) = asked {
            return match self.program(name, text)? {
                Some(line) => Ok(Own::Line(line)),
                None => Ok(Own::Shown),
            };
        }
        show_own(alloc, self.options.notation, image, asked, text)?;
        Ok(Own::Shown)
    }

    fn save(&mut self, image: &Image<Global>, noted: &Changes) -> Result<(), FilesFault> {
        if is_too_long(image) {
            return Err(FilesFault::FileTooLong);
        }
        self.log = self.save_logged(image, noted)?;
        self.changes = 0;
        self.has_saved = true;
        self.saved_at = self.rt.monotonic().ok();
        Ok(())
    }
}
