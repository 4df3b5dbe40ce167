//! The environment of a session.
ghost use Rattle.std.specs.Prelude.{◌≡◌, ◌∷◌, [], IfOk, IfSome, List, None, OnErr, OnOk, Option};
ghost use Rattle.sdbm_addr.specs.Database.{Database};
ghost use Rattle.store_marks.specs.Noted.{AreNoted};
ghost use Rattle.dbm_session.specs.HostCalls.{DidSave, GaveTime, HostCall, Logs};
ghost use Rattle.dbm_session.specs.Sessions.{IsOwnProgram, SavesMaybe};

use dbm_script::TimeOfDay;
use sdbm_files::Image;
use std::alloc::{AllocError, Global};
use store_marks::Changes;

/// The host's result for a line that is not part of the script language.
#[derive(Drop)]
pub enum Own {
    /// The host has appended its answer to the text.
    Shown,
    /// A script line to run instead.
    Line(Vec<u8>),
}

/// The environment of a session: the terminal where its lines are typed, its clock, and the files of its database.
pub trait Host {
    /// The error of a save.
    type Fault: Drop;

    // The log of the saves and of the times that the clock returned, in order. None if the host keeps no log.
    ghost log: { Self → Option (List HostCall) } = { λ _. None };

    // The database of the last save, if the host knows it.
    ghost saved: { Self → Option Database } = { λ _. None };

    /// Prompts for the next line. If `is_over` is true, the input has ended, and no line follows.
    fn ask(&mut self, is_over: bool)
        ensures same { log self.new ≡ log self.old }
        ensures saved { saved self.new ≡ saved self.old };

    /// Returns the time of day for a line, or `None` if lines may not use the time or the system does not report it.
    fn time(&mut self) -> Option<TimeOfDay>
        ensures time { Logs (log self.old) (log self.new) (GaveTime result ∷ []) }
        ensures saved { saved self.new ≡ saved self.old };

    /// Returns `true` if the database must be saved after a line. `asks_change` is true if that line requested a change.
    fn is_due(&mut self, asks_change: bool) -> bool
        ensures same { log self.new ≡ log self.old }
        ensures saved { saved self.new ≡ saved self.old };

    /// Answers a line that is not part of the script language. Either appends an answer to `text`, or returns a script line that submits
    /// a program.
    ///
    /// # Errors
    /// `AllocError` if allocation fails.
    fn answer_own(
        &mut self,
        line: &[u8],
        image: &Image<Global>,
        text: &mut Vec<u8>,
    ) -> Result<Own, AllocError>
        ensures same { log self.new ≡ log self.old }
        ensures line { IfOk result IsOwnProgram }
        ensures saved { saved self.new ≡ saved self.old };

    /// Saves a database that differs from that of the last save only on the pages in `changes`. Returns `Ok` once the save is committed.
    ///
    /// # Errors
    /// An error of the host. The save may still have taken effect.
    fn save(&mut self, image: &Image<Global>, changes: &Changes) -> Result<(), Self::Fault>
        requires noted { AreNoted (saved self.old) changes.now image.now }
        ensures kept { OnOk result (Logs (log self.old) (log self.new) (DidSave image.now ∷ [])) }
        ensures lost { OnErr result (SavesMaybe (log self.old) (log self.new) image.now) }
        ensures saved { OnOk result (IfSome (saved self.new) (λ base. base ≡ image.now)) };
}
