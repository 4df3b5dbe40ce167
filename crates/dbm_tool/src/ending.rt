//! The ending of a run of the program.
ghost use Rattle.std.specs.Prelude.{◌≡◌};
ghost use Rattle.dbm_tool.specs.Endings.{IsEndingOf, IsExitStatus, IsRefusalStatus};

use dbm_command_line::ToolFault;
use dbm_messages::ServeFault;
use dbm_records::PageResult;
use dbm_reports::{Notes, Outcome};

/// The status of every fault.
pub const FAULT: u8 = 2;

/// A request that was served and whose text was printed: the exit status, and the notes for standard error.
#[derive(Clone, Copy)]
pub struct Served {
    pub status: u8,
    pub notes: Notes,
    /// The change is durable in the redo file, but not yet written to the data files.
    pub is_pending: bool,
}

impl Served {
    /// A request with a status and no notes.
    pub fn plain(status: u8) -> Served
        ensures { result.status ≡ status }
    {
        Served {
            status,
            notes: Notes::none(),
            is_pending: false,
        }
    }

    /// A request with this outcome, after the text was printed and the database was saved.
    pub fn of(outcome: &Outcome, is_pending: bool) -> Served
        ensures status { result.status ≡ outcome.now.status }
        ensures notes { result.notes ≡ outcome.now.notes }
        ensures pending { result.is_pending ≡ is_pending }
    {
        Served {
            status: outcome.status,
            notes: outcome.notes,
            is_pending,
        }
    }

    /// A request with this result on one page, after the text was printed and the change was saved.
    pub fn on_page(page: &PageResult, is_pending: bool) -> Served
        ensures status { result.status ≡ page.now.status }
        ensures notes { result.notes ≡ page.now.notes }
        ensures pending { result.is_pending ≡ is_pending }
    {
        Served {
            status: page.status,
            notes: page.notes,
            is_pending,
        }
    }
}

/// The ending of a run of the program.
#[derive(Drop)]
pub enum Ending {
    /// The request was served.
    Served(Served),
    /// The arguments are invalid, or they request help or the version.
    Refused(ToolFault),
    /// The request failed.
    Failed(ServeFault),
}

impl Ending {
    /// Returns the ending of a run, given the result of its request. `None` means that the reader of the answer is gone, which is not a
    /// fault.
    pub fn of(outcome: Result<Option<Served>, ServeFault>) -> Ending
        ensures { IsEndingOf outcome result }
    {
        match outcome {
            Ok(Some(served)) => Ending::Served(served),
            Ok(None) => Ending::Served(Served::plain(0)),
            Err(fault) => Ending::Failed(fault),
        }
    }
}

/// Returns the exit status of the program: that of the served request, 0 if the arguments request help or the version, and 2 for every
/// other refusal and for every fault.
pub fn exit_status(ending: &Ending) -> u8
    ensures { IsExitStatus ending.now result }
{
    match ending {
        Ending::Served(served) => served.status,
        Ending::Refused(fault) => refusal_status(fault),
        Ending::Failed(_) => FAULT,
    }
}

fn refusal_status(fault: &ToolFault) -> u8
    ensures { IsRefusalStatus fault.now result }
{
    if fault.is_answer() { 0 } else { FAULT }
}
