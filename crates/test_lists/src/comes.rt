//! Events and outcomes that own no memory.

use crate::asks::{Ask, Told, said_by, shared_of};
use desk_core::{AskFault, ConvertFault, Event, EventOutcome, FinishFault, Ticket};
use std::alloc::{AllocError, Global};
use store_cmd::Program;

/// An event.
#[derive(Clone, Copy, Debug)]
pub enum Does {
    Ask(u64, Ask),
    Work(usize),
    Convert(usize),
    Finish(usize),
    Abandon(usize),
}

/// The outcome of an event.
#[derive(Clone, Copy, Debug, PartialEq, Eq)]
pub enum Comes {
    Asked(usize),
    Answered(Told),
    AskRefused(AskFault),
    Worked,
    WorkRefused,
    Converted,
    ConvertRefused(ConvertFault),
    Finished(Told),
    FinishRefused(FinishFault),
    Abandoned,
    AbandonRefused,
    NoHand,
}

/// Makes the desk's event.
pub fn event_of(
    alloc: Global,
    programs: &[Program<Global>],
    does: Does,
) -> Result<Event<Global>, AllocError> {
    match does {
        Does::Ask(session, ask) => Ok(Event::Ask(session, shared_of(alloc, programs, ask)?)),
        Does::Work(ticket) => Ok(Event::Work(Ticket(ticket))),
        Does::Convert(ticket) => Ok(Event::Convert(Ticket(ticket))),
        Does::Finish(ticket) => Ok(Event::Finish(Ticket(ticket))),
        Does::Abandon(ticket) => Ok(Event::Abandon(Ticket(ticket))),
    }
}

/// Converts an outcome to one that owns no memory.
pub fn come_of(outcome: &EventOutcome<Global>) -> Comes {
    match outcome {
        EventOutcome::Asked(ticket) => Comes::Asked(ticket.0),
        EventOutcome::Answered(reply) => Comes::Answered(said_by(reply)),
        EventOutcome::AskRefused(fault) => Comes::AskRefused(*fault),
        EventOutcome::Worked => Comes::Worked,
        EventOutcome::WorkRefused => Comes::WorkRefused,
        EventOutcome::Converted => Comes::Converted,
        EventOutcome::ConvertRefused(fault) => Comes::ConvertRefused(*fault),
        EventOutcome::Finished(reply) => Comes::Finished(said_by(reply)),
        EventOutcome::FinishRefused(fault) => Comes::FinishRefused(*fault),
        EventOutcome::Abandoned => Comes::Abandoned,
        EventOutcome::AbandonRefused => Comes::AbandonRefused,
        EventOutcome::NoHand => Comes::NoHand,
    }
}
