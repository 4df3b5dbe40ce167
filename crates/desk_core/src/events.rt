//! Lists of events, played on a desk in order.
ghost use Rattle.std.specs.Prelude.{◌≡◌, ◌+◌, ◌≤◌, nat_eq, IfOk, IfErr, IfSome, IfNone, OnErr, Some, None, true, false};
ghost use Rattle.std.specs.HashMap.{get, spare};
ghost use Rattle.desk_core.specs.Calls.{IsAskFault, Asks};
ghost use Rattle.desk_core.specs.Events.{Hands, Plays, GoesOn, Does, OnAsk, OnWork, OnFinish, Put, Stay, no_hands, is_job, is_done};

use crate::{AskFault, Asked, ConvertFault, Desk, Done, FinishFault, Job};
use hold_modes::Ticket;
use std::alloc::{AllocError, Allocator};
use std::collections::HashMap;
use std::hash::{BuildHasherDefault, FoldHasher};
use store_cmd::{Reply, SharedCommand};

/// An operation on a desk.
#[derive(Drop)]
pub enum Event<A: Allocator> {
    /// A session requests a command.
    Ask(u64, SharedCommand<A>),
    /// Computes the job in hand under a ticket.
    Work(Ticket),
    /// Makes a ticket's hold exclusive.
    Convert(Ticket),
    /// Finishes the computed command in hand under a ticket.
    Finish(Ticket),
    /// Closes a ticket.
    Abandon(Ticket),
}

/// The outcome of an event.
#[derive(Drop)]
pub enum EventOutcome<A: Allocator> {
    /// A ticket was opened, and its job is in hand.
    Asked(Ticket),
    /// A count was answered immediately.
    Answered(Reply<A>),
    /// The request was refused.
    AskRefused(AskFault),
    /// The job in hand was computed.
    Worked,
    /// Out of memory; the job is still in hand.
    WorkRefused,
    /// The hold is now exclusive.
    Converted,
    /// The hold was not made exclusive.
    ConvertRefused(ConvertFault),
    /// The command was committed and is no longer in hand.
    Finished(Reply<A>),
    /// The command was not committed and is still in hand.
    FinishRefused(FinishFault),
    /// The ticket was closed.
    Abandoned,
    /// The ticket is not open.
    AbandonRefused,
    /// No job is in hand under the ticket for `Work`, or no computed command for `Finish`.
    NoHand,
}

/// A command in hand: `play` keeps it for later events of its ticket.
#[derive(Drop)]
pub enum InHand<A: Allocator> {
    /// A command to compute.
    Job(Job<A>),
    /// A computed command.
    Done(Done<A>),
}

// The commands in hand, by ticket.
type ByTicket<A> = HashMap<usize, InHand<A>, BuildHasherDefault<FoldHasher>, A>;

impl<A: Allocator + Copy> Desk<A> {
    /// Plays a list of events in order and returns their outcomes. Initially nothing is in hand. A requested job is in hand
    /// under its ticket and replaces any earlier command there. The outcome of a refused event is the refusal. Tickets that
    /// are open at the end stay open.
    ///
    /// # Errors
    /// `AllocError` if there is no memory for the outcomes and the commands in hand. The desk is then unchanged.
    pub fn play(&mut self, events: &[Event<A>]) -> Result<Vec<EventOutcome<A>, A>, AllocError>
        ensures plays { IfOk result (λ outcomes. (last : Hands A) × Plays self.old no_hands events.now outcomes.items self.new last) }
        ensures goes_on { IfOk result (λ _. GoesOn self.old self.new) }
        ensures err { OnErr result (self.new ≡ self.old) }
    {
        let mut hands: ByTicket<A> = HashMap::with_capacity(self.alloc, events.len())?;
        let mut outcomes = Vec::with_capacity(self.alloc, events.len())?;
        for event in events {
            let outcome = self.happen(&mut hands, event);
            outcomes.push_reserved(outcome);
            // This borrow restores the invariant of the desk.
            let _ = &self.alloc;
        }
        Ok(outcomes)
    }

    // Plays one event and returns its outcome.
    fn happen(&mut self, hands: &mut ByTicket<A>, event: &Event<A>) -> EventOutcome<A>
        requires { 1 ≤ spare hands.old }
        ensures does { Does self.old (get nat_eq hands.old) event.now result self.new (get nat_eq hands.new) }
        ensures spare { spare hands.old ≤ spare hands.new + 1 }
    {
        match event {
            Event::Ask(session, command) => self.ask_in_hand(hands, *session, command),
            Event::Work(ticket) => work_in_hand(hands, *ticket),
            Event::Convert(ticket) => match self.convert(*ticket) {
                Ok(()) => EventOutcome::Converted,
                Err(fault) => EventOutcome::ConvertRefused(fault),
            },
            Event::Finish(ticket) => self.finish_in_hand(hands, *ticket),
            Event::Abandon(ticket) => match self.abandon(*ticket) {
                Ok(()) => EventOutcome::Abandoned,
                Err(_) => EventOutcome::AbandonRefused,
            },
        }
    }

    // Requests a command and puts its job in hand.
    fn ask_in_hand(
        &mut self,
        hands: &mut ByTicket<A>,
        session: u64,
        command: &SharedCommand<A>,
    ) -> EventOutcome<A>
        requires { 1 ≤ spare hands.old }
        ensures does { OnAsk self.old (get nat_eq hands.old) session command.now result self.new (get nat_eq hands.new) }
        ensures spare { spare hands.old ≤ spare hands.new + 1 }
    {
        match self.ask_shared(session, command) {
            Ok(Asked::Job(job)) => {
                let ticket = job.ticket();
                put(hands, ticket, InHand::Job(job));
                EventOutcome::Asked(ticket)
            }
            Ok(Asked::Answered(reply)) => EventOutcome::Answered(reply),
            Err(fault) => EventOutcome::AskRefused(fault),
        }
    }

    // Adds an owner to a command and requests it.
    fn ask_shared(&mut self, session: u64, command: &SharedCommand<A>) -> Result<Asked<A>, AskFault>
        ensures ok { IfOk result (λ asked. Asks self.old session command.now asked self.new) }
        ensures refused { IfErr result (λ fault. IsAskFault self.old command.now fault) }
        ensures err { OnErr result (self.new ≡ self.old) }
    {
        let wanted = self.may_ask(command)?;
        let Ok(own) = command.try_clone() else {
            return Err(AskFault::NoMemory);
        };
        match self.admit(session, own, wanted) {
            Ok(asked) => Ok(asked),
            Err((fault, _)) => Err(fault),
        }
    }

    // Finishes the computed command in hand under a ticket.
    fn finish_in_hand(&mut self, hands: &mut ByTicket<A>, ticket: Ticket) -> EventOutcome<A>
        requires { 1 ≤ spare hands.old }
        ensures does { OnFinish self.old (get nat_eq hands.old) ticket.0 result self.new (get nat_eq hands.new) }
        ensures spare { spare hands.old ≤ spare hands.new + 1 }
    {
        let Some(done) = take_done(hands, ticket) else {
            return EventOutcome::NoHand;
        };
        match self.finish(done) {
            Ok(reply) => EventOutcome::Finished(reply),
            Err((fault, done)) => {
                put(hands, ticket, InHand::Done(done));
                EventOutcome::FinishRefused(fault)
            }
        }
    }
}

// Computes the job in hand under a ticket.
fn work_in_hand<A: Allocator + Copy>(hands: &mut ByTicket<A>, ticket: Ticket) -> EventOutcome<A>
    requires { 1 ≤ spare hands.old }
    ensures does { OnWork (get nat_eq hands.old) ticket.0 result (get nat_eq hands.new) }
    ensures spare { spare hands.old ≤ spare hands.new + 1 }
{
    let Some(job) = take_job(hands, ticket) else {
        return EventOutcome::NoHand;
    };
    match job.work() {
        Ok(done) => {
            put(hands, ticket, InHand::Done(done));
            EventOutcome::Worked
        }
        Err((_, job)) => {
            put(hands, ticket, InHand::Job(job));
            EventOutcome::WorkRefused
        }
    }
}

// Puts a command in hand under a ticket; it replaces any other. There must be room for it.
fn put<A: Allocator + Copy>(hands: &mut ByTicket<A>, ticket: Ticket, what: InHand<A>)
    requires { 1 ≤ spare hands.old }
    ensures put { Put (get nat_eq hands.old) ticket.0 (Some what) (get nat_eq hands.new) }
    ensures spare { spare hands.old ≤ spare hands.new + 1 }
{
    match hands.insert(ticket.0, what) {
        Ok(_old) => (),
        Err(_) => unreachable!(),
    }
}

// Removes and returns the job in hand under a ticket.
fn take_job<A: Allocator + Copy>(hands: &mut ByTicket<A>, ticket: Ticket) -> Option<Job<A>>
    ensures some { IfSome result (λ job. get nat_eq hands.old ticket.0 ≡ Some (InHand.Job job)) }
    ensures taken { IfSome result (λ _. Put (get nat_eq hands.old) ticket.0 None (get nat_eq hands.new)) }
    ensures none { IfNone result ((is_job (get nat_eq hands.old ticket.0) ≡ false) × Stay (get nat_eq hands.old) (get nat_eq hands.new)) }
    ensures spare { spare hands.old ≤ spare hands.new }
{
    if !has_job(hands, ticket) {
        return None;
    }
    match hands.remove(&ticket.0) {
        Some(InHand::Job(job)) => Some(job),
        _ => unreachable!(),
    }
}

// Removes and returns the computed command in hand under a ticket.
fn take_done<A: Allocator + Copy>(hands: &mut ByTicket<A>, ticket: Ticket) -> Option<Done<A>>
    ensures some { IfSome result (λ done. get nat_eq hands.old ticket.0 ≡ Some (InHand.Done done)) }
    ensures taken { IfSome result (λ _. Put (get nat_eq hands.old) ticket.0 None (get nat_eq hands.new)) }
    ensures none { IfNone result ((is_done (get nat_eq hands.old ticket.0) ≡ false) × Stay (get nat_eq hands.old) (get nat_eq hands.new)) }
    ensures spare { spare hands.old ≤ spare hands.new }
{
    if !has_done(hands, ticket) {
        return None;
    }
    match hands.remove(&ticket.0) {
        Some(InHand::Done(done)) => Some(done),
        _ => unreachable!(),
    }
}

// Returns true if a job is in hand under a ticket.
fn has_job<A: Allocator>(hands: &ByTicket<A>, ticket: Ticket) -> bool
    ensures { result ≡ is_job (get nat_eq hands.now ticket.0) }
{
    match hands.get(&ticket.0) {
        Some(InHand::Job(_)) => true,
        _ => false,
    }
}

// Returns true if a computed command is in hand under a ticket.
fn has_done<A: Allocator>(hands: &ByTicket<A>, ticket: Ticket) -> bool
    ensures { result ≡ is_done (get nat_eq hands.now ticket.0) }
{
    match hands.get(&ticket.0) {
        Some(InHand::Done(_)) => true,
        _ => false,
    }
}
