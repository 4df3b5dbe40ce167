//! Calls of a desk, and their outcomes. A refused call returns its arguments.

use crate::bench::{Hands, InHand, put, take};
use desk_core::{
    AskFault, Asked, ConvertFault, Desk, Done, EventOutcome, FinishFault, Job, NoTicket, Ticket,
};
use std::alloc::Allocator;
use store_cmd::{Reply, SharedCommand};

/// A call of a desk.
#[derive(Drop)]
pub enum Call<A: Allocator> {
    Step(u64, SharedCommand<A>),
    /// A request: the hand for the job, the session and the command.
    Ask(usize, u64, SharedCommand<A>),
    Work(usize),
    Convert(Ticket),
    Finish(usize),
    Abandon(Ticket),
}

/// The outcome of a call. If the call was refused and may be made again, also the call itself.
#[derive(Drop)]
pub struct Came<A: Allocator> {
    pub outcome: EventOutcome<A>,
    pub refused: Option<Call<A>>,
}

impl<A: Allocator> Came<A> {
    fn of(outcome: EventOutcome<A>) -> Self {
        Came {
            outcome,
            refused: None,
        }
    }

    fn refused(outcome: EventOutcome<A>, call: Call<A>) -> Self {
        Came {
            outcome,
            refused: Some(call),
        }
    }
}

/// Returns `true` if a call was refused because memory ran out.
pub fn lacks_memory<A: Allocator>(outcome: &EventOutcome<A>) -> bool {
    match outcome {
        EventOutcome::AskRefused(fault) => *fault == AskFault::NoMemory,
        EventOutcome::WorkRefused => true,
        EventOutcome::FinishRefused(fault) => *fault == FinishFault::NoMemory,
        _ => false,
    }
}

// One function for each call of the desk.
fn step<A: Allocator + Copy>(
    desk: &mut Desk<A>,
    session: u64,
    command: SharedCommand<A>,
) -> Result<Reply<A>, (AskFault, SharedCommand<A>)> {
    desk.step(session, command)
}

fn ask<A: Allocator + Copy>(
    desk: &mut Desk<A>,
    session: u64,
    command: SharedCommand<A>,
) -> Result<Asked<A>, (AskFault, SharedCommand<A>)> {
    desk.ask(session, command)
}

fn work<A: Allocator + Copy>(job: Job<A>) -> Result<Done<A>, Job<A>> {
    match job.work() {
        Ok(done) => Ok(done),
        Err((_error, job)) => Err(job),
    }
}

fn convert<A: Allocator + Copy>(desk: &mut Desk<A>, ticket: Ticket) -> Result<(), ConvertFault> {
    desk.convert(ticket)
}

fn finish<A: Allocator + Copy>(
    desk: &mut Desk<A>,
    done: Done<A>,
) -> Result<Reply<A>, (FinishFault, Done<A>)> {
    desk.finish(done)
}

fn abandon<A: Allocator + Copy>(desk: &mut Desk<A>, ticket: Ticket) -> Result<(), NoTicket> {
    desk.abandon(ticket)
}

fn come_of_step<A: Allocator + Copy>(
    desk: &mut Desk<A>,
    session: u64,
    command: SharedCommand<A>,
) -> Came<A> {
    match step(desk, session, command) {
        Ok(reply) => Came::of(EventOutcome::Answered(reply)),
        Err((fault, command)) => {
            Came::refused(
                EventOutcome::AskRefused(fault),
                Call::Step(session, command),
            )
        }
    }
}

fn come_of_ask<A: Allocator + Copy>(
    desk: &mut Desk<A>,
    hands: &mut Hands<A>,
    hand: usize,
    session: u64,
    command: SharedCommand<A>,
) -> Came<A> {
    match ask(desk, session, command) {
        Ok(Asked::Job(job)) => {
            let ticket = job.ticket();
            put(hands, hand, InHand::Job(job));
            Came::of(EventOutcome::Asked(ticket))
        }
        Ok(Asked::Answered(reply)) => Came::of(EventOutcome::Answered(reply)),
        Err((fault, command)) => {
            Came::refused(
                EventOutcome::AskRefused(fault),
                Call::Ask(hand, session, command),
            )
        }
    }
}

fn come_of_work<A: Allocator + Copy>(hands: &mut Hands<A>, hand: usize) -> Came<A> {
    let job = match take(hands, hand) {
        Some(InHand::Job(job)) => job,
        Some(done) => {
            put(hands, hand, done);
            return Came::of(EventOutcome::NoHand);
        }
        None => return Came::of(EventOutcome::NoHand),
    };
    match work(job) {
        Ok(done) => {
            put(hands, hand, InHand::Done(done));
            Came::of(EventOutcome::Worked)
        }
        Err(job) => {
            put(hands, hand, InHand::Job(job));
            Came::refused(EventOutcome::WorkRefused, Call::Work(hand))
        }
    }
}

fn come_of_finish<A: Allocator + Copy>(
    desk: &mut Desk<A>,
    hands: &mut Hands<A>,
    hand: usize,
) -> Came<A> {
    let done = match take(hands, hand) {
        Some(InHand::Done(done)) => done,
        Some(job) => {
            put(hands, hand, job);
            return Came::of(EventOutcome::NoHand);
        }
        None => return Came::of(EventOutcome::NoHand),
    };
    match finish(desk, done) {
        Ok(reply) => Came::of(EventOutcome::Finished(reply)),
        Err((fault, done)) => {
            put(hands, hand, InHand::Done(done));
            Came::refused(EventOutcome::FinishRefused(fault), Call::Finish(hand))
        }
    }
}

fn come_of_convert<A: Allocator + Copy>(desk: &mut Desk<A>, ticket: Ticket) -> Came<A> {
    match convert(desk, ticket) {
        Ok(()) => Came::of(EventOutcome::Converted),
        Err(fault) => Came::of(EventOutcome::ConvertRefused(fault)),
    }
}

fn come_of_abandon<A: Allocator + Copy>(desk: &mut Desk<A>, ticket: Ticket) -> Came<A> {
    match abandon(desk, ticket) {
        Ok(()) => Came::of(EventOutcome::Abandoned),
        Err(NoTicket) => Came::of(EventOutcome::AbandonRefused),
    }
}

/// Makes a call.
pub fn make_call<A: Allocator + Copy>(
    desk: &mut Desk<A>,
    hands: &mut Hands<A>,
    call: Call<A>,
) -> Came<A> {
    match call {
        Call::Step(session, command) => come_of_step(desk, session, command),
        Call::Ask(hand, session, command) => come_of_ask(desk, hands, hand, session, command),
        Call::Work(hand) => come_of_work(hands, hand),
        Call::Convert(ticket) => come_of_convert(desk, ticket),
        Call::Finish(hand) => come_of_finish(desk, hands, hand),
        Call::Abandon(ticket) => come_of_abandon(desk, ticket),
    }
}
