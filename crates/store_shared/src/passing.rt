//! Calls that take no ticket. A short command is one step of the desk, under one hold of the lock. A long program runs without
//! the lock, on a snapshot of the page of its key. Its result is installed if the page is unchanged; otherwise the call takes
//! a ticket.
ghost use Rattle.std.specs.Prelude.{◌≡◌, ◌↔◌, IsTrue, IfOk, IfErr};
ghost use Rattle.store_moves.specs.Works.{HasKey};
ghost use Rattle.store_shared.specs.Shared.{entry_of, IsReplyTo, IsNotForSize};
ghost use Rattle.store_shared.specs.Passing.{IsLong, IsStepped, IsPassed, IsLooked, IsTriedStep};

use crate::serving::{AnsweredCall, another_owner, by_ticket, refusal_of, wait};
use crate::store::{Core, Gate, Store};
use desk_core::{AskFault, Desk, Look, PutFault, ReplyPair, Seen};
use std::alloc::Allocator;
use std::sync::{MutexGuard, Wait};
use store_cmd::{Command, KeptEntry, Refusal, SharedCommand};

// The longest program, in units, that runs under the lock. Running such a program takes less time than a ticket holds the
// lock.
const SHORT_PROGRAM: usize = 256;

/// The outcome of a step, and the lock under which it was made.
#[derive(Drop)]
pub(crate) struct Stepping<'s, A: Allocator> {
    pub(crate) core: MutexGuard<'s, Core<A>>,
    pub(crate) ended: Result<ReplyPair<A>, Refusal>,
}

// The outcome of a single attempt to step. If the desk is busy, the command is returned.
#[derive(Drop)]
enum TriedStep<A: Allocator> {
    Ended(Result<ReplyPair<A>, Refusal>),
    Busy(SharedCommand<A>),
}

// The outcome of taking a `Look`: the look, a refusal, or the command itself if it needs a ticket.
#[derive(Drop)]
enum Looking<A: Allocator> {
    Looked(Look<A>),
    Refused(Refusal),
    Barred(SharedCommand<A>),
}

// The outcome of a call without a ticket: its reply, or the command itself if it needs a ticket.
#[derive(Drop)]
enum Passing<A: Allocator> {
    Passed(ReplyPair<A>),
    Barred(SharedCommand<A>),
}

/// Answers a session's command in the cheapest way, or by a ticket if the store's gate wants jobs.
pub(crate) fn answer<R: Wait, A: Allocator + Copy, G: Gate>(
    rt: &R,
    store: &Store<A, G>,
    alloc: A,
    session: u64,
    jobs: bool,
    command: SharedCommand<A>,
) -> Result<AnsweredCall<A>, Refusal>
    ensures reply { IfOk result (λ served. IsReplyTo session command served.reply) }
    ensures entry { IfOk result (λ served. served.entry ≡ entry_of session command served.reply) }
    ensures refused { IfErr result IsNotForSize }
{
    if jobs {
        return by_ticket(rt, store, alloc, session, command);
    }
    if is_long(command.command()) {
        return by_look(rt, store, alloc, session, command);
    }
    by_step(rt, store, session, command)
}

/// Returns true if a command runs a program of more than 256 units. Such a program runs without the lock.
pub(crate) fn is_long<A: Allocator>(command: &Command<A>) -> bool
    ensures { IsTrue result ↔ IsLong command.now }
{
    match command {
        Command::Run { prog, .. } => prog.verified().code().units() > SHORT_PROGRAM,
        _ => false,
    }
}

// Answers a command under one hold of the lock. Waits while a conflicting ticket holds the page.
fn by_step<R: Wait, A: Allocator + Copy, G: Gate>(
    rt: &R,
    store: &Store<A, G>,
    session: u64,
    command: SharedCommand<A>,
) -> Result<AnsweredCall<A>, Refusal>
    ensures reply { IfOk result (λ served. IsReplyTo session command served.reply) }
    ensures entry { IfOk result (λ served. served.entry ≡ entry_of session command served.reply) }
    ensures refused { IfErr result IsNotForSize }
{
    let own = another_owner(&command)?;
    let Stepping { ended, .. } = step_in(rt, store, store.core.lock(rt), session, command);
    kept(session, own, ended)
}

/// Turns the outcome of a step into the reply and the entry for the session that made the command.
pub(crate) fn kept<A: Allocator>(
    session: u64,
    command: SharedCommand<A>,
    ended: Result<ReplyPair<A>, Refusal>,
) -> Result<AnsweredCall<A>, Refusal>
    requires stepped { IfOk ended (IsStepped session command) }
    requires refused { IfErr ended IsNotForSize }
    ensures reply { IfOk result (λ served. IsReplyTo session command served.reply) }
    ensures entry { IfOk result (λ served. served.entry ≡ entry_of session command served.reply) }
    ensures refused { IfErr result IsNotForSize }
{
    match ended {
        Ok(stepped) => Ok(served(session, command, stepped)),
        Err(refusal) => Err(refusal),
    }
}

// The reply for the session, and an entry with the copy of the reply.
fn served<A: Allocator>(
    session: u64,
    command: SharedCommand<A>,
    stepped: ReplyPair<A>,
) -> AnsweredCall<A>
    requires { stepped.copy ≡ stepped.reply }
    ensures reply { result.reply ≡ stepped.reply }
    ensures entry { result.entry ≡ entry_of session command stepped.reply }
{
    let ReplyPair { reply, copy } = stepped;
    AnsweredCall {
        reply,
        entry: KeptEntry::new(session, command, copy),
    }
}

/// Steps the desk under a hold of the lock, and waits while the desk is busy. Returns the lock, still held.
pub(crate) fn step_in<'s, R: Wait, A: Allocator + Copy, G: Gate>(
    rt: &R,
    store: &'s Store<A, G>,
    core: MutexGuard<'s, Core<A>>,
    session: u64,
    command: SharedCommand<A>,
) -> Stepping<'s, A>
    ensures ok { IfOk result.ended (IsStepped session command) }
    ensures refused { IfErr result.ended IsNotForSize }
{
    let mut command = command;
    let mut core = core;
    for _ in rt.forever() {
        match step_on(&mut core.desk, session, command) {
            TriedStep::Ended(ended) => return Stepping { core, ended },
            TriedStep::Busy(refused) => command = refused,
        }
        core = wait(rt, store, core);
    }
    unreachable!()
}

// Makes one attempt to step a desk.
fn step_on<A: Allocator + Copy>(
    desk: &mut Desk<A>,
    session: u64,
    command: SharedCommand<A>,
) -> TriedStep<A>
    ensures { IsTriedStep session command result }
{
    match desk.step_twice(session, command) {
        Ok(stepped) => TriedStep::Ended(Ok(stepped)),
        Err((AskFault::Busy, refused)) => TriedStep::Busy(refused),
        Err((fault, _)) => TriedStep::Ended(Err(refusal_of(fault))),
    }
}

// Answers a command under two short holds of the lock, and computes its result in between. Takes a ticket instead if the page
// is held or has changed in the meantime.
fn by_look<R: Wait, A: Allocator + Copy, G: Gate>(
    rt: &R,
    store: &Store<A, G>,
    alloc: A,
    session: u64,
    command: SharedCommand<A>,
) -> Result<AnsweredCall<A>, Refusal>
    requires keyed { HasKey command }
    ensures reply { IfOk result (λ served. IsReplyTo session command served.reply) }
    ensures entry { IfOk result (λ served. served.entry ≡ entry_of session command served.reply) }
    ensures refused { IfErr result IsNotForSize }
{
    let own = another_owner(&command)?;
    match pass(rt, store, session, command)? {
        Passing::Passed(stepped) => Ok(served(session, own, stepped)),
        Passing::Barred(command) => by_ticket(rt, store, alloc, session, command),
    }
}

// Takes a `Look` for a command, computes it, and installs the result.
fn pass<R: Wait, A: Allocator + Copy, G: Gate>(
    rt: &R,
    store: &Store<A, G>,
    session: u64,
    command: SharedCommand<A>,
) -> Result<Passing<A>, Refusal>
    requires keyed { HasKey command }
    ensures ok { IfOk result (IsPassed session command) }
    ensures refused { IfErr result IsNotForSize }
{
    match look(rt, store, session, command) {
        Looking::Looked(look) => work(rt, store, look),
        Looking::Refused(refusal) => Err(refusal),
        Looking::Barred(command) => Ok(Passing::Barred(command)),
    }
}

// Takes a `Look` for a command, under the lock.
fn look<R: Wait, A: Allocator + Copy, G: Gate>(
    rt: &R,
    store: &Store<A, G>,
    session: u64,
    command: SharedCommand<A>,
) -> Looking<A>
    requires keyed { HasKey command }
    ensures { IsLooked session command result }
{
    let core = store.core.lock(rt);
    match core.desk.look(session, command) {
        Ok(look) => Looking::Looked(look),
        Err((AskFault::Busy, refused)) => Looking::Barred(refused),
        Err((fault, _)) => Looking::Refused(refusal_of(fault)),
    }
}

// Computes a `Look` without the lock, and installs its result.
fn work<R: Wait, A: Allocator + Copy, G: Gate>(
    rt: &R,
    store: &Store<A, G>,
    look: Look<A>,
) -> Result<Passing<A>, Refusal>
    ensures ok { IfOk result (IsPassed look.session look.command) }
    ensures refused { IfErr result IsNotForSize }
{
    match look.work() {
        Ok(seen) => {
            let mut core = store.core.lock(rt);
            put_on(&mut core.desk, seen)
        }
        Err(_) => Err(Refusal::NoMemory),
    }
}

// Installs the result of a look on a desk.
fn put_on<A: Allocator + Copy>(desk: &mut Desk<A>, seen: Seen<A>) -> Result<Passing<A>, Refusal>
    ensures ok { IfOk result (IsPassed seen.session seen.command) }
    ensures refused { IfErr result IsNotForSize }
{
    match desk.put(seen) {
        Ok(stepped) => Ok(Passing::Passed(stepped)),
        Err((PutFault::Changed, command)) => Ok(Passing::Barred(command)),
        Err((PutFault::Refused(AskFault::Busy), command)) => Ok(Passing::Barred(command)),
        Err((PutFault::Refused(fault), _)) => Err(refusal_of(fault)),
    }
}
