//! Answers the calls of a session by tickets. Each call takes the lock twice: to request the command, and to commit its
//! result.
ghost use Rattle.std.specs.Prelude.{◌≡◌, ◌≢◌, IfOk, IfErr, OnOk, ℕ};
ghost use Rattle.store_cmd.specs.declared.Reply.TheVariants as replies;
ghost use Rattle.desk_core.specs.declared.ConvertFault.TheVariants as faults;
ghost use Rattle.desk_core.specs.Desk.{DeskState};
ghost use Rattle.desk_core.specs.Jobs.{worked};
ghost use Rattle.store_moves.specs.Works.{HasEnd};
ghost use Rattle.store_shared.specs.Shared.{entry_of, ClosesTicket, IsReplyTo, IsAskedFor, IsNotForSize, IsTried};

use crate::store::{Core, Gate, Store};
use desk_core::{AskFault, Asked, ConvertFault, Desk, Done, FinishFault, Job, Ticket};
use std::alloc::Allocator;
use std::mem;
use std::sync::{MutexGuard, Wait};
use store_cmd::{KeptEntry, Refusal, Reply, SharedCommand};

/// An answered call: its reply, and its entry with a copy of the reply.
#[derive(Drop)]
pub(crate) struct AnsweredCall<A: Allocator> {
    pub(crate) reply: Reply<A>,
    pub(crate) entry: KeptEntry<A>,
}

/// The two ways to close a ticket: commit its computed command, or abandon it.
#[derive(Drop)]
pub(crate) enum Closing<A: Allocator> {
    Commit(Done<A>),
    GiveUp(Ticket),
}

// The outcome of a request. If the desk is busy, the command is returned.
#[derive(Drop)]
enum Attempt<A: Allocator> {
    Ended(Result<Asked<A>, Refusal>),
    Busy(SharedCommand<A>),
}

/// Requests a session's command, computes it and commits it.
pub(crate) fn by_ticket<R: Wait, A: Allocator + Copy, G: Gate>(
    rt: &R,
    store: &Store<A, G>,
    alloc: A,
    session: u64,
    command: SharedCommand<A>,
) -> Result<AnsweredCall<A>, Refusal>
    ensures reply { IfOk result (λ served. IsReplyTo session command served.reply) }
    ensures entry { IfOk result (λ served. served.entry ≡ entry_of session command served.reply) }
    ensures refused { IfErr result IsNotForSize }
{
    let own = another_owner(&command)?;
    match ask(rt, store, session, command)? {
        Asked::Job(job) => serve(rt, store, alloc, session, own, job),
        Asked::Answered(reply) => Ok(counted(session, own, reply)),
    }
}

/// Adds an owner to a command, so that the session can record it.
pub(crate) fn another_owner<A: Allocator>(
    command: &SharedCommand<A>,
) -> Result<SharedCommand<A>, Refusal>
    ensures ok { IfOk result (λ own. own ≡ command.now) }
    ensures refused { IfErr result IsNotForSize }
{
    match command.try_clone() {
        Ok(own) => Ok(own),
        Err(_) => Err(Refusal::NoMemory),
    }
}

// The entry and the reply of an answered count. Allocates nothing.
fn counted<A: Allocator>(
    session: u64,
    command: SharedCommand<A>,
    reply: Reply<A>,
) -> AnsweredCall<A>
    requires { (n : ℕ) × (reply ≡ replies.Count n) }
    ensures reply { result.reply ≡ reply }
    ensures entry { result.entry ≡ entry_of session command reply }
{
    match reply {
        Reply::Count(count) => AnsweredCall {
            reply: Reply::Count(count),
            entry: KeptEntry::new(session, command, Reply::Count(count)),
        },
        _ => unreachable!(),
    }
}

// Requests a command, and waits while the desk is busy.
fn ask<R: Wait, A: Allocator + Copy, G: Gate>(
    rt: &R,
    store: &Store<A, G>,
    session: u64,
    command: SharedCommand<A>,
) -> Result<Asked<A>, Refusal>
    ensures ok { IfOk result (λ asked. IsAskedFor session command asked) }
    ensures refused { IfErr result IsNotForSize }
{
    let mut command = command;
    let mut core = store.core.lock(rt);
    for _ in rt.forever() {
        match ask_on(&mut core.desk, session, command) {
            Attempt::Ended(ended) => return ended,
            Attempt::Busy(refused) => command = refused,
        }
        core = wait(rt, store, core);
    }
    unreachable!()
}

// Requests a command on a desk.
fn ask_on<A: Allocator + Copy>(
    desk: &mut Desk<A>,
    session: u64,
    command: SharedCommand<A>,
) -> Attempt<A>
    ensures { IsTried session command result }
{
    match desk.ask(session, command) {
        Ok(asked) => Attempt::Ended(Ok(asked)),
        Err((AskFault::Busy, refused)) => Attempt::Busy(refused),
        Err((fault, _)) => Attempt::Ended(Err(refusal_of(fault))),
    }
}

// Maps the desk's fault to the refusal of the call.
pub(crate) fn refusal_of(fault: AskFault) -> Refusal
    ensures { IsNotForSize result }
{
    match fault {
        AskFault::TrailFull => Refusal::TrailFull,
        AskFault::NoMemory => Refusal::NoMemory,
        AskFault::Busy | AskFault::PairTooLarge | AskFault::ArgTooLong => Refusal::Strayed,
    }
}

// Computes the job of a command without the lock, and commits the result.
fn serve<R: Wait, A: Allocator + Copy, G: Gate>(
    rt: &R,
    store: &Store<A, G>,
    alloc: A,
    session: u64,
    command: SharedCommand<A>,
    job: Job<A>,
) -> Result<AnsweredCall<A>, Refusal>
    ensures reply { IfOk result (λ served. served.reply ≡ (worked job.asked).reply) }
    ensures entry { IfOk result (λ served. served.entry ≡ entry_of session command served.reply) }
    ensures ends { OnOk result (HasEnd job.asked.page.pairs job.asked.session job.asked.command) }
    ensures refused { IfErr result IsNotForSize }
{
    let ticket = job.ticket();
    let Ok(done) = store.gate.work(session, job) else {
        return Err(give_up(rt, store, ticket, Refusal::NoMemory));
    };
    let Ok(copy) = done.reply().try_clone(alloc) else {
        return Err(give_up(rt, store, ticket, Refusal::NoMemory));
    };
    let reply = finish(rt, store, done)?;
    store.gate.after(session);
    let entry = KeptEntry::new(session, command, copy);
    Ok(AnsweredCall { reply, entry })
}

// Sets the flag that a session waits, and waits until a ticket may have been closed.
pub(crate) fn wait<'s, R: Wait, A: Allocator + Copy, G: Gate>(
    rt: &R,
    store: &'s Store<A, G>,
    core: MutexGuard<'s, Core<A>>,
) -> MutexGuard<'s, Core<A>> {
    let mut core = core;
    core.waited_for = true;
    store.changed.wait(rt, core)
}

// Commits a computed command. If the command changes its page, first makes the ticket's hold exclusive, under the same lock.
fn finish<R: Wait, A: Allocator + Copy, G: Gate>(
    rt: &R,
    store: &Store<A, G>,
    done: Done<A>,
) -> Result<Reply<A>, Refusal>
    ensures ok { IfOk result (λ reply. reply ≡ (worked done.asked).reply) }
    ensures refused { IfErr result IsNotForSize }
{
    let ticket = done.ticket();
    match commit(rt, store, done) {
        Ok(reply) => Ok(reply),
        Err(fault) => Err(take_back(rt, store, ticket, fault)),
    }
}

// Abandons a command whose commit failed with this fault, if its ticket is still open.
fn take_back<R: Wait, A: Allocator + Copy, G: Gate>(
    rt: &R,
    store: &Store<A, G>,
    ticket: Ticket,
    fault: FinishFault,
) -> Refusal
    ensures { IsNotForSize result }
{
    match fault {
        FinishFault::NoMemory => give_up(rt, store, ticket, Refusal::NoMemory),
        FinishFault::NotExclusive => give_up(rt, store, ticket, Refusal::Strayed),
        FinishFault::NoTicket | FinishFault::Foreign => Refusal::Strayed,
    }
}

// Commits a computed command, or leaves its ticket unchanged.
fn commit<R: Wait, A: Allocator + Copy, G: Gate>(
    rt: &R,
    store: &Store<A, G>,
    done: Done<A>,
) -> Result<Reply<A>, FinishFault>
    ensures ok { IfOk result (λ reply. reply ≡ (worked done.asked).reply) }
{
    let core = lock_to_commit(rt, store, &done)?;
    match close_ticket(store, core, Closing::Commit(done)) {
        Ok(Some(reply)) => Ok(reply),
        Ok(None) => unreachable!(),
        Err(fault) => Err(fault),
    }
}

// Takes the lock to commit a computed command. If the command changes its page, makes the ticket's hold exclusive as well.
fn lock_to_commit<'s, R: Wait, A: Allocator + Copy, G: Gate>(
    rt: &R,
    store: &'s Store<A, G>,
    done: &Done<A>,
) -> Result<MutexGuard<'s, Core<A>>, FinishFault> {
    let core = store.core.lock(rt);
    if !done.changes() {
        return Ok(core);
    }
    match convert_once_free(rt, store, core, done.ticket()) {
        Ok(core) => Ok(core),
        Err(ConvertFault::NotUpdating) => Err(FinishFault::NotExclusive),
        Err(_) => Err(FinishFault::NoTicket),
    }
}

// Makes a ticket's hold exclusive under the lock, and waits while other tickets read the page. On failure, releases the lock
// and returns the reason, which is never `Busy`.
fn convert_once_free<'s, R: Wait, A: Allocator + Copy, G: Gate>(
    rt: &R,
    store: &'s Store<A, G>,
    core: MutexGuard<'s, Core<A>>,
    ticket: Ticket,
) -> Result<MutexGuard<'s, Core<A>>, ConvertFault>
    ensures { IfErr result (λ fault. fault ≢ faults.Busy) }
{
    let mut core = core;
    for _ in rt.forever() {
        match core.desk.convert(ticket) {
            Ok(()) => return Ok(core),
            Err(ConvertFault::Busy) => {}
            Err(fault) => return Err(fault),
        }
        core = wait(rt, store, core);
    }
    unreachable!()
}

// Abandons a ticket, and returns the refusal.
fn give_up<R: Wait, A: Allocator + Copy, G: Gate>(
    rt: &R,
    store: &Store<A, G>,
    ticket: Ticket,
    refusal: Refusal,
) -> Refusal
    ensures { result ≡ refusal }
{
    let core = store.core.lock(rt);
    let _closed = close_ticket(store, core, Closing::GiveUp(ticket));
    refusal
}

// Closes a ticket, releases the lock, and wakes all waiting sessions. This is the only function that closes tickets.
fn close_ticket<'s, A: Allocator + Copy, G: Gate>(
    store: &'s Store<A, G>,
    core: MutexGuard<'s, Core<A>>,
    closing: Closing<A>,
) -> Result<Option<Reply<A>>, FinishFault>
    ensures { IfOk result (λ reply. (before : DeskState A) × ((after : DeskState A) × ClosesTicket closing before reply after)) }
{
    let mut core = core;
    let closed = close_on(&mut core.desk, closing);
    let waited_for = mem::replace(&mut core.waited_for, false);
    drop(core);
    if waited_for {
        store.changed.notify_all();
    }
    closed
}

// Closes a ticket of a desk.
fn close_on<A: Allocator + Copy>(
    desk: &mut Desk<A>,
    closing: Closing<A>,
) -> Result<Option<Reply<A>>, FinishFault>
    ensures { IfOk result (λ reply. ClosesTicket closing desk.old reply desk.new) }
{
    match closing {
        Closing::Commit(done) => match desk.finish(done) {
            Ok(reply) => Ok(Some(reply)),
            Err((fault, _)) => Err(fault),
        },
        Closing::GiveUp(ticket) => {
            let _abandoned = desk.abandon(ticket);
            Ok(None)
        }
    }
}
