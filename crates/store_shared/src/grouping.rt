//! Calls in a group: calls that take no ticket are made in order under one hold of the lock.
ghost use Rattle.std.specs.Prelude.{◌≡◌, ◌≤◌, ◌+◌, IfOk, IfErr, OnOk, length, vec_len, vec_capacity};
ghost use Rattle.std.specs.Vec.Iter.{into_iter_items};
ghost use Rattle.store_cmd.specs.Command.{IsSmall};
ghost use Rattle.store_shared.specs.Shared.{entry_of, session_of, IsReplyTo, IsNotForSize, IsRefusal};
ghost use Rattle.store_shared.specs.Groups.{AreAnswered, IsNoted};

use crate::passing::{Stepping, answer, is_long, kept, step_in};
use crate::serving::{AnsweredCall, another_owner};
use crate::store::{Core, Gate, Store};
use sdbm_addr::PageSize;
use std::alloc::Allocator;
use std::sync::{MutexGuard, Wait};
use std::vec::IntoIter;
use store_cmd::{Command, KeptEntry, Refusal, Reply, SharedCommand, SizeFault, check_sizes};

/// The session that makes the calls: its number and the page size of its store.
#[derive(Clone, Copy)]
pub(crate) struct Maker<A> {
    pub(crate) alloc: A,
    pub(crate) session: u64,
    pub(crate) size: PageSize,
}

// The outcome of a call, and the lock if it is still held.
#[derive(Drop)]
struct Made<'s, A: Allocator> {
    held: Option<MutexGuard<'s, Core<A>>>,
    ended: Result<AnsweredCall<A>, Refusal>,
}

/// Makes the calls of a session in order, adds an entry for each answered call, and records the outcome of each.
pub(crate) fn make_all<R: Wait, A: Allocator + Copy, G: Gate>(
    rt: &R,
    store: &Store<A, G>,
    maker: Maker<A>,
    calls: IntoIter<SharedCommand<A>, A>,
    entries: &mut Vec<KeptEntry<A>, A>,
    outcomes: &mut Vec<Result<Reply<A>, Refusal>, A>,
)
    requires entries { length (into_iter_items calls) + vec_len entries.old ≤ vec_capacity entries.old }
    requires outcomes { length (into_iter_items calls) + vec_len outcomes.old ≤ vec_capacity outcomes.old }
    ensures { AreAnswered (session_of maker.session maker.size entries.old.items) (into_iter_items calls) outcomes.old.items (session_of maker.session maker.size entries.new.items) outcomes.new.items }
{
    let jobs = store.gate.wants_jobs();
    let mut held = None;
    for command in calls {
        let Made { held: still, ended } = make(rt, store, maker, jobs, held, command);
        held = still;
        note(ended, entries, outcomes);
    }
}

// Makes a call. Releases the lock first if one step cannot answer the call.
fn make<'s, R: Wait, A: Allocator + Copy, G: Gate>(
    rt: &R,
    store: &'s Store<A, G>,
    maker: Maker<A>,
    jobs: bool,
    held: Option<MutexGuard<'s, Core<A>>>,
    command: SharedCommand<A>,
) -> Made<'s, A>
    ensures small { OnOk result.ended (IsSmall maker.size command) }
    ensures reply { IfOk result.ended (λ served. IsReplyTo maker.session command served.reply) }
    ensures entry { IfOk result.ended (λ served. served.entry ≡ entry_of maker.session command served.reply) }
    ensures refused { IfErr result.ended (IsRefusal maker.size command) }
{
    if let Err(refusal) = test_size(command.command(), maker.size) {
        return Made {
            held,
            ended: Err(refusal),
        };
    }
    if jobs || is_long(command.command()) {
        drop(held);
        let ended = answer(rt, store, maker.alloc, maker.session, jobs, command);
        return Made { held: None, ended };
    }
    make_by_step(rt, store, maker.session, held, command)
}

// Like `make`, for a call that one step can answer.
fn make_by_step<'s, R: Wait, A: Allocator + Copy, G: Gate>(
    rt: &R,
    store: &'s Store<A, G>,
    session: u64,
    held: Option<MutexGuard<'s, Core<A>>>,
    command: SharedCommand<A>,
) -> Made<'s, A>
    ensures reply { IfOk result.ended (λ served. IsReplyTo session command served.reply) }
    ensures entry { IfOk result.ended (λ served. served.entry ≡ entry_of session command served.reply) }
    ensures refused { IfErr result.ended IsNotForSize }
{
    let own = match another_owner(&command) {
        Ok(own) => own,
        Err(refusal) => {
            return Made {
                held,
                ended: Err(refusal),
            };
        }
    };
    let Stepping { core, ended } = step_in(rt, store, hold(rt, store, held), session, command);
    Made {
        held: Some(core),
        ended: kept(session, own, ended),
    }
}

// Checks a command's size against the page size of the store.
fn test_size<A: Allocator>(command: &Command<A>, size: PageSize) -> Result<(), Refusal>
    ensures small { OnOk result (IsSmall size command.now) }
    ensures refused { IfErr result (IsRefusal size command.now) }
{
    match check_sizes(command, size) {
        Ok(()) => Ok(()),
        Err(SizeFault::PairTooLarge) => Err(Refusal::PairTooLarge),
        Err(SizeFault::ArgTooLong) => Err(Refusal::ArgTooLong),
    }
}

// Returns the lock, taking it if it is not held.
fn hold<'s, R: Wait, A: Allocator + Copy, G: Gate>(
    rt: &R,
    store: &'s Store<A, G>,
    held: Option<MutexGuard<'s, Core<A>>>,
) -> MutexGuard<'s, Core<A>> {
    match held {
        Some(core) => core,
        None => store.core.lock(rt),
    }
}

// Appends the entry of an answered call, and the outcome of any call. Both lists have capacity for it.
fn note<A: Allocator>(
    ended: Result<AnsweredCall<A>, Refusal>,
    entries: &mut Vec<KeptEntry<A>, A>,
    outcomes: &mut Vec<Result<Reply<A>, Refusal>, A>,
)
    requires entries { vec_len entries.old + 1 ≤ vec_capacity entries.old }
    requires outcomes { vec_len outcomes.old + 1 ≤ vec_capacity outcomes.old }
    ensures noted { IsNoted ended entries.old.items entries.new.items outcomes.old.items outcomes.new.items }
    ensures entries { vec_len entries.new ≤ vec_len entries.old + 1 }
    ensures entries_room { vec_capacity entries.new ≡ vec_capacity entries.old }
    ensures outcomes { vec_len outcomes.new ≤ vec_len outcomes.old + 1 }
    ensures outcomes_room { vec_capacity outcomes.new ≡ vec_capacity outcomes.old }
{
    match ended {
        Ok(AnsweredCall { reply, entry }) => {
            entries.push_reserved(entry);
            outcomes.push_reserved(Ok(reply));
        }
        Err(refusal) => outcomes.push_reserved(Err(refusal)),
    }
}
