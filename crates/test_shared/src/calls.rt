//! Calls of a store and of its sessions, one function for each.

use sdbm_files::Image;
use std::alloc::{AllocError, Allocator};
use std::sync::Wait;
use store_cmd::{Command, Refusal, Reply, SharedCommand};
use store_shared::{Calls, CloseFault, Closed, Gate, Session, SessionFault, Store};

/// The outcome of a session's call.
pub type Came<A> = Result<Reply<A>, Refusal>;

/// The outcome of closing a store.
pub type CloseCame<A, G> = Result<Closed<A>, (CloseFault, Store<A, G>, Vec<Calls<A>, A>)>;

/// Makes the calls of a group, and returns their outcomes. Returns an error if there is no memory to make any call.
pub fn make_group<R: Wait, A: Allocator + Copy, G: Gate>(
    rt: &R,
    alloc: A,
    session: &mut Session<'_, A, G>,
    group: &[Command<A>],
) -> Result<Vec<Came<A>, A>, AllocError> {
    let mut calls = Vec::new(alloc);
    for command in group {
        let Ok(command) = SharedCommand::new(alloc, command.try_clone(alloc)?) else {
            return Err(AllocError);
        };
        calls.push(command)?;
    }
    let mut outcomes = Vec::new(alloc);
    match session.call_all(rt, calls, &mut outcomes) {
        Ok(()) => Ok(outcomes),
        Err((error, _calls)) => Err(error),
    }
}

/// Opens a store over a database.
pub fn open<A: Allocator + Copy, G: Gate>(
    alloc: A,
    image: Image<A>,
    limit: usize,
    gate: G,
) -> Result<Store<A, G>, (Image<A>, G)> {
    match Store::open(alloc, image, limit, gate) {
        Ok(store) => Ok(store),
        Err((_error, image, gate)) => Err((image, gate)),
    }
}

/// The number of pairs at the opening of a store.
pub fn opening<A: Allocator + Copy, G: Gate>(store: &Store<A, G>) -> usize {
    store.opening().len()
}

/// Makes a new session.
pub fn begin<'s, R: Wait, A: Allocator + Copy, G: Gate>(
    rt: &R,
    store: &'s Store<A, G>,
) -> Result<Session<'s, A, G>, SessionFault> {
    store.session(rt)
}

/// Makes a session's call.
pub fn make<R: Wait, A: Allocator + Copy, G: Gate>(
    rt: &R,
    session: &mut Session<'_, A, G>,
    command: &Command<A>,
) -> Came<A> {
    match command {
        Command::Fetch { key } => session.fetch(rt, key.as_slice()),
        Command::Store { key, value, mode } => {
            session.store(rt, key.as_slice(), value.as_slice(), *mode)
        }
        Command::Delete { key } => session.delete(rt, key.as_slice()),
        Command::Run {
            key,
            prog,
            arg,
            blank,
            now,
        } => session.run(rt, key.as_slice(), prog, arg.as_slice(), *blank, *now),
        Command::Count => session.count(rt),
    }
}

/// Ends a session.
pub fn end<A: Allocator + Copy, G: Gate>(session: Session<'_, A, G>) -> Calls<A> {
    session.into_calls()
}

/// Closes a store.
pub fn close<A: Allocator + Copy, G: Gate>(
    store: Store<A, G>,
    handed: Vec<Calls<A>, A>,
) -> CloseCame<A, G> {
    store.close(handed)
}
