//! Calls of a desk and of sessions.

use crate::programs::KEYS;
use desk_core::Desk;
use sdbm_addr::{Bytes, Mode};
use sdbm_files::Image;
use std::alloc::{AllocError, Global};
use std::sync::Wait;
use std::thread;
use std::thread::Threads;
use store_cmd::{Command, Program, SharedCommand};
use store_shared::{Calls, NoGate, Session, Store};

/// The way in which a session makes its calls.
#[derive(Clone, Copy)]
pub enum Manner {
    OneByOne,
    Grouped,
}

/// A call on a key with a value of 8 bytes.
#[derive(Drop)]
pub enum Call {
    Fetch,
    Store,
    Run(Program<Global>),
}

// The number of calls in a group.
const GROUP: usize = 32;

// The maximum number of threads at once.
const THREADS: usize = 4;

const VALUE: [u8; 8] = [7, 0, 0, 0, 0, 0, 0, 0];

fn command(alloc: Global, call: &Call, key: &[u8]) -> Result<SharedCommand<Global>, AllocError> {
    match SharedCommand::new(alloc, command_on(alloc, call, key)?) {
        Ok(command) => Ok(command),
        Err(_) => Err(AllocError),
    }
}

fn command_on(alloc: Global, call: &Call, key: &[u8]) -> Result<Command<Global>, AllocError> {
    let key = Bytes::from_slice(alloc, key)?;
    match call {
        Call::Fetch => Ok(Command::Fetch { key }),
        Call::Store => Ok(Command::Store {
            key,
            value: Bytes::from_slice(alloc, &VALUE)?,
            mode: Mode::Replace,
        }),
        Call::Run(prog) => Ok(Command::Run {
            key,
            prog: prog.try_clone()?,
            arg: Bytes::from_slice(alloc, &[])?,
            blank: None,
            now: 0,
        }),
    }
}

/// Makes `count` steps of a desk. Returns the number of entries.
pub fn by_desk(alloc: Global, image: Image<Global>, call: &Call, count: usize) -> Option<usize> {
    let Ok(mut desk) = Desk::open(alloc, image, count) else {
        return None;
    };
    for _ in 0..count {
        let command = command(alloc, call, KEYS[0]).ok()?;
        let Ok(_) = desk.step(0, command) else {
            return None;
        };
    }
    Some(desk.trail().entries.len())
}

// A caller: a session, its key, and its call.
#[derive(Drop)]
struct Caller<'a> {
    session: Session<'a, Global, NoGate>,
    key: &'static [u8],
    call: Call,
}

// Clones a call.
fn another(call: &Call) -> Option<Call> {
    match call {
        Call::Fetch => Some(Call::Fetch),
        Call::Store => Some(Call::Store),
        Call::Run(prog) => Some(Call::Run(prog.try_clone().ok()?)),
    }
}

// Makes `count` calls.
fn make<R: Wait>(rt: &R, caller: &mut Caller<'_>, count: usize) {
    let key = caller.key;
    for _ in 0..count {
        let answer = match &caller.call {
            Call::Fetch => caller.session.fetch(rt, key),
            Call::Store => caller.session.store(rt, key, &VALUE, Mode::Replace),
            Call::Run(prog) => caller.session.run(rt, key, prog, &[], None, 0),
        };
        if answer.is_err() {
            return;
        }
    }
}

// Makes `count` calls in groups, rounded down to whole groups.
fn make_groups<R: Wait>(rt: &R, alloc: Global, caller: &mut Caller<'_>, count: usize) {
    for _ in 0..count / GROUP {
        if make_group(rt, alloc, caller).is_none() {
            return;
        }
    }
}

fn make_group<R: Wait>(rt: &R, alloc: Global, caller: &mut Caller<'_>) -> Option<()> {
    let mut calls = Vec::with_capacity(alloc, GROUP).ok()?;
    for _ in 0..GROUP {
        calls
            .push(command(alloc, &caller.call, caller.key).ok()?)
            .ok()?;
    }
    let mut outcomes = Vec::new(alloc);
    caller.session.call_all(rt, calls, &mut outcomes).ok()
}

// Makes the calls of all sessions, each in its own thread. Element i of the keys is the key of session i; keys may be equal.
fn all_calls<R: Threads + Wait + Sync>(
    rt: &R,
    alloc: Global,
    store: &Store<Global, NoGate>,
    keys: &[&'static [u8]],
    call: &Call,
    manner: Manner,
    each: usize,
) -> Option<Vec<Calls<Global>>> {
    let mut callers = Vec::new(alloc);
    for key in keys {
        let caller = Caller {
            session: store.session(rt).ok()?,
            key: *key,
            call: another(call)?,
        };
        callers.push(caller).ok()?;
    }
    let share = move |_at: usize, caller: &mut Caller<'_>| match manner {
        Manner::OneByOne => make(rt, caller, each),
        Manner::Grouped => make_groups(rt, alloc, caller, each),
    };
    thread::for_each_mut(rt, callers.as_mut_slice(), THREADS, &share);
    let mut handed = Vec::new(alloc);
    for caller in callers {
        let Caller { session, .. } = caller;
        handed.push(session.into_calls()).ok()?;
    }
    Some(handed)
}

/// Makes `count` calls in total, with one session for each key. Returns the number of entries.
pub fn by_sessions<R: Threads + Wait + Sync>(
    rt: &R,
    alloc: Global,
    image: Image<Global>,
    keys: &[&'static [u8]],
    call: &Call,
    manner: Manner,
    count: usize,
) -> Option<usize> {
    let Ok(store) = Store::open(alloc, image, count, NoGate) else {
        return None;
    };
    let each = count.checked_div(keys.len())?;
    let handed = all_calls(rt, alloc, &store, keys, call, manner, each)?;
    match store.close(handed) {
        Ok(closed) => Some(closed.trail.entries.len()),
        Err(_) => None,
    }
}
