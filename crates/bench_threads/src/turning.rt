//! Opens stores over many pairs, calls them, and closes them.

use crate::programs::{KEYS, many_pairs};
use std::alloc::Global;
use std::io;
use std::rt::Clock;
use std::sync::Wait;
use std::time::Instant;
use store_shared::{Calls, NoGate, Store};

// The number of sessions that call the store.
const SESSIONS: usize = 16;

/// The number of pairs when a store was opened, the number of entries when it was closed, and the microseconds that opening and
/// closing took.
#[derive(Clone, Copy)]
pub struct Turn {
    pub pairs: usize,
    pub entries: usize,
    pub open: u128,
    pub close: u128,
}

// Makes `each` fetches in each session. Returns the calls of all sessions.
fn fetches<R: Wait>(
    rt: &R,
    alloc: Global,
    store: &Store<Global, NoGate>,
    each: usize,
) -> Option<Vec<Calls<Global>>> {
    let mut handed = Vec::new(alloc);
    for _ in 0..SESSIONS {
        let mut session = store.session(rt).ok()?;
        for _ in 0..each {
            session.fetch(rt, KEYS[0]).ok()?;
        }
        handed.push(session.into_calls()).ok()?;
    }
    Some(handed)
}

/// Opens a store over `count` pairs, makes `calls` calls by 16 sessions, and closes the store.
pub fn make_turn<R: Clock + Wait>(
    rt: &R,
    alloc: Global,
    count: usize,
    calls: usize,
) -> io::Result<Option<Turn>> {
    let Some(image) = many_pairs(alloc, count) else {
        return Ok(None);
    };
    let begun = Instant::now(rt)?;
    let Ok(store) = Store::open(alloc, image, calls, NoGate) else {
        return Ok(None);
    };
    let open = begun.elapsed(rt)?.as_micros();
    let pairs = store.opening().len();
    let Some(handed) = fetches(rt, alloc, &store, calls / SESSIONS) else {
        return Ok(None);
    };
    let ending = Instant::now(rt)?;
    let Ok(closed) = store.close(handed) else {
        return Ok(None);
    };
    let close = ending.elapsed(rt)?.as_micros();
    let entries = closed.trail.entries.len();
    Ok(Some(Turn {
        pairs,
        entries,
        open,
        close,
    }))
}
