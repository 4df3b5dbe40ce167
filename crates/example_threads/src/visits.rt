//! The work of the threads: each has its own session, and counts visits by runs of one program.

use boddurci::{Calls, NoGate, Program, Refusal, Session, Store, assemble, verify};
use std::alloc::Global;
use std::sync::{Arc, Wait};
use std::thread;
use std::thread::Threads;

const THREADS: usize = 4;

// The number of visits that a thread counts.
const EACH: usize = 1000;

/// The number of visits that all threads count.
pub const ALL: usize = THREADS * EACH;

const PLACES: [&[u8]; 3] = [b"door", b"gate", b"yard"];

// Adds 1 to the number in the first 8 bytes of the record.
const COUNTER: &str = "jlt r2, 8, leave
ldxdw r6, [r1+0]
add r6, 1
stxdw [r1+0], r6
mov r0, 1
exit
leave:
mov r0, 0
exit
";

/// The program that counts, accepted once and shared by all threads.
pub fn counter(alloc: Global) -> Option<Program<Global>> {
    let code = assemble(alloc, COUNTER).ok()?;
    let verified = verify(alloc, code).ok()?;
    Some(Program::new(Arc::new(alloc, verified).ok()?))
}

/// The number in the first 8 bytes of a record, the lowest byte first.
pub fn number(record: &[u8]) -> u64 {
    match record.first_chunk::<8>() {
        Some(bytes) => u64::from_le_bytes(*bytes),
        None => 0,
    }
}

// A thread's session, its owner of the program, and the refusal of a call, if one was refused.
#[derive(Drop)]
struct Visitor<'a> {
    session: Session<'a, Global, NoGate>,
    prog: Program<Global>,
    refused: Option<Refusal>,
}

// Counts `EACH` visits, to each place in turn. If a key is missing, its record begins as eight zeros.
fn visit<R: Wait>(rt: &R, visitor: &mut Visitor<'_>) {
    let Visitor {
        session,
        prog,
        refused,
    } = visitor;
    for turn in 0..EACH {
        let place = PLACES[turn % PLACES.len()];
        if let Err(refusal) = session.run(rt, place, prog, &[], Some(8), 0) {
            *refused = Some(refusal);
            return;
        }
    }
}

/// Lets each thread count its visits. Returns the calls of all sessions, which the store needs to close.
pub fn all_visits<R: Threads + Wait + Sync>(
    rt: &R,
    alloc: Global,
    store: &Store<Global, NoGate>,
    prog: &Program<Global>,
) -> Result<Vec<Calls<Global>>, &'static str> {
    let mut visitors = Vec::new(alloc);
    for _ in 0..THREADS {
        let visitor = Visitor {
            session: store.session(rt).map_err(|_| "too many sessions")?,
            prog: prog.try_clone().map_err(|_| "too many owners")?,
            refused: None,
        };
        visitors.push(visitor).map_err(|_| "no memory")?;
    }
    let work = move |_at: usize, visitor: &mut Visitor<'_>| visit(rt, visitor);
    thread::for_each_mut(rt, visitors.as_mut_slice(), THREADS, &work);
    let mut calls = Vec::new(alloc);
    for visitor in visitors {
        if visitor.refused.is_some() {
            return Err("a visit was refused");
        }
        calls
            .push(visitor.session.into_calls())
            .map_err(|_| "no memory")?;
    }
    Ok(calls)
}
