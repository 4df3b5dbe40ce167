//! Sessions that make their calls in turn.

use crate::bench::{Bench, STEP, more_text};
use crate::calls::{Came, begin, make, make_group};
use crate::case::Case;
use std::alloc::{Allocator, Global};
use std::fmt::Write;
use std::sync::Wait;
use store_cmd::{Command, Refusal};
use store_shared::{Gate, Session, SessionFault, Store};
use test_support::{MOST_TIMES, read_command, show_reply};

// The sessions of a store, and the watching call: a call that one session makes again after each refused call of another.
#[derive(Drop)]
struct Table<'s, A: Allocator, G: Gate> {
    sessions: Vec<Session<'s, A, G>>,
    watched: Option<(usize, Command<A>)>,
}

// The commands of a group, separated by slashes.
fn read_group<A: Allocator + Copy>(alloc: A, words: &str) -> Option<Vec<Command<A>, A>> {
    let mut commands = Vec::new(alloc);
    for command in words.split(" / ") {
        commands.push(read_command(alloc, command)?).ok()?;
    }
    Some(commands)
}

// The outcome of a call as text.
fn came_text<A: Allocator>(global: Global, came: &Came<A>) -> Option<String> {
    let mut text = String::new(global);
    match came {
        Ok(reply) => show_reply(&mut text, reply).ok()?,
        Err(refusal) => write!(text, "refused {refusal:?}").ok()?,
    }
    Some(text)
}

// The outcomes of the calls of a group as text.
fn outcomes_text<A: Allocator>(global: Global, outcomes: &[Came<A>]) -> Option<String> {
    let mut text = String::new(global);
    for (at, came) in outcomes.iter().enumerate() {
        if at > 0 {
            text.push_str(" / ").ok()?;
        }
        text.push_str(came_text(global, came)?.as_str()).ok()?;
    }
    Some(text)
}

// Reads a session's number and its command.
fn read_call<A: Allocator + Copy>(alloc: A, words: &str) -> Option<(usize, Command<A>)> {
    let (number, command) = words.split_once(' ')?;
    let number = number.parse::<usize>().ok()?;
    Some((number, read_command(alloc, command)?))
}

// Makes another session, or returns the reason why it is refused.
fn add_session<'s, R: Wait, A: Allocator + Copy, G: Gate>(
    rt: &R,
    store: &'s Store<A, G>,
    sessions: &mut Vec<Session<'s, A, G>>,
) -> Option<Option<SessionFault>> {
    match begin(rt, store) {
        Ok(session) => {
            sessions.push(session).ok()?;
            Some(None)
        }
        Err(fault) => Some(Some(fault)),
    }
}

impl<'s, A: Allocator + Copy, G: Gate> Table<'s, A, G> {
    // The reply to the watching call.
    fn seen<R: Wait>(&mut self, bench: &Bench<'_, R, A>) -> Option<String> {
        let Some((number, command)) = &self.watched else {
            return Some(String::new(bench.global));
        };
        let session = self.sessions.get_mut(*number)?;
        came_text(bench.global, &make(bench.rt, session, command))
    }

    // Makes a call while all memory of the heap except `spared` bytes is in use.
    fn make_with<R: Wait>(
        &mut self,
        bench: &Bench<'_, R, A>,
        number: usize,
        command: &Command<A>,
        spared: usize,
    ) -> Option<Came<A>> {
        let session = self.sessions.get_mut(number)?;
        let blocks = bench.take_memory(spared).ok()?;
        let came = make(bench.rt, session, command);
        drop(blocks);
        Some(came)
    }

    // Makes a call with more and more memory until there is enough. The reply to the watching call must not change.
    fn answer_call<R: Wait>(
        &mut self,
        bench: &Bench<'_, R, A>,
        number: usize,
        command: &Command<A>,
    ) -> Option<String> {
        let before = self.seen(bench)?;
        for times in 0..MOST_TIMES {
            let came = self.make_with(bench, number, command, STEP * times)?;
            if bench.heap.is_none() || !matches!(came, Err(Refusal::NoMemory)) {
                let text = came_text(bench.global, &came)?;
                return format!(in bench.global; "{text}{}", more_text(times)).ok();
            }
            let seen = self.seen(bench)?;
            if seen != before {
                return format!(in bench.global; "{seen} is seen after a refusal").ok();
            }
        }
        None
    }

    // Makes the calls of a group with more and more memory until they are made. Until then, the reply to the watching call must
    // not change.
    fn answer_group<R: Wait>(
        &mut self,
        bench: &Bench<'_, R, A>,
        number: usize,
        group: &[Command<A>],
    ) -> Option<String> {
        let before = self.seen(bench)?;
        for times in 0..MOST_TIMES {
            let session = self.sessions.get_mut(number)?;
            let blocks = bench.take_memory(STEP * times).ok()?;
            let made = make_group(bench.rt, bench.alloc, session, group);
            drop(blocks);
            match made {
                Ok(outcomes) => {
                    let text = outcomes_text(bench.global, outcomes.as_slice())?;
                    return format!(in bench.global; "{text}{}", more_text(times)).ok();
                }
                Err(_) => {}
            }
            let seen = self.seen(bench)?;
            if seen != before {
                return format!(in bench.global; "{seen} is seen after a refusal").ok();
            }
        }
        None
    }

    // Makes `count` more sessions while the heap has no memory, and reports the number of sessions.
    fn answer_sessions<R: Wait>(
        &mut self,
        bench: &Bench<'_, R, A>,
        store: &'s Store<A, G>,
        count: usize,
    ) -> Option<String> {
        let _blocks = bench.take_memory(0).ok()?;
        for _ in 0..count {
            if let Some(fault) = add_session(bench.rt, store, &mut self.sessions)? {
                return format!(in bench.global; "refused {fault:?}").ok();
            }
        }
        format!(in bench.global; "sessions {}", self.sessions.len()).ok()
    }

    fn answer<R: Wait>(
        &mut self,
        bench: &Bench<'_, R, A>,
        store: &'s Store<A, G>,
        line: &str,
    ) -> Option<String> {
        let (word, rest) = line.split_once(' ')?;
        match word {
            "sessions" => self.answer_sessions(bench, store, rest.parse::<usize>().ok()?),
            "watch" => {
                self.watched = Some(read_call(bench.alloc, rest)?);
                self.seen(bench)
            }
            "group" => {
                let (number, words) = rest.split_once(' ')?;
                let group = read_group(bench.alloc, words)?;
                self.answer_group(bench, number.parse::<usize>().ok()?, group.as_slice())
            }
            _ => {
                let (number, command) = read_call(bench.alloc, line)?;
                self.answer_call(bench, number, &command)
            }
        }
    }
}

impl<'h, R: Wait, A: Allocator + Copy> Bench<'h, R, A> {
    /// Makes the sessions and the calls of a case, and ends the sessions if the case says so.
    pub fn take_turns<G: Gate>(&mut self, store: &Store<A, G>, case: Case<'_>) -> Option<()> {
        let mut table = Table {
            sessions: Vec::new(self.global),
            watched: None,
        };
        for line in case.calls.lines() {
            let answer = table.answer(self, store, line)?;
            writeln!(self.out, "{answer}").ok()?;
        }
        if case.closing.is_some() {
            self.end_all(table.sessions)?;
        }
        Some(())
    }
}
