//! Sessions that make calls in parallel, each in a separate thread.

use crate::bench::Bench;
use crate::calls::{Came, begin, make, make_group};
use crate::case::Case;
use crate::rolls::read_rolls;
use std::alloc::{AllocError, Global};
use std::fmt::Write;
use std::sync::Wait;
use std::thread;
use std::thread::Threads;
use store_cmd::{Command, Refusal, Reply};
use store_shared::{Calls, Gate, Session, Store};
use test_support::{read_command, show_reply};

// The maximum number of threads at once.
const THREADS: usize = 8;

// The number of calls in a group.
const GROUP: usize = 16;

// The maximum number of replies that are shown one by one.
const FEW: usize = 8;

// A session, its commands, whether it makes calls in groups, its replies, and a refusal, if any. Without groups, a refusal
// ends the calls.
#[derive(Drop)]
struct Caller<'s, G: Gate> {
    session: Session<'s, Global, G>,
    commands: Vec<Command<Global>>,
    grouped: bool,
    replies: Vec<Reply<Global>>,
    refused: Option<Refusal>,
}

fn read_list(alloc: Global, words: &str) -> Option<Vec<Command<Global>>> {
    let mut commands = Vec::new(alloc);
    for command in words.split(" / ") {
        commands.push(read_command(alloc, command)?).ok()?;
    }
    Some(commands)
}

fn read_times(alloc: Global, words: &str) -> Option<Vec<Command<Global>>> {
    let (count, command) = words.split_once(' ')?;
    let mut commands = Vec::new(alloc);
    for _ in 0..count.parse::<usize>().ok()? {
        commands.push(read_command(alloc, command)?).ok()?;
    }
    Some(commands)
}

// The commands of the session with index `place` among the sessions of a line.
fn read_commands(alloc: Global, words: &str, place: u64) -> Option<Vec<Command<Global>>> {
    let (kind, rest) = words.split_once(' ')?;
    match kind {
        "calls" => read_list(alloc, rest),
        "times" => read_times(alloc, rest),
        "rolls" => read_rolls(alloc, rest, place),
        _ => None,
    }
}

// Makes all calls of a session, in groups.
fn make_groups<R: Wait, G: Gate>(rt: &R, alloc: Global, caller: &mut Caller<'_, G>) {
    let Caller {
        session,
        commands,
        replies,
        refused,
        ..
    } = caller;
    for group in commands.as_slice().chunks(GROUP) {
        match make_group(rt, alloc, session, group) {
            Ok(outcomes) => note(outcomes, replies, refused),
            Err(_) => {
                *refused = Some(Refusal::NoMemory);
                return;
            }
        }
    }
}

// Records the outcomes of the calls of a group.
fn note(
    outcomes: Vec<Came<Global>>,
    replies: &mut Vec<Reply<Global>>,
    refused: &mut Option<Refusal>,
) {
    for outcome in outcomes {
        match outcome {
            Ok(reply) => {
                if replies.push(reply).is_err() {
                    return;
                }
            }
            Err(refusal) => *refused = Some(refusal),
        }
    }
}

fn make_all<R: Wait, G: Gate>(rt: &R, caller: &mut Caller<'_, G>) {
    for command in caller.commands.iter() {
        match make(rt, &mut caller.session, command) {
            Ok(reply) => {
                if caller.replies.push(reply).is_err() {
                    return;
                }
            }
            Err(refusal) => {
                caller.refused = Some(refusal);
                return;
            }
        }
    }
}

fn run_callers<R: Threads + Wait + Sync, G: Gate>(
    rt: &R,
    alloc: Global,
    callers: &mut [Caller<'_, G>],
) {
    let share = move |_at: usize, caller: &mut Caller<'_, G>| {
        if caller.grouped {
            make_groups(rt, alloc, caller)
        } else {
            make_all(rt, caller)
        }
    };
    thread::for_each_mut(rt, callers, THREADS, &share);
}

// Writes the number of a session's replies if there are many; otherwise the replies, and the refusal if a call was refused.
fn show_replies(
    out: &mut String,
    replies: &[Reply<Global>],
    refused: Option<Refusal>,
) -> Result<(), AllocError> {
    if replies.len() > FEW {
        return writeln!(out, "{} replies", replies.len());
    }
    for (at, reply) in replies.iter().enumerate() {
        if at > 0 {
            out.push_str(" / ")?;
        }
        show_reply(out, reply)?;
    }
    match refused {
        Some(refusal) if replies.is_empty() => writeln!(out, "refused {refusal:?}"),
        Some(refusal) => writeln!(out, " / refused {refusal:?}"),
        None => out.push_str("\n"),
    }
}

// Returns `true` if a session received the replies that its calls record.
fn are_kept(replies: &[Reply<Global>], calls: &Calls<Global>) -> bool {
    let entries = calls.entries();
    let same = replies
        .iter()
        .zip(entries)
        .all(|(reply, entry)| *entry.reply() == *reply);
    same && replies.len() == entries.len()
}

impl<'h, R: Threads + Wait + Sync> Bench<'h, R, Global> {
    // Creates the sessions of a line, each with its commands.
    fn add_callers<'s, G: Gate>(
        &self,
        store: &'s Store<Global, G>,
        callers: &mut Vec<Caller<'s, G>>,
        line: &str,
    ) -> Option<()> {
        let (count, words) = line.split_once(' ')?;
        let (grouped, words) = match words.strip_prefix("grouped ") {
            Some(words) => (true, words),
            None => (false, words),
        };
        for place in 0..count.parse::<u64>().ok()? {
            let caller = Caller {
                session: begin(self.rt, store).ok()?,
                commands: read_commands(self.global, words, place)?,
                grouped,
                replies: Vec::new(self.global),
                refused: None,
            };
            callers.push(caller).ok()?;
        }
        Some(())
    }

    // Ends the sessions, and compares the calls of each session with its replies.
    fn end_callers<G: Gate>(&mut self, callers: Vec<Caller<'_, G>>) -> Option<()> {
        let mut sessions = Vec::new(self.global);
        let mut replies = Vec::new(self.global);
        for caller in callers {
            show_replies(&mut self.out, caller.replies.as_slice(), caller.refused).ok()?;
            sessions.push(caller.session).ok()?;
            replies.push(caller.replies).ok()?;
        }
        let first = self.hands.len();
        self.end_all(sessions)?;
        for (given, hand) in replies.iter().zip(self.hands.iter().skip(first)) {
            if !are_kept(given.as_slice(), hand.as_ref()?) {
                return None;
            }
        }
        Some(())
    }

    /// Makes the calls of a case by all sessions at the same time, and ends the sessions.
    pub fn work_apart<G: Gate>(&mut self, store: &Store<Global, G>, case: Case<'_>) -> Option<()> {
        let mut callers = Vec::new(self.global);
        for line in case.calls.lines() {
            self.add_callers(store, &mut callers, line)?;
        }
        run_callers(self.rt, self.global, callers.as_mut_slice());
        self.end_callers(callers)
    }
}
