//! Two sessions of a store without a gate: a short call is answered while the other session runs long programs.

use crate::bench::Bench;
use crate::calls::{begin, make, make_group};
use crate::case::Case;
use std::alloc::Global;
use std::fmt::Write;
use std::sync::Wait;
use std::sync::atomic::{AtomicU64, Ordering};
use std::thread;
use std::thread::Threads;
use store_cmd::Command;
use store_shared::{Gate, Session, Store};
use test_support::read_command;

// The number of short calls that have to be answered well before the programs of their round end.
const WANTED: u64 = 3;

// All rounds have numbers below this. If two threads run at once, few more than `WANTED` rounds are needed.
const ROUNDS: u64 = 24;

// The value of `began` after the last round.
const OVER: u64 = u64::MAX;

// The number of polls after which a thread stops waiting.
const TURNS: u64 = 1_000_000_000;

// The rounds of two sessions, numbered from 1. In each round the first session runs its group of programs. Meanwhile the second
// session makes its calls, except in the first round, when it only measures the time.
#[derive(Drop)]
struct Rounds {
    began: AtomicU64,
    ended: AtomicU64,
    called: AtomicU64,
    // The number of rounds whose short calls were answered well before the programs of the round ended.
    beside: AtomicU64,
    refused: AtomicU64,
}

// A session, and the calls that it makes in a round.
#[derive(Drop)]
struct Party<'s, G: Gate> {
    session: Session<'s, Global, G>,
    commands: Vec<Command<Global>>,
}

impl Rounds {
    fn new() -> Self {
        Rounds {
            began: AtomicU64::new(0),
            ended: AtomicU64::new(0),
            called: AtomicU64::new(0),
            beside: AtomicU64::new(0),
            refused: AtomicU64::new(0),
        }
    }

    // Returns `true` if there is no further round.
    fn are_over(&self) -> bool {
        self.beside.load(Ordering::SeqCst) >= WANTED || self.refused.load(Ordering::SeqCst) > 0
    }

    // Polls a count until it has reached a value. Returns the number of polls.
    fn look_for(count: &AtomicU64, wanted: u64) -> u64 {
        for looks in 0..TURNS {
            if count.load(Ordering::SeqCst) >= wanted {
                return looks;
            }
        }
        TURNS
    }

    // Waits for the time that this number of polls takes.
    fn linger(&self, looks: u64) {
        for _ in 0..looks {
            self.ended.load(Ordering::SeqCst);
        }
    }

    // Waits for a round. Returns `true` if it began.
    fn enter(&self, round: u64) -> bool {
        Rounds::look_for(&self.began, round);
        self.began.load(Ordering::SeqCst) == round
    }
}

impl<'s, G: Gate> Party<'s, G> {
    // Runs all programs once in each round.
    fn run_rounds<R: Wait>(&mut self, rt: &R, alloc: Global, rounds: &Rounds) {
        for round in 1..ROUNDS {
            if rounds.are_over() {
                break;
            }
            rounds.began.store(round, Ordering::SeqCst);
            let made = make_group(rt, alloc, &mut self.session, &self.commands);
            rounds.ended.store(round, Ordering::SeqCst);
            if !made.is_ok_and(|outcomes| outcomes.iter().all(|came| came.is_ok())) {
                rounds.refused.fetch_add(1, Ordering::SeqCst);
            }
            Rounds::look_for(&rounds.called, round);
        }
        rounds.began.store(OVER, Ordering::SeqCst);
    }

    // Makes its calls when a sixteenth of the programs' time has passed. Counts the round if the programs then still run for at
    // least a quarter of their time. They run for less if this thread had to wait for the programs or was not scheduled.
    fn call_beside<R: Wait>(&mut self, rt: &R, rounds: &Rounds, round: u64, whole: u64) {
        rounds.linger(whole / 16);
        for command in self.commands.iter() {
            if make(rt, &mut self.session, command).is_err() {
                rounds.refused.fetch_add(1, Ordering::SeqCst);
            }
        }
        if Rounds::look_for(&rounds.ended, round) >= whole / 4 {
            rounds.beside.fetch_add(1, Ordering::SeqCst);
        }
    }

    // Measures the time of the programs in the first round, and makes its calls in the later rounds.
    fn call_in_rounds<R: Wait>(&mut self, rt: &R, rounds: &Rounds) {
        let mut whole = 0;
        for round in 1..ROUNDS {
            if !rounds.enter(round) {
                return;
            }
            if round == 1 {
                whole = Rounds::look_for(&rounds.ended, round);
            } else {
                self.call_beside(rt, rounds, round, whole);
            }
            rounds.called.store(round, Ordering::SeqCst);
        }
    }
}

fn run_parties<R: Threads + Wait + Sync, G: Gate>(
    rt: &R,
    alloc: Global,
    parties: &mut [Party<'_, G>],
    rounds: &Rounds,
) {
    let share = move |at: usize, party: &mut Party<'_, G>| {
        if at == 0 {
            party.run_rounds(rt, alloc, rounds)
        } else {
            party.call_in_rounds(rt, rounds)
        }
    };
    thread::for_each_mut(rt, parties, 2, &share);
}

// Reads the commands of a line `CALLS COUNT UNIT COMMAND`: `CALLS` times the command, with `COUNT` copies of the unit instead
// of `~`.
fn read_long(alloc: Global, words: &str) -> Option<Vec<Command<Global>>> {
    let (calls, rest) = words.split_once(' ')?;
    let (count, rest) = rest.split_once(' ')?;
    let (unit, command) = rest.split_once(' ')?;
    let (front, back) = command.split_once('~')?;
    let mut text = String::from_str(alloc, front).ok()?;
    for _ in 0..count.parse::<usize>().ok()? {
        text.push_str(unit).ok()?;
    }
    text.push_str(back).ok()?;
    let command = read_command(alloc, text.as_str())?;
    let mut commands = Vec::new(alloc);
    for _ in 0..calls.parse::<usize>().ok()? {
        commands.push(command.try_clone(alloc).ok()?).ok()?;
    }
    Some(commands)
}

impl<'h, R: Threads + Wait + Sync> Bench<'h, R, Global> {
    /// Runs the programs of a case's first line in a group, and meanwhile makes the call of its second line. Repeats this until
    /// enough calls were answered well before their group ended.
    pub fn work_beside<G: Gate>(&mut self, store: &Store<Global, G>, case: Case<'_>) -> Option<()> {
        let (long, short) = case.calls.split_once('\n')?;
        let mut commands = Vec::new(self.global);
        commands.push(read_command(self.global, short)?).ok()?;
        let mut parties = Vec::new(self.global);
        for commands in [read_long(self.global, long)?, commands] {
            let session = begin(self.rt, store).ok()?;
            parties.push(Party { session, commands }).ok()?;
        }
        let rounds = Rounds::new();
        run_parties(self.rt, self.global, parties.as_mut_slice(), &rounds);
        let beside = rounds.beside.load(Ordering::SeqCst) >= WANTED;
        let refused = rounds.refused.load(Ordering::SeqCst);
        let answered = if beside { "while" } else { "only after" };
        let out = &mut self.out;
        writeln!(
            out,
            "a call is answered {answered} programs run, {refused} refused"
        )
        .ok()
    }
}
