//! Measurements and their reports.

use crate::calls::{Call, Manner, by_desk, by_sessions};
use crate::programs::{KEYS, counter, four_pages, long};
use crate::turning::{Turn, make_turn};
use std::alloc::Global;
use std::io;
use std::rt::Clock;
use std::sync::Wait;
use std::thread::Threads;
use std::time::Instant;

/// The caller of a measurement.
#[derive(Clone, Copy)]
enum Callers {
    Desk,
    One,
    Apart,
    Together,
    Grouped,
    Crowd,
}

/// A requested measurement.
#[derive(Drop)]
struct Measurement {
    callers: Callers,
    call: Call,
    count: usize,
}

fn read_callers(word: &str) -> Option<Callers> {
    match word {
        "desk" => Some(Callers::Desk),
        "one" => Some(Callers::One),
        "apart" => Some(Callers::Apart),
        "together" => Some(Callers::Together),
        "grouped" => Some(Callers::Grouped),
        "crowd" => Some(Callers::Crowd),
        _ => None,
    }
}

fn read_call(alloc: Global, word: &str) -> Option<Call> {
    match word {
        "fetch" => Some(Call::Fetch),
        "store" => Some(Call::Store),
        "run" => Some(Call::Run(counter(alloc)?)),
        "long" => Some(Call::Run(long(alloc)?)),
        _ => None,
    }
}

// Reads a line as a measurement.
fn read_measurement(alloc: Global, line: &str) -> Option<Measurement> {
    let (callers, rest) = line.split_once(' ')?;
    let (call, count) = rest.split_once(' ')?;
    let callers = read_callers(callers)?;
    let call = read_call(alloc, call)?;
    let count = count.parse::<usize>().ok()?;
    Some(Measurement {
        callers,
        call,
        count,
    })
}

// Makes the calls of a measurement. Returns the number of entries.
fn measure<R: Threads + Wait + Sync>(rt: &R, alloc: Global, asked: &Measurement) -> Option<usize> {
    let image = four_pages(alloc)?;
    let call = &asked.call;
    let same = [KEYS[0]; 4];
    let (keys, manner): (&[&'static [u8]], Manner) = match asked.callers {
        Callers::Desk => return by_desk(alloc, image, call, asked.count),
        Callers::One => (&KEYS[..1], Manner::OneByOne),
        Callers::Apart => (&KEYS, Manner::OneByOne),
        Callers::Together => (&same, Manner::OneByOne),
        Callers::Grouped => (&KEYS[..1], Manner::Grouped),
        Callers::Crowd => (&KEYS, Manner::Grouped),
    };
    by_sessions(rt, alloc, image, keys, call, manner, asked.count)
}

// The answer to a `turn` line.
fn show_turn<R: Clock + Wait>(
    rt: &R,
    alloc: Global,
    timed: bool,
    words: &str,
) -> io::Result<String> {
    let Some((count, calls)) = read_turn(words) else {
        return Ok(String::from_str(alloc, "a line that cannot be read")?);
    };
    let Some(turn) = make_turn(rt, alloc, count, calls)? else {
        return Ok(String::from_str(alloc, "a call was refused")?);
    };
    let Turn {
        pairs,
        entries,
        open,
        close,
    } = turn;
    if !timed {
        return Ok(format!(in alloc; "turn {words}: {pairs} pairs, {entries} entries")?);
    }
    Ok(format!(in alloc;
        "turn {words}: {pairs} pairs, {entries} entries, {open} us to open, {close} us to close"
    )?)
}

// Reads the numbers of pairs and calls of a `turn` line.
fn read_turn(words: &str) -> Option<(usize, usize)> {
    let (count, calls) = words.split_once(' ')?;
    Some((count.parse::<usize>().ok()?, calls.parse::<usize>().ok()?))
}

/// The answer to a line.
pub fn show_line<R: Clock + Threads + Wait + Sync>(
    rt: &R,
    alloc: Global,
    text: &str,
) -> io::Result<String> {
    let (timed, rest) = match text.strip_prefix("time ") {
        Some(rest) => (true, rest),
        None => (false, text),
    };
    if let Some(words) = rest.strip_prefix("turn ") {
        return show_turn(rt, alloc, timed, words);
    }
    let Some(asked) = read_measurement(alloc, rest) else {
        return Ok(String::from_str(alloc, "a line that cannot be read")?);
    };
    let start = Instant::now(rt)?;
    let Some(entries) = measure(rt, alloc, &asked) else {
        return Ok(String::from_str(alloc, "a call was refused")?);
    };
    let nanos = start.elapsed(rt)?.as_nanos();
    if !timed || nanos == 0 || asked.count == 0 {
        return Ok(format!(in alloc; "{rest}: {entries} entries")?);
    }
    let speed = (asked.count as u128) * 1_000_000_000 / nanos;
    let call = nanos / (asked.count as u128);
    Ok(format!(in alloc; "{rest}: {entries} entries, {speed} calls a second, {call} ns a call")?)
}
