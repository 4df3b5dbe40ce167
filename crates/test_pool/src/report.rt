//! The answers to lines.

use crate::jobs::{Outcome, Pool};
use std::alloc::{AllocError, Global};
use std::sync::Wait;
use std::thread::Threads;
use store_cmd::{Command, KeptEntry};
use store_shared::Calls;
use test_support::show_reply;

// Writes the time of a call.
fn show_time(out: &mut String, entry: &KeptEntry<Global>) -> Result<(), AllocError> {
    match entry.command() {
        Command::Run { now, .. } => write!(out, " {now}"),
        _ => out.push_str(" no run"),
    }
}

// Writes the times of the calls of each session, up to the last session that has calls.
fn show_calls(out: &mut String, calls: &[Calls<Global>]) -> Result<(), AllocError> {
    write!(out, "; sessions {}", calls.len())?;
    let last = calls.iter().rposition(|its| !its.entries().is_empty());
    let Some(last) = last else {
        return Ok(());
    };
    for (at, its) in calls[..=last].iter().enumerate() {
        out.push_str(if at == 0 { ":" } else { " |" })?;
        for entry in its.entries() {
            show_time(out, entry)?;
        }
    }
    Ok(())
}

// Writes the outcome of tasks.
fn show_outcome(out: &mut String, outcome: &Outcome) -> Result<(), AllocError> {
    match &outcome.0 {
        Ok(replies) => {
            write!(out, "replies {}", replies.len())?;
            for (at, reply) in replies.iter().enumerate() {
                out.push_str(if at == 0 { ": " } else { ", " })?;
                show_reply(out, reply)?;
            }
        }
        Err(fault) => write!(out, "{fault:?}")?,
    }
    show_calls(out, outcome.1.as_slice())
}

fn show_jobs<R: Threads + Wait + Sync>(
    rt: &R,
    pool: &mut Pool<'_>,
    out: &mut String,
    word: &str,
) -> Option<()> {
    let workers = word.parse::<usize>().ok()?;
    let outcome = pool.run(rt, workers)?;
    let shown = show_outcome(out, &outcome);
    pool.keep(outcome.1).ok()?;
    shown.ok()
}

fn open(pool: &mut Pool<'_>, kind: &str, word: &str) -> Option<()> {
    let limit = word.parse::<usize>().ok()?;
    let image = match kind {
        "store" => pool.empty(),
        _ => pool.closed.take()?.image,
    };
    pool.open(image, limit)
}

fn show_close(pool: &mut Pool<'_>, out: &mut String) -> Option<()> {
    if let Err(fault) = pool.close()? {
        return write!(out, "not closed: {fault}").ok();
    }
    let closed = pool.closed.as_ref()?;
    let pairs = closed.image.pairs().ok()?.len();
    let entries = closed.trail.entries.len();
    write!(out, "closed, entries {entries}, pairs {pairs}").ok()
}

fn show_order(pool: &Pool<'_>, out: &mut String) -> Option<()> {
    let closed = pool.closed.as_ref()?;
    out.push_str("order").ok()?;
    for entry in &closed.trail.entries {
        write!(out, " {}", entry.session()).ok()?;
    }
    Some(())
}

// Executes a line of several words.
fn show_words<R: Threads + Wait + Sync>(
    rt: &R,
    pool: &mut Pool<'_>,
    out: &mut String,
    kind: &str,
    rest: &str,
) -> Option<()> {
    match kind {
        "store" | "again" => {
            open(pool, kind, rest)?;
            out.push_str("store").ok()
        }
        "program" => {
            let number = pool.submit(rest)?;
            write!(out, "program {number}").ok()
        }
        "task" => {
            let words: Vec<&str> = rest.split(' ').collect(pool.alloc).ok()?;
            let count = pool.wait(words.as_slice())?;
            write!(out, "tasks {count}").ok()
        }
        "tasks" => {
            let (count, rest) = rest.split_once(' ')?;
            let words: Vec<&str> = rest.split(' ').collect(pool.alloc).ok()?;
            let count = pool.wait_often(count.parse::<u64>().ok()?, words.as_slice())?;
            write!(out, "tasks {count}").ok()
        }
        "jobs" => show_jobs(rt, pool, out, rest),
        "meet" => {
            pool.meeting.want(rest.parse::<u64>().ok()?);
            write!(out, "meet {rest}").ok()
        }
        "#" => write!(out, "# {rest}").ok(),
        _ => None,
    }
}

// Executes a line of one word.
fn show_word<R: Wait>(rt: &R, pool: &mut Pool<'_>, out: &mut String, kind: &str) -> Option<()> {
    match kind {
        "session" => {
            let number = pool.session(rt)?;
            write!(out, "session {number}").ok()
        }
        "close" => show_close(pool, out),
        "order" => show_order(pool, out),
        "pass" => {
            pool.meeting.pass();
            out.push_str("pass").ok()
        }
        "met" => {
            let (came, vain) = pool.meeting.counts();
            write!(out, "came {came}, in vain {vain}").ok()
        }
        _ => None,
    }
}

/// The answer to a line.
pub fn show_line<R: Threads + Wait + Sync>(
    rt: &R,
    pool: &mut Pool<'_>,
    line: &str,
) -> Result<String, AllocError> {
    let mut out = String::new(pool.alloc);
    let shown = match line.split_once(' ') {
        Some((kind, rest)) => show_words(rt, pool, &mut out, kind, rest),
        None => show_word(rt, pool, &mut out, line),
    };
    if shown.is_none() {
        out.push_str("cannot")?;
    }
    Ok(out)
}
