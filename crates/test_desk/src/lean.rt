//! Repeats calls with more memory until there is enough.

use crate::bench::Bench;
use crate::calls::{Call, Came, lacks_memory, make_call};
use crate::views::{show_outcome, view};
use desk_core::{Desk, EventOutcome};
use sdbm_files::Image;
use std::alloc::{AllocError, Allocator, Global};
use std::fmt::Write;
use store_cmd::SharedCommand;
use test_support::{MOST_TIMES, fill, show_command, show_pairs};

const MORE: &str = " with more memory";

fn show_asked<A: Allocator>(
    global: Global,
    out: &mut String,
    session: u64,
    command: &SharedCommand<A>,
) -> Result<(), AllocError> {
    write!(out, "{session} ")?;
    show_command(global, out, command.command())
}

// A call as text.
fn call_text<A: Allocator>(global: Global, call: &Call<A>) -> Result<String, AllocError> {
    let mut out = String::new(global);
    match call {
        Call::Step(session, command) => show_asked(global, &mut out, *session, command)?,
        Call::Ask(hand, session, command) => {
            write!(out, "{hand} ")?;
            show_asked(global, &mut out, *session, command)?;
        }
        Call::Work(hand) | Call::Finish(hand) => write!(out, "{hand}")?,
        Call::Convert(ticket) | Call::Abandon(ticket) => write!(out, "{}", ticket.0)?,
    }
    Ok(out)
}

// The state of a bench that a refusal must not change, as text.
fn state_text<A: Allocator + Copy>(bench: &Bench<A>, call: &Call<A>) -> Option<String> {
    let mut out = call_text(bench.global, call).ok()?;
    if let Some(desk) = &bench.desk {
        out.push_str(view(bench.global, desk).ok()?.as_str()).ok()?;
    }
    Some(out)
}

// Makes a call while all memory of the heap except `spared` bytes is in use.
fn call_with<A: Allocator + Copy>(
    bench: &mut Bench<A>,
    call: Call<A>,
    spared: usize,
) -> Option<Came<A>> {
    let blocks = match bench.heap {
        Some(heap) => fill(bench.global, heap, spared).ok()?,
        None => Vec::new(bench.global),
    };
    let came = make_call(bench.desk.as_mut()?, &mut bench.hands, call);
    drop(blocks);
    Some(came)
}

fn outcome_text<A: Allocator>(
    global: Global,
    outcome: &EventOutcome<A>,
    times: usize,
) -> Result<String, AllocError> {
    let mut out = String::new(global);
    show_outcome(&mut out, outcome)?;
    if times > 0 {
        out.push_str(MORE)?;
    }
    Ok(out)
}

/// Makes a call with more and more memory until there is enough, and returns the outcome. A refusal has to return the same call
/// and leave the desk unchanged.
pub fn answer_call<A: Allocator + Copy>(bench: &mut Bench<A>, call: Call<A>) -> Option<String> {
    let before = state_text(bench, &call)?;
    let mut call = call;
    for times in 0..MOST_TIMES {
        let Came { outcome, refused } = call_with(bench, call, 16 * times)?;
        let text = outcome_text(bench.global, &outcome, times).ok()?;
        let Some(refused) = refused else {
            return Some(text);
        };
        if state_text(bench, &refused)? != before {
            return String::from_str(bench.global, "a refusal that changes something").ok();
        }
        if !lacks_memory(&outcome) {
            return Some(text);
        }
        call = refused;
    }
    None
}

fn pairs_text<A: Allocator + Copy>(global: Global, image: &Image<A>) -> Option<String> {
    let mut out = String::new(global);
    show_pairs(&mut out, image.pairs().ok()?.as_slice()).ok()?;
    Some(out)
}

fn open<A: Allocator + Copy>(alloc: A, image: Image<A>, limit: usize) -> Result<Desk<A>, Image<A>> {
    match Desk::open(alloc, image, limit) {
        Ok(desk) => Ok(desk),
        Err((_error, image)) => Err(image),
    }
}

// Opens a desk while all memory of the heap except `spared` bytes is in use.
fn open_with<A: Allocator + Copy>(
    bench: &Bench<A>,
    image: Image<A>,
    limit: usize,
    spared: usize,
) -> Option<Result<Desk<A>, Image<A>>> {
    let blocks = match bench.heap {
        Some(heap) => fill(bench.global, heap, spared).ok()?,
        None => Vec::new(bench.global),
    };
    let opened = open(bench.alloc, image, limit);
    drop(blocks);
    Some(opened)
}

/// Opens a desk with more and more memory until there is enough. A refused database has to be unchanged.
pub fn answer_open<A: Allocator + Copy>(
    bench: &mut Bench<A>,
    image: Image<A>,
    limit: usize,
) -> Option<String> {
    let before = pairs_text(bench.global, &image)?;
    let mut image = image;
    for times in 0..MOST_TIMES {
        match open_with(bench, image, limit, 16 * times)? {
            Ok(desk) => {
                bench.desk = Some(desk);
                let more = if times > 0 { MORE } else { "" };
                return format!(in bench.global; "opened{more}").ok();
            }
            Err(refused) => image = refused,
        }
        if pairs_text(bench.global, &image)? != before {
            return String::from_str(bench.global, "a refusal that changes something").ok();
        }
    }
    None
}
