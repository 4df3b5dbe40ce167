//! Lists of events on a desk and on the model.

use crate::asks::{Ask, said_by, shared_of};
use crate::checks::{are_entries, are_pairs};
use crate::comes::{Comes, Does, come_of, event_of};
use crate::dice::{Dice, any_ask, any_event};
use crate::model::{Model, Seen};
use crate::store::Store;
use desk_core::{Desk, Event, EventOutcome};
use sdbm_addr::{KeyBytes, PageSize};
use sdbm_files::Image;
use std::alloc::{AllocError, Global};
use store_cmd::{Program, SharedCommand, Trail};

// The number of steps after a list.
const STEPS: usize = 5;

// One function for each call of the desk.
fn open(alloc: Global, image: Image<Global>, limit: usize) -> Result<Desk<Global>, AllocError> {
    match Desk::open(alloc, image, limit) {
        Ok(desk) => Ok(desk),
        Err((error, _image)) => Err(error),
    }
}

fn play(
    desk: &mut Desk<Global>,
    events: &[Event<Global>],
) -> Result<Vec<EventOutcome<Global>>, AllocError> {
    desk.play(events)
}

fn step(desk: &mut Desk<Global>, session: u64, command: SharedCommand<Global>) -> Comes {
    match desk.step(session, command) {
        Ok(reply) => Comes::Answered(said_by(&reply)),
        Err((fault, _command)) => Comes::AskRefused(fault),
    }
}

fn close(desk: Desk<Global>) -> (Image<Global>, Trail<Global>) {
    desk.into_parts()
}

fn any_list(alloc: Global, dice: &mut Dice, length: usize) -> Result<Vec<Does>, AllocError> {
    let mut list = Vec::new(alloc);
    for _ in 0..length {
        list.push(any_event(dice))?;
    }
    Ok(list)
}

fn events_of(
    alloc: Global,
    programs: &[Program<Global>],
    list: &[Does],
) -> Result<Vec<Event<Global>>, AllocError> {
    let mut events = Vec::new(alloc);
    for does in list {
        events.push(event_of(alloc, programs, *does)?)?;
    }
    Ok(events)
}

// Plays a list, and returns the first difference, if there is one.
fn play_both(
    alloc: Global,
    programs: &[Program<Global>],
    desk: &mut Desk<Global>,
    model: &mut Model,
    list: &[Does],
) -> Result<Option<String>, AllocError> {
    let events = events_of(alloc, programs, list)?;
    let outcomes = play(desk, events.as_slice())?;
    if outcomes.len() != list.len() {
        return Ok(Some(String::from_str(alloc, "not an outcome each")?));
    }
    for (does, outcome) in list.iter().zip(outcomes.iter()) {
        let got = come_of(outcome);
        let want = model.happens(*does)?;
        if got != want {
            return Ok(Some(format!(in alloc; "{does:?}: {got:?}, not {want:?}")?));
        }
    }
    Ok(None)
}

// Makes a step on both, and returns the difference, if there is one.
fn step_both(
    alloc: Global,
    programs: &[Program<Global>],
    desk: &mut Desk<Global>,
    model: &mut Model,
    session: u64,
    ask: Ask,
) -> Result<Option<String>, AllocError> {
    let got = step(desk, session, shared_of(alloc, programs, ask)?);
    let want = model.steps(session, ask)?;
    if got != want {
        return Ok(Some(format!(in alloc; "step {ask:?}: {got:?}, not {want:?}")?));
    }
    Ok(None)
}

// Makes random steps while the tickets of the played list are still open. Returns the first difference, if there is one.
fn steps_both(
    alloc: Global,
    programs: &[Program<Global>],
    desk: &mut Desk<Global>,
    model: &mut Model,
    dice: &mut Dice,
) -> Result<Option<String>, AllocError> {
    for _ in 0..STEPS {
        let session = dice.roll(3);
        let ask = any_ask(dice);
        if let Some(difference) = step_both(alloc, programs, desk, model, session, ask)? {
            return Ok(Some(difference));
        }
    }
    Ok(None)
}

// Plays a list, makes its steps, and compares the resulting pairs and entries. Returns the first difference, if there is one.
fn difference(
    alloc: Global,
    programs: &[Program<Global>],
    desk: &mut Desk<Global>,
    model: &mut Model,
    dice: &mut Dice,
    length: usize,
) -> Result<Option<String>, AllocError> {
    let list = any_list(alloc, dice, length)?;
    if let Some(difference) = play_both(alloc, programs, desk, model, list.as_slice())? {
        return Ok(Some(difference));
    }
    if let Some(difference) = steps_both(alloc, programs, desk, model, dice)? {
        return Ok(Some(difference));
    }
    if !are_pairs(desk.pairs()?.as_slice(), &model.store.values) {
        return Ok(Some(String::from_str(alloc, "other pairs")?));
    }
    if !are_entries(
        desk.trail().entries.as_slice(),
        programs,
        model.entries.as_slice(),
    ) {
        return Ok(Some(String::from_str(alloc, "other entries")?));
    }
    Ok(None)
}

// A database, and its model.
#[derive(Drop)]
struct Pair {
    image: Image<Global>,
    store: Store,
}

// The result of a list: the database and its model afterwards, or the first difference.
#[derive(Drop)]
enum After {
    Same(Pair, Seen),
    Differs(String),
}

fn run_list(
    alloc: Global,
    programs: &[Program<Global>],
    dice: &mut Dice,
    pair: Pair,
    seen: Seen,
    length: usize,
) -> Result<After, AllocError> {
    let limit = dice.roll(40) as usize;
    let Pair { image, store } = pair;
    let mut desk = open(alloc, image, limit)?;
    if !are_pairs(desk.trail().opening.as_slice(), &store.values) {
        return Ok(After::Differs(String::from_str(alloc, "another opening")?));
    }
    let mut model = Model::open(alloc, store, limit, seen);
    if let Some(difference) = difference(alloc, programs, &mut desk, &mut model, dice, length)? {
        return Ok(After::Differs(difference));
    }
    let (image, _trail) = close(desk);
    let Model { store, seen, .. } = model;
    Ok(After::Same(Pair { image, store }, seen))
}

fn empty_pair(alloc: Global) -> Pair {
    Pair {
        image: Image::empty(alloc, KeyBytes::Signed, PageSize::Small),
        store: Store::empty(alloc),
    }
}

fn agreement(alloc: Global, count: usize, seen: Seen) -> Result<String, AllocError> {
    let splits = if seen.splits > 0 { ", with splits" } else { "" };
    let crowded = if seen.crowded > 0 { ", crowded" } else { "" };
    let busy = if seen.busy > 0 { ", busy" } else { "" };
    let saved = if seen.saved > 0 {
        ", saved by runs"
    } else {
        ""
    };
    let deleted = if seen.deleted > 0 {
        ", deleted by runs"
    } else {
        ""
    };
    format!(in alloc; "{count} lists agree{splits}{crowded}{busy}{saved}{deleted}")
}

/// Plays random lists. Returns a text that says that they agree, or the first difference.
pub fn run_lists(
    alloc: Global,
    programs: &[Program<Global>],
    seed: u64,
    count: usize,
    length: usize,
) -> Result<String, AllocError> {
    let mut dice = Dice { state: seed };
    let mut pair = empty_pair(alloc);
    let mut seen = Seen::nothing();
    for i in 0..count {
        if dice.roll(8) == 0 {
            pair = empty_pair(alloc);
        }
        match run_list(alloc, programs, &mut dice, pair, seen, length)? {
            After::Same(next, more) => {
                pair = next;
                seen = more;
            }
            After::Differs(difference) => return format!(in alloc; "list {i}: {difference}"),
        }
    }
    agreement(alloc, count, seen)
}
