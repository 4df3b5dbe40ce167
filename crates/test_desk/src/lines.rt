//! Reads calls and events from words.

use crate::calls::Call;
use desk_core::{Event, Ticket};
use std::alloc::{Allocator, Global};
use store_cmd::SharedCommand;
use test_support::read_command;

fn read_ticket(word: &str) -> Option<Ticket> {
    Some(Ticket(word.parse::<usize>().ok()?))
}

// A session and its command.
fn read_asked<A: Allocator + Copy>(alloc: A, words: &str) -> Option<(u64, SharedCommand<A>)> {
    let (session, command) = words.split_once(' ')?;
    let session = session.parse::<u64>().ok()?;
    let command = read_command(alloc, command)?;
    Some((session, SharedCommand::new(alloc, command).ok()?))
}

// A hand, a session and its command.
fn read_ask<A: Allocator + Copy>(alloc: A, words: &str) -> Option<Call<A>> {
    let (hand, asked) = words.split_once(' ')?;
    let (session, command) = read_asked(alloc, asked)?;
    Some(Call::Ask(hand.parse::<usize>().ok()?, session, command))
}

/// Reads the call of a line.
pub fn read_call<A: Allocator + Copy>(alloc: A, line: &str) -> Option<Call<A>> {
    let (name, rest) = line.split_once(' ')?;
    match name {
        "step" => {
            let (session, command) = read_asked(alloc, rest)?;
            Some(Call::Step(session, command))
        }
        "ask" => read_ask(alloc, rest),
        "work" => Some(Call::Work(rest.parse::<usize>().ok()?)),
        "convert" => Some(Call::Convert(read_ticket(rest)?)),
        "finish" => Some(Call::Finish(rest.parse::<usize>().ok()?)),
        "abandon" => Some(Call::Abandon(read_ticket(rest)?)),
        _ => None,
    }
}

// Reads an event.
fn read_event<A: Allocator + Copy>(alloc: A, words: &str) -> Option<Event<A>> {
    let (name, rest) = words.split_once(' ')?;
    match name {
        "ask" => {
            let (session, command) = read_asked(alloc, rest)?;
            Some(Event::Ask(session, command))
        }
        "work" => Some(Event::Work(read_ticket(rest)?)),
        "convert" => Some(Event::Convert(read_ticket(rest)?)),
        "finish" => Some(Event::Finish(read_ticket(rest)?)),
        "abandon" => Some(Event::Abandon(read_ticket(rest)?)),
        _ => None,
    }
}

/// The events of a list.
pub fn read_events<A: Allocator + Copy>(
    global: Global,
    alloc: A,
    list: &str,
) -> Option<Vec<Event<A>>> {
    let mut events = Vec::new(global);
    for words in list.split(" / ") {
        events.push(read_event(alloc, words)?).ok()?;
    }
    Some(events)
}
