//! Answers to the lines of standard input.

use crate::bench::{Bench, InHand};
use crate::lean::{answer_call, answer_open};
use crate::lines::{read_call, read_events};
use crate::views::{
    show_count, show_desk_pairs, show_done, show_files, show_outcome, show_page_of, show_place,
    show_trail,
};
use desk_core::{Desk, Event, EventOutcome};
use sdbm_addr::{KeyBytes, PageSize};
use sdbm_files::{Image, OpenFault};
use std::alloc::{AllocError, Allocator};
use std::mem;
use test_support::{read_bytes, read_file, read_kind, read_size, same_trail};

// Reads a hash kind and a page size. Also returns the rest of the words.
fn read_shape(words: &str) -> Option<(KeyBytes, PageSize, &str)> {
    let (kind, rest) = words.split_once(' ')?;
    let (size, rest) = rest.split_once(' ')?;
    Some((read_kind(kind)?, read_size(size)?, rest))
}

fn open<A: Allocator + Copy>(bench: &mut Bench<A>, words: &str) -> Option<String> {
    let (kind, size, limit) = read_shape(words)?;
    let image = Image::empty(bench.alloc, kind, size);
    answer_open(bench, image, limit.parse::<usize>().ok()?)
}

fn open_files<A: Allocator + Copy>(
    bench: &Bench<A>,
    words: &str,
) -> Option<Result<Image<A>, OpenFault>> {
    let (kind, size, files) = read_shape(words)?;
    let (dir, pag) = files.strip_prefix("dir ")?.split_once(" pag ")?;
    let dir = read_file(bench.global, dir)?;
    let pag = read_file(bench.global, pag)?;
    Some(Image::open(bench.alloc, dir.as_slice(), pag.as_slice(), kind, size))
}

fn files<A: Allocator + Copy>(bench: &mut Bench<A>, words: &str) -> Option<String> {
    match open_files(bench, words)? {
        Ok(image) => {
            bench.image = Some(image);
            String::from_str(bench.global, "opened").ok()
        }
        Err(fault) => format!(in bench.global; "refused {fault:?}").ok(),
    }
}

fn reopen<A: Allocator + Copy>(bench: &mut Bench<A>, limit: &str) -> Option<String> {
    let image = bench.image.take()?;
    answer_open(bench, image, limit.parse::<usize>().ok()?)
}

fn close<A: Allocator + Copy>(bench: &mut Bench<A>) -> Option<String> {
    let (image, trail) = bench.desk.take()?.into_parts();
    let opening = trail.opening.as_slice().len();
    let entries = trail.entries.len();
    bench.image = Some(image);
    bench.trail = Some(trail);
    format!(in bench.global; "closed {opening} {entries}").ok()
}

fn done<A: Allocator + Copy>(bench: &Bench<A>, hand: &str) -> Option<String> {
    let hand = hand.parse::<usize>().ok()?;
    let Some(InHand::Done(done)) = bench.hands.get(hand)? else {
        return None;
    };
    let mut out = String::new(bench.global);
    show_done(&mut out, done).ok()?;
    Some(out)
}

fn play_all<A: Allocator + Copy>(
    desk: &mut Desk<A>,
    events: &[Event<A>],
) -> Result<Vec<EventOutcome<A>, A>, AllocError> {
    desk.play(events)
}

fn play<A: Allocator + Copy>(bench: &mut Bench<A>, list: &str) -> Option<String> {
    let events = read_events(bench.global, bench.alloc, list)?;
    let outcomes = play_all(bench.desk.as_mut()?, events.as_slice()).ok()?;
    let mut out = String::new(bench.global);
    for (i, outcome) in outcomes.iter().enumerate() {
        if i > 0 {
            out.push_str(" / ").ok()?;
        }
        show_outcome(&mut out, outcome).ok()?;
    }
    Some(out)
}

fn pairs<A: Allocator + Copy>(bench: &Bench<A>) -> Option<String> {
    let mut out = String::new(bench.global);
    show_desk_pairs(&mut out, bench.desk.as_ref()?).ok()?;
    Some(out)
}

// The trail of the desk, or of the desk that was closed. A clone of the trail has to be equal.
fn trail<A: Allocator + Copy>(bench: &Bench<A>) -> Option<String> {
    let trail = match &bench.desk {
        Some(desk) => desk.trail(),
        None => bench.trail.as_ref()?,
    };
    let mut out = String::new(bench.global);
    show_trail(bench.global, &mut out, trail).ok()?;
    if !same_trail(&trail.try_clone(bench.alloc).ok()?, trail) {
        out.push_str(", and a copy that differs").ok()?;
    }
    Some(out)
}

// The answer to a line about the kept database.
fn image_text<A: Allocator + Copy>(bench: &Bench<A>, word: &str, rest: &str) -> Option<String> {
    let image = bench.image.as_ref()?;
    let mut out = String::new(bench.global);
    match word {
        "count" => show_count(&mut out, image).ok()?,
        "write" => show_files(bench.global, &mut out, image).ok()?,
        "page" => show_page_of(&mut out, image, rest.parse::<u32>().ok()?).ok()?,
        "place" => {
            let key = read_bytes(bench.global, rest)?;
            show_place(&mut out, image, key.as_slice()).ok()?;
        }
        _ => return None,
    }
    Some(out)
}

fn answer<A: Allocator + Copy>(bench: &mut Bench<A>, line: &str) -> Option<String> {
    let (word, rest) = line.split_once(' ').unwrap_or((line, ""));
    match word {
        "#" => String::from_str(bench.global, line).ok(),
        "open" => open(bench, rest),
        "files" => files(bench, rest),
        "reopen" => reopen(bench, rest),
        "close" => close(bench),
        "beside" => {
            mem::swap(&mut bench.desk, &mut bench.beside);
            String::from_str(bench.global, "beside").ok()
        }
        "done" => done(bench, rest),
        "play" => play(bench, rest),
        "pairs" => pairs(bench),
        "trail" => trail(bench),
        "count" | "write" | "page" | "place" => image_text(bench, word, rest),
        _ => {
            let call = read_call(bench.alloc, line)?;
            answer_call(bench, call)
        }
    }
}

/// The answer to a line.
pub fn show_line<A: Allocator + Copy>(
    bench: &mut Bench<A>,
    line: &str,
) -> Result<String, AllocError> {
    match answer(bench, line) {
        Some(text) => Ok(text),
        None => String::from_str(bench.global, "a line that cannot be read"),
    }
}
