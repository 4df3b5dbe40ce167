//! Desks and databases as text.

use desk_core::{Desk, Done, EventOutcome};
use sdbm_files::{Image, MemSink};
use sdbm_page::Page;
use std::alloc::{AllocError, Allocator, Global};
use std::fmt::Write;
use store_cmd::{KeptEntry, Trail};
use test_support::{show_bytes, show_command, show_file, show_pairs, show_reply};

/// Writes the outcome of a call or of an event.
pub fn show_outcome<A: Allocator>(
    out: &mut String,
    outcome: &EventOutcome<A>,
) -> Result<(), AllocError> {
    match outcome {
        EventOutcome::Asked(ticket) => write!(out, "ticket {}", ticket.0),
        EventOutcome::Answered(reply) | EventOutcome::Finished(reply) => show_reply(out, reply),
        EventOutcome::AskRefused(fault) => write!(out, "refused {fault:?}"),
        EventOutcome::Worked => out.push_str("worked"),
        EventOutcome::WorkRefused => out.push_str("refused NoMemory"),
        EventOutcome::Converted => out.push_str("converted"),
        EventOutcome::ConvertRefused(fault) => write!(out, "refused {fault:?}"),
        EventOutcome::FinishRefused(fault) => write!(out, "refused {fault:?}"),
        EventOutcome::Abandoned => out.push_str("abandoned"),
        EventOutcome::AbandonRefused => out.push_str("refused NoTicket"),
        EventOutcome::NoHand => out.push_str("nothing in hand"),
    }
}

/// Writes a computed command.
pub fn show_done<A: Allocator>(out: &mut String, done: &Done<A>) -> Result<(), AllocError> {
    write!(out, "ticket {} ", done.ticket().0)?;
    show_reply(out, done.reply())?;
    out.push_str(if done.changes() { ", changes" } else { "" })
}

fn show_entry<A: Allocator>(
    global: Global,
    out: &mut String,
    entry: &KeptEntry<A>,
) -> Result<(), AllocError> {
    write!(out, " / {} ", entry.session())?;
    show_command(global, out, entry.command())?;
    out.push_str(": ")?;
    show_reply(out, entry.reply())
}

/// Writes a trail.
pub fn show_trail<A: Allocator>(
    global: Global,
    out: &mut String,
    trail: &Trail<A>,
) -> Result<(), AllocError> {
    out.push_str("opening")?;
    show_pairs(out, trail.opening.as_slice())?;
    for entry in trail.entries.iter() {
        show_entry(global, out, entry)?;
    }
    Ok(())
}

/// Writes the pairs of a desk.
pub fn show_desk_pairs<A: Allocator + Copy>(
    out: &mut String,
    desk: &Desk<A>,
) -> Result<(), AllocError> {
    out.push_str("pairs")?;
    show_pairs(out, desk.pairs()?.as_slice())
}

/// A desk's pairs and trail.
pub fn view<A: Allocator + Copy>(global: Global, desk: &Desk<A>) -> Result<String, AllocError> {
    let mut out = String::new(global);
    show_desk_pairs(&mut out, desk)?;
    out.push_str(" ")?;
    show_trail(global, &mut out, desk.trail())?;
    Ok(out)
}

// Writes the pairs of a page, in order.
fn show_page<A: Allocator + Copy>(out: &mut String, page: &Page<A>) -> Result<(), AllocError> {
    for i in 0..page.len() {
        out.push_str(" ")?;
        show_bytes(out, page.key(i))?;
        out.push_str("=")?;
        show_bytes(out, page.record(i))?;
    }
    Ok(())
}

/// Writes the pairs of the page with a number, in order.
pub fn show_page_of<A: Allocator + Copy>(
    out: &mut String,
    image: &Image<A>,
    number: u32,
) -> Result<(), AllocError> {
    out.push_str("page")?;
    match image.page(number) {
        Some(shared) => show_page(out, shared.page()),
        None => out.push_str(" without pairs"),
    }
}

/// Writes the place of a key.
pub fn show_place<A: Allocator + Copy>(
    out: &mut String,
    image: &Image<A>,
    key: &[u8],
) -> Result<(), AllocError> {
    let place = image.place(key);
    write!(
        out,
        "page {} depth {} bit {}",
        place.page, place.depth, place.bit
    )
}

/// Writes the number of pairs of a database, its hash kind, its page size and the length of `.pag`.
pub fn show_count<A: Allocator + Copy>(
    out: &mut String,
    image: &Image<A>,
) -> Result<(), AllocError> {
    let kind = image.key_bytes();
    let size = image.page_size();
    write!(
        out,
        "{} {kind:?} {size:?} {}",
        image.count(),
        image.pag_len()
    )
}

/// Writes the bytes of both files of a database.
pub fn show_files<A: Allocator + Copy>(
    global: Global,
    out: &mut String,
    image: &Image<A>,
) -> Result<(), AllocError> {
    let mut dir = MemSink::new(global);
    let mut pag = MemSink::new(global);
    if image.write(&mut dir, &mut pag).is_err() {
        return Err(AllocError);
    }
    out.push_str("dir ")?;
    show_file(global, out, dir.bytes())?;
    out.push_str(" pag ")?;
    show_file(global, out, pag.bytes())
}
