//! Sinks that stop after some bytes.

use crate::files::{Files, files_of};
use sdbm_files::{Image, Sink, SinkFault, WriteFault};
use std::alloc::{AllocError, Allocator, Global};
use std::fmt::Write;
use test_support::{cut, number};

// The way in which a sink stops.
#[derive(Clone, Copy, Debug, PartialEq, Eq)]
enum Stop {
    // Fails.
    Fails,
    // Accepts no more bytes.
    TakesNone,
}

// A sink that accepts few bytes at a time and then stops.
#[derive(Drop)]
struct ShortSink {
    bytes: Vec<u8>,
    room: usize,
    at_a_time: usize,
    stop: Stop,
    stopped: bool,
}

impl ShortSink {
    fn new(alloc: Global, room: usize, stop: Stop) -> Self {
        ShortSink {
            bytes: Vec::new(alloc),
            room,
            at_a_time: 700,
            stop,
            stopped: false,
        }
    }
}

impl Sink for ShortSink {
    ghost written = { λ s. s.bytes.items };

    ghost marked = { λ s. s.stopped };

    fn put(&mut self, bytes: &[u8]) -> Result<usize, SinkFault> {
        if bytes.is_empty() {
            return Ok(0);
        }
        let count = bytes.len().min(self.room).min(self.at_a_time);
        if count == 0 {
            self.stopped = true;
            return match self.stop {
                Stop::Fails => Err(SinkFault),
                Stop::TakesNone => Ok(0),
            };
        }
        if self.bytes.extend_from_slice(&bytes[..count]).is_err() {
            self.stopped = true;
            return Err(SinkFault);
        }
        self.room -= count;
        Ok(count)
    }
}

fn write_short<A: Allocator + Copy>(
    image: &Image<A>,
    dir: &mut ShortSink,
    pag: &mut ShortSink,
) -> Result<(), WriteFault> {
    image.write(dir, pag)
}

// Writes the number of bytes in a sink, whether it stopped, and whether its bytes are not a prefix of a file.
fn show_sink(out: &mut String, sink: &ShortSink, file: &[u8]) -> Result<(), AllocError> {
    write!(out, "{}", sink.bytes.len())?;
    if sink.stopped {
        out.push_str(" stopped")?;
    }
    if !file.starts_with(sink.bytes.as_slice()) {
        out.push_str(" with other bytes")?;
    }
    Ok(())
}

fn show_short(
    global: Global,
    ended: Result<(), WriteFault>,
    (dir, pag): (&ShortSink, &ShortSink),
    files: &Files,
) -> Result<String, AllocError> {
    let mut out = match ended {
        Ok(()) => String::from_str(global, "written dir ")?,
        Err(fault) => format!(in global; "refused {fault:?} dir ")?,
    };
    show_sink(&mut out, dir, files.dir.bytes())?;
    out.push_str(" pag ")?;
    show_sink(&mut out, pag, files.pag.bytes())?;
    Ok(out)
}

fn read_stop(word: &str) -> Option<Stop> {
    match word {
        "fails" => Some(Stop::Fails),
        "none" => Some(Stop::TakesNone),
        _ => None,
    }
}

// Writes a database into sinks that accept limited numbers of bytes.
fn short<A: Allocator + Copy>(
    global: Global,
    image: &Image<A>,
    stop: Stop,
    (dir, pag): (usize, usize),
) -> Option<String> {
    let files = files_of(global, image)?;
    let mut dir = ShortSink::new(global, dir, stop);
    let mut pag = ShortSink::new(global, pag, stop);
    let ended = write_short(image, &mut dir, &mut pag);
    show_short(global, ended, (&dir, &pag), &files).ok()
}

/// Returns the result of a write into sinks that stop.
pub fn short_text<A: Allocator + Copy>(
    global: Global,
    image: &Image<A>,
    rest: &str,
) -> Option<String> {
    let (stop, rest) = cut(rest);
    let (dir, pag) = cut(rest);
    short(global, image, read_stop(stop)?, (number(dir), number(pag)))
}
