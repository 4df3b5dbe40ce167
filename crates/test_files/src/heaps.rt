//! Reads and writes files in heaps of each size.

use crate::bench::Known;
use crate::files::{Files, files_of, open_known, opened_text, same_files, write_both};
use linked_list_allocator::LocalHeap;
use sdbm_files::{Image, MemSink, OpenFault, Sink, WriteFault};
use std::alloc::{Allocator, Global};
use std::fmt::Write;
use test_support::{bytes_of, cut, number, show_bytes};

/// Opens files in a heap of this size. Returns the result as text, and how many bytes of the heap are in use afterwards.
pub fn within_text(global: Global, known: &Known, count: &str) -> Option<String> {
    let heap = LocalHeap::new(global, number(count)).ok()?;
    let opened = open_known(&heap, known);
    let text = opened_text(global, &opened)?;
    drop(opened);
    format!(in global; "{text} used {}", heap.used()).ok()
}

// Opens files with an allocator. Returns `true` if there is enough memory and `false` if not. Returns `None` if writing the
// database gives other files, or on any other fault.
fn opens<A: Allocator + Copy>(
    global: Global,
    alloc: A,
    known: &Known,
    files: &Files,
) -> Option<bool> {
    match open_known(alloc, known) {
        Ok(image) => {
            if !same_files(&files_of(global, &image)?, files) {
                return None;
            }
            Some(true)
        }
        Err(OpenFault::NoMemory) => Some(false),
        Err(_) => None,
    }
}

// Opens known files in a heap of `size` bytes, which has to be empty afterwards.
fn opens_in(global: Global, size: usize, known: &Known, files: &Files) -> Option<bool> {
    let heap = LocalHeap::new(global, size).ok()?;
    let enough = opens(global, &heap, known, files)?;
    if heap.used() != 0 {
        return None;
    }
    Some(enough)
}

// Returns `true` if the sinks have the bytes that a write leaves. Without a fault these are the whole files. Otherwise `.pag`
// has whole pages and `.dir` is empty, and the sink with the fault has failed.
fn are_written<A: Allocator>(
    ended: Result<(), WriteFault>,
    dir: &MemSink<A>,
    pag: &MemSink<A>,
    files: &Files,
) -> bool {
    if pag.has_failed() != (ended == Err(WriteFault::Pag)) {
        return false;
    }
    if dir.has_failed() != (ended == Err(WriteFault::Dir)) {
        return false;
    }
    if !files.pag.bytes().starts_with(pag.bytes()) {
        return false;
    }
    if ended.is_ok() {
        return pag.bytes() == files.pag.bytes() && dir.bytes() == files.dir.bytes();
    }
    let is_whole = pag.bytes().len() == files.pag.bytes().len();
    dir.bytes().is_empty() && pag.bytes().len() % 1024 == 0 && is_whole == dir.has_failed()
}

// Writes a database with an allocator. Returns `true` if there is enough memory and `false` if not. Returns `None` if the sinks
// have wrong bytes.
fn writes<A: Allocator + Copy>(alloc: A, image: &Image<Global>, files: &Files) -> Option<bool> {
    let mut dir = MemSink::new(alloc);
    let mut pag = MemSink::new(alloc);
    let result = write_both(image, &mut dir, &mut pag);
    if !are_written(result, &dir, &pag, files) {
        return None;
    }
    Some(result.is_ok())
}

fn writes_in(global: Global, size: usize, image: &Image<Global>, files: &Files) -> Option<bool> {
    let heap = LocalHeap::new(global, size).ok()?;
    writes(&heap, image, files)
}

// Tries heaps of 128, 144, 160 bytes and so on, and returns the size of the first that is large enough.
fn least_heap(global: Global, known: &Known, is_opened: bool) -> Option<usize> {
    let image = open_known(global, known).ok()?;
    let files = files_of(global, &image)?;
    for blocks in 8..800 {
        let size = 16 * blocks;
        let enough = if is_opened {
            opens_in(global, size, known, &files)?
        } else {
            writes_in(global, size, &image, &files)?
        };
        if enough {
            return Some(size);
        }
    }
    None
}

/// Says whether the smallest heap that is large enough has more than `count` bytes.
pub fn heaps_text(global: Global, known: &Known, rest: &str) -> Option<String> {
    let (word, count) = cut(rest);
    let count = number(count);
    let least = least_heap(global, known, word == "open")?;
    let text = if least > count {
        "refused in each heap up to a larger one"
    } else {
        "not refused in a heap of so many bytes"
    };
    String::from_str(global, text).ok()
}

// Puts bytes in a sink, and writes the sink's answer and its bytes.
fn show_put<S: Allocator>(out: &mut String, sink: &mut MemSink<S>, bytes: &[u8]) -> Option<()> {
    match sink.put(bytes) {
        Ok(count) => write!(out, " / {count} ").ok()?,
        Err(_) => out.push_str(" / refused ").ok()?,
    }
    show_bytes(out, sink.bytes()).ok()?;
    if sink.has_failed() {
        out.push_str(" failed").ok()?;
    }
    Some(())
}

fn show_puts<A: Allocator>(
    global: Global,
    out: &mut String,
    sink: &mut MemSink<A>,
    words: &str,
) -> Option<()> {
    for word in words.split(' ') {
        show_put(out, sink, bytes_of(global, word).as_slice())?;
    }
    Some(())
}

/// Puts bytes in a sink whose heap has this size, and returns the sink's answers.
pub fn sink_text(global: Global, rest: &str) -> Option<String> {
    let (count, words) = cut(rest);
    let heap = LocalHeap::new(global, number(count)).ok()?;
    let mut sink = MemSink::new(&heap);
    let mut out = String::from_str(global, "sink").ok()?;
    show_puts(global, &mut out, &mut sink, words)?;
    Some(out)
}
