//! Hashes, directory numbers, sizes and byte strings.

use sdbm_addr::{Bytes, KeyBytes, PageSize, child, clone_pairs, hash, mask};
use std::alloc::{AllocError, Global};
use store_cmd::{Command, SizeFault, check_sizes};
use test_support::{bytes_of, cut, read_command, read_kind, read_size, show_bytes, show_pairs};

fn show_number(global: Global, number: u32) -> Option<String> {
    format!(in global; "{number}").ok()
}

fn hash_of(key: &[u8], kind: KeyBytes) -> u32 {
    hash(key, kind)
}

fn hash_text(global: Global, rest: &str) -> Option<String> {
    let (kind, key) = cut(rest);
    let kind = read_kind(kind)?;
    show_number(global, hash_of(bytes_of(global, key).as_slice(), kind))
}

fn mask_text(global: Global, depth: &str) -> Option<String> {
    let depth = depth.parse::<u8>().ok()?;
    if depth > 31 {
        return None;
    }
    show_number(global, mask(depth))
}

fn child_text(global: Global, rest: &str) -> Option<String> {
    let (bit, side) = rest.split_once(' ')?;
    let bit = bit.parse::<u32>().ok()?;
    if bit >= 2147483647 {
        return None;
    }
    show_number(global, child(bit, side == "1"))
}

fn size_text(global: Global, name: &str) -> Option<String> {
    let size = read_size(name)?;
    let bytes = size.bytes();
    let pair = size.pair_limit();
    let offsets = size.offset_limit();
    format!(in global; "{bytes} {pair} {offsets}").ok()
}

// A byte string with another first byte, and a copy from before the change.
fn changed(
    global: Global,
    bytes: &[u8],
    first: u8,
) -> Result<(Bytes<Global>, Bytes<Global>), AllocError> {
    let mut bytes = Bytes::from_slice(global, bytes)?;
    let copy = bytes.try_clone(global)?;
    if let Some(place) = bytes.as_mut_slice().first_mut() {
        *place = first;
    }
    Ok((bytes, copy))
}

fn show_two(global: Global, one: &[u8], other: &[u8]) -> Result<String, AllocError> {
    let mut out = String::new(global);
    show_bytes(&mut out, one)?;
    out.push_str(" ")?;
    show_bytes(&mut out, other)?;
    Ok(out)
}

fn changed_text(global: Global, bytes: &[u8], first: u8) -> Result<String, AllocError> {
    let (bytes, copy) = changed(global, bytes, first)?;
    show_two(global, bytes.as_slice(), copy.as_slice())
}

fn bytes_text(global: Global, rest: &str) -> Result<String, AllocError> {
    let (bytes, first) = cut(rest);
    let first = bytes_of(global, first).first().copied().unwrap_or(0);
    changed_text(global, bytes_of(global, bytes).as_slice(), first)
}

fn read_pair(global: Global, pair: &str) -> (Bytes<Global>, Bytes<Global>) {
    let (key, value) = pair.split_once('=').unwrap_or((pair, ""));
    let key = Bytes::new(bytes_of(global, key));
    (key, Bytes::new(bytes_of(global, value)))
}

fn read_pairs(global: Global, rest: &str) -> Option<Vec<(Bytes<Global>, Bytes<Global>)>> {
    let mut pairs = Vec::new(global);
    for pair in rest.split(' ') {
        pairs.push(read_pair(global, pair)).ok()?;
    }
    Some(pairs)
}

fn copies_text(global: Global, rest: &str) -> Option<String> {
    let pairs = read_pairs(global, rest)?;
    let copies = clone_pairs(global, pairs.as_slice()).ok()?;
    let mut out = String::from_str(global, "copies").ok()?;
    show_pairs(&mut out, copies.as_slice()).ok()?;
    Some(out)
}

fn check_of(command: &Command<Global>, size: PageSize) -> Result<(), SizeFault> {
    check_sizes(command, size)
}

fn check_text(global: Global, rest: &str) -> Option<String> {
    let (size, command) = cut(rest);
    let size = read_size(size)?;
    let command = read_command(global, command)?;
    match check_of(&command, size) {
        Ok(()) => String::from_str(global, "fits").ok(),
        Err(fault) => format!(in global; "refused {fault:?}").ok(),
    }
}

/// The answer to a line of this module. Returns `None` for any other line.
pub fn word_line(global: Global, word: &str, rest: &str) -> Option<String> {
    match word {
        "hash" => hash_text(global, rest),
        "mask" => mask_text(global, rest),
        "child" => child_text(global, rest),
        "size" => size_text(global, rest),
        "bytes" => bytes_text(global, rest).ok(),
        "copies" => copies_text(global, rest),
        "check" => check_text(global, rest),
        _ => None,
    }
}
