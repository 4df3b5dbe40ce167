//! Comparisons of entries and trails.

use sdbm_addr::Bytes;
use std::alloc::Allocator;
use store_cmd::{KeptEntry, Trail};

// Returns `true` if both lists have equal pairs in the same order.
fn same_pairs<A: Allocator>(a: &[(Bytes<A>, Bytes<A>)], b: &[(Bytes<A>, Bytes<A>)]) -> bool {
    if a.len() != b.len() {
        return false;
    }
    for (one, other) in a.iter().zip(b) {
        if one.0.as_slice() != other.0.as_slice() || one.1.as_slice() != other.1.as_slice() {
            return false;
        }
    }
    true
}

// Returns `true` if two entries have equal sessions, commands and replies.
fn same_entry<A: Allocator>(a: &KeptEntry<A>, b: &KeptEntry<A>) -> bool {
    a.equals(b)
        && a.session() == b.session()
        && a.command() == b.command()
        && a.reply() == b.reply()
}

/// Returns `true` if two trails have equal openings and entries.
pub fn same_trail<A: Allocator>(a: &Trail<A>, b: &Trail<A>) -> bool {
    if a.entries.len() != b.entries.len() {
        return false;
    }
    for (one, other) in a.entries.iter().zip(b.entries.iter()) {
        if !same_entry(one, other) {
            return false;
        }
    }
    same_pairs(a.opening.as_slice(), b.opening.as_slice())
}
