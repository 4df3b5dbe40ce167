//! Compares desks with the model.

use crate::asks::{is_asked, key_of, said_by};
use crate::model::Answered;
use crate::values::{Value, is_value};
use sdbm_addr::Bytes;
use std::alloc::Global;
use store_cmd::{KeptEntry, Program};

fn is_pair(pair: &(Bytes<Global>, Bytes<Global>), key: usize, value: Value) -> bool {
    pair.0.as_slice() == key_of(key) && is_value(pair.1.as_slice(), value)
}

/// Returns `true` if the pairs are those of the keys that have values, in the order of `KEYS`.
pub fn are_pairs(pairs: &[(Bytes<Global>, Bytes<Global>)], values: &[Option<Value>]) -> bool {
    let mut rest = pairs.iter();
    for (key, value) in values.iter().enumerate() {
        if let Some(value) = value {
            match rest.next() {
                Some(pair) if is_pair(pair, key, *value) => (),
                _ => return false,
            }
        }
    }
    rest.next().is_none()
}

fn is_entry(entry: &KeptEntry<Global>, programs: &[Program<Global>], own: &Answered) -> bool {
    entry.session() == own.session
        && is_asked(entry.command(), programs, own.ask)
        && said_by(entry.reply()) == own.told
}

/// Returns `true` if the entries of a trail equal those of the model.
pub fn are_entries(
    entries: &[KeptEntry<Global>],
    programs: &[Program<Global>],
    own: &[Answered],
) -> bool {
    if entries.len() != own.len() {
        return false;
    }
    for (entry, one) in entries.iter().zip(own) {
        if !is_entry(entry, programs, one) {
            return false;
        }
    }
    true
}
