//! The model of a database: a value for each key, and the prefixes of hashes that were split.

use crate::asks::{Ask, KEYS, Run, Told};
use crate::programs::{End, Given, end_of};
use crate::values::{Value, same_bytes};
use desk_core::AskFault;
use std::alloc::{AllocError, Global};

/// A value for each key, and the prefixes that were split, each as its length and its bits.
#[derive(Drop)]
pub struct Store {
    pub values: [Option<Value>; 8],
    splits: Vec<(u32, u32)>,
}

// The lowest `bits` bits of a hash.
fn low(hash: u32, bits: u32) -> u32 {
    if bits > 31 {
        return hash;
    }
    hash % (1 << bits)
}

fn hash_of(key: usize) -> u32 {
    match KEYS.get(key) {
        Some((_, hash)) => *hash,
        None => 0,
    }
}

fn length_of(key: usize) -> usize {
    match KEYS.get(key) {
        Some((bytes, _)) => bytes.len(),
        None => 0,
    }
}

// The room that a pair takes on a page, with its two offsets.
fn taken_by(key: usize, value: Value) -> usize {
    length_of(key).saturating_add(value.count).saturating_add(4)
}

fn is_too_large(key: usize, count: usize) -> bool {
    length_of(key).saturating_add(count) > 1008
}

/// The fault of a command's size, or `None` if the size is valid. If the command may store a pair, the pair's size is checked
/// before the argument's.
pub fn size_fault(ask: Ask) -> Option<AskFault> {
    let (pair, arg) = match ask {
        Ask::Insert(key, value) | Ask::Replace(key, value) => (is_too_large(key, value.count), 0),
        Ask::Run(run) => {
            let pair = run.blank.is_some_and(|count| is_too_large(run.key, count));
            (pair, run.arg.count)
        }
        _ => (false, 0),
    };
    if pair {
        return Some(AskFault::PairTooLarge);
    }
    if arg > 1024 {
        return Some(AskFault::ArgTooLong);
    }
    None
}

/// The answer to a command: the reply, and the new value of one key, if a value changes.
#[derive(Clone, Copy)]
pub struct Answer {
    pub told: Told,
    pub change: Option<(usize, Option<Value>)>,
}

fn kept(told: Told) -> Answer {
    Answer { told, change: None }
}

fn changed(told: Told, key: usize, value: Option<Value>) -> Answer {
    Answer {
        told,
        change: Some((key, value)),
    }
}

impl Store {
    /// A database without values and splits.
    pub fn empty(alloc: Global) -> Self {
        Store {
            values: [None; 8],
            splits: Vec::new(alloc),
        }
    }

    // The depth of the place to which a hash leads.
    fn depth(&self, hash: u32) -> u32 {
        for bits in 0..32 {
            if !self.splits.contains(&(bits, low(hash, bits))) {
                return bits;
            }
        }
        32
    }

    /// The page to which a key leads.
    pub fn page(&self, key: usize) -> u32 {
        let hash = hash_of(key);
        low(hash, self.depth(hash))
    }

    fn value(&self, key: usize) -> Option<Value> {
        self.values.get(key).copied().unwrap_or(None)
    }

    /// The number of keys that have values.
    pub fn count(&self) -> usize {
        self.values.iter().filter(|value| value.is_some()).count()
    }

    // The room of the pairs of all other keys with the same lowest `bits` bits of the hash.
    fn taken(&self, key: usize, bits: u32) -> usize {
        let own = low(hash_of(key), bits);
        let mut taken = 0usize;
        for (other, value) in self.values.iter().enumerate() {
            if let Some(value) = value {
                if other != key && low(hash_of(other), bits) == own {
                    taken = taken.saturating_add(taken_by(other, *value));
                }
            }
        }
        taken
    }

    // The least number of splits that makes room for a pair, at most ten.
    fn splits_for(&self, key: usize, value: Value) -> Option<u32> {
        let depth = self.depth(hash_of(key));
        for more in 0..11 {
            let taken = self.taken(key, depth.saturating_add(more));
            if taken.saturating_add(taken_by(key, value)).saturating_add(2) <= 1024 {
                return Some(more);
            }
        }
        None
    }

    // The answer to a store of a pair: `told` if there is room, otherwise `Crowded`.
    fn stored(&self, told: Told, key: usize, value: Value) -> Answer {
        match self.splits_for(key, value) {
            Some(_) => changed(told, key, Some(value)),
            None => kept(Told::Crowded),
        }
    }

    // The answer to a run on a record.
    fn ran_on(&self, session: u64, run: Run, value: Value, present: bool) -> Answer {
        let given = Given {
            value,
            arg: run.arg,
            now: run.now,
            present,
            who: session,
        };
        let End { code, word, value } = end_of(run.program, given);
        let told = Told::Ran(code, word);
        match code {
            1 => self.stored(told, run.key, value),
            2 if present => changed(told, run.key, None),
            _ => kept(told),
        }
    }

    fn ran(&self, session: u64, run: Run) -> Answer {
        match (self.value(run.key), run.blank) {
            (Some(value), _) => self.ran_on(session, run, value, true),
            (None, Some(count)) => self.ran_on(session, run, same_bytes(0, count), false),
            (None, None) => kept(Told::Missing),
        }
    }

    /// The answer to a session's command.
    pub fn answer(&self, session: u64, ask: Ask) -> Answer {
        match ask {
            Ask::Fetch(key) => match self.value(key) {
                Some(value) => kept(Told::Found(value)),
                None => kept(Told::Missing),
            },
            Ask::Insert(key, value) => match self.value(key) {
                Some(_) => kept(Told::Exists),
                None => self.stored(Told::Stored, key, value),
            },
            Ask::Replace(key, value) => self.stored(Told::Stored, key, value),
            Ask::Delete(key) => match self.value(key) {
                Some(_) => changed(Told::Deleted, key, None),
                None => kept(Told::Missing),
            },
            Ask::Run(run) => self.ran(session, run),
            Ask::Count => kept(Told::Count(self.count())),
        }
    }

    fn give(&mut self, key: usize, value: Option<Value>) {
        if let Some(place) = self.values.get_mut(key) {
            *place = value;
        }
    }

    // Splits `more` prefixes of a key's hash, beginning at the depth of its place.
    fn split(&mut self, key: usize, more: u32) -> Result<(), AllocError> {
        let hash = hash_of(key);
        let depth = self.depth(hash);
        for i in 0..more {
            let bits = depth.saturating_add(i);
            self.splits.push((bits, low(hash, bits)))?;
        }
        Ok(())
    }

    /// Sets or removes the value of a key, and returns the number of prefixes that are split for it.
    pub fn change(&mut self, key: usize, value: Option<Value>) -> Result<u32, AllocError> {
        let more = match value {
            Some(value) => self.splits_for(key, value).unwrap_or(0),
            None => 0,
        };
        self.split(key, more)?;
        self.give(key, value);
        Ok(more)
    }
}
