//! A plain map for replaying a trail: at most one value for each key of up to two bytes, and no other keys.

use sdbm_addr::{Bytes, Mode};
use sdbm_files::Image;
use std::alloc::{AllocError, Allocator, Global};
use store_cmd::{Command, KeptEntry, Reply, Trail};

// The number of keys of up to two bytes.
const KEYS: usize = 65793;

#[derive(Drop)]
struct Plain<A: Allocator> {
    global: Global,
    alloc: A,
    values: Vec<Option<Vec<u8>>>,
    count: usize,
}

fn number_of(key: &[u8]) -> usize {
    match key {
        [low, high] => usize::from(u16::from_le_bytes([*low, *high])),
        [byte] => 65536 + usize::from(*byte),
        [] => 65792,
        _ => KEYS,
    }
}

// Runs the counter on a record, and returns its exit number and its reply word.
fn count_up(record: &mut [u8]) -> (u64, u64) {
    let Some(word) = record.first_chunk_mut::<8>() else {
        return (0, 0);
    };
    let next = u64::from_le_bytes(*word).wrapping_add(1);
    *word = next.to_le_bytes();
    (1, next)
}

impl<A: Allocator + Copy> Plain<A> {
    fn empty(global: Global, alloc: A) -> Result<Self, AllocError> {
        let mut values = Vec::new(global);
        for _ in 0..KEYS {
            values.push(None)?;
        }
        Ok(Plain {
            global,
            alloc,
            values,
            count: 0,
        })
    }

    fn value(&self, key: &[u8]) -> Option<&[u8]> {
        match self.values.get(number_of(key)) {
            Some(Some(value)) => Some(value.as_slice()),
            _ => None,
        }
    }

    fn give(&mut self, key: &[u8], value: Option<Vec<u8>>) {
        let less = self
            .count
            .saturating_sub(usize::from(self.value(key).is_some()));
        self.count = less.saturating_add(usize::from(value.is_some()));
        if let Some(place) = self.values.get_mut(number_of(key)) {
            *place = value;
        }
    }

    fn fetch(&self, key: &[u8]) -> Result<Reply<A>, AllocError> {
        match self.value(key) {
            Some(value) => Ok(Reply::Found(Bytes::from_slice(self.alloc, value)?)),
            None => Ok(Reply::Missing),
        }
    }

    fn store(&mut self, key: &[u8], value: &[u8], mode: Mode) -> Result<Reply<A>, AllocError> {
        if mode == Mode::Insert && self.value(key).is_some() {
            return Ok(Reply::Exists);
        }
        let value = Vec::from_slice(self.global, value)?;
        self.give(key, Some(value));
        Ok(Reply::Stored)
    }

    fn delete(&mut self, key: &[u8]) -> Reply<A> {
        if self.value(key).is_none() {
            return Reply::Missing;
        }
        self.give(key, None);
        Reply::Deleted
    }

    // Runs the counter, and stores its record if the exit number is not 0.
    fn run(&mut self, key: &[u8], blank: Option<usize>) -> Result<Reply<A>, AllocError> {
        let mut record = match (self.value(key), blank) {
            (Some(value), _) => Vec::from_slice(self.global, value)?,
            (None, Some(len)) => vec![in self.global; 0u8; len]?,
            (None, None) => return Ok(Reply::Missing),
        };
        let (code, word) = count_up(record.as_mut_slice());
        if code != 0 {
            self.give(key, Some(record));
        }
        Ok(Reply::Ran { code, word })
    }

    fn answer(&mut self, command: &Command<A>) -> Result<Reply<A>, AllocError> {
        match command {
            Command::Fetch { key } => self.fetch(key.as_slice()),
            Command::Store { key, value, mode } => {
                self.store(key.as_slice(), value.as_slice(), *mode)
            }
            Command::Delete { key } => Ok(self.delete(key.as_slice())),
            Command::Run { key, blank, .. } => self.run(key.as_slice(), *blank),
            Command::Count => Ok(Reply::Count(self.count)),
        }
    }

    // Returns `true` if the map gives the reply of each entry.
    fn plays(&mut self, entries: &[KeptEntry<A>]) -> Result<bool, AllocError> {
        for entry in entries {
            if self.answer(entry.command())? != *entry.reply() {
                return Ok(false);
            }
        }
        Ok(true)
    }

    // Returns `true` if the map has these pairs and no others.
    fn has(&self, pairs: &[(Bytes<A>, Bytes<A>)]) -> bool {
        for (key, value) in pairs {
            if self.value(key.as_slice()) != Some(value.as_slice()) {
                return false;
            }
        }
        pairs.len() == self.count
    }
}

/// Returns `true` if a plain map, begun with the opening of a trail, gives the reply of each entry and then has the pairs of a
/// database.
pub fn is_as_plain<A: Allocator + Copy>(
    global: Global,
    alloc: A,
    trail: &Trail<A>,
    image: &Image<A>,
) -> Result<bool, AllocError> {
    let pairs = image.pairs()?;
    let mut plain = Plain::empty(global, alloc)?;
    for (key, value) in trail.opening.as_slice() {
        let value = Vec::from_slice(global, value.as_slice())?;
        plain.give(key.as_slice(), Some(value));
    }
    Ok(plain.plays(trail.entries.as_slice())? && plain.has(pairs.as_slice()))
}
