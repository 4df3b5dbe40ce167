//! Commands on a store, their replies, and the trail of answered commands. `specs/` defines the answers of a plain map to
//! commands, the effect of a command on the directory, and legal histories.
#![tactic(auto)]

ghost use Rattle.std.specs.Prelude.{◌≡◌, ◌↔◌, ◌≤◌, ◌+◌, IfOk, IfErr, IsOk, length};
ghost use Rattle.sdbm_addr.specs.Pairs.{pair_limit};
ghost use Rattle.bpf_helpers.specs.Runs.{argument_limit};
ghost use Rattle.store_cmd.specs.declared.SizeFault.TheVariants as SizeFault;
ghost use Rattle.store_cmd.specs.Command.{IsSmall, IsSizeFault, FitsBlank, IsRunFault};

mod equality;
mod opening;
mod program;
mod shared;

use bpf_helpers::ARGUMENT_LIMIT;
pub use opening::Opening;
pub use program::Program;
use sdbm_addr::{Bytes, Mode, PageSize};
pub use shared::{KeptEntry, SharedCommand};
use std::alloc::{AllocError, Allocator};

/// A session's command to the store.
#[derive(Drop)]
#[derive_where(PartialEq)]
pub enum Command<A: Allocator> {
    /// Returns the value of a key.
    Fetch {
        key: Bytes<A>,
    },
    /// Stores a value under a key.
    Store {
        key: Bytes<A>,
        value: Bytes<A>,
        mode: Mode,
    },
    /// Removes a key.
    Delete {
        key: Bytes<A>,
    },
    /// Runs a program on a key's record in place. If the key is missing, runs it on a record of `blank` zero bytes.
    Run {
        key: Bytes<A>,
        prog: Program<A>,
        arg: Bytes<A>,
        blank: Option<usize>,
        /// The time that the program sees.
        now: u64,
    },
    /// Returns the number of pairs.
    Count,
}

/// The store's reply to a command.
#[derive(Drop)]
#[derive_where(PartialEq)]
pub enum Reply<A: Allocator> {
    /// The reply to a fetch: the key's value.
    Found(Bytes<A>),
    /// The reply to a fetch, a delete or a run without a blank: the key does not exist.
    Missing,
    /// The reply to a store: the key now has the value.
    Stored,
    /// The reply to an insert: the key exists already.
    Exists,
    /// The reply to a store, or to a run that saves its blank: the pair does not fit, and nothing has changed.
    Crowded,
    /// The reply to a delete: the key existed and was removed.
    Deleted,
    /// The reply to a run: the program's exit number, and the reply word that it set.
    Ran { code: u64, word: u64 },
    /// The reply to a count: the number of pairs.
    Count(usize),
}

/// The reasons why a command's size is invalid.
#[derive(Clone, Copy, Debug, PartialEq, Eq)]
pub enum SizeFault {
    /// Key and value, or key and blank, are together longer than a pair may be.
    PairTooLarge,
    /// The argument of a run is longer than the limit.
    ArgTooLong,
}

/// The reasons why a session's call is refused.
#[derive(Clone, Copy, Debug, PartialEq, Eq)]
pub enum Refusal {
    /// Key and value, or key and blank, are together longer than a pair may be.
    PairTooLarge,
    /// The argument of a run is longer than the limit.
    ArgTooLong,
    /// The trail is full.
    TrailFull,
    /// Out of memory.
    NoMemory,
    /// The desk does not know the ticket that the call used.
    Strayed,
}

/// An answered command. A trail stores it as a `KeptEntry`.
#[derive(Drop)]
pub struct Entry<A: Allocator> {
    pub session: u64,
    pub command: Command<A>,
    pub reply: Reply<A>,
}

/// The store's initial pairs, sorted by the bytes of their keys, and the commands that were answered since.
#[derive(Drop)]
pub struct Trail<A: Allocator> {
    pub opening: Opening<A>,
    pub entries: Vec<KeptEntry<A>, A>,
}

/// Checks a command's size against the page size of a database. Returns `PairTooLarge` if the key and the stored value, or the
/// key and the blank, are together longer than a pair may be; otherwise `ArgTooLong` if the argument of a run is longer than
/// 1,024 bytes. Allocates nothing.
pub fn check_sizes<A: Allocator>(command: &Command<A>, size: PageSize) -> Result<(), SizeFault>
    ensures ok { IsOk result ↔ IsSmall size command.now }
    ensures err { IfErr result (IsSizeFault size command.now) }
{
    match command {
        Command::Fetch { .. } => Ok(()),
        Command::Store { key, value, .. } => {
            check_pair(key.as_slice(), value.as_slice().len(), size)
        }
        Command::Delete { .. } => Ok(()),
        Command::Run {
            key,
            arg,
            blank,
            ..
        } => check_run(key.as_slice(), arg.as_slice(), *blank, size),
        Command::Count => Ok(()),
    }
}

/// Checks the size of a pair whose value has `value_len` bytes. Returns `PairTooLarge` if key and value together are longer
/// than a pair may be.
pub fn check_pair(key: &[u8], value_len: usize, size: PageSize) -> Result<(), SizeFault>
    ensures ok { IsOk result ↔ (length key.now + value_len ≤ pair_limit size) }
    ensures err { IfErr result (λ fault. fault ≡ SizeFault.PairTooLarge) }
{
    let limit = size.pair_limit();
    if key.len() > limit || value_len > limit - key.len() {
        return Err(SizeFault::PairTooLarge);
    }
    Ok(())
}

/// Checks the sizes of a run. Returns `PairTooLarge` if key and blank together are longer than a pair may be; otherwise
/// `ArgTooLong` if the argument is longer than 1,024 bytes.
pub fn check_run(
    key: &[u8],
    arg: &[u8],
    blank: Option<usize>,
    size: PageSize,
) -> Result<(), SizeFault>
    ensures ok { IsOk result ↔ (FitsBlank size key.now blank × (length arg.now ≤ argument_limit)) }
    ensures err { IfErr result (IsRunFault size key.now arg.now blank) }
{
    if let Some(len) = blank {
        check_pair(key, len, size)?;
    }
    if arg.len() > ARGUMENT_LIMIT {
        return Err(SizeFault::ArgTooLong);
    }
    Ok(())
}

impl<A: Allocator + Copy> Command<A> {
    /// Clones the command. Returns an error if out of memory or if the program's owner count is at its maximum.
    pub fn try_clone(&self, alloc: A) -> Result<Self, AllocError>
        ensures { IfOk result (λ copy. copy ≡ self.now) }
    {
        match self {
            Command::Fetch { key } => Ok(Command::Fetch {
                key: key.try_clone(alloc)?,
            }),
            Command::Store { key, value, mode } => {
                let (key, value) = clone_both(alloc, key, value)?;
                Ok(Command::Store {
                    key,
                    value,
                    mode: *mode,
                })
            }
            Command::Delete { key } => Ok(Command::Delete {
                key: key.try_clone(alloc)?,
            }),
            Command::Run {
                key,
                prog,
                arg,
                blank,
                now,
            } => {
                let (key, arg) = clone_both(alloc, key, arg)?;
                Ok(Command::Run {
                    key,
                    prog: prog.try_clone()?,
                    arg,
                    blank: *blank,
                    now: *now,
                })
            }
            Command::Count => Ok(Command::Count),
        }
    }
}

impl<A: Allocator + Copy> Reply<A> {
    /// Clones the reply. Returns an error if out of memory.
    pub fn try_clone(&self, alloc: A) -> Result<Self, AllocError>
        ensures { IfOk result (λ copy. copy ≡ self.now) }
    {
        match self {
            Reply::Found(value) => Ok(Reply::Found(value.try_clone(alloc)?)),
            Reply::Missing => Ok(Reply::Missing),
            Reply::Stored => Ok(Reply::Stored),
            Reply::Exists => Ok(Reply::Exists),
            Reply::Crowded => Ok(Reply::Crowded),
            Reply::Deleted => Ok(Reply::Deleted),
            Reply::Ran { code, word } => Ok(Reply::Ran {
                code: *code,
                word: *word,
            }),
            Reply::Count(count) => Ok(Reply::Count(*count)),
        }
    }
}

impl<A: Allocator + Copy> Trail<A> {
    /// Clones the trail. Returns an error if out of memory or if an owner count is at its maximum.
    pub fn try_clone(&self, alloc: A) -> Result<Self, AllocError>
        ensures opening { IfOk result (λ copy. copy.opening ≡ self.now.opening) }
        ensures entries { IfOk result (λ copy. copy.entries.items ≡ self.now.entries.items) }
    {
        Ok(Trail {
            opening: self.opening.try_clone()?,
            entries: clone_entries(alloc, self.entries.as_slice())?,
        })
    }
}

// Clones both byte strings.
fn clone_both<A: Allocator + Copy>(
    alloc: A,
    one: &Bytes<A>,
    other: &Bytes<A>,
) -> Result<(Bytes<A>, Bytes<A>), AllocError>
    ensures { IfOk result (λ copies. (copies.0 ≡ one.now) × (copies.1 ≡ other.now)) }
{
    let one = one.try_clone(alloc)?;
    let other = other.try_clone(alloc)?;
    Ok((one, other))
}

// Clones the entries in their order.
fn clone_entries<A: Allocator + Copy>(
    alloc: A,
    entries: &[KeptEntry<A>],
) -> Result<Vec<KeptEntry<A>, A>, AllocError>
    ensures { IfOk result (λ copy. copy.items ≡ entries.now) }
{
    let mut copy = Vec::new(alloc);
    for entry in entries {
        copy.push(entry.try_clone(alloc)?)?;
    }
    Ok(copy)
}
