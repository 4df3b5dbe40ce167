//! Buffers borrowed from C.
ghost use Rattle.std.specs.Prelude.{◌≡◌, ◌≢◌, ◌⊎◌, ◌<◌, ◌++◌, length};
ghost use Rattle.boddurci_handles.specs.declared.status.Status.TheVariants.{Done, ShortRoom, NoMemory};
ghost use Rattle.boddurci_logs.specs.Answers.{IsFilled, HandsOut};

use crate::words::words_of;
use boddurci_handles::Status;
use sdbm_log::Step;
use std::alloc::Global;

/// Copies items to the front of a buffer if they fit, and sets `len` to their number either way.
pub fn copy_out<T: Copy>(items: &[T], room: &mut [T], len: &mut usize) -> Status
    ensures done { result ≡ Done → IsFilled items.now room.old room.new }
    ensures untouched { result ≢ Done → room.new ≡ room.old }
    ensures len { len.new ≡ length items.now }
    ensures short { result ≡ ShortRoom → length room.old < length items.now }
    ensures only { (result ≡ Done) ⊎ (result ≡ ShortRoom) }
{
    *len = items.len();
    if items.len() > room.len() {
        return Status::ShortRoom;
    }
    room[..items.len()].copy_from_slice(items);
    Status::Done
}

/// Copies bytes and the words of steps to two buffers if both fit. Sets both lengths, unless memory runs out.
pub fn hand_out(
    alloc: Global,
    made: (&[u8], &[Step]),
    bytes: &mut [u8],
    bytes_len: &mut usize,
    words: &mut [u64],
    words_len: &mut usize,
) -> Status
    ensures { HandsOut made.entry.0.now made.entry.1.now bytes.old bytes.new bytes_len.new words.old words.new words_len.new result }
{
    let (buffer, steps) = made;
    let Ok(all) = words_of(alloc, steps) else {
        return Status::NoMemory;
    };
    *bytes_len = buffer.len();
    *words_len = all.len();
    if buffer.len() > bytes.len() {
        return Status::ShortRoom;
    }
    if all.len() > words.len() {
        return Status::ShortRoom;
    }
    bytes[..buffer.len()].copy_from_slice(buffer);
    words[..all.len()].copy_from_slice(all.as_slice());
    Status::Done
}

/// Copies two lists of words, one after the other, to the front of a buffer if they fit, and sets `len` to their number.
pub fn copy_joined(first: &[u64], rest: &[u64], room: &mut [u64], len: &mut usize) -> Status
    ensures done { result ≡ Done → IsFilled (first.now ++ rest.now) room.old room.new }
    ensures untouched { result ≢ Done → room.new ≡ room.old }
    ensures len { result ≡ Done → len.new ≡ length (first.now ++ rest.now) }
    ensures short { result ≡ ShortRoom → length room.old < len.new }
    ensures only { (result ≡ Done) ⊎ ((result ≡ ShortRoom) ⊎ (result ≡ NoMemory)) }
{
    let Some(count) = first.len().checked_add(rest.len()) else {
        return Status::NoMemory;
    };
    *len = count;
    if count > room.len() {
        return Status::ShortRoom;
    }
    room[..first.len()].copy_from_slice(first);
    room[first.len()..count].copy_from_slice(rest);
    Status::Done
}
