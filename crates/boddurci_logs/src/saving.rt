//! Lists the steps of a save, and the steps that close a log.
ghost use Rattle.std.specs.Prelude.{◌≡◌};
ghost use Rattle.boddurci_logs.specs.Answers.{SaveAnswer, CloseAnswer};

use crate::out::{copy_joined, copy_out};
use crate::place::LogPlace;
use crate::words::words_of;
use boddurci_handles::Status;
use sdbm_log::{close_steps, save_steps};
use sdbm_saves::is_plan;
use std::alloc::Global;
use std::marker::Brand;

// A plan must have fewer bytes, and the log's records must not end after this offset before a save.
const MOST_BYTES: usize = 3_000_000_000;

// The offset of the plan in the bytes of a save.
const PLAN_AT: usize = 18;

/// Writes the steps of a save. `bytes` begins with 18 free bytes, and the plan follows them.
pub fn save(
    alloc: Global,
    log: &mut LogPlace,
    bytes: &mut [u8],
    words: &mut [u64],
    words_len: &mut usize,
    committed: &mut usize,
) -> Status
    ensures { SaveAnswer log.old log.new bytes.old bytes.new words.old words.new words_len.new committed.new result }
{
    if bytes.len() < PLAN_AT {
        return Status::BadFiles;
    }
    if bytes.len() - PLAN_AT >= MOST_BYTES || log.end > MOST_BYTES {
        return Status::TooLong;
    }
    if !is_plan(&bytes[PLAN_AT..]) {
        return Status::BadFiles;
    }
    let Ok(save) = save_steps::<Brand>(alloc, log.log(), &bytes[PLAN_AT..]) else {
        return Status::NoMemory;
    };
    let Ok(commit) = words_of(alloc, save.commit.as_slice()) else {
        return Status::NoMemory;
    };
    let Ok(apply) = words_of(alloc, save.apply.as_slice()) else {
        return Status::NoMemory;
    };
    let first = commit.as_slice();
    *committed = first.len();
    match copy_joined(first, apply.as_slice(), words, words_len) {
        Status::Done => {
            bytes.copy_from_slice(save.bytes.as_slice());
            *log = LogPlace::of(save.log);
            Status::Done
        }
        status => status,
    }
}

/// Writes the steps that close a log.
pub fn close(alloc: Global, words: &mut [u64], words_len: &mut usize) -> Status
    ensures { CloseAnswer words.old words.new words_len.new result }
{
    let Ok(steps) = close_steps::<Brand>(alloc) else {
        return Status::NoMemory;
    };
    let Ok(all) = words_of(alloc, steps.as_slice()) else {
        return Status::NoMemory;
    };
    copy_out(all.as_slice(), words, words_len)
}
