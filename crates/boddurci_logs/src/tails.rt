//! Lists the steps of saves that share a sync, and lays the plans of unapplied saves over parts of the data files.
ghost use Rattle.std.specs.Prelude.{◌≡◌, ◌≢◌, ◌≤◌, ◌<◌, ◌^◌, length};
ghost use Rattle.sdbm_saves.specs.Redo.{new_length};
ghost use Rattle.sdbm_saves.specs.declared.disk.DiskFile.TheVariants.{Redo};
ghost use Rattle.boddurci_logs.specs.Answers.{AppendAnswer, ApplyAnswer, JoinAnswer, LayAnswer, ShareAnswer};
ghost use Rattle.boddurci_logs.specs.Words.{file_with_number};

use crate::out::copy_out;
use crate::place::LogPlace;
use crate::words::words_of;
use boddurci_handles::Status;
use sdbm_saves::{DiskFile, is_plan, number};
use sdbm_tail::{JoinFault, append_steps, apply_steps, join_next, lay_part, share_steps};
use std::alloc::Global;
use std::marker::Brand;

// A plan must have fewer bytes, and the log's records must not end after this offset.
const MOST_BYTES: usize = 3_000_000_000;

// The offset of the plan in the bytes of a save.
const PLAN_AT: usize = 18;

/// Writes the steps that append the record of a plan without a sync. `bytes` begins with 18 free bytes, and the plan follows them. Returns
/// `Stale` if the log cannot take the record.
pub fn append(
    alloc: Global,
    log: &mut LogPlace,
    bytes: &mut [u8],
    words: &mut [u64],
    words_len: &mut usize,
) -> Status
    ensures { AppendAnswer log.old log.new bytes.old bytes.new words.old words.new words_len.new result }
{
    if bytes.len() < PLAN_AT {
        return Status::BadFiles;
    }
    if bytes.len() - PLAN_AT >= MOST_BYTES || log.end > MOST_BYTES {
        return Status::TooLong;
    }
    if !is_plan(&bytes[PLAN_AT..]) {
        return Status::BadFiles;
    }
    let Ok(made) = append_steps::<Brand>(alloc, log.log(), &bytes[PLAN_AT..]) else {
        return Status::NoMemory;
    };
    let Some(save) = made else {
        return Status::Stale;
    };
    let Ok(all) = words_of(alloc, save.steps.as_slice()) else {
        return Status::NoMemory;
    };
    match copy_out(all.as_slice(), words, words_len) {
        Status::Done => {
            bytes.copy_from_slice(save.bytes.as_slice());
            *log = LogPlace::of(save.log);
            Status::Done
        }
        status => status,
    }
}

/// Writes the steps that make a log shared.
pub fn share(alloc: Global, words: &mut [u64], words_len: &mut usize) -> Status
    ensures { ShareAnswer words.old words.new words_len.new result }
{
    let Ok(steps) = share_steps(alloc) else {
        return Status::NoMemory;
    };
    let Ok(all) = words_of(alloc, steps.as_slice()) else {
        return Status::NoMemory;
    };
    copy_out(all.as_slice(), words, words_len)
}

/// Writes the steps that apply a plan to both data files. The plan follows the first 18 bytes of `bytes`.
pub fn apply(alloc: Global, bytes: &[u8], words: &mut [u64], words_len: &mut usize) -> Status
    ensures { ApplyAnswer bytes.now words.old words.new words_len.new result }
{
    if bytes.len() < PLAN_AT {
        return Status::BadFiles;
    }
    if bytes.len() - PLAN_AT >= MOST_BYTES {
        return Status::TooLong;
    }
    if !is_plan(&bytes[PLAN_AT..]) {
        return Status::BadFiles;
    }
    let Ok(steps) = apply_steps(alloc, &bytes[PLAN_AT..], PLAN_AT) else {
        return Status::NoMemory;
    };
    let Ok(all) = words_of(alloc, steps.as_slice()) else {
        return Status::NoMemory;
    };
    copy_out(all.as_slice(), words, words_len)
}

/// Joins the plan of the first record in `records` to the plan in the first `len` bytes of `room`.
pub fn join(room: &mut [u8], len: &mut usize, records: &[u8], used: &mut usize) -> Status
    ensures { JoinAnswer records.now room.old room.new len.old len.new used.new result }
{
    if *len > room.len() {
        return Status::BadFiles;
    }
    match join_next(room, *len, records) {
        Ok(joined) => {
            *len = joined.len;
            *used = joined.used;
            Status::Done
        }
        Err(JoinFault::ShortRoom) => Status::ShortRoom,
        Err(JoinFault::BadRecord) => Status::BadFiles,
    }
}

/// Applies a plan to a part of a data file that begins at offset `from`. The number of the file is 0 for `.pag`, otherwise it is `.dir`.
pub fn lay(plan: &[u8], file: u32, from: usize, part: &mut [u8], touched: &mut u32) -> Status
    ensures { LayAnswer plan.now (file_with_number file) from part.old part.new touched.new result }
{
    *touched = 0;
    if !is_plan(plan) {
        return Status::BadFiles;
    }
    let which = data_file(file);
    let len = new_length(plan, which);
    if from > len || part.len() > len - from {
        return Status::TooLong;
    }
    if lay_part(part, which, from, plan) {
        *touched = 1;
    }
    Status::Done
}

// The data file with this number.
fn data_file(number: u32) -> DiskFile
    ensures is { result ≡ file_with_number number }
    ensures data { result ≢ Redo }
{
    match number {
        0 => DiskFile::Pages,
        _ => DiskFile::Directory,
    }
}

// Returns the length that a plan gives a data file.
fn new_length(plan: &[u8], file: DiskFile) -> usize
    requires plan { 28 ≤ length plan.now }
    requires data { file ≢ Redo }
    ensures is { result ≡ new_length file plan.now }
    ensures small { result < 2 ^ 32 }
{
    match file {
        DiskFile::Pages => number(plan, 8),
        DiskFile::Directory | DiskFile::Redo => number(plan, 12),
    }
}
