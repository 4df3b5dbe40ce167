//! Lists the steps that open a log, and the steps with which a reader applies a log to copies of the data files.
ghost use Rattle.std.specs.Prelude.{◌≡◌};
ghost use Rattle.boddurci_logs.specs.Answers.{OpenAnswer, ReadAnswer};
ghost use Rattle.sdbm_log.specs.Saving.{image_in};

use crate::out::hand_out;
use crate::place::LogPlace;
use crate::words::status_of;
use boddurci_handles::Status;
use sdbm_log::{LogFiles, open_steps, read_steps};
use std::alloc::Global;
use std::marker::Brand;

// The maximum room for records that a caller may request.
const MOST_ROOM: usize = 1 << 30;

/// Writes the steps that open a log.
pub fn open(
    alloc: Global,
    found: LogFiles<'_>,
    room: usize,
    log: &mut LogPlace,
    bytes: &mut [u8],
    bytes_len: &mut usize,
    words: &mut [u64],
    words_len: &mut usize,
) -> Status
    ensures { OpenAnswer (image_in found.entry) room log.old log.new bytes.old bytes.new bytes_len.new words.old words.new words_len.new result }
{
    if room > MOST_ROOM {
        return Status::TooLong;
    }
    let opened = match open_steps::<Brand>(alloc, found, room) {
        Ok(opened) => opened,
        Err(fault) => return status_of(fault),
    };
    let made = (opened.bytes.as_slice(), opened.steps.as_slice());
    match hand_out(alloc, made, bytes, bytes_len, words, words_len) {
        Status::Done => {
            *log = LogPlace::of(opened.log);
            Status::Done
        }
        status => status,
    }
}

/// Writes the steps with which a reader brings copies of the data files up to date.
pub fn read(
    alloc: Global,
    found: LogFiles<'_>,
    bytes: &mut [u8],
    bytes_len: &mut usize,
    words: &mut [u64],
    words_len: &mut usize,
) -> Status
    ensures { ReadAnswer (image_in found.entry) bytes.old bytes.new bytes_len.new words.old words.new words_len.new result }
{
    let read = match read_steps(alloc, found) {
        Ok(read) => read,
        Err(fault) => return status_of(fault),
    };
    let made = (read.bytes.as_slice(), read.steps.as_slice());
    hand_out(alloc, made, bytes, bytes_len, words, words_len)
}
