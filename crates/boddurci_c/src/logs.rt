//! Lists the calls on files with which C opens, reads and closes the log of a base, and saves in it.
ghost use Rattle.std.specs.Prelude.{◌≡◌};
ghost use Rattle.boddurci_handles.specs.Statuses.{status_code};
ghost use Rattle.boddurci_handles.specs.declared.status.Status.{Status};
ghost use Rattle.boddurci_logs.specs.Answers.{files_in, OpenAnswer, ReadAnswer, SaveAnswer, CloseAnswer, AppendAnswer, ApplyAnswer, JoinAnswer, LayAnswer, ShareAnswer};
ghost use Rattle.boddurci_logs.specs.Words.{file_with_number};

use boddurci_logs::{LogPlace, append, apply, close, join, lay, open, read, save, share};
use sdbm_log::LogFiles;
use std::alloc::Global;

/// Writes the steps that open the log of a base, and sets `log` to the opened log, which has at least the given room. The steps
/// sync the data that was read, recover the data files if the redo file has its mark, and make the redo file an empty log.
/// `pages` and `directory` are needed only if the redo file has its mark.
///
/// Returns `ShortRoom`, and sets only the lengths, if a buffer is too short; `BadFiles` if a plan in the redo file is invalid or
/// does not belong to these data files; `Stale` if its log is damaged; `TooLong` if the room is over 2^30; or `NoMemory`.
#[unsafe(no_mangle)]
pub extern "C" fn boddurci_log_open(
    alloc: Global,
    pages: &[u8],
    directory: &[u8],
    redo: &[u8],
    room: usize,
    log: &mut LogPlace,
    bytes: &mut [u8],
    bytes_len: &mut usize,
    words: &mut [u64],
    words_len: &mut usize,
) -> u32
    ensures { (status : Status) × ((result ≡ status_code status) × OpenAnswer (files_in pages.now directory.now redo.now) room log.old log.new bytes.old bytes.new bytes_len.new words.old words.new words_len.new status) }
{
    let found = LogFiles {
        pages,
        directory,
        redo,
    };
    open(alloc, found, room, log, bytes, bytes_len, words, words_len).code()
}

/// Writes the steps that make copies of the data files of a base equal to the data files after a recovery. There are no steps if
/// the redo file has no plan.
///
/// Returns the statuses of `boddurci_log_open` except `TooLong`.
#[unsafe(no_mangle)]
pub extern "C" fn boddurci_log_read(
    alloc: Global,
    pages: &[u8],
    directory: &[u8],
    redo: &[u8],
    bytes: &mut [u8],
    bytes_len: &mut usize,
    words: &mut [u64],
    words_len: &mut usize,
) -> u32
    ensures { (status : Status) × ((result ≡ status_code status) × ReadAnswer (files_in pages.now directory.now redo.now) bytes.old bytes.new bytes_len.new words.old words.new words_len.new status) }
{
    let found = LogFiles {
        pages,
        directory,
        redo,
    };
    read(alloc, found, bytes, bytes_len, words, words_len).code()
}

/// Writes the steps of a save, and sets `log` to the log after the save. The steps in the first `committed` words commit the
/// save. `bytes` begins with 18 free bytes, which the call writes, and then has the plan.
///
/// Returns `ShortRoom`, and sets only the lengths, if the buffer for words is too short; `BadFiles` if the bytes are not a
/// plan; `TooLong` if the plan has 3,000,000,000 bytes or more, or the log ends after 3,000,000,000; or `NoMemory`.
#[unsafe(no_mangle)]
pub extern "C" fn boddurci_log_save(
    alloc: Global,
    log: &mut LogPlace,
    bytes: &mut [u8],
    words: &mut [u64],
    words_len: &mut usize,
    committed: &mut usize,
) -> u32
    ensures { (status : Status) × ((result ≡ status_code status) × SaveAnswer log.old log.new bytes.old bytes.new words.old words.new words_len.new committed.new status) }
{
    save(alloc, log, bytes, words, words_len, committed).code()
}

/// Writes the steps that close a log: they sync both data files and clear the mark. These steps write no bytes.
///
/// Returns `ShortRoom` if `words` is too short, or `NoMemory`.
#[unsafe(no_mangle)]
pub extern "C" fn boddurci_log_close(alloc: Global, words: &mut [u64], words_len: &mut usize) -> u32
    ensures { (status : Status) × ((result ≡ status_code status) × CloseAnswer words.old words.new words_len.new status) }
{
    close(alloc, words, words_len).code()
}

/// Writes the steps that append the record of a save to a shared log without a sync, and sets `log` to the log after them. `bytes` begins
/// with 18 free bytes, which the call writes, and then has the plan.
///
/// Returns `Stale` if the log cannot take the record: it has no records or no room, or the plan shortens a file. Otherwise returns the
/// statuses of `boddurci_log_save`.
#[unsafe(no_mangle)]
pub extern "C" fn boddurci_log_append(
    alloc: Global,
    log: &mut LogPlace,
    bytes: &mut [u8],
    words: &mut [u64],
    words_len: &mut usize,
) -> u32
    ensures { (status : Status) × ((result ≡ status_code status) × AppendAnswer log.old log.new bytes.old bytes.new words.old words.new words_len.new status) }
{
    append(alloc, log, bytes, words, words_len).code()
}

/// Writes the steps that make a log shared: they write byte 9 of the redo file and sync it. The bytes that they write are the first byte of
/// the bytes of any save.
///
/// Returns `ShortRoom` if `words` is too short, or `NoMemory`.
#[unsafe(no_mangle)]
pub extern "C" fn boddurci_log_share(alloc: Global, words: &mut [u64], words_len: &mut usize) -> u32
    ensures { (status : Status) × ((result ≡ status_code status) × ShareAnswer words.old words.new words_len.new status) }
{
    share(alloc, words, words_len).code()
}

/// Writes the steps that apply a plan to both data files. `bytes` begins with 18 bytes of any value, and then has the plan.
///
/// Returns the statuses of `boddurci_log_save`.
#[unsafe(no_mangle)]
pub extern "C" fn boddurci_log_apply(
    alloc: Global,
    bytes: &[u8],
    words: &mut [u64],
    words_len: &mut usize,
) -> u32
    ensures { (status : Status) × ((result ≡ status_code status) × ApplyAnswer bytes.now words.old words.new words_len.new status) }
{
    apply(alloc, bytes, words, words_len).code()
}

/// Joins the plan of the first record in `records` to the plan in the first `len` bytes of `room`, and sets `len` to the length of the
/// result, and `used` to the length of the record. If `len` is 0, the result is the plan of the record.
///
/// Returns `ShortRoom` if the result does not fit, and `BadFiles` if `records` does not begin with a complete record of a plan, or if its plan
/// cannot follow the plan in `room`. `room` and `len` are unchanged then.
#[unsafe(no_mangle)]
pub extern "C" fn boddurci_log_join(
    room: &mut [u8],
    len: &mut usize,
    records: &[u8],
    used: &mut usize,
) -> u32
    ensures { (status : Status) × ((result ≡ status_code status) × JoinAnswer records.now room.old room.new len.old len.new used.new status) }
{
    join(room, len, records, used).code()
}

/// Applies a plan to a part of a data file, which begins at offset `from` of the file. `file` is 0 for `.pag`, and 1 for `.dir`. The part has
/// zeros past the end of the file. Sets `touched` to 1 if a change covers a byte of the part, otherwise to 0.
///
/// Returns `BadFiles` if the bytes are not a plan, and `TooLong` if the part ends past the end that the plan gives the file.
#[unsafe(no_mangle)]
pub extern "C" fn boddurci_log_lay(
    plan: &[u8],
    file: u32,
    from: usize,
    part: &mut [u8],
    touched: &mut u32,
) -> u32
    ensures { (status : Status) × ((result ≡ status_code status) × LayAnswer plan.now (file_with_number file) from part.old part.new touched.new status) }
{
    lay(plan, file, from, part, touched).code()
}
