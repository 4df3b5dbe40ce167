// Tests of logs, as bytes and on a disk in memory.

use crate::making::part;
use crate::records::push_record;
use crate::{
    Log, LogFault, LogFiles, ReadSteps, Step, close_steps, is_log, open_steps, plan_of, read_steps,
    records_end, save_steps,
};
use sdbm_saves::{DiskFile, Found, is_plan, lay_over, spelled};
use std::alloc::{AllocError, Global};
use std::marker::Brand;
use std::test::Fail;

// Makes a plan that changes the byte at offset `at` of a `.pag` of four bytes from 0 to `byte`.
fn plan(alloc: Global, at: usize, byte: u8) -> Result<Vec<u8>, AllocError> {
    let mut plan = Vec::from_slice(alloc, b"sdbmred2")?;
    plan.extend_from_slice(&spelled(4))?;
    plan.extend_from_slice(&spelled(1))?;
    plan.extend_from_slice(&spelled(4))?;
    plan.extend_from_slice(&spelled(1))?;
    plan.extend_from_slice(&spelled(1))?;
    plan.extend_from_slice(&[0])?;
    plan.extend_from_slice(&spelled(at))?;
    plan.extend_from_slice(&spelled(1))?;
    plan.extend_from_slice(&[byte, 0])?;
    Ok(plan)
}

fn record(alloc: Global, at: usize, byte: u8) -> Result<Vec<u8>, AllocError> {
    let plan = plan(alloc, at, byte)?;
    if plan.len() > 100 {
        return Err(AllocError);
    }
    let mut bytes = Vec::new(alloc);
    push_record(&mut bytes, plan.as_slice())?;
    Ok(bytes)
}

// Makes the records of two saves. Of the second record, only the bytes before `cut` are written, without the byte at `hole`.
fn log(alloc: Global, cut: usize, hole: usize) -> Result<Vec<u8>, AllocError> {
    let mut log = record(alloc, 1, 7)?;
    let second = record(alloc, 2, 9)?;
    for index in 0..second.len() {
        if index < cut && index != hole {
            log.push(second[index])?;
        } else {
            log.push(0)?;
        }
    }
    Ok(log)
}

// Makes files with these bytes in the log, and a commit byte of 1.
fn found(alloc: Global, pages: &[u8], log: &[u8]) -> Result<Found, AllocError> {
    found_in(alloc, b"\x01sdbmlog1\0", pages, log)
}

// Makes files whose redo file begins with `head`.
fn found_in(alloc: Global, head: &[u8], pages: &[u8], log: &[u8]) -> Result<Found, AllocError> {
    let mut redo = Vec::from_slice(alloc, head)?;
    redo.resize(4096, 0)?;
    redo.extend_from_slice(log)?;
    redo.resize(4096 + 200, 0)?;
    Ok(Found {
        pages: Vec::from_slice(alloc, pages)?,
        directory: Vec::from_slice(alloc, &[0])?,
        redo,
    })
}

fn files_of(found: &Found) -> LogFiles<'_> {
    LogFiles {
        pages: found.pages.as_slice(),
        directory: found.directory.as_slice(),
        redo: found.redo.as_slice(),
    }
}

// Returns `true` if files with these bytes of `.pag` and of the log represent the pages `meant`.
fn reads(alloc: Global, pages: &[u8], log: &[u8], meant: &[u8]) -> Result<bool, AllocError> {
    means(alloc, found(alloc, pages, log)?, meant)
}

// Returns `true` if files represent the pages `meant`.
fn means(alloc: Global, found: Found, meant: &[u8]) -> Result<bool, AllocError> {
    let Ok(plan) = plan_of(alloc, files_of(&found)) else {
        return Ok(false);
    };
    let Some(plan) = plan else {
        return Ok(found.pages.as_slice() == meant);
    };
    if !is_plan(plan.as_slice()) {
        return Ok(false);
    }
    let laid = lay_over(
        alloc,
        plan.as_slice(),
        DiskFile::Pages,
        found.pages.as_slice(),
    )?;
    Ok(laid.as_slice() == meant)
}

#[test]
fn a_log_with_no_records_means_the_files(rt: HostRuntime) -> Result<(), Fail> {
    assert!(rt; reads(rt.alloc(), &[1, 2, 3, 4], &[], &[1, 2, 3, 4])?);
    Ok(())
}

// Any part of the two plans may already be applied to the data files.
#[test]
fn records_mean_both_plans(rt: HostRuntime) -> Result<(), Fail> {
    let both = log(rt.alloc(), 99, 99)?;
    assert!(rt; reads(rt.alloc(), &[0, 0, 0, 0], both.as_slice(), &[0, 7, 9, 0])?);
    assert!(rt; reads(rt.alloc(), &[0, 7, 0, 0], both.as_slice(), &[0, 7, 9, 0])?);
    assert!(rt; reads(rt.alloc(), &[0, 0, 9, 0], both.as_slice(), &[0, 7, 9, 0])?);
    assert!(rt; reads(rt.alloc(), &[0, 7, 9, 0], both.as_slice(), &[0, 7, 9, 0])?);
    Ok(())
}

// The last byte of a record is zero, so the record is complete without this byte.
#[test]
fn a_torn_last_record_is_as_if_never_written(rt: HostRuntime) -> Result<(), Fail> {
    let second = record(rt.alloc(), 2, 9)?;
    for cut in 0..second.len() {
        let torn = log(rt.alloc(), cut, 99)?;
        let is_whole = cut == second.len() - 1;
        assert!(rt; reads(rt.alloc(), &[0, 0, 0, 0], torn.as_slice(), &[0, 7, 0, 0])? != is_whole);
        let holed = log(rt.alloc(), 99, cut)?;
        let was_zero = second[cut] == 0;
        assert!(rt; reads(rt.alloc(), &[0, 0, 0, 0], holed.as_slice(), &[0, 7, 0, 0])? != was_zero);
    }
    Ok(())
}

// Returns the fault of recovering files with these bytes of `.pag` and of the log.
fn fault_of(alloc: Global, pages: &[u8], log: &[u8]) -> Result<Option<LogFault>, AllocError> {
    let found = found(alloc, pages, log)?;
    Ok(plan_of(alloc, files_of(&found)).err())
}

// Makes the records of two saves, without the byte at `hole` of the first record.
fn damaged(alloc: Global, hole: usize) -> Result<Vec<u8>, AllocError> {
    let first = record(alloc, 1, 7)?;
    let mut damaged = Vec::new(alloc);
    for index in 0..first.len() {
        if index == hole {
            damaged.push(0)?;
        } else {
            damaged.push(first[index])?;
        }
    }
    damaged.extend_from_slice(record(alloc, 2, 9)?.as_slice())?;
    Ok(damaged)
}

// The damaged byte is in the weight, in the length, or the first byte of the plan.
#[test]
fn a_record_that_is_damaged_before_another_is_refused(rt: HostRuntime) -> Result<(), Fail> {
    for hole in 0..9 {
        let damaged = damaged(rt.alloc(), hole)?;
        let fault = fault_of(rt.alloc(), &[0, 0, 0, 0], damaged.as_slice())?;
        assert_eq!(rt; fault, Some(LogFault::Damaged));
    }
    Ok(())
}

// Each byte of the first or of the second of three records is lost.
#[test]
fn a_shared_log_ends_before_its_first_damaged_record(rt: HostRuntime) -> Result<(), Fail> {
    let head = b"\x01sdbmlog1\x01";
    for hole in 0..9 {
        let first = damaged(rt.alloc(), hole)?;
        let mut second = record(rt.alloc(), 3, 5)?;
        second.extend_from_slice(first.as_slice())?;
        let none = found_in(rt.alloc(), head, &[0, 0, 0, 0], first.as_slice())?;
        assert!(rt; means(rt.alloc(), none, &[0, 0, 0, 0])?);
        let one = found_in(rt.alloc(), head, &[0, 0, 0, 0], second.as_slice())?;
        assert!(rt; means(rt.alloc(), one, &[0, 0, 0, 5])?);
    }
    Ok(())
}

#[test]
fn other_files_are_foreign(rt: HostRuntime) -> Result<(), Fail> {
    let first = record(rt.alloc(), 1, 7)?;
    let fault = fault_of(rt.alloc(), &[0, 5, 0, 0], first.as_slice())?;
    assert_eq!(rt; fault, Some(LogFault::Foreign));
    Ok(())
}

// Both saves change byte 1 of `.pag`.
#[test]
fn a_byte_that_two_saves_change_may_be_that_of_each(rt: HostRuntime) -> Result<(), Fail> {
    let mut both = record(rt.alloc(), 1, 7)?;
    both.extend_from_slice(record(rt.alloc(), 1, 9)?.as_slice())?;
    assert!(rt; reads(rt.alloc(), &[0, 0, 0, 0], both.as_slice(), &[0, 9, 0, 0])?);
    assert!(rt; reads(rt.alloc(), &[0, 7, 0, 0], both.as_slice(), &[0, 9, 0, 0])?);
    assert!(rt; reads(rt.alloc(), &[0, 9, 0, 0], both.as_slice(), &[0, 9, 0, 0])?);
    let fault = fault_of(rt.alloc(), &[0, 5, 0, 0], both.as_slice())?;
    assert_eq!(rt; fault, Some(LogFault::Foreign));
    Ok(())
}

#[test]
fn the_records_end_after_the_last_whole_one(rt: HostRuntime) -> Result<(), Fail> {
    let first = record(rt.alloc(), 1, 7)?;
    let both = log(rt.alloc(), 99, 99)?;
    let whole = found(rt.alloc(), &[], both.as_slice())?;
    assert_eq!(rt; records_end(whole.redo.as_slice()), both.len());
    let cut = log(rt.alloc(), 9, 99)?;
    let torn = found(rt.alloc(), &[], cut.as_slice())?;
    assert_eq!(rt; records_end(torn.redo.as_slice()), first.len());
    Ok(())
}

// A disk of three files in memory, which counts syncs.
#[derive(Drop)]
struct Memory {
    files: Found,
    syncs: usize,
}

impl Memory {
    fn new(alloc: Global, pages: &[u8]) -> Result<Memory, AllocError> {
        Ok(Memory {
            files: Found {
                pages: Vec::from_slice(alloc, pages)?,
                directory: Vec::from_slice(alloc, &[0])?,
                redo: Vec::new(alloc),
            },
            syncs: 0,
        })
    }

    fn bytes_of(&mut self, file: DiskFile) -> &mut Vec<u8> {
        match file {
            DiskFile::Pages => &mut self.files.pages,
            DiskFile::Directory => &mut self.files.directory,
            DiskFile::Redo => &mut self.files.redo,
        }
    }

    fn write(&mut self, file: DiskFile, at: usize, bytes: &[u8]) -> Result<(), AllocError> {
        let old = self.bytes_of(file);
        let end = at.saturating_add(bytes.len());
        if old.len() < end {
            old.resize(end, 0)?;
        }
        for index in 0..bytes.len() {
            let place = at.saturating_add(index);
            if place < old.len() {
                old.as_mut_slice()[place] = bytes[index];
            }
        }
        Ok(())
    }

    // Makes the first `count` steps of a list.
    fn make(
        &mut self,
        alloc: Global,
        bytes: &[u8],
        steps: &[Step],
        count: usize,
    ) -> Result<(), AllocError> {
        for index in 0..steps.len().min(count) {
            match steps[index] {
                Step::Write {
                    file,
                    at,
                    from,
                    len,
                } => self.write(file, at, part(bytes, from, len))?,
                Step::Zeros { file, at, len } => {
                    let zeros = vec![in alloc; 0u8; len]?;
                    self.write(file, at, zeros.as_slice())?;
                }
                Step::Resize { file, len } => self.bytes_of(file).resize(len, 0)?,
                Step::Sync { .. } => self.syncs = self.syncs.saturating_add(1),
            }
        }
        Ok(())
    }

    fn make_all(&mut self, alloc: Global, bytes: &[u8], steps: &[Step]) -> Result<(), AllocError> {
        self.make(alloc, bytes, steps, steps.len())
    }

    // Opens the log.
    fn open(&mut self, alloc: Global) -> Result<Log, AllocError> {
        let Ok(opened) = open_steps::<Brand>(alloc, files_of(&self.files), 400) else {
            return Err(AllocError);
        };
        self.make_all(alloc, opened.bytes.as_slice(), opened.steps.as_slice())?;
        Ok(opened.log)
    }

    // Returns the steps for a reader.
    fn read(&self, alloc: Global) -> Result<ReadSteps, AllocError> {
        match read_steps(alloc, files_of(&self.files)) {
            Ok(read) => Ok(read),
            Err(_) => Err(AllocError),
        }
    }

    // Changes the byte at offset `at` of the pages from 0 to `byte`, but makes only the first `count` steps of the save.
    fn save(
        &mut self,
        alloc: Global,
        log: Log,
        at: usize,
        byte: u8,
        count: usize,
    ) -> Result<Log, AllocError> {
        let plan = plan(alloc, at, byte)?;
        if !is_plan(plan.as_slice()) || plan.len() > 100 || log.end > 1000 {
            return Err(AllocError);
        }
        let save = save_steps::<Brand>(alloc, log, plan.as_slice())?;
        let commits = save.commit.len();
        self.make(alloc, save.bytes.as_slice(), save.commit.as_slice(), count)?;
        let left = count.saturating_sub(commits);
        self.make(alloc, save.bytes.as_slice(), save.apply.as_slice(), left)?;
        Ok(save.log)
    }
}

// More than the number of steps of a save.
const ALL: usize = 99;

#[test]
fn a_save_takes_one_sync(rt: HostRuntime) -> Result<(), Fail> {
    let mut disk = Memory::new(rt.alloc(), &[0, 0, 0, 0])?;
    let log = disk.open(rt.alloc())?;
    assert_eq!(rt; disk.files.redo.len(), 4096 + 400);
    let before = disk.syncs;
    let log = disk.save(rt.alloc(), log, 1, 7, ALL)?;
    let log = disk.save(rt.alloc(), log, 2, 9, ALL)?;
    assert_eq!(rt; disk.syncs, before.saturating_add(2));
    assert!(rt; disk.files.pages.as_slice() == [0, 7, 9, 0].as_slice());
    assert_eq!(rt; records_end(disk.files.redo.as_slice()), log.end);
    let steps = close_steps::<Brand>(rt.alloc())?;
    disk.make_all(rt.alloc(), &[], steps.as_slice())?;
    assert_eq!(rt; disk.syncs, before.saturating_add(5));
    assert!(rt; !is_log(disk.files.redo.as_slice()));
    Ok(())
}

#[test]
fn a_full_log_is_emptied(rt: HostRuntime) -> Result<(), Fail> {
    let mut disk = Memory::new(rt.alloc(), &[0, 0, 0, 0])?;
    let mut log = disk.open(rt.alloc())?;
    for byte in 1..20 {
        log = disk.save(rt.alloc(), log, 1, byte, ALL)?;
    }
    assert!(rt; disk.files.pages.as_slice() == [0, 19, 0, 0].as_slice());
    assert!(rt; log.end < 400);
    assert_eq!(rt; records_end(disk.files.redo.as_slice()), log.end);
    Ok(())
}

// After any number of steps of a second save, the next opening finds the first save, and the second save if its record is complete.
#[test]
fn an_interrupted_save_is_recovered(rt: HostRuntime) -> Result<(), Fail> {
    for count in 0..9 {
        let mut disk = Memory::new(rt.alloc(), &[0, 0, 0, 0])?;
        let log = disk.open(rt.alloc())?;
        let log = disk.save(rt.alloc(), log, 1, 7, 4)?;
        disk.save(rt.alloc(), log, 2, 9, count)?;
        let second = if count == 0 { 0 } else { 9 };
        let read = disk.read(rt.alloc())?;
        let mut copy = Memory::new(rt.alloc(), disk.files.pages.as_slice())?;
        copy.make_all(rt.alloc(), read.bytes.as_slice(), read.steps.as_slice())?;
        assert!(rt; copy.files.pages.as_slice() == [0, 7, second, 0].as_slice());
        let _log = disk.open(rt.alloc())?;
        assert!(rt; disk.files.pages.as_slice() == [0, 7, second, 0].as_slice());
        assert!(rt; !is_log(disk.files.redo.as_slice()));
        assert_eq!(rt; records_end(disk.files.redo.as_slice()), 0);
    }
    Ok(())
}

// The records of a closed log have no meaning. The next opening overwrites them.
#[test]
fn a_closed_log_is_used_again(rt: HostRuntime) -> Result<(), Fail> {
    let mut disk = Memory::new(rt.alloc(), &[0, 0, 0, 0])?;
    let log = disk.open(rt.alloc())?;
    disk.save(rt.alloc(), log, 1, 7, ALL)?;
    let steps = close_steps::<Brand>(rt.alloc())?;
    disk.make_all(rt.alloc(), &[], steps.as_slice())?;
    disk.write(DiskFile::Pages, 1, &[8])?;
    let log = disk.open(rt.alloc())?;
    assert!(rt; disk.files.pages.as_slice() == [0, 8, 0, 0].as_slice());
    assert_eq!(rt; log.room, 400);
    assert_eq!(rt; records_end(disk.files.redo.as_slice()), 0);
    Ok(())
}
