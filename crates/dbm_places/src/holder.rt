//! Finds the process that holds a lock, in the system's table of locks.

use std::io::Read;
use std::os::unix::fs::MetadataExt;
use std::rt::Files;
use std::{fs, io};

/// Number of bytes of the system's table of locks that are read. The rest is not read, because Linux needs quadratic time for the table,
/// and every user can add locks to it.
const TABLE_BYTES: u64 = 65_536;

/// Returns the ID of a process that holds a lock on a file. Returns `None` if there is no such process or the system does not report it.
/// The system does not report it on file systems that have other device numbers in the table of locks than in `stat`, for example btrfs.
/// The ID is 0 for a process that this process cannot see, for example one in another container.
pub fn locker_of<R: Files + AllocGlobal>(rt: &R, name: &str) -> Option<u64> {
    let file = fs::metadata(rt, name).ok()?;
    first_holder(rt, Some(file.dev()), file.ino())
}

/// Returns `false` if no process holds a lock on a file, as far as the system reports it. Compares only the inode, so the lock can be one
/// of another file system.
pub fn may_be_locked<R: Files + AllocGlobal>(rt: &R, name: &str) -> bool {
    match fs::metadata(rt, name) {
        Ok(file) => first_holder(rt, None, file.ino()).is_some(),
        Err(_) => false,
    }
}

// Returns the process of the first lock on the file with this inode. If the device is not given, any device counts.
fn first_holder<R: Files + AllocGlobal>(rt: &R, device: Option<u64>, inode: u64) -> Option<u64> {
    let table = fs::open(rt, "/proc/locks").ok()?;
    let locks = io::read_to_string(rt.alloc(), table.take(TABLE_BYTES)).ok()?;
    let mut holder = None;
    for line in locks.as_str().lines() {
        if holder.is_none() {
            holder = holder_in(line, device, inode);
        }
    }
    holder
}

// Parses a line of /proc/locks. Returns the process if it holds a lock on this file. A line has its number, the kind of the lock, two words
// about the lock, the process, the file, and the locked range. If the process waits, an arrow precedes the kind. The last line can be cut
// off: the file is complete if a word follows.
fn holder_in(line: &str, device: Option<u64>, inode: u64) -> Option<u64> {
    let mut words = line.split_whitespace().skip(1);
    if words.next()? != "FLOCK" {
        return None;
    }
    let process = words.nth(2)?.parse::<u64>().ok()?;
    let (its_device, its_inode) = words.next()?.rsplit_once(':')?;
    words.next()?;
    if its_inode.parse::<u64>() != Ok(inode) {
        return None;
    }
    match device {
        Some(device) if device_of(its_device) != Some(device) => None,
        _ => Some(process),
    }
}

// Parses the number of a device, as /proc/locks writes it: its two parts in hex. Returns the number as `stat` gives it, which spreads the
// bits of the parts.
fn device_of(text: &str) -> Option<u64> {
    let (major, minor) = text.split_once(':')?;
    let major = u64::from(u32::from_str_radix(major, 16).ok()?);
    let minor = u64::from(u32::from_str_radix(minor, 16).ok()?);
    let low = ((major & 0xfff) << 8) | (minor & 0xff);
    Some(((major & 0xffff_f000) << 32) | ((minor & 0xffff_ff00) << 12) | low)
}
