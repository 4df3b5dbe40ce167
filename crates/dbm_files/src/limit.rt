//! The file size limit of this process (`ulimit -f`). The system ends a process that exceeds it.

use std::fs::{self, File};
use std::io::Read;
use std::rt::Files;

/// Returns the maximum length of a file that this process may write, or `u64::MAX` if the system reports no limit.
pub fn most_bytes<R: Files<File = File>>(rt: &R) -> u64 {
    let mut room = [0u8; 1024];
    let Ok(mut file) = fs::open(rt, "/proc/self/limits") else {
        return u64::MAX;
    };
    match file.read(&mut room) {
        Ok(count) => limit_in(&room[..count]),
        Err(_) => u64::MAX,
    }
}

// Returns the soft limit from a table of limits. The line `Max file size` has the soft and the hard limit, each a number or `unlimited`.
fn limit_in(table: &[u8]) -> u64 {
    let Ok(table) = str::from_utf8(table) else {
        return u64::MAX;
    };
    for line in table.lines() {
        if let Some(limits) = line.strip_prefix("Max file size")
            && let Some(soft) = limits.split_whitespace().next()
        {
            return soft.parse::<u64>().unwrap_or(u64::MAX);
        }
    }
    u64::MAX
}

/// Reads four bytes of a plan as a little-endian number. Returns 0 if the plan is too short.
pub fn number_at(plan: &[u8], at: usize) -> usize {
    match plan.get(at..at.saturating_add(4)) {
        Some([a, b, c, d]) => u32::from_le_bytes([*a, *b, *c, *d]) as usize,
        _ => 0,
    }
}
