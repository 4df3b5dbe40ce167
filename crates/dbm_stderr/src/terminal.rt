//! Detects terminals.

use std::fs::{self, File};
use std::rt::Runtime;

/// Returns `true` if standard error is known to be a terminal.
pub fn is_at_terminal<R: Runtime<File = File> + AllocGlobal>(rt: &R) -> bool {
    is_terminal(rt, 2)
}

/// Returns `true` if a descriptor is known to be a terminal.
pub fn is_terminal<R: Runtime<File = File> + AllocGlobal>(rt: &R, descriptor: u32) -> bool {
    let Ok(link) = format!(in rt.alloc(); "/proc/self/fd/{descriptor}") else {
        return false;
    };
    match fs::read_link(rt, link.as_str()) {
        Ok(path) => path.as_str().starts_with("/dev/pts/") || path.as_str().starts_with("/dev/tty"),
        Err(_) => false,
    }
}
