//! Bytes as the words of a line.

use std::alloc::{AllocError, Allocator};
use std::fmt::Write;

/// The least number of equal bytes that are written as the byte and their number.
pub const LONG_RUN: usize = 8;

/// Reads bytes in hex, `.` for no bytes, or `BYTE*COUNT` for a repeated byte.
pub fn read_bytes<A: Allocator + Copy>(alloc: A, word: &str) -> Option<Vec<u8, A>> {
    let Some((digits, count)) = word.split_once('*') else {
        let digits = if word == "." { "" } else { word };
        return hex::decode(alloc, digits).ok();
    };
    let bytes = hex::decode(alloc, digits).ok()?;
    let byte = *bytes.first()?;
    let count = count.parse::<usize>().ok()?;
    vec![in alloc; byte; count].ok()
}

/// Writes bytes as a word that `read_bytes` reads.
pub fn show_bytes(out: &mut String, bytes: &[u8]) -> Result<(), AllocError> {
    let Some(first) = bytes.first() else {
        return out.push_str(".");
    };
    if bytes.len() >= LONG_RUN && bytes.iter().all(|byte| byte == first) {
        return write!(out, "{first:02x}*{}", bytes.len());
    }
    for byte in bytes {
        write!(out, "{byte:02x}")?;
    }
    Ok(())
}
