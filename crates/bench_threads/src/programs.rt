//! The programs and the databases of the measurements.

use bpf_asm::assemble;
use bpf_verify::verify;
use desk_core::Desk;
use sdbm_addr::{Bytes, KeyBytes, Mode, PageSize};
use sdbm_files::Image;
use std::alloc::{AllocError, Global};
use std::sync::Arc;
use store_cmd::{Command, Program, SharedCommand};

/// The keys of the calls, each on a separate page.
pub const KEYS: [&[u8]; 4] = [b"a", b"b", b"c", b"d"];

// Other keys, which lead to the same pages in the same order. Two of their values do not fit on one page.
const OTHERS: [&[u8]; 4] = [b"e", b"f", b"g", b"h"];

const COUNTER: &str = "jlt r2, 8, +5
ldxdw r6, [r1+0]
add r6, 1
stxdw [r1+0], r6
mov r0, 1
exit
mov r0, 0
exit
";

// The number of instructions of the long program.
const LONG: u32 = 4000;

fn accepted(alloc: Global, text: &str) -> Option<Program<Global>> {
    let code = assemble(alloc, text).ok()?;
    let verified = verify(alloc, code).ok()?;
    Some(Program::new(Arc::new(alloc, verified).ok()?))
}

/// Adds 1 to the number in the first 8 bytes of the record.
pub fn counter(alloc: Global) -> Option<Program<Global>> {
    accepted(alloc, COUNTER)
}

// The text of a straight line of arithmetic.
fn long_text(alloc: Global) -> Result<String, AllocError> {
    let mut text = String::from_str(alloc, "jlt r2, 8, +1\nmov r6, 1\nmov r6, 3\n")?;
    for _ in 0..LONG - 5 {
        text.push_str("add r6, r6\n")?;
    }
    text.push_str("mov r0, 1\nexit\n")?;
    Ok(text)
}

/// A straight line of arithmetic. It saves the record unchanged.
pub fn long(alloc: Global) -> Option<Program<Global>> {
    let text = long_text(alloc).ok()?;
    accepted(alloc, text.as_str())
}

// Stores `len` zeros under a key.
fn insert(alloc: Global, desk: &mut Desk<Global>, key: &[u8], len: usize) -> Option<()> {
    let key = Bytes::from_slice(alloc, key).ok()?;
    let value = Bytes::new(vec![in alloc; 0u8; len].ok()?);
    let command = Command::Store {
        key,
        value,
        mode: Mode::Insert,
    };
    let command = SharedCommand::new(alloc, command).ok()?;
    match desk.step(0, command) {
        Ok(_) => Some(()),
        Err(_) => None,
    }
}

// Stores `len` zeros under each of these keys.
fn fill(alloc: Global, desk: &mut Desk<Global>, keys: &[&[u8]], len: usize) -> Option<()> {
    for key in keys {
        insert(alloc, desk, key, len)?;
    }
    Some(())
}

/// A database of `count` pairs, with keys and values of 8 bytes.
pub fn many_pairs(alloc: Global, count: usize) -> Option<Image<Global>> {
    let image = Image::empty(alloc, KeyBytes::Signed, PageSize::Small);
    let Ok(mut desk) = Desk::open(alloc, image, count) else {
        return None;
    };
    for at in 0..count {
        let key = format!(in alloc; "{at:08}").ok()?;
        insert(alloc, &mut desk, key.as_bytes(), 8)?;
    }
    Some(desk.into_parts().0)
}

/// A database of four pages. Each page has one record of 8 zeros and one of 600.
pub fn four_pages(alloc: Global) -> Option<Image<Global>> {
    let image = Image::empty(alloc, KeyBytes::Signed, PageSize::Small);
    let Ok(mut desk) = Desk::open(alloc, image, 8) else {
        return None;
    };
    fill(alloc, &mut desk, &OTHERS, 600)?;
    fill(alloc, &mut desk, &KEYS, 8)?;
    Some(desk.into_parts().0)
}
