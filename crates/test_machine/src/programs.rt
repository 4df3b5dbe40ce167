//! The programs that are measured.

use bpf_asm::assemble;
use bpf_verify::{Verified, verify};
use std::alloc::{AllocError, Global};

const COUNTER: &str = "jlt r2, 8, +5
ldxdw r6, [r1+0]
add r6, 1
stxdw [r1+0], r6
mov r0, 1
exit
mov r0, 0
exit
";

/// Adds 1 to the number in the first 8 bytes of the record.
pub fn counter(alloc: Global) -> Option<Verified> {
    let code = assemble(alloc, COUNTER).ok()?;
    verify(alloc, code).ok()
}

// The text of a straight line.
fn line_text(alloc: Global, length: u32) -> Result<String, AllocError> {
    let mut text = String::from_str(alloc, "mov r6, 1\nmov r7, 3\n")?;
    for i in 0..length.saturating_sub(4) {
        let line = match i % 5 {
            0 => "add r6, r7\n",
            1 => "mul r6, r7\n",
            2 => "xor r7, r6\n",
            3 => "rsh r6, 3\n",
            _ => "lsh r7, 1\n",
        };
        text.push_str(line)?;
    }
    text.push_str("mov r0, r6\nexit\n")?;
    Ok(text)
}

/// Arithmetic on two registers, in a straight line.
pub fn line(alloc: Global, length: u32) -> Option<Verified> {
    let text = line_text(alloc, length).ok()?;
    let code = assemble(alloc, text.as_str()).ok()?;
    verify(alloc, code).ok()
}
