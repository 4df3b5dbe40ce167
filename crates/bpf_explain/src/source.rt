//! Finds the lines of a program's text that have instructions.

use std::alloc::{AllocError, Allocator};

/// Returns the numbers of the lines with an instruction in an assembled text, in order, counted from 1.
///
/// # Errors
/// `AllocError` if allocation fails.
pub fn instruction_lines<A: Allocator>(alloc: A, text: &str) -> Result<Vec<usize, A>, AllocError> {
    let mut numbers = Vec::new(alloc);
    for (at, line) in text.lines().enumerate() {
        if has_instruction(line) {
            numbers.push(at.saturating_add(1))?;
        }
    }
    Ok(numbers)
}

// Returns true if a line of an assembled text is neither blank nor a label. Operands never end with a colon.
fn has_instruction(line: &str) -> bool {
    let body = match line.split_once(';') {
        Some((body, _)) => body,
        None => line,
    };
    let body = body.trim();
    !body.is_empty() && !body.ends_with(':')
}
