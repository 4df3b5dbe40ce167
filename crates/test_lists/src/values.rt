//! Values that own no memory.

use std::alloc::{AllocError, Global};

// The number of bytes of the head.
const HEAD: usize = 8;

/// A value whose bytes after the first eight are all equal. It stores the first eight bytes as a number, lowest byte first, the
/// number of all bytes, and the equal byte. Missing bytes of the number are zeros, and `byte` is zero if the value has at most
/// eight bytes.
#[derive(Clone, Copy, Debug, PartialEq, Eq)]
pub struct Value {
    pub head: u64,
    pub byte: u8,
    pub count: usize,
}

// Reads bytes as a number, lowest byte first.
fn number_of(bytes: &[u8]) -> u64 {
    let mut number = 0u64;
    for byte in bytes.iter().rev() {
        number = number.wrapping_mul(256).wrapping_add(u64::from(*byte));
    }
    number
}

/// The value of `count` bytes that are all `byte`.
pub fn same_bytes(byte: u8, count: usize) -> Value {
    let head = [byte; HEAD];
    Value {
        head: number_of(&head[..count.min(HEAD)]),
        byte: if count > HEAD { byte } else { 0 },
        count,
    }
}

/// The value's bytes.
pub fn bytes_of(alloc: Global, value: Value) -> Result<Vec<u8>, AllocError> {
    let head = value.head.to_le_bytes();
    let mut bytes = Vec::from_slice(alloc, &head[..value.count.min(HEAD)])?;
    for _ in HEAD..value.count {
        bytes.push(value.byte)?;
    }
    Ok(bytes)
}

/// The value of a byte string. Returns `None` if the bytes after the first eight are not all the same.
pub fn value_of(bytes: &[u8]) -> Option<Value> {
    let (head, rest) = bytes.split_at(bytes.len().min(HEAD));
    let byte = rest.first().copied().unwrap_or(0);
    for other in rest {
        if *other != byte {
            return None;
        }
    }
    Some(Value {
        head: number_of(head),
        byte,
        count: bytes.len(),
    })
}

/// Returns `true` if the bytes are those of a value.
pub fn is_value(bytes: &[u8], value: Value) -> bool {
    value_of(bytes) == Some(value)
}
