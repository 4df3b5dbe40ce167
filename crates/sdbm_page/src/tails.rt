//! The last eight bytes of a key. A comparison of these bytes alone rules out most other keys.
ghost use Rattle.std.specs.Prelude.{◌≡◌, ◌<◌, ◌≤◌, ℕ, length, slice_index, slice_range, IfSome};
ghost use Rattle.std.specs.Str.{bytes_eq};
ghost use Rattle.sdbm_page.specs.Tails.{IsTail};

use byteorder::{ByteOrder, LittleEndian};

/// Returns the number in the last eight bytes of a key, or `None` if the key has fewer bytes.
pub fn tail_of(key: &[u8]) -> Option<u64>
    ensures { IfSome result (IsTail key.now) }
{
    if key.len() < 8 {
        return None;
    }
    Some(LittleEndian::read_u64(&key[key.len() - 8..]))
}

/// Returns `true` if the bytes from `start` to `end` are the key; `tail` is the number in its last eight bytes.
pub fn is_key(bytes: &[u8], start: usize, end: usize, key: &[u8], tail: u64) -> bool
    requires tail { IsTail key.now tail }
    requires typed { (k : ℕ) → slice_index key.now k < 256 }
    requires order { start ≤ end }
    requires inside { end ≤ length bytes.now }
    ensures { result ≡ bytes_eq (slice_range bytes.now start end) key.now }
{
    if end - start != key.len() {
        return false;
    }
    if LittleEndian::read_u64(&bytes[end - 8..end]) != tail {
        return false;
    }
    if key.len() > 16 {
        return &bytes[start..end] == key;
    }
    LittleEndian::read_u64(&bytes[start..start + 8]) == LittleEndian::read_u64(&key[..8])
}
