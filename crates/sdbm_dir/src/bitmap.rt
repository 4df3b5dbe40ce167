//! Tests the bits of a directory's bytes, and divides the bytes into blocks.

ghost use Rattle.std.specs.Prelude.{◌≡◌, ◌<◌, ◌≤◌, ◌+◌, ◌*◌, ◌/◌, ◌%◌, ◌^◌, ℕ, true, length, slice_index_or, IsTrue, ◌↔◌, IfOk};
ghost use Rattle.sdbm_addr.specs.DirectoryFile.{bit_of, AreDirectoryBytes, HasDeepBit, HasOrphanBit, IsOrphanBit};
ghost use Rattle.sdbm_dir.specs.Bitmap.{splits_of, IsBitmap};
ghost use Rattle.sdbm_dir.specs.Ends.{IsEnd};

use std::alloc::{AllocError, Allocator};

/// The size in bytes of a block; a directory grows by whole blocks (the original's `DBLKSIZ`).
pub const BLOCK_BYTES: usize = 4096;

// The lowest number of a bit whose word has more than 30 letters.
const DEEP_BIT: u32 = (1 << 31) - 1;

// The number of bytes up to and including the byte that has `DEEP_BIT` as its last bit.
const MOST_BYTES: usize = 1 << 28;

// The number of zeros that are compared at a time.
const PIECE: usize = 64;

static ZEROS: [u8; PIECE] = [0; PIECE];

/// Returns `true` if a bit is 1. Bits after the end are 0.
pub fn is_set(bytes: &[u8], bit: u32) -> bool
    ensures { result ≡ bit_of bytes.now bit }
{
    match bytes.get(bit as usize / 8) {
        Some(byte) => (*byte >> (bit % 8)) & 1 == 1,
        None => false,
    }
}

/// Returns the length of the bytes without trailing zeros.
pub fn end_of(bytes: &[u8]) -> usize
    ensures { IsEnd bytes.now result }
{
    let mut end = end_of_pieces(bytes);
    while end > 0 {
        if bytes[end - 1] != 0 {
            return end;
        }
        end -= 1;
    }
    0
}

// Returns the length of the bytes without trailing pieces that are zeros.
fn end_of_pieces(bytes: &[u8]) -> usize
    ensures within { result ≤ length bytes.now }
    ensures zeros { (k : ℕ) → result ≤ k → slice_index_or bytes.now k 0 ≡ 0 }
{
    let mut end = bytes.len();
    while end >= PIECE {
        if !is_zero_piece(bytes, end - PIECE) {
            return end;
        }
        end -= PIECE;
    }
    end
}

// Returns `true` if the piece that begins at `start` is all zeros.
fn is_zero_piece(bytes: &[u8], start: usize) -> bool
    requires { start + 64 ≤ length bytes.now }
    ensures { IsTrue result → (k : ℕ) → start ≤ k → k < start + 64 → slice_index_or bytes.now k 0 ≡ 0 }
{
    let piece = &bytes[start..start + PIECE];
    piece == ZEROS.as_slice()
}

/// Returns `true` if a bit that belongs to a word of more than 30 letters is 1. `end` is the length of the bytes without trailing zeros.
pub fn has_deep_bit(bytes: &[u8], end: usize) -> bool
    requires { IsEnd bytes.now end }
    ensures { IsTrue result ↔ HasDeepBit bytes.now }
{
    if end > MOST_BYTES {
        return true;
    }
    is_set(bytes, DEEP_BIT)
}

/// Returns `true` if a bit is 1 although its parent is 0. `end` is the length of the bytes without trailing zeros. Skips bytes that are
/// zero, and bytes whose parents are in two bytes of ones.
pub fn has_orphan_bit(bytes: &[u8], end: usize) -> bool
    requires end { IsEnd bytes.now end }
    requires short { end ≤ 2 ^ 28 }
    ensures { IsTrue result ↔ HasOrphanBit bytes.now }
{
    for index in 0..end {
        if bytes[index] != 0
            && !has_full_parents(bytes, index)
            && has_orphan_in(bytes, index as u32)
        {
            return true;
        }
    }
    false
}

// Returns `true` if the parents of all bits of a byte are in two bytes that are all ones.
fn has_full_parents(bytes: &[u8], index: usize) -> bool
    requires { index < length bytes.now }
    ensures { IsTrue result → (n : ℕ) → n / 8 ≡ index → IsOrphanBit bytes.now n → ⊥ }
{
    if index < 2 {
        return false;
    }
    if !is_full(bytes, index / 2) {
        return false;
    }
    is_full(bytes, index / 2 - 1)
}

// Returns `true` if all bits of a byte are 1.
fn is_full(bytes: &[u8], index: usize) -> bool
    requires { index < length bytes.now }
    ensures { IsTrue result → (n : ℕ) → n / 8 ≡ index → bit_of bytes.now n ≡ true }
{
    bytes[index] == 255
}

// Returns `true` if byte `index` has a bit that is 1 although its parent is 0.
fn has_orphan_in(bytes: &[u8], index: u32) -> bool
    requires { index < 2 ^ 28 }
    ensures { IsTrue result ↔ ((k : ℕ) × ((k < 8) × IsOrphanBit bytes.now (8 * index + k))) }
{
    for k in 0..8 {
        if is_orphan_bit(bytes, 8 * index + k) {
            return true;
        }
    }
    false
}

// Returns `true` if the bit is 1 although its parent is 0.
fn is_orphan_bit(bytes: &[u8], bit: u32) -> bool
    ensures { IsTrue result ↔ IsOrphanBit bytes.now bit }
{
    bit > 0 && is_set(bytes, bit) && !is_set(bytes, (bit - 1) / 2)
}

/// Copies bytes and pads the copy with zeros to whole blocks. Returns an error if allocation fails.
pub fn whole_blocks<A: Allocator>(alloc: A, bytes: &[u8]) -> Result<Vec<u8, A>, AllocError>
    requires { length bytes.now ≤ 2 ^ 28 }
    ensures blocks { IfOk result (λ made. length made.items % 4096 ≡ 0) }
    ensures short { IfOk result (λ made. length made.items ≤ 2 ^ 28) }
    ensures same { IfOk result (λ made. (k : ℕ) → slice_index_or made.items k 0 ≡ slice_index_or bytes.now k 0) }
{
    let size = bytes.len().div_ceil(BLOCK_BYTES) * BLOCK_BYTES;
    let mut made = Vec::with_capacity(alloc, size)?;
    made.extend_from_slice(bytes)?;
    made.resize(size, 0)?;
    Ok(made)
}

/// Returns the blocks of a bitmap up to the block of its last nonzero byte.
pub fn used_blocks(bytes: &[u8]) -> &[u8]
    requires { IsBitmap bytes.now }
    ensures { AreDirectoryBytes (splits_of bytes.now) result.now }
{
    if uses_last_block(bytes) {
        return bytes;
    }
    let blocks = end_of(bytes).div_ceil(BLOCK_BYTES);
    &bytes[..blocks * BLOCK_BYTES]
}

// Returns `true` if the first byte of the last block is not zero, which spares the search for the last nonzero byte.
fn uses_last_block(bytes: &[u8]) -> bool
    ensures { IsTrue result → (at : ℕ) × ((length bytes.now ≤ at + 4096) × (0 < slice_index_or bytes.now at 0)) }
{
    bytes.len() >= BLOCK_BYTES && bytes[bytes.len() - BLOCK_BYTES] != 0
}
