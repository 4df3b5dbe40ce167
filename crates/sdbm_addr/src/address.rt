//! Hashes of keys, and the arithmetic of directory bits (Yigit, sdbm 1990: hash.c and sdbm.c). Nothing here allocates.
ghost use Rattle.std.specs.Prelude.{◌≡◌, ◌<◌, ◌≤◌, ◌^◌, ◌-◌, ◌+◌, ◌*◌, ◌%◌, length, cond};
ghost use Rattle.sdbm_addr.specs.Hash.{hash_of, byte_weight};

use crate::KeyBytes;

// 65599^2, 65599^3 and 65599^4, modulo 2^32.
const SECOND: u32 = 8261505;

const THIRD: u32 = 780587199;

const FOURTH: u32 = 1139564289;

/// Returns the hash of a key: the sum of the weights of its bytes, modulo 2^32. The weight of a byte that n bytes follow is multiplied by
/// 65599^n.
pub fn hash(key: &[u8], kind: KeyBytes) -> u32
    ensures { result ≡ hash_of kind key.now }
{
    let whole = key.len() / 4 * 4;
    let mut sum = fours(kind, &key[..whole]);
    for i in whole..key.len() {
        sum = sum.wrapping_mul(65599).wrapping_add(weight(kind, key[i]));
    }
    sum
}

// Returns the hash of bytes whose length is a multiple of four.
fn fours(kind: KeyBytes, bytes: &[u8]) -> u32
    requires { length bytes.now % 4 ≡ 0 }
    ensures { result ≡ hash_of kind bytes.now }
{
    let mut sum: u32 = 0;
    for i in 0..bytes.len() / 4 {
        let more = four(kind, &bytes[4 * i..4 * i + 4]);
        sum = sum.wrapping_mul(FOURTH).wrapping_add(more);
    }
    sum
}

// Returns the hash of four bytes.
fn four(kind: KeyBytes, bytes: &[u8]) -> u32
    requires { length bytes.now ≡ 4 }
    ensures { result ≡ hash_of kind bytes.now }
{
    let first = weight(kind, bytes[0]).wrapping_mul(THIRD);
    let second = weight(kind, bytes[1]).wrapping_mul(SECOND);
    let third = weight(kind, bytes[2]).wrapping_mul(65599);
    first
        .wrapping_add(second)
        .wrapping_add(third)
        .wrapping_add(weight(kind, bytes[3]))
}

/// Returns a mask of the `depth` lowest bits. The depth is at most 31.
pub fn mask(depth: u8) -> u32
    requires { depth ≤ 31 }
    ensures { result ≡ 2 ^ depth - 1 }
{
    (1u32 << depth) - 1
}

/// Returns the number of the directory bit of a prefix that is extended by one letter. `bit` is the bit of the shorter prefix, which has
/// at most 30 letters; `side` is the next bit of the hash.
pub fn child(bit: u32, side: bool) -> u32
    requires { bit < 2 ^ 31 - 1 }
    ensures { result ≡ 2 * bit + cond side 2 1 }
{
    2 * bit + if side { 2 } else { 1 }
}

// Returns the weight of a byte in the hash, modulo 2^32.
fn weight(kind: KeyBytes, byte: u8) -> u32
    ensures { result ≡ byte_weight kind byte }
{
    match kind {
        KeyBytes::Signed => i32::from(byte.cast_signed()).cast_unsigned(),
        KeyBytes::Unsigned => byte as u32,
    }
}
