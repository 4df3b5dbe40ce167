//! The depth at which the search for a place begins: a multiple of four, near the depth of most places.
ghost use Rattle.std.specs.Prelude.{◌≡◌, ◌≤◌, ◌*◌};
ghost use Rattle.sdbm_addr.specs.Directory.{word_number, hash_prefix};

/// The greatest starting depth in units of four letters: 28 letters.
pub const MOST_FOURS: u8 = 7;

// Hexadecimal digit i, counted from the lowest, is i with its four bits reversed.
const TURNED: u64 = 0xF7B3_D591_E6A2_C480;

/// Returns the number of bits that are 1, modulo 2^32.
pub fn count_of(bytes: &[u8]) -> u32 {
    let mut count = 0u32;
    for byte in bytes {
        count = count.wrapping_add(byte.count_ones());
    }
    count
}

/// Returns a depth, in units of four letters, that is near the depth of most places if `count` prefixes are split.
pub fn fours_of(count: u32) -> u8 {
    for fours in 0..MOST_FOURS {
        if count >> (4 * fours + 2) == 0 {
            return fours;
        }
    }
    MOST_FOURS
}

/// Returns the number of the directory bit of a hash's prefix of `4 * fours` letters.
pub fn bit_of_fours(hash: u32, fours: u8) -> u32
    requires { fours ≤ 7 }
    ensures { result ≡ word_number (hash_prefix (4 * fours) hash) }
{
    let mut bit = 0u32;
    for i in 0..fours {
        let letters = (hash >> (4 * i)) & 15;
        let turned = (TURNED >> (4 * letters)) & 15;
        bit = 16 * bit + 15 + turned as u32;
    }
    bit
}
