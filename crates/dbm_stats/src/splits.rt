//! Counts the split prefixes of a directory.
ghost use Rattle.std.specs.Prelude.{◌≡◌, ◌≤◌, ◌<◌, ◌^◌, ◌*◌, ◌+◌, length, ℕ};
ghost use Rattle.std.specs.FinSet as set;
ghost use Rattle.sdbm_addr.specs.Directory.{Splits};
ghost use Rattle.sdbm_addr.specs.DirectoryFile.{bit_of, SpellsDirectory};
ghost use Rattle.sdbm_dir.specs.Bitmap.{splits_below};

/// Returns the number of split prefixes in a directory: the number of bits in `bytes` that are 1.
pub fn count_splits(bytes: &[u8]) -> u64
    requires short { length bytes.now < 2 ^ 32 }
    ensures count { (d : Splits) → SpellsDirectory bytes.now d → result ≡ set.len d }
{
    let mut count = 0;
    for index in 0..bytes.len() {
        count += count_bits(bytes, index);
    }
    count
}

// Returns the number of bits that are 1 in one byte.
fn count_bits(bytes: &[u8], index: usize) -> u64
    requires inside { index < length bytes.now }
    ensures few { result ≤ 8 }
    ensures count { set.len (splits_below bytes.now (8 * index)) + result ≡ set.len (splits_below bytes.now (8 * index + 8)) }
{
    if bytes[index] == 0 {
        return 0;
    }
    let mut count = 0;
    for k in 0..8 {
        count += count_bit(bytes, index, k);
    }
    count
}

// Returns bit k of one byte as a number.
fn count_bit(bytes: &[u8], index: usize, k: u32) -> u64
    requires inside { index < length bytes.now }
    requires bit { k < 8 }
    ensures few { result ≤ 1 }
    ensures count { set.len (splits_below bytes.now (8 * index + k)) + result ≡ set.len (splits_below bytes.now (8 * index + k + 1)) }
{
    if is_set(bytes, index, k) { 1 } else { 0 }
}

// Returns bit k of one byte.
fn is_set(bytes: &[u8], index: usize, k: u32) -> bool
    requires inside { index < length bytes.now }
    requires bit { k < 8 }
    ensures { result ≡ bit_of bytes.now (8 * index + k) }
{
    (bytes[index] >> k) & 1 == 1
}
