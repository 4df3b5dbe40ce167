//! A Bloom filter over keys. For most keys, the filter shows without a comparison that no equal key was added before.
ghost use Rattle.std.specs.Prelude.{◌≡◌, ◌≤◌, ◌*◌, ◌↔◌, ℕ, List, length, replicate, IsTrue};
ghost use Rattle.sdbm_page.specs.Marks.{IsNoted, words_stirred, stirred, marks_of};

use byteorder::{ByteOrder, LittleEndian};

/// The multiplier for each part of a key: odd, without a pattern in its bits.
const FACTOR: u64 = 0x9E37_79B9_7F4A_7C15;

/// The bits that the added keys set. A key sets one or two bits in one of the words; equal keys set the same bits.
#[derive(Drop)]
pub struct KeyFilter {
    words: [u64; 256],
}

impl KeyFilter {
    /// Makes an empty filter.
    pub fn new() -> Self
        ensures { result.words ≡ replicate 256 0 }
    {
        KeyFilter { words: [0; 256] }
    }

    /// Adds a key. Returns `true` if all bits of the key were set already; otherwise no equal key was added before.
    pub fn note(&mut self, key: &[u8]) -> bool
        ensures told { IsTrue result ↔ IsNoted self.old.words key.now }
        ensures noted { IsNoted self.new.words key.now }
        ensures kept { (other : List ℕ) → IsNoted self.old.words other → IsNoted self.new.words other }
    {
        let sum = stirred(key);
        let place = (sum >> 56) as usize;
        let old = self.words[place];
        let new = old | marks(sum);
        self.words[place] = new;
        old == new
    }
}

// Returns the hash of a key, computed from its words of eight bytes and then from its remaining bytes.
#[tactic(auto, unfolding(crate::specs::Marks::stirred))]
fn stirred(key: &[u8]) -> u64
    ensures { result ≡ stirred key.now }
{
    let words = key.len() / 8;
    let mut sum = words_stirred(key, words);
    for i in 0..key.len() % 8 {
        sum = sum
            .wrapping_add(key[8 * words + i] as u64)
            .wrapping_mul(FACTOR);
    }
    sum
}

// Returns the hash of the first `words` words of eight bytes.
fn words_stirred(key: &[u8], words: usize) -> u64
    requires { 8 * words ≤ length key.now }
    ensures { result ≡ words_stirred key.now words }
{
    let mut sum = 0u64;
    for i in 0..words {
        let word = LittleEndian::read_u64(&key[8 * i..8 * i + 8]);
        sum = sum.wrapping_add(word).wrapping_mul(FACTOR);
    }
    sum
}

// Returns the two bits that a hash sets in its word. The two bits may be the same.
#[tactic(auto, unfolding(crate::specs::Marks::marks_of))]
fn marks(sum: u64) -> u64
    ensures { result ≡ marks_of sum }
{
    1u64 << (sum >> 50) % 64 | 1u64 << (sum >> 44) % 64
}
