//! The 1,024 bytes of a small page.
ghost use Rattle.std.specs.Prelude.{◌≡◌, ◌≤◌, length, slice_range};
ghost use Rattle.std.specs.Borrow.{sem};

/// The bytes of a small page. The array is in a struct for the proof: the effect of writing to a borrowed part can be proved for a struct,
/// but not for a bare array.
#[derive(Clone, Copy, Drop)]
pub struct SmallBytes {
    /// All bytes.
    pub bytes: [u8; 1024],
}

impl SmallBytes {
    ghost use Rattle.sdbm_page.specs.Small.{lends_some};

    /// Borrows the bytes from `start` to `end` for overwriting. The other bytes do not change.
    pub fn part_mut(&mut self, start: usize, end: usize) -> &mut [u8]
        requires { (start ≤ end) × (end ≤ length self.old.bytes) }
        ensures* writes_back { sem 𝓛 (lends_some self.entry start result) }
        ensures value { result.now ≡ slice_range self.old.bytes start end }
    {
        &mut self.bytes[start..end]
    }
}
