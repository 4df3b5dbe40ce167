// Bytes that exist only for contracts. They relate a value to the bytes from which it was made, and are not stored.
ghost use Rattle.std.specs.Prelude.{◌≡◌, ◌++◌, ℕ, List, []};
ghost use Rattle.std.specs.Coded.{coded_list, coded_ℕ};
ghost use base.Fml.{ftrue};

use std::marker::Model;

/// A list of bytes for contracts. It has no size at run time and owns nothing.
pub(crate) struct GhostBytes {
    pub(crate) ghost bytes: { List ℕ } by { coded_list coded_ℕ },
}

impl Model for GhostBytes {
    ghost also_owns = { λ _. ftrue };
}

impl GhostBytes {
    /// Returns the empty list.
    pub(crate) fn none() -> GhostBytes
        ensures { result.bytes ≡ [] }
    {
        GhostBytes {}
    }

    /// Returns this list with the bytes appended.
    pub(crate) fn more(&self, bytes: &[u8]) -> GhostBytes
        ensures { result.bytes ≡ self.now.bytes ++ bytes.now }
    {
        let _ = bytes;
        GhostBytes {}
    }
}

impl Drop for GhostBytes {
    fn drop(self) {
        let GhostBytes {} = self;
    }
}
