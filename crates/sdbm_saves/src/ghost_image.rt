// A ghost value for the files that a run read.
ghost use Rattle.std.specs.Prelude.{◌≡◌};
ghost use Rattle.sdbm_saves.specs.Disk.{Image};
ghost use Rattle.sdbm_saves.specs.Recording.{coded_image, image_of};
ghost use base.Fml.{ftrue};

use crate::Found;
use sdbm_files::ReadPages;
use std::alloc::Global;
use std::marker::Model;

/// The three files that a run read, for contracts only. A `GhostImage` has no bytes at run time and owns nothing.
pub struct GhostImage {
    pub ghost image: { Image } by { coded_image },
}

impl Model for GhostImage {
    ghost also_owns = { λ _. ftrue };
}

impl GhostImage {
    /// Makes the ghost image of `found`.
    pub fn of(found: &Found) -> GhostImage
        ensures { result.image ≡ image_of found.now }
    {
        let _ = found;
        GhostImage {}
    }

    /// Makes the ghost image of files that were read piece by piece.
    pub fn of_read(pages: &ReadPages<Global>, directory: &[u8], redo: &[u8]) -> GhostImage
        ensures { result.image ≡ record { pages = pages.now.bytes; directory = directory.now; redo = redo.now } }
    {
        let _ = pages;
        let _ = directory;
        let _ = redo;
        GhostImage {}
    }
}

impl Drop for GhostImage {
    fn drop(self) {
        let GhostImage {} = self;
    }
}
