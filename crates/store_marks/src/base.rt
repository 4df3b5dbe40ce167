//! A ghost database: only contracts see it.
ghost use Rattle.std.specs.Prelude.{◌≡◌};
ghost use Rattle.sdbm_addr.specs.Database.{Database, coded_database};
ghost use base.Fml.{ftrue};

use sdbm_files::Image;
use std::alloc::Global;
use std::marker::Model;

/// An earlier database: the one that was opened, that was last saved, or from which the last plan was made. Takes no memory, as it is a
/// ghost value.
pub struct Base {
    pub ghost database: { Database } by { coded_database },
}

impl Model for Base {
    ghost also_owns = { λ _. ftrue };
}

impl Base {
    /// The database as it is now.
    pub fn of(image: &Image<Global>) -> Base
        ensures { result.database ≡ image.now }
    {
        let _ = image;
        Base {}
    }
}

impl Drop for Base {
    fn drop(self) {
        let Base {} = self;
    }
}

// A base has no bytes, so it may move to another thread.
unsafe impl Send for Base {}
