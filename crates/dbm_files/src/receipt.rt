//! Evidence of saves.
ghost use Rattle.std.specs.Prelude.{◌≡◌, ◌⊎◌, IfSome, Some};
ghost use Rattle.sdbm_saves.specs.Saves.{AreFilesFor};
ghost use Rattle.store_saves.specs.Saved.{LeavesDatabase};

use crate::saving::SaveOutcome;
use sdbm_files::Image;
use sdbm_saves::{Disk, ReadFiles};
use std::alloc::Global;
use std::marker::Model;
use store_marks::Base;

/// Evidence that a database is saved. The model is this database. Each function that makes a receipt requires that every image that a crash
/// may leave on a disk represents the files of the database, or that the files that were read are already those. A receipt has no bytes.
#[derive(Drop)]
pub struct Receipt {
    base: Base,
}

impl Model for Receipt {
    ghost use Rattle.sdbm_addr.specs.Database.{Database, coded_database};

    ghost Value = { Database };

    ghost coded = { coded_database };

    ghost view = { λ a. a.base.database };
}

impl Receipt {
    /// The receipt of a database that a disk holds, even after a crash.
    pub(crate) fn of<D: Disk>(disk: &D, image: &Image<Global>) -> Receipt
        requires { LeavesDatabase D.may_leave image.now disk.now }
        ensures { result ≡ image.now }
    {
        let _ = disk;
        Receipt {
            base: Base::of(image),
        }
    }

    /// Like `of`, but the files that were read may already be those of the database. Then the disk need not hold them after a crash.
    pub(crate) fn after<D: Disk>(
        disk: &D,
        old: ReadFiles<'_, Global>,
        image: &Image<Global>,
    ) -> Receipt
        requires { AreFilesFor image.now old.pages.now.bytes old.directory.now ⊎ LeavesDatabase D.may_leave image.now disk.now }
        ensures { result ≡ image.now }
    {
        let _ = disk;
        let _ = old;
        Receipt {
            base: Base::of(image),
        }
    }

    /// The receipt of a database, if there is one, that a disk holds, even after a crash.
    pub(crate) fn of_some<D: Disk>(disk: &D, image: Option<&Image<Global>>) -> Option<Receipt>
        requires { IfSome image (λ image. LeavesDatabase D.may_leave image.now disk.now) }
        ensures { IfSome image.entry (λ image. result ≡ Some image.now) }
    {
        match image {
            Some(image) => Some(Receipt::of(disk, image)),
            None => None,
        }
    }
}

/// A save: its outcome, and the evidence that the database is saved.
#[derive(Drop)]
pub struct Saved {
    pub outcome: SaveOutcome,
    pub receipt: Receipt,
}
