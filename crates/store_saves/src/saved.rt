//! A disk whose log stays open, and the database that its files have.
ghost use Rattle.std.specs.Prelude.{◌≡◌, ◌⊎◌, IfOk, IfSome, IsNone, None, Some};
ghost use Rattle.sdbm_saves.specs.Disk.{LeavesOnly};
ghost use Rattle.sdbm_saves.specs.Saves.{AreFilesFor, IsSaving};
ghost use Rattle.sdbm_log.specs.Log.{Holds};
ghost use Rattle.sdbm_logged.specs.Keeping.{bytes_of};
ghost use Rattle.store_marks.specs.Noted.{AreNoted};
ghost use Rattle.store_saves.specs.Saved.{disk_after, renewed_in, IsKnown, IsStill, LeavesDatabase, LeavesSaved};

use crate::noted::plan_noted;
use sdbm_files::Image;
use sdbm_logged::{KeptDisk, NextSave, save_next};
use sdbm_saves::{Contents, Disk, DiskError, SavePlanFault, plan_kept};
use std::alloc::Global;
use std::marker::Model;
use store_marks::{Base, Changes};

/// A disk whose log stays open, the bytes of its data files, and the database that these bytes are written for, if it is known. The model
/// is the `KeptDisk` and this database.
#[derive(Drop)]
pub struct SavedDisk<D: Disk> {
    kept: KeptDisk<D>,
    base: Option<Base>,
}

/// The outcome of a save in an open log.
#[derive(Drop)]
pub enum AfterSave<D: Disk> {
    /// The log cannot take the plan (`NextSave::Full`). Nothing was done.
    Full(KeptDisk<D>),
    /// The save is durable, but a data file or the log could not be written: open the files again.
    Pending(D, DiskError),
    /// The save is durable, and the log is ready for the next one.
    Done(SavedDisk<D>),
}

impl<D: Disk> Model for SavedDisk<D> {
    ghost use Rattle.std.specs.Prelude.{IfSome, Option};
    ghost use Rattle.std.specs.Coded.{codes};
    ghost use Rattle.std.specs.Option.{option_map};
    ghost use Rattle.sdbm_addr.specs.Database.{Database, coded_database};
    ghost use Rattle.sdbm_logged.specs.declared.keeping.Keeper.{Keeper};
    ghost use Rattle.sdbm_saves.specs.Saves.{AreFilesFor};

    ghost Value = { (D × Keeper) × Option Database };

    ghost coded = { Prim.hlevel (codes, coded_database) };

    ghost view = { λ a. (a.kept, option_map (λ b. b.database) a.base) };

    ghost invariant = { λ a. IfSome a.base (λ b. AreFilesFor b.database a.kept.1.files.pages.items a.kept.1.files.directory.items) };
}

impl<D: Disk> SavedDisk<D> {
    /// Takes a disk whose database is not known.
    pub fn new(kept: KeptDisk<D>) -> SavedDisk<D>
        ensures { result ≡ (kept, None) }
    {
        SavedDisk { kept, base: None }
    }

    /// Takes a disk whose files have this database.
    pub fn of(kept: KeptDisk<D>, image: &Image<Global>) -> SavedDisk<D>
        requires { AreFilesFor image.now kept.1.files.pages.items kept.1.files.directory.items }
        ensures { result ≡ (kept, Some image.now) }
    {
        let base = Some(Base::of(image));
        SavedDisk { kept, base }
    }

    /// Borrows the bytes of the data files.
    pub fn contents(&self) -> Contents<'_>
        ensures pages { result.pages.now ≡ self.now.0.1.files.pages.items }
        ensures directory { result.directory.now ≡ self.now.0.1.files.directory.items }
    {
        self.kept.contents()
    }

    /// Borrows the disk. If the database of its files is known, each image that a crash may leave represents the files of the database.
    pub fn disk(&self) -> &D
        ensures is { result.now ≡ self.now.0.0 }
        ensures holds { IfSome self.now.1 (λ db. LeavesDatabase D.may_leave db result.now) }
    {
        let _ = &self.base;
        self.kept.disk()
    }

    /// Plans a save for a database that has changed since the known one only on the pages in `changes`. Compares only these pages and the
    /// directory, or all pages if the database of the files is not known, or any page may have changed. Returns `None` if the files are
    /// already those of the database.
    ///
    /// # Errors
    /// Those of `plan_kept` and `plan_marked`.
    pub fn plan(
        &self,
        alloc: Global,
        image: &Image<Global>,
        changes: &Changes,
    ) -> Result<Option<Vec<u8>>, SavePlanFault>
        requires noted { AreNoted self.now.1 changes.now image.now }
        ensures plan { IfOk result (λ plan. IfSome plan (λ plan. IsSaving image.now plan.items self.now.0.1.files.pages.items self.now.0.1.files.directory.items)) }
        ensures none { IfOk result (λ plan. IsNone plan → AreFilesFor image.now self.now.0.1.files.pages.items self.now.0.1.files.directory.items) }
    {
        let Some(base) = &self.base else {
            return plan_kept(alloc, self.contents(), image);
        };
        match changes {
            Changes::Any => plan_kept(alloc, self.contents(), image),
            Changes::Pages(marks) => {
                plan_noted(alloc, self.contents(), base, marks.as_slice(), image)
            }
        }
    }

    /// Returns the disk without its database.
    pub fn into_kept(self) -> KeptDisk<D>
        ensures { result ≡ self.0 }
    {
        let SavedDisk { kept, .. } = self;
        kept
    }
}

impl<D: Disk + Drop> SavedDisk<D> {
    /// Saves a plan of `plan` for this database in the open log, with one sync.
    ///
    /// # Errors
    /// Those of `save_next`, and the disk. The save may be committed or not: open the files again.
    pub fn save(
        self,
        alloc: Global,
        plan: &[u8],
        image: &Image<Global>,
    ) -> Result<AfterSave<D>, (DiskError, D)>
        requires saving { IsSaving image.now plan.now self.0.1.files.pages.items self.0.1.files.directory.items }
        ensures full { IfOk result (IsStill self.0) }
        ensures done { IfOk result (IsKnown image.now) }

        // After `Done` or `Pending`, a crash leaves the files with the plan applied.
        ensures durable { IfOk result (LeavesSaved D.may_leave (renewed_in plan.now self.0.1)) }

        // A crash during the call leaves the files with or without the plan applied.
        ensures any_moment { LeavesOnly D.moment D.left_since self.0.0 (disk_after result)
            (λ c. Holds (bytes_of self.0.1.files) c ⊎ Holds (renewed_in plan.now self.0.1) c) }
    {
        let (mut disk, mut keeper) = self.into_kept().into_parts();
        let how = match save_next(alloc, &mut disk, &mut keeper, plan) {
            Ok(how) => how,
            Err(fault) => return Err((fault, disk)),
        };
        match how {
            NextSave::Full => Ok(AfterSave::Full(KeptDisk::new(disk, keeper))),
            NextSave::Pending(fault) => Ok(AfterSave::Pending(disk, fault)),
            NextSave::Done => {
                let kept = KeptDisk::new(disk, keeper);
                Ok(AfterSave::Done(SavedDisk::of(kept, image)))
            }
        }
    }
}
