// A log that stays open from one save to the next.
ghost use Rattle.std.specs.Prelude.{get_or, ◌≢◌, ◌≡◌, ◌⊎◌, ◌<◌, length, IsTrue, OnOk, IfOk};
ghost use Rattle.sdbm_saves.specs.Disk.{Image, LeavesOnly, HasCause};
ghost use Rattle.sdbm_saves.specs.Redo.{files, renewed, renewed_files, new_length, IsPlan, Knows};
ghost use Rattle.sdbm_saves.specs.declared.disk.DiskFile.TheVariants.{Pages, Directory};
ghost use Rattle.sdbm_saves.specs.declared.disk.DiskError.TheVariants.{Failed};
ghost use Rattle.sdbm_log.specs.Log.{Holds, IsReady};
ghost use Rattle.sdbm_logged.specs.Keeping.{bytes_of, IsKept};
ghost use Rattle.sdbm_logged.specs.declared.keeping.NextSave.TheVariants.{Full, Done, Pending};
ghost use Rattle.sdbm_logged.specs.declared.saving.LogSave.TheVariants as saved;

use crate::once::open_for;
use crate::room::wants_blocks;
use crate::saving::{LogSave, PLAN_LIMIT, save_by};
use sdbm_log::Log;
use sdbm_saves::{Contents, Disk, DiskError, DiskFile, lay_in, lay_over, number};
use std::alloc::{AllocError, Global};
use std::marker::Model;

/// The bytes of both data files.
#[derive(Drop)]
pub struct DataBytes {
    /// The bytes of `.pag`.
    pub pages: Vec<u8>,
    /// The bytes of `.dir`.
    pub directory: Vec<u8>,
}

impl DataBytes {
    /// Borrows the bytes of both files.
    pub fn contents(&self) -> Contents<'_>
        ensures pages { result.pages.now ≡ self.now.pages.items }
        ensures directory { result.directory.now ≡ self.now.directory.items }
    {
        Contents {
            pages: self.pages.as_slice(),
            directory: self.directory.as_slice(),
        }
    }

    /// Returns the result of applying a plan to the bytes of both files.
    ///
    /// # Errors
    ///
    /// `AllocError` if allocation fails.
    pub fn renewed(&self, alloc: Global, plan: &[u8]) -> Result<DataBytes, AllocError>
        requires plan { IsPlan plan.now }
        ensures pages { IfOk result (λ new. new.pages.items ≡ renewed Pages plan.now self.now.pages.items) }
        ensures directory { IfOk result (λ new. new.directory.items ≡ renewed Directory plan.now self.now.directory.items) }
    {
        let pages = lay_over(alloc, plan, DiskFile::Pages, self.pages.as_slice())?;
        let directory = lay_over(alloc, plan, DiskFile::Directory, self.directory.as_slice())?;
        Ok(DataBytes { pages, directory })
    }

    // Applies a plan that does not change the lengths of the files.
    fn renew(&mut self, plan: &[u8])
        requires plan { IsPlan plan.now }
        requires pages_long { length self.old.pages.items ≡ new_length Pages plan.now }
        requires directory_long { length self.old.directory.items ≡ new_length Directory plan.now }
        ensures pages { self.new.pages.items ≡ renewed Pages plan.now self.old.pages.items }
        ensures directory { self.new.directory.items ≡ renewed Directory plan.now self.old.directory.items }
    {
        lay_in(self.pages.as_mut_slice(), DiskFile::Pages, plan);
        lay_in(self.directory.as_mut_slice(), DiskFile::Directory, plan);
    }

    // Returns `true` if a plan does not change the lengths of the files.
    fn keeps_lengths(&self, plan: &[u8]) -> bool
        requires plan { IsPlan plan.now }
        ensures pages { IsTrue result → length self.now.pages.items ≡ new_length Pages plan.now }
        ensures directory { IsTrue result → length self.now.directory.items ≡ new_length Directory plan.now }
    {
        number(plan, 8) == self.pages.len() && number(plan, 12) == self.directory.len()
    }
}

/// The state of a database between two saves: the position of the next record in its log, and the bytes of its data files.
#[derive(Drop)]
pub struct Keeper {
    pub log: Log,
    pub files: DataBytes,
}

/// The outcome of a save in a log that stays open.
#[derive(Clone, Copy, Debug, PartialEq, Eq)]
pub enum NextSave {
    /// The log has no room for the record, the plan is too long, or a data file gets another length or may need new blocks of the disk.
    /// Nothing was done: close the log and open it again.
    Full,
    /// The save is durable, and the log is ready for the next save.
    Done,
    /// The save is durable, but a data file or the log could not be written: open the files again.
    Pending(DiskError),
}

/// Saves a plan that knows the current files; the commit byte of the redo file must not be 1. `redo` has the bytes of the redo file. The
/// save opens a log with room for the plan and at least `room` bytes (at most 1 GiB), and leaves the log open. Returns the outcome and the
/// log. After `Done`, the log is ready for the next save.
///
/// # Errors
///
/// `Memory` if allocation fails, otherwise the error of the disk. The save may be committed or not: open the files again.
pub fn save_first<D: Disk>(
    alloc: Global,
    disk: &mut D,
    redo: &[u8],
    plan: &[u8],
    room: usize,
) -> Result<(LogSave, Log), DiskError>
    requires read { redo.now ≡ (D.seen disk.old).redo }
    requires unmarked { get_or redo.now 0 0 ≢ 1 }
    requires plan { IsPlan plan.now }
    requires short { length plan.now < 3000000000 }
    requires knows { Knows plan.now (files (D.seen disk.old)) }

    ensures ready { IfOk result (λ both. both.0 ≡ saved.Done → IsReady both.1.end both.1.room both.1.count (D.seen disk.new) (D.may_leave disk.new)) }
    ensures done { IfOk result (λ both. both.0 ≡ saved.Done → files (D.seen disk.new) ≡ renewed_files plan.now (D.seen disk.old)) }

    // After `Ok`, a crash leaves the files with the plan applied.
    ensures durable { OnOk result ((c : Image) → D.may_leave disk.new c → Holds (renewed_files plan.now (D.seen disk.old)) c) }

    // A crash during the call leaves an image that it might have left before, or the files that were read, with or without the plan
    // applied.
    ensures any_moment { LeavesOnly D.moment D.left_since disk.old disk.new
        (λ c. D.may_leave disk.old c ⊎ (Holds (files (D.seen disk.old)) c ⊎ Holds (renewed_files plan.now (D.seen disk.old)) c)) }

    // `Failed`, alone or in `Pending`, is returned only if the disk has failed.
    ensures cause { HasCause (D.has_failed disk.old) (D.has_failed disk.new) result }
    ensures pending { IfOk result (λ both. both.0 ≡ saved.Pending Failed → D.has_failed disk.new) }
{
    let mut log = open_for(alloc, disk, redo, plan, room)?;
    let saved = save_by(alloc, disk, &mut log, plan)?;
    Ok((saved, log))
}

/// Saves a plan that knows the data files, in an open log, with one sync.
///
/// # Errors
///
/// `Memory` if allocation fails, otherwise the error of the disk. The save may be committed or not: open the files again.
pub fn save_next<D: Disk>(
    alloc: Global,
    disk: &mut D,
    keeper: &mut Keeper,
    plan: &[u8],
) -> Result<NextSave, DiskError>
    requires kept { IsKept keeper.old (D.seen disk.old) (D.may_leave disk.old) }
    requires plan { IsPlan plan.now }
    requires knows { Knows plan.now (bytes_of keeper.old.files) }

    ensures full { IfOk result (λ how. how ≡ Full → (disk.new ≡ disk.old) × (keeper.new ≡ keeper.old)) }
    ensures kept { IfOk result (λ how. how ≡ Done → IsKept keeper.new (D.seen disk.new) (D.may_leave disk.new)) }
    ensures done { IfOk result (λ how. how ≡ Done → bytes_of keeper.new.files ≡ renewed_files plan.now (D.seen disk.old)) }

    // After `Done` or `Pending`, a crash leaves the files with the plan applied.
    ensures durable { IfOk result (λ how. how ≡ Done → (c : Image) → D.may_leave disk.new c → Holds (renewed_files plan.now (D.seen disk.old)) c) }
    ensures durable_pending { IfOk result (λ how. (fault : DiskError) → how ≡ Pending fault → (c : Image) → D.may_leave disk.new c → Holds (renewed_files plan.now (D.seen disk.old)) c) }

    // A crash during the call leaves the files with or without the plan applied.
    ensures any_moment { LeavesOnly D.moment D.left_since disk.old disk.new
        (λ c. Holds (files (D.seen disk.old)) c ⊎ Holds (renewed_files plan.now (D.seen disk.old)) c) }

    // `Failed`, alone or in `Pending`, is returned only if the disk has failed.
    ensures cause { HasCause (D.has_failed disk.old) (D.has_failed disk.new) result }
    ensures pending { IfOk result (λ how. how ≡ Pending Failed → D.has_failed disk.new) }
{
    if !can_take(keeper.log, plan) || !keeper.files.keeps_lengths(plan) {
        return Ok(NextSave::Full);
    }
    match save_by(alloc, disk, &mut keeper.log, plan)? {
        LogSave::Done => {
            keeper.files.renew(plan);
            Ok(NextSave::Done)
        }
        LogSave::Pending(fault) => Ok(NextSave::Pending(fault)),
    }
}

// Returns `true` if a plan is short enough, needs no new blocks of the disk, and has a record that fits into the log.
fn can_take(log: Log, plan: &[u8]) -> bool
    requires plan { IsPlan plan.now }
    ensures { IsTrue result → length plan.now < 3000000000 }
{
    if plan.len() >= PLAN_LIMIT || wants_blocks(plan) {
        return false;
    }
    let len = plan.len() + 8;
    len <= log.room && log.end <= log.room - len
}

/// A disk whose log stays open, without the bytes of the data files that a `KeptDisk` has.
#[derive(Drop)]
pub struct LoggedDisk<D: Disk> {
    disk: D,
    log: Log,
}

impl<D: Disk> Model for LoggedDisk<D> {
    ghost use Rattle.sdbm_log.specs.declared.log.Log.{Log};
    ghost use Rattle.sdbm_log.specs.Log.{IsReady};

    ghost Value = { D × Log };

    ghost view = { λ a. (a.disk, a.log) };

    ghost invariant = { λ a. IsReady a.log.end a.log.room a.log.count (D.seen a.disk) (D.may_leave a.disk) };
}

impl<D: Disk> LoggedDisk<D> {
    /// Combines a disk and its open log.
    pub fn new(disk: D, log: Log) -> LoggedDisk<D>
        requires { IsReady log.end log.room log.count (D.seen disk) (D.may_leave disk) }
        ensures { result ≡ (disk, log) }
    {
        LoggedDisk { disk, log }
    }

    /// Returns the disk and its log.
    pub fn into_parts(self) -> (D, Log)
        ensures ready { IsReady result.1.end result.1.room result.1.count (D.seen result.0) (D.may_leave result.0) }
        ensures parts { result ≡ self }
    {
        let LoggedDisk { disk, log } = self;
        (disk, log)
    }
}

/// A disk whose log stays open from one save to the next, and the bytes of its data files.
#[derive(Drop)]
pub struct KeptDisk<D: Disk> {
    disk: D,
    keeper: Keeper,
}

impl<D: Disk> Model for KeptDisk<D> {
    ghost use Rattle.sdbm_logged.specs.declared.keeping.Keeper.{Keeper};
    ghost use Rattle.sdbm_logged.specs.Keeping.{IsKept};

    ghost Value = { D × Keeper };

    ghost view = { λ a. (a.disk, a.keeper) };

    ghost invariant = { λ a. IsKept a.keeper (D.seen a.disk) (D.may_leave a.disk) };
}

impl<D: Disk> KeptDisk<D> {
    /// Combines a disk and the keeper of its files.
    pub fn new(disk: D, keeper: Keeper) -> KeptDisk<D>
        requires { IsKept keeper (D.seen disk) (D.may_leave disk) }
        ensures { result ≡ (disk, keeper) }
    {
        KeptDisk { disk, keeper }
    }

    /// Borrows the bytes of the data files.
    pub fn contents(&self) -> Contents<'_>
        ensures pages { result.pages.now ≡ self.now.1.files.pages.items }
        ensures directory { result.directory.now ≡ self.now.1.files.directory.items }
    {
        self.keeper.files.contents()
    }

    /// Borrows the disk. Each image that a crash may leave represents the bytes of the data files.
    pub fn disk(&self) -> &D
        ensures is { result.now ≡ self.now.0 }
        ensures holds { (c : Image) → D.may_leave result.now c → Holds (bytes_of self.now.1.files) c }
    {
        &self.disk
    }

    /// Returns the disk and the keeper.
    pub fn into_parts(self) -> (D, Keeper)
        ensures kept { IsKept result.1 (D.seen result.0) (D.may_leave result.0) }
        ensures parts { result ≡ self }
    {
        let KeptDisk { disk, keeper } = self;
        (disk, keeper)
    }
}
