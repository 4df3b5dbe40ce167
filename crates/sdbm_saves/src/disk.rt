// The three files of a database in the model of a save: the bytes that reads return, and the images that a crash may leave.
ghost use Rattle.std.specs.Prelude.{◌≡◌, ◌≤◌, ℕ, length, [], OnOk};
ghost use Rattle.sdbm_saves.specs.declared.disk.DiskError.TheVariants.{Memory};
ghost use Rattle.sdbm_saves.specs.declared.disk.DiskFile.TheVariants.{Redo};
ghost use Rattle.sdbm_saves.specs.Disk.{Image, content, put, written, resized, IsKept, Follows, Torn, TornLength, Gone, Within, Elapses, HasCause};

use std::alloc::AllocError;

/// A file of a database.
#[derive(Clone, Copy, Debug, PartialEq, Eq)]
pub enum DiskFile {
    /// `.pag`, the pages.
    Pages,
    /// `.dir`, the directory.
    Directory,
    /// `.redo`, the redo file: a commit byte (mark), then the plan of a single save or a log of plans.
    Redo,
}

/// The reason why a disk call, or an operation that makes disk calls, failed.
#[derive(Clone, Copy, Debug, PartialEq, Eq)]
pub enum DiskError {
    /// Out of memory. Some of the work may have been done.
    Memory,
    /// The disk failed. Some of the work may have been done, and the result of later reads is unknown.
    Failed,
}

impl From<AllocError> for DiskError {
    ghost from_gives = { λ _ e. e ≡ Memory };

    fn from(_: AllocError) -> Self {
        DiskError::Memory
    }
}

/// A device with the three files. A crash may happen at any time.
///
/// `seen` is the image that reads return. `may_leave` holds for each image that a crash may leave now: writes that are not synced reach the
/// disk in any order and in part. `left_since` holds for each image that a crash might have left at any time since a given time, even
/// during a call.
pub trait Disk {
    /// The image that reads return.
    ghost seen: { Self → Image };

    /// The images that a crash may leave now.
    ghost may_leave: { Self → Image → Type 0 };

    /// The time, as a number that never decreases.
    ghost moment: { Self → ℕ };

    /// The images that a crash might have left at a given time or later, during a call or between two calls.
    ghost left_since: { Self → ℕ → Image → Type 0 };

    /// The disk has failed.
    ghost has_failed: { Self → Type 0 };

    /// Overwrites bytes; the write may reach past the end of the file. Until this file is synced, a crash may leave the old or the new
    /// value of each byte in the range.
    fn write_at(&mut self, file: DiskFile, at: usize, bytes: &[u8]) -> Result<(), DiskError>
        requires { at ≤ length (content file (seen self.old)) }
        ensures written { OnOk result (seen self.new ≡ put file (written at bytes.now (content file (seen self.old))) (seen self.old)) }
        ensures crash { Follows (Within file (Torn at bytes.now)) (may_leave self.old) (may_leave self.new) }
        ensures time { Elapses (moment self.old) (moment self.new) (left_since self.old) (left_since self.new) (may_leave self.new) }
        ensures cause { HasCause (has_failed self.old) (has_failed self.new) result };

    /// Truncates the file, or extends it with zeros. Until this file is synced, a crash may leave any length between the old and the new
    /// length, and any bytes past the new length.
    fn resize(&mut self, file: DiskFile, len: usize) -> Result<(), DiskError>
        ensures resized { OnOk result (seen self.new ≡ put file (resized len (content file (seen self.old))) (seen self.old)) }
        ensures crash { Follows (Within file (TornLength len)) (may_leave self.old) (may_leave self.new) }
        ensures time { Elapses (moment self.old) (moment self.new) (left_since self.old) (left_since self.new) (may_leave self.new) }
        ensures cause { HasCause (has_failed self.old) (has_failed self.new) result };

    /// Syncs this file: until its next change, a crash leaves the bytes that reads return. The two other files are not synced.
    fn sync(&mut self, file: DiskFile) -> Result<(), DiskError>
        ensures durable { OnOk result (IsKept file (seen self.old) (may_leave self.new)) }
        ensures seen { seen self.new ≡ seen self.old }
        ensures crash { (c : Image) → may_leave self.new c → may_leave self.old c }
        ensures time { Elapses (moment self.old) (moment self.new) (left_since self.old) (left_since self.new) (may_leave self.new) }
        ensures cause { HasCause (has_failed self.old) (has_failed self.new) result };

    /// Removes the redo file, which then reads as empty. Until the next sync of the redo file, a crash may leave the old file.
    fn clear(&mut self) -> Result<(), DiskError>
        ensures cleared { OnOk result (seen self.new ≡ put Redo [] (seen self.old)) }
        ensures crash { Follows (Within Redo Gone) (may_leave self.old) (may_leave self.new) }
        ensures time { Elapses (moment self.old) (moment self.new) (left_since self.old) (left_since self.new) (may_leave self.new) }
        ensures cause { HasCause (has_failed self.old) (has_failed self.new) result };

    /// Returns `true` if an empty redo file may stay, because all users who may change the data files can use the redo file.
    fn keeps_redo(&self) -> bool;

    /// If a crash may leave an image now, a crash might have left the image since any earlier time.
    ghost counts_now: { (disk : Self) (t : ℕ) (c : Image) → t ≤ moment disk → may_leave disk c → left_since disk t c };

    /// If a crash might have left an image since now, a crash may leave the image now.
    ghost only_now: { (disk : Self) (c : Image) → left_since disk (moment disk) c → may_leave disk c };
}
