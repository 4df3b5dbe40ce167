// Makes the three files of a database durable.
ghost use Rattle.std.specs.Prelude.{◌≡◌, ◌≢◌, get_or, OnOk};
ghost use Rattle.sdbm_saves.specs.Disk.{LeavesOnly, HasCause};
ghost use Rattle.sdbm_log.specs.Log.{IsAtRest};

use sdbm_saves::{Disk, DiskError, DiskFile};

// Syncs all three files: after a kill, bytes that are read may not be durable yet.
pub(crate) fn settle<D: Disk>(disk: &mut D) -> Result<(), DiskError>
    requires unmarked { get_or (D.seen disk.old).redo 0 0 ≢ 1 }

    ensures rest { OnOk result (IsAtRest (D.seen disk.new) (D.may_leave disk.new)) }
    ensures seen { D.seen disk.new ≡ D.seen disk.old }
    ensures any_moment { LeavesOnly D.moment D.left_since disk.old disk.new (D.may_leave disk.old) }
    ensures cause { HasCause (D.has_failed disk.old) (D.has_failed disk.new) result }
{
    disk.sync(DiskFile::Redo)?;
    disk.sync(DiskFile::Pages)?;
    disk.sync(DiskFile::Directory)
}
