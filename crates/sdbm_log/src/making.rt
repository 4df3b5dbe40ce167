// Makes the calls of steps on a disk.
ghost use Rattle.std.specs.Prelude.{◌≡◌, ◌⊎◌, ◌≤◌, List, ℕ, length, take, drop, replicate, OnOk, IfOk};
ghost use Rattle.sdbm_saves.specs.Acts.{acted, seen_after, LeftBy, LeftAfter};
ghost use Rattle.sdbm_saves.specs.Disk.{Image, content, put, written, Torn, Within, Follows, Through, LeavesOnly, HasCause};
ghost use Rattle.sdbm_log.specs.Doing.{CanCall, CanDo, AnyMoment};
ghost use Rattle.sdbm_log.specs.Steps.{act_of, acts_of};

use crate::steps::Step;
use sdbm_saves::{Disk, DiskError, DiskFile};
use std::alloc::{AllocError, Global};

/// Makes the calls of steps on a disk, in order. Allocates the zeros that are written.
///
/// # Errors
///
/// The error of the first call that fails, or `Memory` if allocation fails. No later call is made.
pub fn make_steps<D: Disk>(
    alloc: Global,
    disk: &mut D,
    bytes: &[u8],
    steps: &[Step],
) -> Result<(), DiskError>
    requires { CanDo (acts_of bytes.now steps.now) (D.seen disk.old) }

    ensures seen { OnOk result (D.seen disk.new ≡ seen_after (acts_of bytes.now steps.now) (D.seen disk.old)) }
    ensures left { OnOk result ((c : Image) → D.may_leave disk.new c → LeftAfter (acts_of bytes.now steps.now) (D.seen disk.old) (D.may_leave disk.old) c) }

    // A crash during `make_steps` leaves only images that a crash may leave before, during or after the calls of the steps.
    ensures any_moment { LeavesOnly D.moment D.left_since disk.old disk.new (AnyMoment (acts_of bytes.now steps.now) (D.seen disk.old) (D.may_leave disk.old)) }

    // `Failed` is returned only if the disk has failed.
    ensures cause { HasCause (D.has_failed disk.old) (D.has_failed disk.new) result }
{
    for index in 0..steps.len() {
        make_step(alloc, disk, bytes, steps[index])?;
    }
    Ok(())
}

// Makes the call of one step.
fn make_step<D: Disk>(
    alloc: Global,
    disk: &mut D,
    bytes: &[u8],
    step: Step,
) -> Result<(), DiskError>
    requires { CanCall (act_of bytes.now step) (D.seen disk.old) }

    ensures seen { OnOk result (D.seen disk.new ≡ acted (act_of bytes.now step) (D.seen disk.old)) }
    ensures left { OnOk result ((c : Image) → D.may_leave disk.new c → LeftBy (act_of bytes.now step) (D.seen disk.old) (D.may_leave disk.old) c) }
    ensures any_moment { LeavesOnly D.moment D.left_since disk.old disk.new (λ c. D.may_leave disk.old c ⊎ LeftBy (act_of bytes.now step) (D.seen disk.old) (D.may_leave disk.old) c) }
    ensures cause { HasCause (D.has_failed disk.old) (D.has_failed disk.new) result }
{
    match step {
        Step::Write {
            file,
            at,
            from,
            len,
        } => write(disk, file, at, part(bytes, from, len)),
        Step::Zeros { file, at, len } => write_zeros(alloc, disk, file, at, len),
        Step::Resize { file, len } => disk.resize(file, len),
        Step::Sync { file } => disk.sync(file),
    }
}

// Returns `len` bytes of a buffer from `from` on, or fewer if the buffer ends before.
pub(crate) fn part(bytes: &[u8], from: usize, len: usize) -> &[u8]
    ensures { result.now ≡ take len (drop from bytes.now) }
{
    let start = from.min(bytes.len());
    let end = start + len.min(bytes.len() - start);
    &bytes[start..end]
}

// Writes bytes at an offset.
fn write<D: Disk>(disk: &mut D, file: DiskFile, at: usize, bytes: &[u8]) -> Result<(), DiskError>
    requires { at ≤ length (content file (D.seen disk.old)) }
    ensures written { OnOk result (D.seen disk.new ≡ put file (written at bytes.now (content file (D.seen disk.old))) (D.seen disk.old)) }
    ensures any_moment { Through D.moment D.left_since D.may_leave (Within file (Torn at bytes.now)) disk.old disk.new }
    ensures cause { HasCause (D.has_failed disk.old) (D.has_failed disk.new) result }
{
    disk.write_at(file, at, bytes)
}

// Writes zeros at an offset.
fn write_zeros<D: Disk>(
    alloc: Global,
    disk: &mut D,
    file: DiskFile,
    at: usize,
    len: usize,
) -> Result<(), DiskError>
    requires { at ≤ length (content file (D.seen disk.old)) }
    ensures written { OnOk result (D.seen disk.new ≡ put file (written at (replicate len 0) (content file (D.seen disk.old))) (D.seen disk.old)) }
    ensures any_moment { Through D.moment D.left_since D.may_leave (Within file (Torn at (replicate len 0))) disk.old disk.new }
    ensures cause { HasCause (D.has_failed disk.old) (D.has_failed disk.new) result }
{
    let zeros = vec![in alloc; 0u8; len]?;
    write(disk, file, at, zeros.as_slice())
}
