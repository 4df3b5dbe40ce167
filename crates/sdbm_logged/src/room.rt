// Checks before a save whether the disk has room for the work after the commit.
ghost use Rattle.std.specs.Prelude.{◌≡◌, ◌≤◌, ◌*◌, ◌^◌, ◌↔◌, [], length, All, IsTrue, OnOk, IfOk};
ghost use Rattle.sdbm_saves.specs.Disk.{Through, LeavesOnly, HasCause};
ghost use Rattle.sdbm_saves.specs.Redo.{span_of, IsPlan, files, StaysUnmarked};
ghost use Rattle.sdbm_log.specs.Log.{Holds, IsAtRest};

use sdbm_saves::{Disk, DiskError, DiskFile, file_of, number, rest_of, was_of};

/// The assumed allocation unit of a file system, in bytes. If the real unit differs, the check tries too little or too much room.
const DISK_BLOCK: usize = 4096;

/// The greatest number of blocks that are tried: about the length of the longest redo file that can be read.
const MOST: usize = 658_000;

// Checks before a save whether the disk has room. If a committed save finds the disk full, the data files are half written, and programs
// that do not know the log cannot repair them. The check makes a new redo file that is large enough for the changes of the plan and for a
// log of `len` bytes, writes a zero into each block, and removes the file. So the commit byte is never 1, and the data files are not
// touched, even if the disk fails. Another program may take the room before the save. If no change needs a new block, nothing is done.
// Returns the bytes that the redo file has afterwards.
pub(crate) fn try_room<'a, D: Disk>(
    disk: &mut D,
    redo: &'a [u8],
    plan: &[u8],
    len: usize,
) -> Result<&'a [u8], DiskError>
    requires plan { IsPlan plan.now }
    requires read { redo.now ≡ (D.seen disk.old).redo }
    requires rest { IsAtRest (D.seen disk.old) (D.may_leave disk.old) }

    ensures read { IfOk result (λ left. left.now ≡ (D.seen disk.new).redo) }
    ensures rest { OnOk result (IsAtRest (D.seen disk.new) (D.may_leave disk.new)) }
    ensures same { OnOk result (files (D.seen disk.new) ≡ files (D.seen disk.old)) }
    ensures any_moment { LeavesOnly D.moment D.left_since disk.old disk.new (λ c. Holds (files (D.seen disk.old)) c) }
    ensures cause { HasCause (D.has_failed disk.old) (D.has_failed disk.new) result }
{
    let blocks = blocks_wanted(plan);
    if blocks == 0 {
        return Ok(redo);
    }
    try_blocks(disk, blocks.saturating_add(len.div_ceil(DISK_BLOCK)))?;
    Ok(&[])
}

// Returns `true` if the changes of a plan may need new blocks of the disk.
pub(crate) fn wants_blocks(plan: &[u8]) -> bool
    requires { IsPlan plan.now }
{
    blocks_wanted(plan) > 0
}

// Returns the number of new blocks that the changes of a plan may need.
fn blocks_wanted(plan: &[u8]) -> usize
    requires { IsPlan plan.now }
{
    let pages = new_blocks(plan, DiskFile::Pages);
    pages.saturating_add(new_blocks(plan, DiskFile::Directory))
}

// Writes a zero into each block of a new redo file, and removes the file.
fn try_blocks<D: Disk>(disk: &mut D, blocks: usize) -> Result<(), DiskError>
    requires some { 1 ≤ blocks }

    ensures cleared { OnOk result ((D.seen disk.new).redo ≡ []) }
    ensures same { OnOk result (files (D.seen disk.new) ≡ files (D.seen disk.old)) }
    ensures any_moment { Through D.moment D.left_since D.may_leave StaysUnmarked disk.old disk.new }
    ensures cause { HasCause (D.has_failed disk.old) (D.has_failed disk.new) result }
{
    let blocks = blocks.min(MOST);
    disk.clear()?;
    disk.resize(DiskFile::Redo, blocks * DISK_BLOCK)?;
    fill(disk, blocks)?;
    disk.clear()
}

// Writes a zero into each block of the redo file, which has `blocks` blocks.
fn fill<D: Disk>(disk: &mut D, blocks: usize) -> Result<(), DiskError>
    requires few { blocks ≤ 2 ^ 40 }
    requires long { length (D.seen disk.old).redo ≡ blocks * 4096 }

    ensures same { OnOk result (files (D.seen disk.new) ≡ files (D.seen disk.old)) }
    ensures any_moment { Through D.moment D.left_since D.may_leave StaysUnmarked disk.old disk.new }
    ensures cause { HasCause (D.has_failed disk.old) (D.has_failed disk.new) result }
{
    for index in 0..blocks {
        disk.write_at(DiskFile::Redo, index * DISK_BLOCK, &[0])?;
    }
    Ok(())
}

// Returns the number of new blocks that the changes of one file may need. The number is an estimate: a page of zeros may be a hole or not.
// No contract specifies the number or depends on it.
fn new_blocks(plan: &[u8], file: DiskFile) -> usize
    requires { IsPlan plan.now }
{
    let count = number(plan, 24);
    let mut rest = &plan[28..];
    let mut blocks = 0usize;
    let mut next = 0;
    for index in 0..count {
        if file_of(rest) == file && wants_room(plan, rest) {
            let at = number(rest, 1);
            let first = next.max(at / DISK_BLOCK);
            next = first.max((at + number(rest, 5)).div_ceil(DISK_BLOCK));
            blocks = blocks.saturating_add(next - first);
        }
        rest = rest_of(rest);
    }
    blocks
}

// Returns `true` if a change may need new blocks: the change reaches past the end of its file, or writes into a possible hole.
fn wants_room(plan: &[u8], change: &[u8]) -> bool
    requires header { 28 ≤ length plan.now }
    requires whole { span_of change.now ≤ length change.now }
{
    let end = match file_of(change) {
        DiskFile::Pages => number(plan, 16),
        DiskFile::Directory | DiskFile::Redo => number(plan, 20),
    };
    number(change, 1) + number(change, 5) > end || is_zero(was_of(change))
}

fn is_zero(bytes: &[u8]) -> bool
    ensures { IsTrue result ↔ All (λ byte. byte ≡ 0) bytes.now }
{
    bytes.iter().all(|byte| *byte == 0)
}
