// Collects the changes of a plan one by one.
ghost use Rattle.std.specs.Prelude.{◌≡◌, ◌<◌, ◌≤◌, ◌^◌, ◌+◌, ◌++◌, length, IfOk, OnOk};
ghost use Rattle.sdbm_saves.specs.Drafts.{spelled, part_of, change_bytes, plan_bytes};

use crate::DiskFile;
use crate::plan::{SIGNATURE, resized};
use std::alloc::{AllocError, Allocator};

/// A plan under construction: the new lengths of both files, the changes so far, and their number.
#[derive(Drop)]
pub(crate) struct Draft<A: Allocator> {
    pub(crate) pages: usize,
    pub(crate) directory: usize,
    pub(crate) changes: Vec<u8, A>,
    pub(crate) count: usize,
}

/// Returns a number modulo 2^32 as four bytes, little-endian.
pub fn spelled(number: usize) -> [u8; 4]
    ensures { result ≡ spelled number }
{
    [
        (number % 256) as u8,
        (number / 256 % 256) as u8,
        (number / 65536 % 256) as u8,
        (number / 16777216 % 256) as u8,
    ]
}

// Returns `size` bytes of `old` from `at` on. Bytes past the end of `old` are zeros.
pub(crate) fn part_of<A: Allocator>(
    alloc: A,
    old: &[u8],
    at: usize,
    size: usize,
) -> Result<Vec<u8, A>, AllocError>
    ensures { IfOk result (λ part. part.items ≡ part_of old.now at size) }
{
    resized(alloc, &old[at.min(old.len())..], size)
}

// Appends a change with its new and its old bytes. On error, discard the draft: it may contain a part of the change.
pub(crate) fn push<A: Allocator>(
    draft: &mut Draft<A>,
    file: DiskFile,
    at: usize,
    bytes: &[u8],
    was: &[u8],
) -> Result<(), AllocError>
    requires at { at < 2 ^ 32 }
    requires size { length bytes.now < 2 ^ 32 }
    requires count { draft.old.count < 2 ^ 32 }

    ensures changes { OnOk result (draft.new.changes.items ≡ draft.old.changes.items ++ change_bytes file at bytes.now was.now) }
    ensures count { OnOk result (draft.new.count ≡ draft.old.count + 1) }
    ensures pages { draft.new.pages ≡ draft.old.pages }
    ensures directory { draft.new.directory ≡ draft.old.directory }
{
    let code = match file {
        DiskFile::Pages => 0,
        DiskFile::Directory | DiskFile::Redo => 1,
    };
    draft.changes.extend_from_slice(&[code])?;
    draft.changes.extend_from_slice(&spelled(at))?;
    draft.changes.extend_from_slice(&spelled(bytes.len()))?;
    draft.changes.extend_from_slice(bytes)?;
    draft.changes.extend_from_slice(was)?;
    draft.count += 1;
    Ok(())
}

// Builds the plan from the draft, for old files with these lengths.
pub(crate) fn assemble<A: Allocator>(
    alloc: A,
    draft: &Draft<A>,
    old_pages: usize,
    old_directory: usize,
) -> Result<Vec<u8, A>, AllocError>
    requires pages { draft.now.pages < 2 ^ 32 }
    requires directory { draft.now.directory < 2 ^ 32 }
    requires old_pages { old_pages < 2 ^ 32 }
    requires old_directory { old_directory < 2 ^ 32 }
    requires count { draft.now.count < 2 ^ 32 }

    ensures { IfOk result (λ plan. plan.items ≡ plan_bytes draft.now.pages draft.now.directory old_pages old_directory draft.now.count draft.now.changes.items) }
{
    let mut plan = Vec::new(alloc);
    plan.extend_from_slice(&SIGNATURE)?;
    plan.extend_from_slice(&spelled(draft.pages))?;
    plan.extend_from_slice(&spelled(draft.directory))?;
    plan.extend_from_slice(&spelled(old_pages))?;
    plan.extend_from_slice(&spelled(old_directory))?;
    plan.extend_from_slice(&spelled(draft.count))?;
    plan.extend_from_slice(draft.changes.as_slice())?;
    Ok(plan)
}
