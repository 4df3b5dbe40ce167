// Applies a plan in memory.
ghost use Rattle.std.specs.Prelude.{◌≡◌, ◌≢◌, ◌≤◌, ◌+◌, length, IfOk};
ghost use Rattle.sdbm_saves.specs.Disk.{resized, written};
ghost use Rattle.sdbm_saves.specs.Redo.{file_of, offset_of, size_of, span_of, effect, new_length, renewed, IsPlan};
ghost use Rattle.sdbm_saves.specs.declared.disk.DiskFile.TheVariants.{Redo};

use crate::DiskFile;
use crate::plan::{file_of, number, resized, rest_of};
use std::alloc::{AllocError, Allocator};

/// Returns the bytes of a data file with the plan applied.
///
/// # Errors
///
/// `AllocError` if allocation fails.
pub fn lay_over<A: Allocator>(
    alloc: A,
    plan: &[u8],
    file: DiskFile,
    old: &[u8],
) -> Result<Vec<u8, A>, AllocError>
    requires plan { IsPlan plan.now }
    requires data { file ≢ Redo }
    ensures { IfOk result (λ laid. laid.items ≡ renewed file plan.now old.now) }
{
    let len = match file {
        DiskFile::Pages => number(plan, 8),
        DiskFile::Directory | DiskFile::Redo => number(plan, 12),
    };
    let mut laid = resized(alloc, old, len)?;
    lay_in(laid.as_mut_slice(), file, plan);
    Ok(laid)
}

/// Applies the plan to the bytes of a data file. `laid` must already have the length that the plan gives the file.
pub fn lay_in(laid: &mut [u8], file: DiskFile, plan: &[u8])
    requires plan { IsPlan plan.now }
    requires data { file ≢ Redo }
    requires long { length laid.old ≡ new_length file plan.now }
    ensures { laid.new ≡ renewed file plan.now laid.old }
{
    let count = number(plan, 24);
    let mut rest = &plan[28..];
    for index in 0..count {
        lay_change(laid, file, rest);
        rest = rest_of(rest);
    }
}

// Applies the first change in `change` if it is a change of this file.
fn lay_change(laid: &mut [u8], file: DiskFile, change: &[u8])
    requires data { file ≢ Redo }
    requires whole { span_of change.now ≤ length change.now }
    requires inside { file_of change.now ≡ file → offset_of change.now + size_of change.now ≤ length laid.old }

    ensures { laid.new ≡ effect (file_of change.now) file change.now laid.old }
{
    if file_of(change) == file {
        let at = number(change, 1);
        let size = number(change, 5);
        write_in(laid, at, &change[9..9 + size]);
    }
}

/// Overwrites bytes at an offset.
pub fn write_in(file: &mut [u8], at: usize, bytes: &[u8])
    requires { at + length bytes.now ≤ length file.old }
    ensures { file.new ≡ written at bytes.now file.old }
{
    file[at..at + bytes.len()].copy_from_slice(bytes);
}
