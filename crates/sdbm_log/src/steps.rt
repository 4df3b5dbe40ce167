// Steps: calls on the three files, which the caller of this crate makes.
ghost use Rattle.std.specs.Prelude.{◌≡◌, ◌<◌, ◌≤◌, ◌+◌, ◌^◌, ◌++◌, ◌∷◌, ℕ, List, [], length, drop, OnOk};
ghost use Rattle.sdbm_saves.specs.Redo.{file_of, offset_of, data_of, span_of, rest_of, count_of, changes_of, IsPlan};
ghost use Rattle.sdbm_saves.specs.Acts.{write};
ghost use Rattle.sdbm_log.specs.Steps.{acts_of, with_head};
ghost use Rattle.sdbm_log.specs.Protocol.{commit_acts, change_acts, apply_acts, close_acts, clear_acts, start_acts, settle_acts};

use crate::log::HEADER;
use sdbm_saves::{DiskFile, number};
use std::alloc::{AllocError, Global};

/// A call on one of the three files. The bytes that calls write are in a separate buffer.
#[derive(Clone, Copy, Debug, PartialEq, Eq)]
pub enum Step {
    /// Writes `len` bytes of the buffer, from `from` on, at offset `at`.
    Write {
        file: DiskFile,
        at: usize,
        from: usize,
        len: usize,
    },
    /// Writes `len` zeros at offset `at`.
    Zeros {
        file: DiskFile,
        at: usize,
        len: usize,
    },
    /// Truncates the file, or extends it with zeros.
    Resize {
        file: DiskFile,
        len: usize,
    },
    /// Syncs a file: its bytes, its length and its name.
    Sync {
        file: DiskFile,
    },
}

/// The first bytes of a buffer of steps: the commit byte, and the first nine bytes of an empty log.
pub const HEAD: [u8; 10] = *b"\x01\0sdbmlog1";

/// The offset of the record in a buffer of steps.
pub const RECORD_AT: usize = 10;

/// The offset of the plan in its record.
pub const RECORD_HEAD: usize = 8;

// Adds the steps that sync the files that were read.
pub(crate) fn push_settle(steps: &mut Vec<Step>) -> Result<(), AllocError>
    ensures { OnOk result ((bytes : List ℕ) → acts_of bytes steps.new.items ≡ acts_of bytes steps.old.items ++ settle_acts) }
{
    steps.extend_from_slice(&[
        Step::Sync {
            file: DiskFile::Redo,
        },
        Step::Sync {
            file: DiskFile::Pages,
        },
        Step::Sync {
            file: DiskFile::Directory,
        },
    ])
}

// Adds the steps that commit the record in the buffer. The existing records end at `end`.
pub(crate) fn push_commit(steps: &mut Vec<Step>, end: usize, len: usize) -> Result<(), AllocError>
    requires { end ≤ 4000000000 }
    ensures { OnOk result ((record_bytes : List ℕ) → length record_bytes ≡ len
        → acts_of (with_head record_bytes) steps.new.items ≡ acts_of (with_head record_bytes) steps.old.items ++ commit_acts end record_bytes) }
{
    if end == 0 {
        steps.extend_from_slice(&[Step::Write {
            file: DiskFile::Redo,
            at: 0,
            from: 0,
            len: 1,
        }])?;
    }
    steps.extend_from_slice(&[
        Step::Write {
            file: DiskFile::Redo,
            at: HEADER + end,
            from: RECORD_AT,
            len,
        },
        Step::Sync {
            file: DiskFile::Redo,
        },
    ])
}

/// Adds the steps that apply a plan. The plan begins at `from` in the buffer.
///
/// # Errors
///
/// `AllocError` if allocation fails.
pub fn push_apply(steps: &mut Vec<Step>, plan: &[u8], from: usize) -> Result<(), AllocError>
    requires plan { IsPlan plan.now }
    requires short { length plan.now < 2 ^ 63 }
    requires near { from ≤ 4096 }
    ensures { OnOk result ((bytes : List ℕ) → drop from bytes ≡ plan.now
        → acts_of bytes steps.new.items ≡ acts_of bytes steps.old.items ++ apply_acts plan.now) }
{
    steps.extend_from_slice(&[
        Step::Resize {
            file: DiskFile::Pages,
            len: number(plan, 8),
        },
        Step::Resize {
            file: DiskFile::Directory,
            len: number(plan, 12),
        },
    ])?;
    push_changes(steps, plan, from)
}

// Adds the steps that write the changes of a plan.
fn push_changes(steps: &mut Vec<Step>, plan: &[u8], from: usize) -> Result<(), AllocError>
    requires plan { IsPlan plan.now }
    requires short { length plan.now < 2 ^ 63 }
    requires near { from ≤ 4096 }
    ensures { OnOk result ((bytes : List ℕ) → drop from bytes ≡ plan.now
        → acts_of bytes steps.new.items ≡ acts_of bytes steps.old.items ++ change_acts (count_of plan.now) (changes_of plan.now)) }
{
    let count = number(plan, 24);
    let mut rest = &plan[28..];
    let mut here = from + 28;
    for index in 0..count {
        push_change(steps, rest, here)?;
        here += span_of(rest);
        rest = rest_of(rest);
    }
    Ok(())
}

// Returns the size of a change in bytes.
fn span_of(change: &[u8]) -> usize
    requires { span_of change.now ≤ length change.now }
    ensures { result ≡ span_of change.now }
{
    let size = number(change, 5);
    9 + (size + size)
}

// Returns the changes after the first change.
fn rest_of(change: &[u8]) -> &[u8]
    requires { span_of change.now ≤ length change.now }
    ensures { result.now ≡ rest_of change.now }
{
    &change[span_of(change)..]
}

// Adds the step that writes the first change in `change`, which begins at `from` in the buffer.
fn push_change(steps: &mut Vec<Step>, change: &[u8], from: usize) -> Result<(), AllocError>
    requires whole { span_of change.now ≤ length change.now }
    requires near { from ≤ 2 ^ 63 + 4096 }
    ensures { OnOk result ((bytes : List ℕ) → drop from bytes ≡ change.now
        → acts_of bytes steps.new.items ≡ acts_of bytes steps.old.items ++ write (file_of change.now) (offset_of change.now) (data_of change.now) ∷ []) }
{
    let step = Step::Write {
        file: file_of(change),
        at: number(change, 1),
        from: from + 9,
        len: number(change, 5),
    };
    match steps.push(step) {
        Ok(()) => Ok(()),
        Err(e) => Err(e.into()),
    }
}

// Returns the file of the first change in `change`.
fn file_of(change: &[u8]) -> DiskFile
    requires { 1 ≤ length change.now }
    ensures { result ≡ file_of change.now }
{
    if change[0] == 0 {
        DiskFile::Pages
    } else {
        DiskFile::Directory
    }
}

// Adds the steps that close a log.
pub(crate) fn push_close(steps: &mut Vec<Step>) -> Result<(), AllocError>
    ensures { OnOk result ((bytes : List ℕ) → acts_of bytes steps.new.items ≡ acts_of bytes steps.old.items ++ close_acts) }
{
    steps.extend_from_slice(&[
        Step::Sync {
            file: DiskFile::Pages,
        },
        Step::Sync {
            file: DiskFile::Directory,
        },
        Step::Zeros {
            file: DiskFile::Redo,
            at: 0,
            len: 1,
        },
        Step::Sync {
            file: DiskFile::Redo,
        },
    ])
}

// Adds the steps that overwrite the first `len` bytes after the header of a closed log with zeros.
pub(crate) fn push_clear(steps: &mut Vec<Step>, len: usize) -> Result<(), AllocError>
    ensures { OnOk result ((bytes : List ℕ) → acts_of bytes steps.new.items ≡ acts_of bytes steps.old.items ++ clear_acts len) }
{
    steps.extend_from_slice(&[
        Step::Zeros {
            file: DiskFile::Redo,
            at: HEADER,
            len,
        },
        Step::Sync {
            file: DiskFile::Redo,
        },
    ])
}

// Adds the steps that make the redo file an empty log of `len` bytes.
pub(crate) fn push_start(steps: &mut Vec<Step>, len: usize) -> Result<(), AllocError>
    requires { 9 ≤ len }
    ensures { OnOk result ((rest : List ℕ) → acts_of (with_head rest) steps.new.items ≡ acts_of (with_head rest) steps.old.items ++ start_acts len) }
{
    steps.extend_from_slice(&[
        Step::Resize {
            file: DiskFile::Redo,
            len,
        },
        Step::Zeros {
            file: DiskFile::Redo,
            at: 9,
            len: len - 9,
        },
        Step::Write {
            file: DiskFile::Redo,
            at: 0,
            from: 1,
            len: 9,
        },
        Step::Sync {
            file: DiskFile::Redo,
        },
    ])
}
