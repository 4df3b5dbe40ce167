// Compares the old and new bytes of a file block by block and drafts the changes.
ghost use Rattle.std.specs.Prelude.{◌≡◌, ◌≢◌, ◌<◌, ◌≤◌, ◌^◌, ◌+◌, ◌/◌, ◌↔◌, ℕ, List, length, get_or, IsTrue, OnOk};
ghost use Rattle.sdbm_saves.specs.declared.disk.DiskFile.TheVariants.{Redo};
ghost use Rattle.sdbm_saves.specs.Redo.{data_in};
ghost use Rattle.sdbm_saves.specs.Drafts.{AreChanges, HasPut, ReadsAt, length_in};

use crate::DiskFile;
use crate::drafting::{Draft, part_of, push};
use crate::spans::changed_span;
use sdbm_files::BLOCK;
use std::alloc::{AllocError, Allocator};

// Adds a change for each block of `new` that differs from `old`; both begin at offset `from` of the file. `old` may be shorter than `new`:
// the missing bytes are zeros.
pub(crate) fn draft_bytes<A: Allocator + Copy>(
    alloc: A,
    draft: &mut Draft<A>,
    file: DiskFile,
    from: usize,
    old: &[u8],
    new: &[u8],
) -> Result<(), AllocError>
    requires data { file ≢ Redo }
    requires near { from + length new.now < 2 ^ 32 }
    requires few { draft.old.count + (length new.now + 1023) / 1024 < 2 ^ 32 }
    requires fits { from + length new.now ≤ length_in draft.old.pages draft.old.directory file }

    ensures put { OnOk result ((both : List ℕ × List ℕ) → ReadsAt from old.now (length new.now) (data_in both file) → AreChanges draft.old.pages draft.old.directory both draft.old.count draft.old.changes.items
        → HasPut draft.old.pages draft.old.directory both file from old.now new.now draft.old.count draft.old.changes.items draft.new.count draft.new.changes.items) }
    ensures few { OnOk result (draft.new.count ≤ draft.old.count + (length new.now + 1023) / 1024) }
    ensures pages { OnOk result (draft.new.pages ≡ draft.old.pages) }
    ensures directory { OnOk result (draft.new.directory ≡ draft.old.directory) }
{
    let blocks = new.len().div_ceil(BLOCK);
    for index in 0..blocks {
        let at = index * BLOCK;
        let end = new.len().min(at + BLOCK);
        let (start, stop) = (at.min(old.len()), end.min(old.len()));
        draft_block(
            alloc,
            draft,
            file,
            from + at,
            &old[start..stop],
            &new[at..end],
        )?;
    }
    Ok(())
}

// Adds one change if the block at `at` differs from `known`, its old bytes. The change covers only the `changed_span` of the block. `known`
// may be shorter than the block: the missing bytes are zeros.
pub(crate) fn draft_block<A: Allocator>(
    alloc: A,
    draft: &mut Draft<A>,
    file: DiskFile,
    at: usize,
    known: &[u8],
    block: &[u8],
) -> Result<(), AllocError>
    requires data { file ≢ Redo }
    requires near { at + length block.now < 2 ^ 32 }
    requires few { draft.old.count < 2 ^ 32 }
    requires fits { at + length block.now ≤ length_in draft.old.pages draft.old.directory file }

    ensures put { OnOk result ((both : List ℕ × List ℕ) → ReadsAt at known.now (length block.now) (data_in both file) → AreChanges draft.old.pages draft.old.directory both draft.old.count draft.old.changes.items
        → HasPut draft.old.pages draft.old.directory both file at known.now block.now draft.old.count draft.old.changes.items draft.new.count draft.new.changes.items) }
    ensures few { OnOk result (draft.new.count ≤ draft.old.count + 1) }
    ensures pages { OnOk result (draft.new.pages ≡ draft.old.pages) }
    ensures directory { OnOk result (draft.new.directory ≡ draft.old.directory) }
{
    if reads_as(known, 0, block) {
        return Ok(());
    }
    let span = changed_span(known, block);
    let was = part_of(alloc, known, span.start, span.end - span.start)?;
    push(
        draft,
        file,
        at + span.start,
        &block[span.start..span.end],
        was.as_slice(),
    )?;
    Ok(())
}

// Returns `true` if `old` contains `block` at offset `at`. Bytes past the end of `old` count as zeros.
pub(crate) fn reads_as(old: &[u8], at: usize, block: &[u8]) -> bool
    requires { at + length block.now < 2 ^ 63 }
    ensures { IsTrue result ↔ ((i : ℕ) → i < length block.now → get_or block.now i 0 ≡ get_or old.now (at + i) 0) }
{
    if at + block.len() <= old.len() {
        return is_same(&old[at..at + block.len()], block);
    }
    let start = at.min(old.len());
    is_padded(&old[start..], block)
}

fn is_same(one: &[u8], other: &[u8]) -> bool
    ensures { IsTrue result ↔ one.now ≡ other.now }
{
    one == other
}

// Returns `true` if `block` is `kept`, padded with zeros.
fn is_padded(kept: &[u8], block: &[u8]) -> bool
    ensures { IsTrue result ↔ ((i : ℕ) → i < length block.now → get_or block.now i 0 ≡ get_or kept.now i 0) }
{
    for index in 0..block.len() {
        let byte = if index < kept.len() { kept[index] } else { 0 };
        if block[index] != byte {
            return false;
        }
    }
    true
}
