// Lays the changes of a plan over a part of a file.
ghost use Rattle.std.specs.Prelude.{◌≡◌, ◌≢◌, ◌≤◌, ◌<◌, ◌+◌, ◌^◌, ℕ, List, length, false};
ghost use Rattle.sdbm_saves.specs.Disk.{resized, written};
ghost use Rattle.sdbm_saves.specs.Redo.{file_of, offset_of, data_of, size_of, span_of, effect, new_length, renewed, IsPlan};
ghost use Rattle.sdbm_saves.specs.declared.disk.DiskFile.TheVariants.{Redo};
ghost use Rattle.sdbm_tail.specs.Tail.{IsPartFrom};

use sdbm_saves::{DiskFile, file_of, number, rest_of, write_in};

/// Applies a plan to a part of a data file. The part begins at offset `from` of the file, and has zeros past the end of the file. Returns
/// `true` if a change covers a byte of the part.
pub fn lay_part(part: &mut [u8], file: DiskFile, from: usize, plan: &[u8]) -> bool
    requires plan { IsPlan plan.now }
    requires data { file ≢ Redo }
    requires near { from + length part.old < 2 ^ 33 }
    requires inside { from + length part.old ≤ new_length file plan.now }
    ensures laid { (old : List ℕ) → IsPartFrom from part.old (resized (new_length file plan.now) old) → IsPartFrom from part.new (renewed file plan.now old) }
    ensures same_length { length part.new ≡ length part.old }
    ensures untouched { result ≡ false → part.new ≡ part.old }
{
    let count = number(plan, 24);
    let mut rest = &plan[28..];
    let mut is_touched = false;
    for index in 0..count {
        if lay_change(part, file, from, rest) {
            is_touched = true;
        }
        rest = rest_of(rest);
    }
    is_touched
}

// Applies the first change in `change` to a part of a file. Returns `true` if the change covers a byte of the part.
fn lay_change(part: &mut [u8], file: DiskFile, from: usize, change: &[u8]) -> bool
    requires data { file ≢ Redo }
    requires whole { span_of change.now ≤ length change.now }
    requires near { from + length part.old < 2 ^ 33 }
    ensures laid { (old : List ℕ) → (file_of change.now ≡ file → offset_of change.now + size_of change.now ≤ length old) → IsPartFrom from part.old old → IsPartFrom from part.new (effect (file_of change.now) file change.now old) }
    ensures same_length { length part.new ≡ length part.old }
    ensures untouched { result ≡ false → part.new ≡ part.old }
{
    if file_of(change) != file {
        return false;
    }
    let at = number(change, 1);
    let size = number(change, 5);
    lay_bytes(part, from, at, &change[9..9 + size])
}

// Writes bytes at offset `at` of a file to a part of the file. Returns `true` if the part has one of these bytes.
fn lay_bytes(part: &mut [u8], from: usize, at: usize, bytes: &[u8]) -> bool
    requires near { from + length part.old < 2 ^ 33 }
    requires at { at + length bytes.now < 2 ^ 33 }
    ensures laid { (old : List ℕ) → at + length bytes.now ≤ length old → IsPartFrom from part.old old → IsPartFrom from part.new (written at bytes.now old) }
    ensures same_length { length part.new ≡ length part.old }
    ensures untouched { result ≡ false → part.new ≡ part.old }
{
    let start = at.max(from);
    let stop = (at + bytes.len()).min(from + part.len());
    if start >= stop {
        return false;
    }
    write_in(part, start - from, &bytes[start - at..stop - at]);
    true
}
