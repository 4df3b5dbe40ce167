// Checks whether a plan of many changes knows the data files, in time that is on average proportional to the length of the plan.
ghost use Rattle.std.specs.Prelude.{◌≡◌, ◌⊎◌, ◌<◌, ◌≤◌, ◌+◌, ◌↔◌, ℕ, List, length, get_or, true, nat_eq, IsTrue, OnOk, IfOk};
ghost use Rattle.std.specs.HashSet.{contains};
ghost use Rattle.sdbm_saves.specs.Redo.{file_of, offset_of, size_of, span_of, rest_of, IsPlan, IsChangeOf, IsBetween, Offers, HasByte, Knows};
ghost use Rattle.sdbm_log.specs.Places.{HasOwn, IsIn, Covers, KnowsFile};

use sdbm_saves::{Contents, DiskFile, byte_at, number};
use std::alloc::{AllocError, Global};
use std::collections::HashSet;
use std::hash::{BuildHasherDefault, FoldHasher};

// A set of offsets in one data file.
type Places = HashSet<usize, BuildHasherDefault<FoldHasher>, Global>;

// Returns `true` if a plan knows the files. First collects all offsets at which some change does not have the file's byte, then removes the
// offsets at which another change has the byte. A log that changes the same bytes again and again has many of these offsets, and a search
// through all changes for each offset would be slow.
pub(crate) fn knows(alloc: Global, plan: &[u8], both: Contents<'_>) -> Result<bool, AllocError>
    requires { IsPlan plan.now }
    ensures { IfOk result (λ known. IsTrue known ↔ Knows plan.now (both.entry.pages.now, both.entry.directory.now)) }
{
    if !is_between(number(plan, 16), number(plan, 8), both.pages.len()) {
        return Ok(false);
    }
    if !is_between(number(plan, 20), number(plan, 12), both.directory.len()) {
        return Ok(false);
    }
    if !knows_file(alloc, plan, DiskFile::Pages, both.pages)? {
        return Ok(false);
    }
    knows_file(alloc, plan, DiskFile::Directory, both.directory)
}

// Returns `true` if a length is one of two lengths or between them.
fn is_between(one: usize, other: usize, len: usize) -> bool
    ensures { IsTrue result ↔ IsBetween one other len }
{
    one.min(other) <= len && len <= one.max(other)
}

// Returns `true` if a plan knows the bytes of one file: at each offset that changes cover, some change has the file's byte.
fn knows_file(alloc: Global, plan: &[u8], file: DiskFile, bytes: &[u8]) -> Result<bool, AllocError>
    requires { IsPlan plan.now }
    ensures { IfOk result (λ known. IsTrue known ↔ KnowsFile plan.now file bytes.now) }
{
    let mut places = lacking(alloc, plan, file, bytes)?;
    strike(&mut places, plan, file, bytes);
    Ok(places.is_empty())
}

// Returns the offsets of a file at which some change does not have the file's byte.
fn lacking(alloc: Global, plan: &[u8], file: DiskFile, bytes: &[u8]) -> Result<Places, AllocError>
    requires { IsPlan plan.now }
    ensures all { IfOk result (λ places. (change : List ℕ) → IsChangeOf plan.now change → file_of change ≡ file → (i : ℕ) → i < size_of change
        → (contains nat_eq places (offset_of change + i) ≡ true) ⊎ HasOwn change i (get_or bytes.now (offset_of change + i) 0)) }
    ensures only { IfOk result (λ places. (at : ℕ) → contains nat_eq places at ≡ true → Covers plan.now file at) }
{
    let mut places = HashSet::new(alloc);
    let count = number(plan, 24);
    let mut rest = &plan[28..];
    for index in 0..count {
        add_lacking(&mut places, rest, file, bytes)?;
        rest = rest_of(rest);
    }
    Ok(places)
}

// Adds the offsets of a file at which a change does not have the file's byte.
fn add_lacking(
    places: &mut Places,
    change: &[u8],
    file: DiskFile,
    bytes: &[u8],
) -> Result<(), AllocError>
    requires whole { span_of change.now ≤ length change.now }
    ensures kept { OnOk result ((at : ℕ) → contains nat_eq places.old at ≡ true → contains nat_eq places.new at ≡ true) }
    ensures all { OnOk result (file_of change.now ≡ file → (i : ℕ) → i < size_of change.now
        → (contains nat_eq places.new (offset_of change.now + i) ≡ true) ⊎ HasOwn change.now i (get_or bytes.now (offset_of change.now + i) 0)) }
    ensures only { OnOk result ((at : ℕ) → contains nat_eq places.new at ≡ true → (contains nat_eq places.old at ≡ true) ⊎ ((file_of change.now ≡ file) × IsIn change.now at)) }
{
    if file_of(change) != file {
        return Ok(());
    }
    let size = number(change, 5);
    for index in 0..size {
        add_place(places, change, index, bytes)?;
    }
    Ok(())
}

// Adds the offset of one byte of a change if the change does not have the file's byte there.
fn add_place(
    places: &mut Places,
    change: &[u8],
    index: usize,
    bytes: &[u8],
) -> Result<(), AllocError>
    requires whole { span_of change.now ≤ length change.now }
    requires covered { index < size_of change.now }
    ensures kept { OnOk result ((at : ℕ) → contains nat_eq places.old at ≡ true → contains nat_eq places.new at ≡ true) }
    ensures has { OnOk result ((contains nat_eq places.new (offset_of change.now + index) ≡ true) ⊎ HasOwn change.now index (get_or bytes.now (offset_of change.now + index) 0)) }
    ensures only { OnOk result ((at : ℕ) → contains nat_eq places.new at ≡ true → (contains nat_eq places.old at ≡ true) ⊎ (offset_of change.now + index ≡ at)) }
{
    let at = number(change, 1) + index;
    if has(change, index, byte_at(bytes, at)) {
        return Ok(());
    }
    match places.insert(at) {
        Ok(_) => Ok(()),
        Err(_) => Err(AllocError),
    }
}

// Removes the offsets of a file at which some change has the file's byte.
fn strike(places: &mut Places, plan: &[u8], file: DiskFile, bytes: &[u8])
    requires { IsPlan plan.now }
    ensures only { (at : ℕ) → contains nat_eq places.new at ≡ true → (contains nat_eq places.old at ≡ true) × (HasByte plan.now file at (get_or bytes.now at 0) → ⊥) }
    ensures rest { (at : ℕ) → contains nat_eq places.old at ≡ true → (contains nat_eq places.new at ≡ true) ⊎ HasByte plan.now file at (get_or bytes.now at 0) }
{
    let count = number(plan, 24);
    let mut rest = &plan[28..];
    for index in 0..count {
        strike_own(places, rest, file, bytes);
        rest = rest_of(rest);
    }
}

// Removes the offsets of a file at which this change has the file's byte.
fn strike_own(places: &mut Places, change: &[u8], file: DiskFile, bytes: &[u8])
    requires whole { span_of change.now ≤ length change.now }
    ensures only { (at : ℕ) → contains nat_eq places.new at ≡ true → (contains nat_eq places.old at ≡ true) × (Offers change.now file at (get_or bytes.now at 0) → ⊥) }
    ensures rest { (at : ℕ) → contains nat_eq places.old at ≡ true → (contains nat_eq places.new at ≡ true) ⊎ Offers change.now file at (get_or bytes.now at 0) }
{
    if file_of(change) != file {
        return;
    }
    let size = number(change, 5);
    for index in 0..size {
        strike_place(places, change, index, bytes);
    }
}

// Removes the offset of one byte of a change if the change has the file's byte there.
fn strike_place(places: &mut Places, change: &[u8], index: usize, bytes: &[u8])
    requires whole { span_of change.now ≤ length change.now }
    requires covered { index < size_of change.now }
    ensures only { (at : ℕ) → contains nat_eq places.new at ≡ true → (contains nat_eq places.old at ≡ true) × (offset_of change.now + index ≡ at → HasOwn change.now index (get_or bytes.now at 0) → ⊥) }
    ensures rest { (at : ℕ) → contains nat_eq places.old at ≡ true → (contains nat_eq places.new at ≡ true) ⊎ ((offset_of change.now + index ≡ at) × HasOwn change.now index (get_or bytes.now at 0)) }
{
    let at = number(change, 1) + index;
    if !has(change, index, byte_at(bytes, at)) {
        return;
    }
    places.remove(&at);
}

// Returns `true` if `byte` is the new or the old byte of a change at this index.
fn has(change: &[u8], index: usize, byte: u8) -> bool
    requires whole { span_of change.now ≤ length change.now }
    requires covered { index < size_of change.now }
    ensures { IsTrue result ↔ HasOwn change.now index byte }
{
    let size = number(change, 5);
    let data = &change[9..9 + size];
    let was = &change[9 + size..9 + (size + size)];
    data[index] == byte || was[index] == byte
}

// Returns the file of a change.
fn file_of(change: &[u8]) -> DiskFile
    requires { 1 ≤ length change.now }
    ensures { result ≡ file_of change.now }
{
    if change[0] == 0 {
        DiskFile::Pages
    } else {
        DiskFile::Directory
    }
}

// Returns the bytes after the first change.
fn rest_of(changes: &[u8]) -> &[u8]
    requires { span_of changes.now ≤ length changes.now }
    ensures { result.now ≡ rest_of changes.now }
{
    let size = number(changes, 5);
    &changes[9 + (size + size)..]
}
