// Reads the plan of a save. specs/Redo.antt defines the format.
ghost use Rattle.std.specs.Prelude.{◌≡◌, ◌≢◌, ◌*◌, ◌<◌, ◌≤◌, ◌^◌, ◌+◌, ◌↔◌, length, take, drop, get_or, IsTrue, IfSome, IsNone, IfOk};
ghost use Rattle.sdbm_saves.specs.Disk.{resized};
ghost use Rattle.sdbm_saves.specs.Redo.{number_at, file_of, span_of, rest_of, signature, Fits, IsPlan};

use crate::DiskFile;
use std::alloc::{AllocError, Allocator};

pub(crate) const MARKED: u8 = 1;

/// The first bytes of every plan.
pub(crate) const SIGNATURE: [u8; 8] = *b"sdbmred2";

/// Returns the number in the four bytes from `at` on, little-endian.
#[tactic(auto, unfolding(crate::specs::Redo::number_at))]
pub fn number(bytes: &[u8], at: usize) -> usize
    requires { at + 4 ≤ length bytes.now }
    ensures value { result ≡ number_at bytes.now at }
    ensures small { result < 2 ^ 32 }
{
    usize::from(bytes[at])
        + 256 * usize::from(bytes[at + 1])
        + 65536 * usize::from(bytes[at + 2])
        + 16777216 * usize::from(bytes[at + 3])
}

/// Returns the file of the first change in `change`.
pub fn file_of(change: &[u8]) -> DiskFile
    requires { 1 ≤ length change.now }
    ensures { result ≡ file_of change.now }
{
    if change[0] == 0 {
        DiskFile::Pages
    } else {
        DiskFile::Directory
    }
}

/// Returns the bytes after the first change in `change`.
pub fn rest_of(change: &[u8]) -> &[u8]
    requires { span_of change.now ≤ length change.now }
    ensures { result.now ≡ rest_of change.now }
{
    let size = number(change, 5);
    &change[9 + (size + size)..]
}

// Returns `true` if the first change in `change` is complete and within its file.
fn fits(plan: &[u8], change: &[u8]) -> bool
    requires { 28 ≤ length plan.now }
    ensures { IsTrue result ↔ Fits plan.now change.now }
{
    if change.len() < 9 {
        return false;
    }
    let size = number(change, 5);
    let limit = match file_of(change) {
        DiskFile::Pages => number(plan, 8),
        DiskFile::Directory => number(plan, 12),
        DiskFile::Redo => 0,
    };
    9 + (size + size) <= change.len() && number(change, 1) + size <= limit
}

fn is_signed(plan: &[u8]) -> bool
    requires { 28 ≤ length plan.now }
    ensures { IsTrue result ↔ take 8 plan.now ≡ signature }
{
    plan[..8] == SIGNATURE[..]
}

/// Returns `true` if the bytes are a plan: they begin with the signature, every change is complete and within the new length of its file,
/// and nothing follows the last change.
pub fn is_plan(plan: &[u8]) -> bool
    ensures { IsTrue result ↔ IsPlan plan.now }
{
    if plan.len() < 28 || !is_signed(plan) {
        return false;
    }
    let count = number(plan, 24);
    let mut rest = &plan[28..];
    for index in 0..count {
        if !fits(plan, rest) {
            return false;
        }
        rest = rest_of(rest);
    }
    rest.is_empty()
}

/// Returns the bytes after the commit byte of a redo file, or `None` if the commit byte is not 1 or the file is empty. If the file has a
/// single save, these bytes are its plan.
pub fn plan_in(redo: &[u8]) -> Option<&[u8]>
    ensures some { IfSome result (λ plan. (get_or redo.now 0 0 ≡ 1) × (plan.now ≡ drop 1 redo.now)) }
    ensures none { IsNone result → get_or redo.now 0 0 ≢ 1 }
{
    match redo {
        [MARKED, plan @ ..] => Some(plan),
        _ => None,
    }
}

// Returns a copy of the bytes, truncated or extended with zeros to `len` bytes.
pub(crate) fn resized<A: Allocator>(
    alloc: A,
    old: &[u8],
    len: usize,
) -> Result<Vec<u8, A>, AllocError>
    ensures { IfOk result (λ next. next.items ≡ resized len old.now) }
{
    if len <= old.len() {
        return Ok(old[..len].to_vec(alloc)?);
    }
    let mut next = old.to_vec(alloc)?;
    next.resize(len, 0)?;
    Ok(next)
}
