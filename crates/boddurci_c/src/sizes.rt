//! Tests whether files that are to be opened with wide pages are those of a database with small pages.
ghost use Rattle.std.specs.Prelude.{◌≡◌, cond, IfErr, IfOk};
ghost use Rattle.boddurci_handles.specs.Pieces.{bytes_read};
ghost use Rattle.boddurci_c.specs.Calls.{kind_for};
ghost use Rattle.boddurci_c.specs.Sizes.{IsLook, LooksOr};

use crate::form_of;
use boddurci_handles::{Reading, Status};
use sdbm_addr::KeyBytes;
use sdbm_sizes::{bytes_look_small, pages_look_small};
use std::alloc::{AllocError, Global};

/// Sets `looks` to 1 if files to be opened with wide pages look like those of a database with small pages, otherwise to 0.
/// A database with small pages may by chance be readable with wide pages, and a change would then destroy it.
#[unsafe(no_mangle)]
pub extern "C" fn boddurci_looks_small(
    alloc: Global,
    dir: &[u8],
    pag: &[u8],
    unsigned_keys: u32,
    looks: &mut u32,
) -> u32
    ensures { LooksOr (kind_for unsigned_keys) dir.now pag.now result looks.old looks.new }
{
    let (kind, _) = form_of(unsigned_keys, 0);
    look(alloc, dir, pag, kind, looks).code()
}

/// Like `boddurci_looks_small`, for a `.pag` that was read in pieces.
#[unsafe(no_mangle)]
pub extern "C" fn boddurci_reading_looks_small(
    alloc: Global,
    reading: &mut Reading,
    dir: &[u8],
    unsigned_keys: u32,
    looks: &mut u32,
) -> u32
    ensures look { LooksOr (kind_for unsigned_keys) dir.now (bytes_read reading.old.read) result looks.old looks.new }
    ensures same { reading.new.read ≡ reading.old.read }
{
    let (kind, _) = form_of(unsigned_keys, 0);
    look_at_reading(alloc, dir, reading, kind, looks).code()
}

// Sets `looks`. If memory runs out, returns `NoMemory` and leaves `looks` unchanged.
fn look(alloc: Global, dir: &[u8], pag: &[u8], kind: KeyBytes, looks: &mut u32) -> Status
    ensures { IsLook kind dir.now pag.now looks.old looks.new result }
{
    let found = bytes_look_small(alloc, dir, kind, pag);
    set_looks(found, looks)
}

// Like `look`, for the pages of a reading, which is unchanged. A free reading counts as an empty file.
fn look_at_reading(
    alloc: Global,
    dir: &[u8],
    reading: &mut Reading,
    kind: KeyBytes,
    looks: &mut u32,
) -> Status
    ensures look { IsLook kind dir.now (bytes_read reading.old.read) looks.old looks.new result }
    ensures same { reading.new.read ≡ reading.old.read }
{
    let Some(pieces) = reading.take(alloc) else {
        return look(alloc, dir, &[], kind, looks);
    };
    let found = pages_look_small(alloc, dir, kind, &pieces.pages);
    reading.put(pieces);
    set_looks(found, looks)
}

// Sets `looks` to the result, unless memory ran out.
fn set_looks(found: Result<bool, AllocError>, looks: &mut u32) -> Status
    ensures ok { IfOk found (λ small. (result ≡ Status.Done) × (looks.new ≡ cond small 1 0)) }
    ensures err { IfErr found (λ _. (result ≡ Status.NoMemory) × (looks.new ≡ looks.old)) }
{
    match found {
        Ok(true) => {
            *looks = 1;
            Status::Done
        }
        Ok(false) => {
            *looks = 0;
            Status::Done
        }
        Err(_) => Status::NoMemory,
    }
}
