//! Makes a database from its files. The `.pag` may have been read in pieces.
ghost use Rattle.std.specs.Prelude.{◌≡◌, ◌≢◌, ◌*◌, ◌/◌, ◌≤◌, length, true, IfOk, IfErr};
ghost use Rattle.sdbm_addr.specs.Pairs.{page_bytes};
ghost use Rattle.sdbm_addr.specs.Layout.{bytes_of_page};
ghost use Rattle.sdbm_addr.specs.Database.{IsDatabase, pairs_at};
ghost use Rattle.sdbm_files.specs.Opened.{IsOpenFault, SpellsNoDatabase};
ghost use Rattle.sdbm_saves.specs.Parts.{ReadsPage};
ghost use Rattle.boddurci_handles.specs.Pieces.{bytes_read};
ghost use Rattle.boddurci_c.specs.Calls.{IsDbOpened, ReadsUnmarked, empty_registry};

use boddurci_handles::{Db, Reading};
use prog_registry::Registry;
use sdbm_addr::{KeyBytes, PageSize};
use sdbm_files::{BLOCK, Image, OpenFault, ReadPages};
use std::alloc::{AllocError, Global};
use store_marks::{Base, Marks};

// The default limit of a `.pag` in bytes, and the highest limit that takes effect.
const LONGEST: usize = 1_073_741_824;

/// Opens the database that the bytes of both files spell, without programs. Its `.pag` may grow to 1 GiB.
///
/// # Errors
/// Those of `Image::open`.
pub fn open(
    alloc: Global,
    registry: Registry<Global>,
    dir: &[u8],
    pag: &[u8],
    kind: KeyBytes,
    size: PageSize,
) -> Result<Db, OpenFault>
    requires { registry ≡ empty_registry }
    ensures ok { IfOk result (IsDbOpened kind size dir.now pag.now) }
    ensures err { IfErr result (IsOpenFault kind size dir.now pag.now) }
    ensures none { IfErr result (λ fault. fault ≢ OpenFault.NoMemory → SpellsNoDatabase kind size dir.now pag.now) }
{
    if pag.len() % size.bytes() != 0 {
        return Err(OpenFault::PagLength);
    }
    let mut read = ReadPages::new(alloc, size);
    let Ok(()) = read.push(pag) else {
        return Err(OpenFault::NoMemory);
    };
    open_read(alloc, registry, dir, &read, kind, size)
}

/// Like `open`, for the pages of a reading, which is unchanged. A free reading counts as an empty file.
///
/// # Errors
/// Those of `Image::open`.
pub fn open_reading(
    alloc: Global,
    registry: Registry<Global>,
    dir: &[u8],
    reading: &mut Reading,
    kind: KeyBytes,
    size: PageSize,
) -> Result<Db, OpenFault>
    requires { registry ≡ empty_registry }
    ensures ok { IfOk result (IsDbOpened kind size dir.now (bytes_read reading.old.read)) }
    ensures err { IfErr result (IsOpenFault kind size dir.now (bytes_read reading.old.read)) }
    ensures none { IfErr result (λ fault. fault ≢ OpenFault.NoMemory → SpellsNoDatabase kind size dir.now (bytes_read reading.old.read)) }
    ensures same { reading.new.read ≡ reading.old.read }
{
    let Some(pieces) = reading.take(alloc) else {
        let none = ReadPages::new(alloc, size);
        return open_read(alloc, registry, dir, &none, kind, size);
    };
    let opened = open_read(alloc, registry, dir, &pieces.pages, kind, size);
    reading.put(pieces);
    opened
}

// Like `open`, for pages that were read.
fn open_read(
    alloc: Global,
    registry: Registry<Global>,
    dir: &[u8],
    pag: &ReadPages<Global>,
    kind: KeyBytes,
    size: PageSize,
) -> Result<Db, OpenFault>
    requires { registry ≡ empty_registry }
    ensures ok { IfOk result (IsDbOpened kind size dir.now pag.now.bytes) }
    ensures err { IfErr result (IsOpenFault kind size dir.now pag.now.bytes) }
    ensures none { IfErr result (λ fault. fault ≢ OpenFault.NoMemory → SpellsNoDatabase kind size dir.now pag.now.bytes) }
{
    let image = match Image::open_read(alloc, dir, pag, kind, size) {
        Ok(image) => image,
        Err(fault) => return Err(fault),
    };
    let Ok(marks) = foreign_pages(alloc, &image, pag) else {
        return Err(OpenFault::NoMemory);
    };
    let base = Base::of(&image);
    let limit = pages_in(LONGEST, size);
    Ok(Db {
        image,
        registry,
        marks,
        limit,
        base,
    })
}

/// The number of whole pages in a file of this length.
pub fn pages_in(bytes: usize, size: PageSize) -> usize
    ensures { result ≡ bytes / page_bytes size }
{
    bytes / size.bytes()
}

// Collects the pages of a file that a save of its database would write differently.
fn foreign_pages(
    alloc: Global,
    image: &Image<Global>,
    pag: &ReadPages<Global>,
) -> Result<Marks, AllocError>
    requires { IsDatabase image.now }
    ensures { IfOk result (ReadsUnmarked image.now pag.now.bytes) }
{
    let size = image.page_size().bytes();
    let Ok(count) = u32::try_from(pag.len() / size) else {
        return Err(AllocError);
    };
    let mut marks = Marks::new(alloc);
    for number in 0..count {
        if !is_own(image, pag, number) {
            marks.add(number)?;
        }
    }
    Ok(marks)
}

// Returns true if a page of a file has the bytes that a save of its database would write.
fn is_own(image: &Image<Global>, pag: &ReadPages<Global>, number: u32) -> bool
    requires { IsDatabase image.now }
    ensures { result ≡ true → ReadsPage image.now.size pag.now.bytes number (bytes_of_page image.now.size (pairs_at image.now number)) }
{
    let own = image.page_bytes(number);
    let blocks = image.page_size().bytes() / BLOCK;
    for index in 0..blocks {
        let block = pag.block(number as usize * blocks + index);
        if !is_same(block, &own[index * BLOCK..(index + 1) * BLOCK]) {
            return false;
        }
    }
    true
}

// Returns true only if both slices are equal.
fn is_same(one: &[u8], other: &[u8]) -> bool
    ensures { result ≡ true → one.now ≡ other.now }
{
    one == other
}
