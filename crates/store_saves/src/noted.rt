//! Plans a save from the pages that have changed.
ghost use Rattle.std.specs.Prelude.{◌≡◌, ◌+◌, ◌*◌, ◌<◌, ℕ, length, get_or, IfOk, IfSome, IsNone, OnOk};
ghost use Rattle.sdbm_addr.specs.Pairs.{page_bytes};
ghost use Rattle.sdbm_saves.specs.Parts.{ReadPages};
ghost use Rattle.sdbm_saves.specs.Saves.{AreFilesFor, IsSaving};
ghost use Rattle.store_marks.specs.Marks.{DifferOn};

use sdbm_addr::PageSize;
use sdbm_files::Image;
use sdbm_saves::{Contents, Marked, SavePlanFault, plan_marked};
use std::alloc::{AllocError, Global};
use store_marks::Base;

/// Plans a save for a database that differs only on these pages from the base, whose files are `old`. Returns `None` if the files are
/// already those of the database.
///
/// # Errors
/// Those of `plan_marked`.
pub(crate) fn plan_noted(
    alloc: Global,
    old: Contents<'_>,
    base: &Base,
    numbers: &[u32],
    image: &Image<Global>,
) -> Result<Option<Vec<u8>>, SavePlanFault>
    requires files { AreFilesFor base.now.database old.pages.now old.directory.now }
    requires differ { DifferOn numbers.now base.now.database image.now }
    ensures plan { IfOk result (λ plan. IfSome plan (λ plan. IsSaving image.now plan.items old.entry.pages.now old.entry.directory.now)) }
    ensures none { IfOk result (λ plan. IsNone plan → AreFilesFor image.now old.entry.pages.now old.entry.directory.now) }
{
    let _ = base;
    let pages = read_pages(alloc, old.pages, numbers, image.page_size())?;
    let marked = Marked {
        directory: old.directory,
        len: old.pages.len(),
        numbers,
        pages: pages.as_slice(),
    };
    plan_marked(alloc, marked, image)
}

// Returns the bytes of the pages with these numbers, concatenated. A byte past the end of the file is a zero.
fn read_pages(
    alloc: Global,
    pag: &[u8],
    numbers: &[u32],
    size: PageSize,
) -> Result<Vec<u8>, AllocError>
    ensures long { IfOk result (λ bytes. length bytes.items ≡ length numbers.now * page_bytes size) }
    ensures reads { IfOk result (λ bytes. ReadPages size numbers.now bytes.items pag.now) }
{
    let mut bytes = Vec::new(alloc);
    for number in numbers {
        push_page(&mut bytes, pag, *number, size)?;
    }
    Ok(bytes)
}

// Appends the bytes of a page.
fn push_page(bytes: &mut Vec<u8>, pag: &[u8], number: u32, size: PageSize) -> Result<(), AllocError>
    ensures long { OnOk result (length bytes.new.items ≡ length bytes.old.items + page_bytes size) }
    ensures before { OnOk result ((i : ℕ) → i < length bytes.old.items → get_or bytes.new.items i 0 ≡ get_or bytes.old.items i 0) }
    ensures page { OnOk result ((i : ℕ) → i < page_bytes size → get_or bytes.new.items (length bytes.old.items + i) 0 ≡ get_or pag.now (number * page_bytes size + i) 0) }
{
    let (at, whole) = (number as usize * size.bytes(), bytes.len() + size.bytes());
    let rest = &pag[at.min(pag.len())..];
    bytes.extend_from_slice(&rest[..rest.len().min(size.bytes())])?;
    bytes.resize(whole, 0)?;
    Ok(())
}
