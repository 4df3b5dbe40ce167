//! Opens a single page of a database, and lists the numbers of pages.
ghost use Rattle.std.specs.Prelude.{◌≡◌, ◌≢◌, ◌↔◌, ℕ, [], length, nat_eq, true, false, IsTrue, IfOk, IfSome, IfNone};
ghost use Rattle.std.specs.List.{All, Contains};
ghost use Rattle.std.specs.List.Sorted.{IsStrictlyIncreasing};
ghost use Rattle.std.specs.HashMap.{IsUnique, keys};
ghost use Rattle.sdbm_addr.specs.declared.PageSize.{PageSize};
ghost use Rattle.sdbm_addr.specs.DirectoryFile.{SpellsDirectory};
ghost use Rattle.sdbm_addr.specs.Layout.{Spells};
ghost use Rattle.sdbm_addr.specs.Pairs.{page_bytes};
ghost use Rattle.sdbm_addr.specs.Database.{IsDatabase, pairs_at, put_page};
ghost use Rattle.sdbm_files.specs.Kept.{pages_of, AreSized};
ghost use Rattle.sdbm_files.specs.Opened.{LeadTo, SpellsNoPart, pairs_of_page};

use crate::Image;
use crate::opening::{OpenFault, keys_lead, reread_dir};
use crate::pages::{Pages, replace_page};
use crate::parsed::read_page;
use sdbm_addr::{KeyBytes, PageSize};
use sdbm_dir::Dir;
use sdbm_page::SharedPage;
use std::alloc::{AllocError, Allocator};
use std::collections::HashMap;

impl<A: Allocator + Copy> Image<A> {
    /// Opens a single page of a database, from the bytes of `.dir` and the number and the bytes of the page. This is enough for a command
    /// on one key. In the result, all other pages have no pairs. The time depends only on the given bytes, not on the page number. Returns
    /// `None` if no database has this directory and this page: the bytes of `.dir` spell no directory, the bytes of the page spell no page,
    /// or a key on the page leads to another page.
    ///
    /// # Errors
    /// `AllocError` if allocation fails.
    pub fn open_page(
        alloc: A,
        dir: &[u8],
        number: u32,
        page: &[u8],
        kind: KeyBytes,
        size: PageSize,
    ) -> Result<Option<Self>, AllocError>
        requires { length page.now ≡ page_bytes size }
        ensures directory { IfOk result (λ opened. IfSome opened (λ image. SpellsDirectory dir.now image.splits)) }
        ensures kind { IfOk result (λ opened. IfSome opened (λ image. image.kind ≡ kind)) }
        ensures size { IfOk result (λ opened. IfSome opened (λ image. image.size ≡ size)) }
        ensures page { IfOk result (λ opened. IfSome opened (λ image. Spells size page.now (pairs_at image number))) }
        ensures others { IfOk result (λ opened. IfSome opened (λ image. (n : ℕ) → n ≢ number → pairs_at image n ≡ [])) }
        ensures database { IfOk result (λ opened. IfSome opened IsDatabase) }
        ensures none { IfOk result (λ opened. IfNone opened (SpellsNoPart kind size dir.now number page.now)) }
    {
        Image::empty(alloc, kind, size).reopen_page(dir, number, page)
    }

    /// Like `open_page`, with the way of hashing keys and the page size of this database, which does not change. If `dir` has the bytes of
    /// this database's directory, copies the directory instead of checking the bytes again.
    ///
    /// # Errors
    /// `AllocError` if allocation fails.
    pub fn reopen_page(
        &self,
        dir: &[u8],
        number: u32,
        page: &[u8],
    ) -> Result<Option<Self>, AllocError>
        requires { length page.now ≡ page_bytes self.now.size }
        ensures directory { IfOk result (λ opened. IfSome opened (λ image. SpellsDirectory dir.now image.splits)) }
        ensures kind { IfOk result (λ opened. IfSome opened (λ image. image.kind ≡ self.now.kind)) }
        ensures size { IfOk result (λ opened. IfSome opened (λ image. image.size ≡ self.now.size)) }
        ensures page { IfOk result (λ opened. IfSome opened (λ image. Spells self.now.size page.now (pairs_at image number))) }
        ensures others { IfOk result (λ opened. IfSome opened (λ image. (n : ℕ) → n ≢ number → pairs_at image n ≡ [])) }
        ensures database { IfOk result (λ opened. IfSome opened IsDatabase) }
        ensures none { IfOk result (λ opened. IfNone opened (SpellsNoPart self.now.kind self.now.size dir.now number page.now)) }
    {
        let (alloc, kind, size) = (self.alloc, self.kind, self.size);
        let splits = match reread_dir(alloc, &self.dir, dir) {
            Ok(splits) => splits,
            Err(OpenFault::Dir(_)) => return Ok(None),
            Err(_no_memory) => return Err(AllocError),
        };
        let Ok(read) = read_page(alloc, page, size)? else {
            return Ok(None);
        };
        if !leads_there(&splits, kind, number, &read) {
            return Ok(None);
        }
        let pages = one_page(alloc, number, read)?;
        Ok(Some(Image {
            alloc,
            kind,
            size,
            dir: splits,
            pages,
        }))
    }

    /// Returns `true` if the page with this number has pairs.
    pub fn has_pairs(&self, number: u32) -> bool
        ensures yes { result ≡ true → pairs_at self.now number ≢ [] }
        ensures no { result ≡ false → pairs_at self.now number ≡ [] }
        ensures database { IsDatabase self.now }
    {
        self.page(number).is_some()
    }

    /// Returns the numbers of the pages that have pairs, in ascending order.
    ///
    /// # Errors
    /// `AllocError` if allocation fails.
    pub fn page_numbers(&self) -> Result<Vec<u32, A>, AllocError>
        ensures covers { IfOk result (λ numbers. (n : ℕ) → pairs_at self.now n ≢ [] → Contains numbers.items n) }
        ensures only { IfOk result (λ numbers. All (λ (n : ℕ). pairs_at self.now n ≢ []) numbers.items) }
        ensures ascending { IfOk result (λ numbers. IsStrictlyIncreasing numbers.items) }
    {
        let mut numbers = copy_numbers(self.alloc, &self.pages)?;
        numbers.sort_unstable();
        Ok(numbers)
    }
}

// Returns `true` if there is no page, or if each key of the page leads to page `number`.
fn leads_there<A: Allocator>(
    dir: &Dir<A>,
    kind: KeyBytes,
    number: u32,
    page: &Option<SharedPage<A>>,
) -> bool
    ensures { IsTrue result ↔ LeadTo kind dir.now.splits number (pairs_of_page page.now) }
{
    match page {
        None => true,
        Some(page) => keys_lead(dir, kind, number as usize, page.page()),
    }
}

// Makes a map with at most one page, under its number.
fn one_page<A: Allocator + Copy>(
    alloc: A,
    number: u32,
    page: Option<SharedPage<A>>,
) -> Result<Pages<A>, AllocError>
    ensures pages { IfOk result (λ pages. pages_of pages.entries ≡ put_page (pages_of []) number (pairs_of_page page)) }
    ensures sizes { IfOk result (λ pages. (size : PageSize) → IfSome page (λ content. content.size ≡ size) → AreSized size pages.entries) }
{
    let mut pages = HashMap::new(alloc);
    let Some(page) = page else {
        return Ok(pages);
    };
    match replace_page(&mut pages, number, page) {
        Ok(()) => Ok(pages),
        Err(_) => Err(AllocError),
    }
}

// Returns the numbers of all pages, in no particular order.
fn copy_numbers<A: Allocator + Copy>(alloc: A, pages: &Pages<A>) -> Result<Vec<u32, A>, AllocError>
    ensures copy { IfOk result (λ numbers. numbers.items ≡ keys pages.now) }
    ensures unique { IsUnique nat_eq pages.now }
{
    let mut numbers = Vec::new(alloc);
    for number in pages.keys() {
        numbers.push(*number)?;
    }
    Ok(numbers)
}
