//! Parses the pages of a `.pag` file one by one.
ghost use Rattle.std.specs.Prelude.{◌≡◌, ◌≢◌, ◌<◌, ◌^◌, ℕ, List, [], Option, length, false, IfOk, IfErr, IfSome, OnOk, OnErr, None, unwrap_or};
ghost use Rattle.std.specs.HashMap.{spare};
ghost use Rattle.sdbm_addr.specs.Pairs.{page_bytes};
ghost use Rattle.sdbm_addr.specs.Layout.{bytes_of_page};
ghost use Rattle.sdbm_page.specs.Faults.{IsPageFault};
ghost use Rattle.sdbm_page.specs.declared.PageFault.TheVariants.{NoMemory};
ghost use Rattle.sdbm_files.specs.Kept.{pairs_under, AreSized};
ghost use Rattle.sdbm_files.specs.Opened.{IsRead, pairs_of_page};
ghost use Rattle.sdbm_files.specs.Reading.{AreTaken, Follows, HasPage, HasRaw, bytes_in, raw_under, known_under};

use crate::writing::zeros;
use sdbm_addr::PageSize;
use sdbm_page::{Page, PageFault, SharedPage, spells_empty};
use std::alloc::{AllocError, Allocator};
use std::collections::HashMap;
use std::hash::{BuildHasherDefault, FoldHasher};

/// Pages that have pairs, by their number in the file.
pub type Numbered<A> = HashMap<usize, SharedPage<A>, BuildHasherDefault<FoldHasher>, A>;

/// Bytes of whole pages, by their number in the file.
pub type Raw<A> = HashMap<usize, Vec<u8, A>, BuildHasherDefault<FoldHasher>, A>;

/// The result of parsing the whole pages of a file.
#[derive(Drop)]
pub struct Parsed<A: Allocator> {
    /// The pages that have pairs.
    pub pages: Numbered<A>,
    /// The bytes of pages that were not parsed, or whose bytes are not canonical. Pages of zeros are left out.
    pub raw: Raw<A>,
    /// The number of pages that were parsed.
    pub count: usize,
    /// The number of the first invalid page, if there is one, and its fault. No later page is parsed.
    pub bad: Option<(usize, PageFault)>,
}

impl<A: Allocator + Copy> Parsed<A> {
    /// Makes a result without pages.
    pub fn new(alloc: A) -> Self
        ensures pages { result.pages.entries ≡ [] }
        ensures raw { result.raw.entries ≡ [] }
        ensures count { result.count ≡ 0 }
        ensures bad { result.bad ≡ None }
    {
        Parsed {
            pages: HashMap::new(alloc),
            raw: HashMap::new(alloc),
            count: 0,
            bad: None,
        }
    }

    /// Adds page `number`, the next page of the file, and parses it unless an earlier page was invalid. If allocation fails, no page is
    /// added.
    pub fn take(
        &mut self,
        alloc: A,
        number: usize,
        bytes: &[u8],
        size: PageSize,
    ) -> Result<(), AllocError>
        requires long { length bytes.now ≡ page_bytes size }
        requires low { number < 2 ^ 63 }
        ensures ok { OnOk result (Follows size number bytes.now (AreTaken size self.old.pages.entries (raw_under self.old.raw.entries) self.old.count self.old.bad) (AreTaken size self.new.pages.entries (raw_under self.new.raw.entries) self.new.count self.new.bad)) }
        ensures err { OnErr result ((pag : List ℕ) → AreTaken size self.old.pages.entries (raw_under self.old.raw.entries) self.old.count self.old.bad number pag → AreTaken size self.new.pages.entries (raw_under self.new.raw.entries) self.new.count self.new.bad number pag) }
    {
        if self.bad.is_some() {
            return keep_bytes(alloc, &mut self.raw, number, bytes, size);
        }
        match read_page(alloc, bytes, size)? {
            Ok(page) => self.keep(alloc, number, page, bytes, size),
            Err(fault) => {
                keep_bytes(alloc, &mut self.raw, number, bytes, size)?;
                self.bad = Some((number, fault));
                Ok(())
            }
        }
    }

    // Adds a page that was parsed; `None` is a page without pairs. If allocation fails, no page is added.
    fn keep(
        &mut self,
        alloc: A,
        number: usize,
        page: Option<SharedPage<A>>,
        bytes: &[u8],
        size: PageSize,
    ) -> Result<(), AllocError>
        requires long { length bytes.now ≡ page_bytes size }
        requires low { number < 2 ^ 63 }
        requires read { IsRead size bytes.now page }
        requires sound { self.old.bad ≡ None }
        ensures ok { OnOk result (Follows size number bytes.now (AreTaken size self.old.pages.entries (raw_under self.old.raw.entries) self.old.count self.old.bad) (AreTaken size self.new.pages.entries (raw_under self.new.raw.entries) self.new.count self.new.bad)) }
        ensures err { OnErr result ((pag : List ℕ) → AreTaken size self.old.pages.entries (raw_under self.old.raw.entries) self.old.count self.old.bad number pag → AreTaken size self.new.pages.entries (raw_under self.new.raw.entries) self.new.count self.new.bad number pag) }
    {
        let copy = copy_foreign(alloc, &mut self.raw, own_bytes(&page, size), bytes)?;
        insert_page(&mut self.pages, number, page)?;
        put_bytes(&mut self.raw, number, copy);
        self.count = number + 1;
        Ok(())
    }

    /// Borrows the bytes of page `number`: the bytes stored for it, or else its canonical bytes.
    pub fn bytes(&self, number: usize, size: PageSize) -> &[u8]
        requires { AreSized size self.now.pages.entries }
        ensures { result.now ≡ known_under size self.now.pages.entries (raw_under self.now.raw.entries) number }
    {
        match self.raw.get(&number) {
            Some(bytes) => bytes.as_slice(),
            None => bytes_under(&self.pages, number, size),
        }
    }
}

// Stores the bytes of a page that is not parsed, unless they are all zeros.
fn keep_bytes<A: Allocator + Copy>(
    alloc: A,
    raw: &mut Raw<A>,
    number: usize,
    bytes: &[u8],
    size: PageSize,
) -> Result<(), AllocError>
    ensures ok { OnOk result ((kept : Option (List ℕ)) × (HasRaw (raw_under raw.old.entries) (raw_under raw.new.entries) number kept × (unwrap_or kept (bytes_of_page size []) ≡ bytes.now))) }
    ensures err { OnErr result ((n : ℕ) → raw_under raw.new.entries n ≡ raw_under raw.old.entries n) }
{
    let copy = copy_foreign(alloc, raw, zeros(size), bytes)?;
    put_bytes(raw, number, copy);
    Ok(())
}

// Copies bytes if they differ from the canonical bytes `own`, and makes room to store the copy.
fn copy_foreign<A: Allocator + Copy>(
    alloc: A,
    raw: &mut Raw<A>,
    own: &[u8],
    bytes: &[u8],
) -> Result<Option<Vec<u8, A>>, AllocError>
    ensures copy { IfOk result (λ copy. unwrap_or (bytes_in copy) own.now ≡ bytes.now) }
    ensures room { IfOk result (λ copy. IfSome copy (λ _. 0 < spare raw.new)) }
    ensures same { (n : ℕ) → raw_under raw.new.entries n ≡ raw_under raw.old.entries n }
{
    if !differs(own, bytes) {
        return Ok(None);
    }
    let copy = bytes.to_vec(alloc)?;
    raw.reserve(1)?;
    Ok(Some(copy))
}

// Stores the copy of a page's bytes under a number, if there is a copy.
fn put_bytes<A: Allocator + Copy>(raw: &mut Raw<A>, number: usize, copy: Option<Vec<u8, A>>)
    requires { IfSome copy (λ _. 0 < spare raw.old) }
    ensures { HasRaw (raw_under raw.old.entries) (raw_under raw.new.entries) number (bytes_in copy) }
{
    let Some(copy) = copy else {
        return;
    };
    let Ok(_none) = raw.insert(number, copy) else {
        unreachable!()
    };
}

// Stores a page under a number if there is a page.
fn insert_page<A: Allocator + Copy>(
    pages: &mut Numbered<A>,
    number: usize,
    page: Option<SharedPage<A>>,
) -> Result<(), AllocError>
    ensures ok { OnOk result (HasPage pages.old.entries pages.new.entries number page) }
    ensures err { OnErr result (pages.new.entries ≡ pages.old.entries) }
{
    let Some(page) = page else {
        return Ok(());
    };
    match pages.insert(number, page) {
        Ok(_none) => Ok(()),
        Err(_) => Err(AllocError),
    }
}

/// Reads the bytes of a page. Returns the page, or `None` if the page has no pairs. The inner error is the fault of bytes that spell no
/// page; the outer error means that allocation failed.
pub fn read_page<A: Allocator + Copy>(
    alloc: A,
    bytes: &[u8],
    size: PageSize,
) -> Result<Result<Option<SharedPage<A>>, PageFault>, AllocError>
    requires { length bytes.now ≡ page_bytes size }
    ensures page { IfOk result (λ read. IfOk read (IsRead size bytes.now)) }
    ensures fault { IfOk result (λ read. IfErr read (λ fault. IsPageFault size bytes.now fault × (fault ≢ NoMemory))) }
{
    if spells_empty(bytes, size) {
        return Ok(Ok(None));
    }
    match Page::from_bytes(alloc, bytes, size) {
        Ok(page) => Ok(Ok(Some(SharedPage::new(alloc, page)?))),
        Err(PageFault::NoMemory) => Err(AllocError),
        Err(fault) => Ok(Err(fault)),
    }
}

// Returns `true` if the bytes differ from the canonical bytes `own`.
fn differs(own: &[u8], bytes: &[u8]) -> bool
    ensures { result ≡ false → own.now ≡ bytes.now }
{
    own != bytes
}

// Returns the canonical bytes of a page; for `None`, those of a page without pairs.
fn own_bytes<A: Allocator>(page: &Option<SharedPage<A>>, size: PageSize) -> &[u8]
    requires { IfSome page.now (λ content. content.size ≡ size) }
    ensures { result.now ≡ bytes_of_page size (pairs_of_page page.now) }
{
    match page {
        Some(page) => page.page().bytes(),
        None => zeros(size),
    }
}

// Returns the canonical bytes of page `number`.
fn bytes_under<A: Allocator>(pages: &Numbered<A>, number: usize, size: PageSize) -> &[u8]
    requires { AreSized size pages.now.entries }
    ensures { result.now ≡ bytes_of_page size (pairs_under pages.now.entries number) }
{
    match pages.get(&number) {
        Some(page) => page.page().bytes(),
        None => zeros(size),
    }
}
