//! The two files of a database as one value: the directory of `.dir`, and the pages of `.pag` that have pairs, by number.
#![tactic(auto)]

ghost use Rattle.std.specs.Prelude.{◌≡◌, ◌≢◌, ◌<◌, ◌≤◌, ◌+◌, ◌%◌, ◌^◌, [], length, true, false, IfOk, OnOk, IfErr, OnErr, IfSome};
ghost use Rattle.std.specs.Option.{option_map};
ghost use Rattle.std.specs.FinMap as map;
ghost use Rattle.sdbm_addr.specs.Hash.{hash_of};
ghost use Rattle.sdbm_addr.specs.Directory.{IsDepth, hash_prefix, page_of, word_number};
ghost use Rattle.sdbm_addr.specs.Pairs.{value_at, pair_limit};
ghost use Rattle.sdbm_addr.specs.Database.{pairs_at, map_of, empty_database, Database, IsDatabase};
ghost use Rattle.sdbm_addr.specs.Files.{SpellsDatabase};
ghost use Rattle.sdbm_page.specs.Rewritten.{rewritten};
ghost use Rattle.sdbm_split.specs.InPlace.{MayStore, with_stored};
ghost use Rattle.sdbm_files.specs.Lent.{pairs_lent};
ghost use Rattle.sdbm_files.specs.Installed.{installed, content_at, IsInstallable};
ghost use Rattle.sdbm_files.specs.Opened.{IsOpenFault, SpellsNoDatabase};

mod fault_text;
mod ghost_bytes;
mod limits;
mod opening;
mod pages;
mod parsed;
mod parts;
mod reading;
mod sink;
mod widening;
mod writing;

pub use limits::{PAG_LIMIT, has_place};
pub use opening::OpenFault;
use opening::{copy_pages, misplaced, read_dir};
use pages::{
    Pages, copy_pairs, count_pairs, grow_all, lend_pairs, mark_all, put_page, put_pages,
    replace_page, sort_lent, sort_pairs, store_pair, write_record,
};
pub use reading::{BLOCK, ReadPages};
use sdbm_addr::{Bytes, KeyBytes, Mode, PageSize, hash};
use sdbm_dir::{Dir, Place};
use sdbm_page::SharedPage;
use sdbm_split::Plan;
pub use sink::{MemSink, Sink, SinkFault};
use std::alloc::{AllocError, Allocator};
use std::collections::HashMap;
use std::marker::Model;
pub use widening::widen;
pub use writing::WriteFault;

/// A database. The model is the kind of hashing, the page size, the split prefixes, and the pairs of each page. Every pair is on the page
/// that its key leads to. Pages without pairs are not stored.
#[derive(Drop)]
pub struct Image<A: Allocator> {
    alloc: A,
    kind: KeyBytes,
    size: PageSize,
    dir: Dir<A>,
    pages: Pages<A>,
}

impl<A: Allocator> Model for Image<A> {
    ghost use Rattle.sdbm_addr.specs.Database.{Database, coded_database};
    ghost use Rattle.sdbm_files.specs.Kept.{database_of, IsKept};

    ghost Value = { Database };

    ghost coded = { coded_database };

    ghost view = { λ a. database_of a.kind a.size a.dir.splits a.pages.entries };

    ghost invariant = { λ a. IsKept a.kind a.size a.dir.splits a.pages.entries };
}

impl<A: Allocator + Copy> Image<A> {
    /// Makes a database without pairs or splits. Does not allocate.
    pub fn empty(alloc: A, kind: KeyBytes, size: PageSize) -> Self
        ensures { result ≡ empty_database kind size }
    {
        Image {
            alloc,
            kind,
            size,
            dir: Dir::empty(alloc),
            pages: HashMap::new(alloc),
        }
    }

    /// Reads the bytes of `.dir` and `.pag` (Yigit, sdbm 1990). The files do not record how keys hash and how large pages are, so the
    /// caller passes both. The bytes may have any values. Free bytes, pages without pairs and zeros at the end of `.dir` are ignored.
    ///
    /// # Errors
    /// `PagLength` if `.pag` is not a whole number of pages; otherwise `Page` with the lowest number of an invalid page, and its fault;
    /// otherwise `Dir` with the fault of `.dir`, if its bytes spell no directory; otherwise `Misplaced` with the lowest number of a page
    /// with a key that leads to another page. `NoMemory` if an allocation fails before one of these faults is found.
    pub fn open(
        alloc: A,
        dir: &[u8],
        pag: &[u8],
        kind: KeyBytes,
        size: PageSize,
    ) -> Result<Self, OpenFault>
        ensures database { IfOk result (λ image. SpellsDatabase image dir.now pag.now) }
        ensures kind { IfOk result (λ image. image.kind ≡ kind) }
        ensures size { IfOk result (λ image. image.size ≡ size) }
        ensures only { IfOk result (λ image. (db : Database) → db.kind ≡ kind → db.size ≡ size → SpellsDatabase db dir.now pag.now → db ≡ image) }
        ensures fault { IfErr result (IsOpenFault kind size dir.now pag.now) }
        ensures none { IfErr result (λ fault. fault ≢ OpenFault.NoMemory → SpellsNoDatabase kind size dir.now pag.now) }
    {
        if pag.len() % size.bytes() != 0 {
            return Err(OpenFault::PagLength);
        }
        let mut read = ReadPages::new(alloc, size);
        let Ok(()) = read.push(pag) else {
            return Err(OpenFault::NoMemory);
        };
        Image::open_parsed(alloc, dir, &read, kind)
    }

    /// Like `open`, for a `.pag` that was read in pieces, with pages of either size. If `pag` has the page size of the database, both share
    /// the pages until the database changes them; otherwise all bytes are copied and parsed again. `pag` does not change.
    ///
    /// # Errors
    /// Those of `open`.
    pub fn open_read(
        alloc: A,
        dir: &[u8],
        pag: &ReadPages<A>,
        kind: KeyBytes,
        size: PageSize,
    ) -> Result<Self, OpenFault>
        ensures database { IfOk result (λ image. SpellsDatabase image dir.now pag.now.bytes) }
        ensures kind { IfOk result (λ image. image.kind ≡ kind) }
        ensures size { IfOk result (λ image. image.size ≡ size) }
        ensures only { IfOk result (λ image. (db : Database) → db.kind ≡ kind → db.size ≡ size → SpellsDatabase db dir.now pag.now.bytes → db ≡ image) }
        ensures fault { IfErr result (IsOpenFault kind size dir.now pag.now.bytes) }
        ensures none { IfErr result (λ fault. fault ≢ OpenFault.NoMemory → SpellsNoDatabase kind size dir.now pag.now.bytes) }
    {
        if pag.page_size() == size {
            return Image::open_parsed(alloc, dir, pag, kind);
        }
        if pag.len() % size.bytes() != 0 {
            return Err(OpenFault::PagLength);
        }
        let Ok(bytes) = pag.to_vec(alloc) else {
            return Err(OpenFault::NoMemory);
        };
        Image::open(alloc, dir, bytes.as_slice(), kind, size)
    }

    // Opens a database with the page size of `pag`.
    fn open_parsed(
        alloc: A,
        dir: &[u8],
        pag: &ReadPages<A>,
        kind: KeyBytes,
    ) -> Result<Self, OpenFault>
        ensures database { IfOk result (λ image. SpellsDatabase image dir.now pag.now.bytes) }
        ensures kind { IfOk result (λ image. image.kind ≡ kind) }
        ensures size { IfOk result (λ image. image.size ≡ pag.now.size) }
        ensures only { IfOk result (λ image. (db : Database) → db.kind ≡ kind → db.size ≡ pag.now.size → SpellsDatabase db dir.now pag.now.bytes → db ≡ image) }
        ensures fault { IfErr result (IsOpenFault kind pag.now.size dir.now pag.now.bytes) }
        ensures none { IfErr result (λ fault. fault ≢ OpenFault.NoMemory → SpellsNoDatabase kind pag.now.size dir.now pag.now.bytes) }
    {
        let size = pag.size;
        if pag.len % size.bytes() != 0 {
            return Err(OpenFault::PagLength);
        }
        if let Some((number, fault)) = pag.parsed.bad {
            return Err(OpenFault::Page(number, fault));
        }
        let splits = match read_dir(alloc, dir) {
            Ok(splits) => splits,
            Err(fault) => return Err(fault),
        };
        let count = pag.parsed.count;
        if let Some(number) = misplaced(&splits, kind, &pag.parsed.pages, count) {
            return Err(OpenFault::Misplaced(number));
        }
        let Ok(pages) = copy_pages(alloc, &pag.parsed.pages) else {
            return Err(OpenFault::NoMemory);
        };
        Ok(Image {
            alloc,
            kind,
            size,
            dir: splits,
            pages,
        })
    }

    /// Returns the way in which keys hash.
    pub fn key_bytes(&self) -> KeyBytes
        ensures { result ≡ self.now.kind }
    {
        self.kind
    }

    /// Returns the page size.
    pub fn page_size(&self) -> PageSize
        ensures { result ≡ self.now.size }
    {
        self.size
    }

    /// Borrows the page with this number, or returns `None` if the page has no pairs.
    pub fn page(&self, number: u32) -> Option<&SharedPage<A>>
        ensures pairs { option_map (λ p. p.now.pairs) result ≡ map.get self.now.pages number }
        ensures size { IfSome result (λ p. p.now.size ≡ self.now.size) }
        ensures database { IsDatabase self.now }
    {
        self.pages.get(&number)
    }

    /// Returns the place of a key.
    pub fn place(&self, key: &[u8]) -> Place
        ensures depth { IsDepth self.now.splits (hash_of self.now.kind key.now) result.depth }
        ensures shallow { result.depth ≤ 31 }
        ensures low_bits { result.page ≡ hash_of self.now.kind key.now % 2 ^ result.depth }
        ensures page { result.page ≡ page_of self.now.splits (hash_of self.now.kind key.now) }
        ensures bit { result.bit ≡ word_number (hash_prefix result.depth (hash_of self.now.kind key.now)) }
        ensures database { IsDatabase self.now }
    {
        self.dir.place(hash(key, self.kind))
    }

    /// Installs a plan for the page of a place: replaces this page by the leaf, adds the twins, and marks the bits. A plan without splits
    /// allocates only if the place has no page yet.
    ///
    /// # Errors
    /// `AllocError`, with the plan, if allocation fails. The database is unchanged then.
    pub fn install(&mut self, place: Place, plan: Plan<A>) -> Result<(), (AllocError, Plan<A>)>
        requires { IsInstallable self.old place.page plan.leaf plan.twins.items plan.bits.items }
        ensures ok { OnOk result (self.new ≡ installed self.old place.page plan.leaf plan.twins.items plan.bits.items) }
        ensures err { OnErr result (self.new ≡ self.old) }
        ensures returned { IfErr result (λ refused. refused.1 ≡ plan) }
    {
        if plan.twins.is_empty() && plan.bits.is_empty() {
            return self.install_leaf(place, plan);
        }
        let Ok(()) = self.pages.reserve(plan.twins.len() + 1) else {
            return Err((AllocError, plan));
        };
        let Ok(()) = grow_all(&mut self.dir, plan.bits.as_slice()) else {
            return Err((AllocError, plan));
        };
        let Plan { leaf, twins, bits } = plan;
        put_page(&mut self.pages, place.page, leaf);
        put_pages(&mut self.pages, twins);
        mark_all(&mut self.dir, bits.as_slice());
        Ok(())
    }

    // Installs a plan without splits. Allocates only if the place has no page yet.
    fn install_leaf(&mut self, place: Place, plan: Plan<A>) -> Result<(), (AllocError, Plan<A>)>
        requires installable { IsInstallable self.old place.page plan.leaf plan.twins.items plan.bits.items }
        requires twins { plan.twins.items ≡ [] }
        requires bits { plan.bits.items ≡ [] }
        ensures ok { OnOk result (self.new ≡ installed self.old place.page plan.leaf plan.twins.items plan.bits.items) }
        ensures err { OnErr result (self.new ≡ self.old) }
        ensures returned { IfErr result (λ refused. refused.1 ≡ plan) }
    {
        let Plan { leaf, twins, bits } = plan;
        match replace_page(&mut self.pages, place.page, leaf) {
            Ok(()) => Ok(()),
            Err(leaf) => Err((AllocError, Plan { leaf, twins, bits })),
        }
    }

    /// Overwrites the value of pair `i` of page `number` with a value of the same length. Returns `false` and changes nothing if the page
    /// has another owner. Does not allocate.
    pub fn write_record(&mut self, number: u32, i: usize, value: &[u8]) -> bool
        requires inside { i < length (pairs_at self.old number) }
        requires long { length value.now ≡ length (value_at (pairs_at self.old number) i) }
        requires installable { IsInstallable self.old number (rewritten (content_at self.old number) i value.now) [] [] }
        ensures written { result ≡ true → self.new ≡ installed self.old number (rewritten (content_at self.old number) i value.now) [] [] }
        ensures kept { result ≡ false → self.new ≡ self.old }
    {
        write_record(&mut self.pages, number, i, value)
    }

    /// Stores a pair by changing page `number` in place. Returns `false` and changes nothing if this page does not exist or has another
    /// owner, if the key of an insert exists, or if the pair does not fit without a split. Does not allocate.
    pub fn store_pair(&mut self, number: u32, key: &[u8], value: &[u8], mode: Mode) -> bool
        requires small { length key.now + length value.now ≤ pair_limit self.old.size }
        requires installable { MayStore mode (content_at self.old number) key.now value.now
            → IsInstallable self.old number (with_stored (content_at self.old number) key.now value.now) [] [] }
        ensures may { result ≡ true → MayStore mode (content_at self.old number) key.now value.now }
        ensures there { result ≡ true → pairs_at self.old number ≢ [] }
        ensures stored { result ≡ true → self.new ≡ installed self.old number (with_stored (content_at self.old number) key.now value.now) [] [] }
        ensures kept { result ≡ false → self.new ≡ self.old }
    {
        store_pair(&mut self.pages, number, key, value, mode)
    }

    /// Returns the number of pairs.
    pub fn count(&self) -> usize
        ensures { result ≡ map.len (map_of self.now) }
    {
        count_pairs(&self.pages)
    }

    /// Copies all pairs, sorted by the bytes of their keys, or returns an error if allocation fails.
    pub fn pairs(&self) -> Result<Vec<(Bytes<A>, Bytes<A>), A>, AllocError>
        ensures pairs { IfOk result (λ pairs. pairs.items ≡ map.entries (map_of self.now)) }
        ensures database { IsDatabase self.now }
    {
        let mut pairs = copy_pairs(self.alloc, &self.pages)?;
        sort_pairs(&mut pairs);
        Ok(pairs)
    }

    /// Borrows all pairs from their pages, sorted by the bytes of their keys. Copies no keys and no values. Returns an error if the list
    /// cannot be allocated.
    pub fn lend_pairs(&self) -> Result<Vec<(&[u8], &[u8]), A>, AllocError>
        ensures pairs { IfOk result (λ lent. pairs_lent lent.items ≡ map.entries (map_of self.now)) }
        ensures database { IsDatabase self.now }
    {
        let mut lent = lend_pairs(self.alloc, &self.pages)?;
        sort_lent(&mut lent);
        Ok(lent)
    }
}
