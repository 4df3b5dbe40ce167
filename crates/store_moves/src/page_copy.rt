//! A snapshot of the page of a place.
ghost use Rattle.std.specs.Prelude.{◌≡◌, ◌↔◌, IsTrue, IfOk, IfSome};
ghost use Rattle.sdbm_addr.specs.Database.{pairs_at};
ghost use Rattle.store_moves.specs.Works.{pairs_lent};

use sdbm_addr::PageSize;
use sdbm_files::Image;
use sdbm_page::{Page, SharedPage};
use std::alloc::{AllocError, Allocator};
use std::marker::Model;

/// A snapshot of the page of a place, modelled as its size and its pairs. It has no page if the place had none.
#[derive(Drop)]
pub struct PageCopy<A: Allocator> {
    size: PageSize,
    page: Option<SharedPage<A>>,
}

impl<A: Allocator> Model for PageCopy<A> {
    ghost use Rattle.std.specs.Prelude.{◌≡◌, IfSome};
    ghost use Rattle.sdbm_addr.specs.Pairs.{Content};
    ghost use Rattle.store_moves.specs.Works.{pairs_kept};

    ghost Value = { Content };

    ghost view = { λ a. record { size = a.size; pairs = pairs_kept a.page } };

    ghost invariant = { λ a. IfSome a.page (λ page. page.size ≡ a.size) };
}

impl<A: Allocator> PageCopy<A> {
    /// Takes a snapshot of the page with this number, without allocating.
    ///
    /// # Errors
    /// `AllocError` if the page's owner count is at its maximum.
    pub fn of(image: &Image<A>, number: u32) -> Result<Self, AllocError>
    where
        A: Copy,
        ensures size { IfOk result (λ copy. copy.size ≡ image.now.size) }
        ensures pairs { IfOk result (λ copy. copy.pairs ≡ pairs_at image.now number) }
    {
        let size = image.page_size();
        match image.page(number) {
            None => Ok(PageCopy { size, page: None }),
            Some(page) => {
                let shared = page.try_clone()?;
                Ok(PageCopy {
                    size,
                    page: Some(shared),
                })
            }
        }
    }

    /// Adds an owner to the page, without allocating.
    ///
    /// # Errors
    /// `AllocError` if the page's owner count is at its maximum.
    pub fn try_clone(&self) -> Result<Self, AllocError>
        ensures { IfOk result (λ copy. copy ≡ self.now) }
    {
        match &self.page {
            None => Ok(PageCopy {
                size: self.size,
                page: None,
            }),
            Some(page) => {
                let shared = page.try_clone()?;
                Ok(PageCopy {
                    size: self.size,
                    page: Some(shared),
                })
            }
        }
    }

    /// The size of the page.
    pub fn page_size(&self) -> PageSize
        ensures { result ≡ self.now.size }
    {
        self.size
    }

    /// The page, or `None` if the place had no page.
    pub fn page(&self) -> Option<&Page<A>>
        ensures pairs { pairs_lent result ≡ self.now.pairs }
        ensures size { IfSome result (λ page. page.now.size ≡ self.now.size) }
    {
        match &self.page {
            None => None,
            Some(page) => Some(page.page()),
        }
    }

    /// Returns true if the page with this number still has the size of the snapshot and the same pairs in the same order.
    pub fn is_still(&self, image: &Image<A>, number: u32) -> bool
    where
        A: Copy,
        ensures { IsTrue result ↔ (self.now.size ≡ image.now.size) × (self.now.pairs ≡ pairs_at image.now number) }
    {
        if self.size != image.page_size() {
            return false;
        }
        match (&self.page, image.page(number)) {
            (None, None) => true,
            (None, Some(page)) => page.page().is_empty(),
            (Some(page), None) => page.page().is_empty(),
            (Some(one), Some(another)) => one.page().equals(another.page()),
        }
    }

    /// Returns true if both snapshots have the same size and the same pairs in the same order.
    pub fn equals(&self, other: &PageCopy<A>) -> bool
        ensures { IsTrue result ↔ (self.now ≡ other.now) }
    {
        if self.size != other.size {
            return false;
        }
        match (&self.page, &other.page) {
            (None, None) => true,
            (None, Some(page)) => page.page().is_empty(),
            (Some(page), None) => page.page().is_empty(),
            (Some(one), Some(another)) => one.page().equals(another.page()),
        }
    }
}
