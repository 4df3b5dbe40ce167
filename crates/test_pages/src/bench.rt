//! The state of a test.

use crate::list_page::ListPage;
use linked_list_allocator::LocalHeap;
use sdbm_addr::PageSize;
use sdbm_dir::Dir;
use sdbm_page::Page;
use std::alloc::{Allocator, Global};

/// A directory; a page and the list of its pairs; and a copy of the page.
#[derive(Drop)]
pub struct Bench<'h, A: Allocator> {
    /// The allocator of texts.
    pub global: Global,
    /// The allocator of the tested code.
    pub alloc: A,
    /// The heap of `alloc`, if its memory can run out.
    pub heap: Option<&'h LocalHeap>,
    /// Blocks that fill the heap.
    pub blocks: Vec<Vec<u8, &'h LocalHeap>>,
    pub dir: Dir<A>,
    pub page: Option<Page<A>>,
    pub copy: Option<Page<A>>,
    pub list: ListPage,
}

impl<'h, A: Allocator + Copy> Bench<'h, A> {
    /// An empty bench.
    pub fn new(global: Global, alloc: A, heap: Option<&'h LocalHeap>) -> Self {
        Bench {
            global,
            alloc,
            heap,
            blocks: Vec::new(global),
            dir: Dir::empty(alloc),
            page: None,
            copy: None,
            list: ListPage::empty(global, PageSize::Small),
        }
    }
}
