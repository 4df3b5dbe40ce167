//! The state of a test.

use linked_list_allocator::LocalHeap;
use sdbm_addr::{KeyBytes, PageSize};
use sdbm_files::Image;
use std::alloc::{Allocator, Global};

/// Both files of a database, its hash kind and its page size.
#[derive(Drop)]
pub struct Known {
    pub kind: KeyBytes,
    pub size: PageSize,
    pub dir: Vec<u8>,
    pub pag: Vec<u8>,
}

/// A database, and the files that were opened last.
#[derive(Drop)]
pub struct Bench<'h, A: Allocator> {
    /// The allocator of texts.
    pub global: Global,
    /// The allocator of the tested code.
    pub alloc: A,
    /// The heap of `alloc`, if its memory can run out.
    pub heap: Option<&'h LocalHeap>,
    /// Blocks that fill the heap.
    pub blocks: Vec<Vec<u8, &'h LocalHeap>>,
    pub image: Option<Image<A>>,
    pub known: Option<Known>,
}

impl<'h, A: Allocator + Copy> Bench<'h, A> {
    /// An empty bench.
    pub fn new(global: Global, alloc: A, heap: Option<&'h LocalHeap>) -> Self {
        Bench {
            global,
            alloc,
            heap,
            blocks: Vec::new(global),
            image: None,
            known: None,
        }
    }
}
