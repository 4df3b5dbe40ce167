//! The state of cases, and the opening of stores.

use crate::calls::{open, opening};
use crate::case::Case;
use linked_list_allocator::LocalHeap;
use sdbm_addr::{KeyBytes, PageSize};
use sdbm_files::Image;
use std::alloc::{AllocError, Allocator, Global};
use std::fmt::Write;
use std::mem;
use store_cmd::Trail;
use store_shared::{Calls, Gate, Store};
use test_support::{MOST_TIMES, fill, show_pairs};

/// The number of additional bytes for each new attempt of a call.
pub const STEP: usize = 16;

/// The state that is carried from one case to the next.
#[derive(Drop)]
pub struct Bench<'h, R, A: Allocator> {
    pub rt: &'h R,
    /// The allocator of texts, and the allocator of stores.
    pub global: Global,
    pub alloc: A,
    /// The heap of stores, if its memory can run out.
    pub heap: Option<&'h LocalHeap>,
    /// The answers so far.
    pub out: String,
    /// The database and the trail of the store that was closed last.
    pub image: Option<Image<A>>,
    pub trail: Option<Trail<A>>,
    /// The calls of sessions that ended after that.
    pub hands: Vec<Option<Calls<A>>>,
}

/// The note on a call that was refused `times` times because memory ran out.
pub fn more_text(times: usize) -> &'static str {
    if times > 0 { ", with more memory" } else { "" }
}

impl<'h, R, A: Allocator + Copy> Bench<'h, R, A> {
    /// An empty bench.
    pub fn new(rt: &'h R, global: Global, alloc: A) -> Self {
        Bench {
            rt,
            global,
            alloc,
            heap: None,
            out: String::new(global),
            image: None,
            trail: None,
            hands: Vec::new(global),
        }
    }

    /// Takes the answers and leaves an empty text.
    pub fn take_out(&mut self) -> String {
        mem::replace(&mut self.out, String::new(self.global))
    }

    /// Allocates all memory of the heap except `spared` bytes. It is free again when the result is dropped.
    pub fn take_memory(&self, spared: usize) -> Result<Vec<Vec<u8, &'h LocalHeap>>, AllocError> {
        match self.heap {
            Some(heap) => fill(self.global, heap, spared),
            None => Ok(Vec::new(self.global)),
        }
    }

    /// The pairs of a database as text.
    pub fn pairs_text(&self, image: &Image<A>) -> Option<String> {
        let mut text = String::from_str(self.global, "pairs").ok()?;
        show_pairs(&mut text, image.pairs().ok()?.as_slice()).ok()?;
        Some(text)
    }

    fn take_image(&mut self, kept: bool) -> Option<Image<A>> {
        if kept {
            return self.image.take();
        }
        Some(Image::empty(self.alloc, KeyBytes::Signed, PageSize::Small))
    }

    /// Opens the store of a case with more and more memory until there is enough. A refused database has to be unchanged.
    pub fn open_store<G: Gate>(&mut self, case: Case<'_>, gate: G) -> Option<Store<A, G>> {
        let mut given = (self.take_image(case.kept)?, gate);
        let before = self.pairs_text(&given.0)?;
        for times in 0..MOST_TIMES {
            let blocks = self.take_memory(STEP * times).ok()?;
            let opened = open(self.alloc, given.0, case.limit, given.1);
            drop(blocks);
            match opened {
                Ok(store) => {
                    let (pairs, more) = (opening(&store), more_text(times));
                    writeln!(self.out, "opened with {pairs} pairs{more}").ok()?;
                    return Some(store);
                }
                Err(refused) => given = refused,
            }
            if self.pairs_text(&given.0)? != before {
                return None;
            }
        }
        None
    }
}
