//! The state of a test.

use desk_core::{Desk, Done, Job};
use linked_list_allocator::LocalHeap;
use sdbm_files::Image;
use std::alloc::{AllocError, Allocator, Global};
use store_cmd::Trail;

/// A command in a hand: a job, or a computed command.
#[derive(Drop)]
pub enum InHand<A: Allocator> {
    Job(Job<A>),
    Done(Done<A>),
}

// The number of hands.
const HANDS: usize = 4;

/// The content of each hand.
pub type Hands<A> = Vec<Option<InHand<A>>>;

/// Two desks, which can be swapped; the database and the trail of the desk that was closed last; and the hands.
#[derive(Drop)]
pub struct Bench<'h, A: Allocator> {
    /// The allocator of texts.
    pub global: Global,
    /// The allocator of desks.
    pub alloc: A,
    /// The heap of `alloc`, if its memory can run out.
    pub heap: Option<&'h LocalHeap>,
    pub desk: Option<Desk<A>>,
    pub beside: Option<Desk<A>>,
    pub image: Option<Image<A>>,
    pub trail: Option<Trail<A>>,
    pub hands: Hands<A>,
}

impl<'h, A: Allocator + Copy> Bench<'h, A> {
    /// A bench without a desk, with empty hands.
    pub fn new(global: Global, alloc: A, heap: Option<&'h LocalHeap>) -> Result<Self, AllocError> {
        let mut hands = Vec::new(global);
        for _ in 0..HANDS {
            hands.push(None)?;
        }
        Ok(Bench {
            global,
            alloc,
            heap,
            desk: None,
            beside: None,
            image: None,
            trail: None,
            hands,
        })
    }
}

/// Takes the content of a hand.
pub fn take<A: Allocator>(hands: &mut Hands<A>, hand: usize) -> Option<InHand<A>> {
    hands.get_mut(hand)?.take()
}

/// Puts a command in a hand and replaces what the hand had.
pub fn put<A: Allocator>(hands: &mut Hands<A>, hand: usize, what: InHand<A>) {
    if let Some(place) = hands.get_mut(hand) {
        *place = Some(what);
    }
}
