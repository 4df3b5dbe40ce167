//! The holds, oldest first, indexed by ticket.
ghost use Rattle.std.specs.Prelude.{◌≡◌, ◌<◌, ◌≤◌, ◌-◌, ◌^◌, ◌++◌, ◌∷◌, [], false, length, None, nat_eq, OnOk, OnErr};
ghost use Rattle.std.specs.List.{list_any};
ghost use Rattle.std.specs.Map.{lookup};
ghost use Rattle.lru.specs.LruCache.{lru_cache};
ghost use Rattle.hold_modes.specs.Held.{is_of, held_by, without, made_exclusive};

use crate::modes::{Held, Hold, Ticket};
use lru::{DefaultHasher, LruCache};
use std::alloc::{AllocError, Allocator};
use std::marker::Model;

/// The holds, oldest first. A hold is found by its ticket in constant time on average.
#[derive(Drop)]
pub struct HoldQueue<A: Allocator> {
    alloc: A,
    // The oldest hold is first. `None` until the first hold is added, because even an empty cache allocates.
    holds: Option<LruCache<usize, (u32, Hold), DefaultHasher, A>>,
}

impl<A: Allocator> Model for HoldQueue<A> {
    ghost use Rattle.std.specs.Prelude.{List};
    ghost use Rattle.hold_modes.specs.declared.modes.Held.{Held};
    ghost use Rattle.hold_modes.specs.HoldQueue.{held_in, IsUnbounded};

    ghost Value = { List Held };

    ghost view = { λ t. held_in t.holds };

    ghost invariant = { λ t. IsUnbounded t.holds };
}

impl<A: Allocator + Copy> HoldQueue<A> {
    // Makes an empty list of holds. Does not allocate.
    pub(crate) fn new(alloc: A) -> Self
        ensures { result ≡ [] }
    {
        HoldQueue { alloc, holds: None }
    }

    // Adds a hold at the end, for a ticket that holds nothing.
    pub(crate) fn push(&mut self, page: u32, mode: Hold, ticket: Ticket) -> Result<(), AllocError>
        requires { list_any (is_of ticket) self.old ≡ false }
        ensures ok { OnOk result (self.new ≡ self.old ++ record { page = page; mode = mode; ticket = ticket } ∷ []) }
        ensures err { OnErr result (self.new ≡ self.old) }
        ensures fits { OnOk result (length self.old < 2 ^ 63) }
    {
        match &mut self.holds {
            Some(holds) => add(holds, page, mode, ticket),
            None => {
                let mut holds = LruCache::unbounded(self.alloc)?;
                add(&mut holds, page, mode, ticket)?;
                self.holds = Some(holds);
                Ok(())
            }
        }
    }

    // Returns the page and the mode that the ticket holds, or `None` if it holds nothing.
    pub(crate) fn get(&self, ticket: Ticket) -> Option<(u32, Hold)>
        ensures { result ≡ held_by ticket self.now }
    {
        let Some(holds) = &self.holds else {
            return None;
        };
        holds.peek(&ticket.0).copied()
    }

    // Makes the ticket's hold exclusive if it has one.
    pub(crate) fn make_exclusive(&mut self, ticket: Ticket)
        ensures { self.new ≡ made_exclusive ticket self.old }
    {
        let Some(holds) = &mut self.holds else {
            return;
        };
        let Some(hold) = holds.peek_mut(&ticket.0) else {
            return;
        };
        hold.1 = Hold::Exclusive;
    }

    // Removes the ticket's hold and returns its page and mode, or `None` if the ticket holds nothing.
    pub(crate) fn remove(&mut self, ticket: Ticket) -> Option<(u32, Hold)>
        ensures value { result ≡ held_by ticket self.old }
        ensures rest { self.new ≡ without ticket self.old }
    {
        let Some(holds) = &mut self.holds else {
            return None;
        };
        holds.pop(&ticket.0)
    }
}

// Adds a hold at the end.
fn add<A: Allocator + Copy>(
    holds: &mut LruCache<usize, (u32, Hold), DefaultHasher, A>,
    page: u32,
    mode: Hold,
    ticket: Ticket,
) -> Result<(), AllocError>
    requires absent { lookup (nat_eq ticket.0) holds.old.entries ≡ None }
    requires unbounded { holds.old.cap ≡ 2 ^ 64 - 1 }
    ensures ok { OnOk result (holds.new ≡ lru_cache (holds.old.entries ++ (ticket.0, (page, mode)) ∷ []) (2 ^ 64 - 1)) }
    ensures err { OnErr result (holds.new ≡ holds.old) }
    ensures fits { length holds.old.entries < 2 ^ 63 }
{
    let _fits = holds.len();
    holds.put(ticket.0, (page, mode))?;
    holds.demote(&ticket.0);
    Ok(())
}
