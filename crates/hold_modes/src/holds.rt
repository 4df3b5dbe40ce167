//! The list of holds.
ghost use Rattle.std.specs.Prelude.{◌≡◌, ◌↔◌, ◌++◌, ◌∷◌, [], IsTrue, OnOk, OnErr, IsErr, false, true};
ghost use Rattle.std.specs.List.{list_any};
ghost use Rattle.hold_modes.specs.Held.{bars, is_of, is_shared, is_updating, held_by, without, made_exclusive, obeys_rule, update_in, exclusive_in};

use crate::few::{convert, find, is_barred, release};
use crate::indexed::{Indexed, make_index};
use crate::modes::{Busy, Held, Hold, Ticket};
use std::alloc::{AllocError, Allocator, Global};
use std::marker::Model;

/// The reason why a page could not be taken.
#[derive(Clone, Copy, Debug, PartialEq, Eq)]
pub enum HoldFault {
    /// Another ticket holds the page in a mode that bars the requested one.
    Busy,
    /// Allocation failed.
    NoMemory,
}

// The greatest number of holds without an index. Searching this few is faster than using an index.
const FEW: usize = 16;

/// The holds on pages. The model is the list of holds, oldest first. Each ticket has at most one hold, and any two holds on one page are
/// compatible. When a seventeenth hold is added, an index is created and used from then on: it finds holds by ticket and by page without a
/// search through the list.
#[derive(Drop)]
pub struct Holds<A: Allocator = Global> {
    alloc: A,
    // All holds until the index is created.
    few: Vec<Held, A>,
    // All holds once the index is created.
    many: Option<Indexed<A>>,
}

impl<A: Allocator> Model for Holds<A> {
    ghost use Rattle.std.specs.Prelude.{List, ◌≡◌, true};
    ghost use Rattle.hold_modes.specs.declared.modes.Held.{Held};
    ghost use Rattle.hold_modes.specs.Held.{obeys_rule};
    ghost use Rattle.hold_modes.specs.Few.{all_of};

    ghost Value = { List Held };

    ghost view = { λ s. all_of s.few.items s.many };

    ghost invariant = { λ s. obeys_rule (all_of s.few.items s.many) ≡ true };
}

impl<A: Allocator + Copy> Holds<A> {
    /// Makes an empty list of holds. Does not allocate.
    pub fn new(alloc: A) -> Self
        ensures { result ≡ [] }
    {
        Holds {
            alloc,
            few: Vec::new(alloc),
            many: None,
        }
    }

    /// Adds a hold on a page for a ticket that holds nothing. On error the holds are unchanged.
    ///
    /// # Errors
    /// `Busy` if and only if another ticket holds the page in a mode that bars the requested one; otherwise `NoMemory` if allocation fails.
    pub fn take(&mut self, page: u32, mode: Hold, ticket: Ticket) -> Result<(), HoldFault>
        requires { list_any (is_of ticket) self.old ≡ false }
        ensures ok { OnOk result (self.new ≡ self.old ++ record { page = page; mode = mode; ticket = ticket } ∷ []) }
        ensures busy { (result ≡ Err HoldFault.Busy) ↔ IsTrue (list_any (bars page mode) self.old) }
        ensures err { OnErr result (self.new ≡ self.old) }
        ensures rule { obeys_rule self.new ≡ true }
    {
        // This read lets the proof use the invariant of the holds.
        let _few = &self.few;
        if self.bars(page, mode) {
            return Err(HoldFault::Busy);
        }
        if self.take_free(page, mode, ticket).is_err() {
            return Err(HoldFault::NoMemory);
        }
        Ok(())
    }

    /// Adds a hold on a page for a ticket that holds nothing. No hold on the page may bar the mode; the caller tests this with `bars`.
    ///
    /// # Errors
    /// `AllocError` if allocation for one more hold fails. The holds are then unchanged.
    pub fn take_free(&mut self, page: u32, mode: Hold, ticket: Ticket) -> Result<(), AllocError>
        requires ticket { list_any (is_of ticket) self.old ≡ false }
        requires free { list_any (bars page mode) self.old ≡ false }
        ensures ok { OnOk result (self.new ≡ self.old ++ record { page = page; mode = mode; ticket = ticket } ∷ []) }
        ensures err { OnErr result (self.new ≡ self.old) }
        ensures rule { obeys_rule self.new ≡ true }
    {
        if let Some(many) = &mut self.many {
            return many.take_free(page, mode, ticket);
        }
        if self.few.len() < FEW {
            self.few.push(Held { page, mode, ticket })?;
            return Ok(());
        }
        let mut many = make_index(self.alloc, self.few.as_slice())?;
        many.take_free(page, mode, ticket)?;
        self.many = Some(many);
        Ok(())
    }

    /// Returns `true` if some hold on the page bars the mode.
    pub fn bars(&self, page: u32, mode: Hold) -> bool
        ensures { result ≡ list_any (bars page mode) self.now }
    {
        match &self.many {
            Some(many) => many.bars(page, mode),
            None => is_barred(self.few.as_slice(), page, mode),
        }
    }

    /// Returns the page and the mode that the ticket holds, or `None` if it holds nothing.
    pub fn get(&self, ticket: Ticket) -> Option<(u32, Hold)>
        ensures { result ≡ held_by ticket self.now }
    {
        match &self.many {
            Some(many) => many.get(ticket),
            None => find(self.few.as_slice(), ticket),
        }
    }

    /// Returns `true` if the ticket has an update hold.
    pub fn is_updating(&self, ticket: Ticket) -> bool
        ensures { result ≡ update_in (held_by ticket self.now) }
    {
        match self.get(ticket) {
            Some((_, Hold::Update)) => true,
            _ => false,
        }
    }

    /// Returns `true` if the ticket has an exclusive hold.
    pub fn is_exclusive(&self, ticket: Ticket) -> bool
        ensures { result ≡ exclusive_in (held_by ticket self.now) }
    {
        match self.get(ticket) {
            Some((_, Hold::Exclusive)) => true,
            _ => false,
        }
    }

    /// Makes a ticket's update hold exclusive. Does not allocate.
    ///
    /// # Errors
    /// `Busy` if and only if another ticket has a hold on the page, which can only be a read hold. The holds are then unchanged.
    pub fn convert(&mut self, ticket: Ticket) -> Result<(), Busy>
        requires { is_updating ticket self.old ≡ true }
        ensures ok { OnOk result (self.new ≡ made_exclusive ticket self.old) }
        ensures busy { IsErr result ↔ IsTrue (is_shared ticket self.old) }
        ensures err { OnErr result (self.new ≡ self.old) }
        ensures rule { obeys_rule self.new ≡ true }
    {
        match &mut self.many {
            Some(many) => many.convert(ticket),
            None => convert(self.few.as_mut_slice(), ticket),
        }
    }

    /// Removes the ticket's hold and returns its page and mode, or `None` if the ticket holds nothing. Does not allocate.
    pub fn release(&mut self, ticket: Ticket) -> Option<(u32, Hold)>
        ensures value { result ≡ held_by ticket self.old }
        ensures rest { self.new ≡ without ticket self.old }
        ensures rule { obeys_rule self.new ≡ true }
    {
        match &mut self.many {
            Some(many) => many.release(ticket),
            None => release(&mut self.few, ticket),
        }
    }
}
