//! Holds indexed by ticket and by page.
ghost use Rattle.std.specs.Prelude.{◌≡◌, ◌↔◌, ◌++◌, ◌∷◌, [], IsTrue, IfOk, OnOk, OnErr, IsErr, false, true};
ghost use Rattle.std.specs.List.{list_any};
ghost use Rattle.hold_modes.specs.Held.{bars, is_of, is_shared, is_updating, held_by, without, made_exclusive, obeys_rule};

use crate::hold_queue::HoldQueue;
use crate::modes::{Busy, Held, Hold, Ticket};
use crate::pages::Pages;
use std::alloc::{AllocError, Allocator};
use std::marker::Model;

/// The same list as in `Holds`, with an index that finds holds by ticket and by page without a search through the list.
#[derive(Drop)]
pub struct Indexed<A: Allocator> {
    taken: HoldQueue<A>,
    pages: Pages<A>,
}

impl<A: Allocator> Model for Indexed<A> {
    ghost use Rattle.std.specs.Prelude.{List, ◌≡◌, true};
    ghost use Rattle.hold_modes.specs.declared.modes.Held.{Held};
    ghost use Rattle.hold_modes.specs.Held.{obeys_rule};
    ghost use Rattle.hold_modes.specs.Uses.{IsIndex};

    ghost Value = { List Held };

    ghost view = { λ s. s.taken };

    ghost invariant = { λ s. (obeys_rule s.taken ≡ true) × IsIndex s.pages.uses s.taken };
}

impl<A: Allocator + Copy> Indexed<A> {
    // Makes an empty list of holds. Does not allocate.
    pub(crate) fn new(alloc: A) -> Self
        ensures { result ≡ [] }
    {
        Indexed {
            taken: HoldQueue::new(alloc),
            pages: Pages::new(alloc),
        }
    }

    // Adds a hold on a page for a ticket that holds nothing. No hold on the page may bar the mode.
    pub(crate) fn take_free(
        &mut self,
        page: u32,
        mode: Hold,
        ticket: Ticket,
    ) -> Result<(), AllocError>
        requires ticket { list_any (is_of ticket) self.old ≡ false }
        requires free { list_any (bars page mode) self.old ≡ false }
        ensures ok { OnOk result (self.new ≡ self.old ++ record { page = page; mode = mode; ticket = ticket } ∷ []) }
        ensures err { OnErr result (self.new ≡ self.old) }
        ensures rule { obeys_rule self.new ≡ true }
    {
        let uses = self.pages.at(page);
        self.pages.reserve()?;
        self.taken.push(page, mode, ticket)?;
        self.pages.put(page, uses.with(mode));
        Ok(())
    }

    // Returns `true` if some hold on the page bars the mode.
    pub(crate) fn bars(&self, page: u32, mode: Hold) -> bool
        ensures { result ≡ list_any (bars page mode) self.now }
    {
        self.pages.at(page).bar(mode)
    }

    // Returns the page and the mode that the ticket holds, or `None` if it holds nothing.
    pub(crate) fn get(&self, ticket: Ticket) -> Option<(u32, Hold)>
        ensures { result ≡ held_by ticket self.now }
    {
        self.taken.get(ticket)
    }

    // Makes a ticket's update hold exclusive. Fails with `Busy` if and only if another ticket holds the page.
    pub(crate) fn convert(&mut self, ticket: Ticket) -> Result<(), Busy>
        requires { is_updating ticket self.old ≡ true }
        ensures ok { OnOk result (self.new ≡ made_exclusive ticket self.old) }
        ensures busy { IsErr result ↔ IsTrue (is_shared ticket self.old) }
        ensures err { OnErr result (self.new ≡ self.old) }
        ensures rule { obeys_rule self.new ≡ true }
    {
        let Some((page, _)) = self.taken.get(ticket) else {
            unreachable!()
        };
        let others = self.pages.at(page).without(Hold::Update);
        if !others.is_none() {
            return Err(Busy);
        }
        self.taken.make_exclusive(ticket);
        self.pages.change(page, others.with(Hold::Exclusive));
        Ok(())
    }

    // Removes the ticket's hold and returns its page and mode, or `None` if the ticket holds nothing. Does not allocate.
    pub(crate) fn release(&mut self, ticket: Ticket) -> Option<(u32, Hold)>
        ensures value { result ≡ held_by ticket self.old }
        ensures rest { self.new ≡ without ticket self.old }
        ensures rule { obeys_rule self.new ≡ true }
    {
        let (page, mode) = self.taken.remove(ticket)?;
        let others = self.pages.at(page).without(mode);
        self.pages.change(page, others);
        Some((page, mode))
    }
}

// Builds an indexed list from a list of holds.
pub(crate) fn make_index<A: Allocator + Copy>(
    alloc: A,
    few: &[Held],
) -> Result<Indexed<A>, AllocError>
    requires { obeys_rule few.now ≡ true }
    ensures { IfOk result (λ many. many ≡ few.now) }
{
    let mut many = Indexed::new(alloc);
    for held in few {
        many.take_free(held.page, held.mode, held.ticket)?;
    }
    Ok(many)
}
