//! A few holds in a vector, searched one after another.
ghost use Rattle.std.specs.Prelude.{◌≡◌, ◌↔◌, true, IsTrue, IsErr, OnOk, OnErr};
ghost use Rattle.std.specs.List.{list_any, position};
ghost use Rattle.hold_modes.specs.Held.{bars, is_beside, is_of, is_shared, is_updating, held_by, without, made_exclusive, obeys_rule};

use crate::modes::{Busy, Held, Hold, Ticket, compatible};
use std::alloc::Allocator;

// Returns `true` if some hold on the page bars the mode.
pub(crate) fn is_barred(few: &[Held], page: u32, mode: Hold) -> bool
    ensures { result ≡ list_any (bars page mode) few.now }
{
    few.iter()
        .any(|held| held.page == page && !compatible(held.mode, mode))
}

// Returns the page and the mode that the ticket holds, or `None` if it holds nothing.
pub(crate) fn find(few: &[Held], ticket: Ticket) -> Option<(u32, Hold)>
    ensures { result ≡ held_by ticket few.now }
{
    let at = place(few, ticket)?;
    Some((few[at].page, few[at].mode))
}

// Makes a ticket's update hold exclusive. Fails with `Busy` if and only if another ticket holds the page.
pub(crate) fn convert(few: &mut [Held], ticket: Ticket) -> Result<(), Busy>
    requires updating { is_updating ticket few.old ≡ true }
    requires rule { obeys_rule few.old ≡ true }
    ensures ok { OnOk result (few.new ≡ made_exclusive ticket few.old) }
    ensures busy { IsErr result ↔ IsTrue (is_shared ticket few.old) }
    ensures err { OnErr result (few.new ≡ few.old) }
    ensures rule { obeys_rule few.new ≡ true }
{
    let Some(at) = place(few, ticket) else {
        unreachable!()
    };
    if has_others(few, few[at].page, ticket) {
        return Err(Busy);
    }
    few[at].mode = Hold::Exclusive;
    Ok(())
}

// Removes the ticket's hold and returns its page and mode, or `None` if the ticket holds nothing.
pub(crate) fn release<A: Allocator>(few: &mut Vec<Held, A>, ticket: Ticket) -> Option<(u32, Hold)>
    ensures value { result ≡ held_by ticket few.old.items }
    ensures rest { few.new.items ≡ without ticket few.old.items }
{
    let at = place(few.as_slice(), ticket)?;
    let held = few.remove(at);
    Some((held.page, held.mode))
}

// Returns the index of the ticket's hold.
fn place(few: &[Held], ticket: Ticket) -> Option<usize>
    ensures { result ≡ position (is_of ticket) few.now }
{
    few.iter().position(|held| held.ticket.0 == ticket.0)
}

// Returns `true` if another ticket has a hold on the page.
fn has_others(few: &[Held], page: u32, ticket: Ticket) -> bool
    ensures { result ≡ list_any (is_beside page ticket) few.now }
{
    few.iter()
        .any(|held| held.page == page && held.ticket.0 != ticket.0)
}
