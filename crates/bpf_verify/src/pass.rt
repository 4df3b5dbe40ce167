//! The states of a pass over a program's instructions.

ghost use Rattle.std.specs.Prelude.{◌≡◌, ◌<◌, ◌+◌, ℕ, Bool, length, replicate, Some, None, IfOk};
ghost use Rattle.std.specs.Option.{option_map};
ghost use Rattle.std.specs.Box.{box_value};
ghost use Rattle.bpf_flow.specs.States.{Fits};
ghost use Rattle.bpf_verify.specs.States.{state_at};
ghost use Rattle.bpf_verify.specs.Visits.{Joins, Keeps, Ready};

use crate::ghost_states::GhostStates;
use crate::table::States;
use bpf_flow::{State, join_states};
use std::alloc::{AllocError, Allocator};

/// The states of a pass. `noted` has all states, for contracts only. `kept` has the stored states: either all, or those of the units ahead.
#[derive(Drop)]
pub(crate) struct Pass<A: Allocator> {
    pub(crate) noted: GhostStates,
    pub(crate) kept: States<A>,
}

/// Joins the new state with the old state, if any.
fn joined<A: Allocator>(old: Option<Box<State, A>>, state: Box<State, A>) -> Box<State, A>
    ensures new { (c : _) → Fits (box_value state) c → Fits (box_value result) c }
    ensures kept { (s : _) (c : _) → option_map box_value old ≡ Some s → Fits s c → Fits (box_value result) c }
{
    match old {
        Some(mut before) => {
            join_states(&mut before, &state);
            before
        }
        None => state,
    }
}

impl<A: Allocator + Copy> Pass<A> {
    /// Creates a pass without states, for `units` units.
    pub(crate) fn new(alloc: A, units: usize) -> Result<Pass<A>, AllocError>
        ensures noted { IfOk result (λ p. p.noted.states ≡ replicate units None) }
        ensures kept { IfOk result (λ p. p.kept ≡ replicate units None) }
    {
        let kept = States::none(alloc, units)?;
        Ok(Pass {
            noted: GhostStates::none(units),
            kept,
        })
    }

    /// Takes the state out of a unit, or clones it if all states are kept.
    pub(crate) fn take(
        &mut self,
        alloc: A,
        all: bool,
        at: usize,
    ) -> Result<Option<Box<State, A>>, AllocError>
        requires within { at < length self.old.kept }
        requires keeps { Keeps all at self.old.noted.states self.old.kept }
        ensures value { IfOk result (λ o. option_map box_value o ≡ state_at self.old.noted.states at) }
        ensures noted { self.new.noted ≡ self.old.noted }
        ensures keeps { Keeps all (at + 1) self.new.noted.states self.new.kept }
    {
        if !all {
            return Ok(self.kept.take(at));
        }
        match self.kept.get(at) {
            Some(state) => Ok(Some(Box::new(alloc, *state)?)),
            None => Ok(None),
        }
    }

    /// Joins the state on an edge into its target.
    pub(crate) fn add(&mut self, to: usize, state: Box<State, A>)
        requires { Ready self.old.noted.states self.old.kept to }
        ensures joins { Joins self.old.noted.states self.new.noted.states to (box_value state) }
        ensures ready { (u : ℕ) → Ready self.old.noted.states self.old.kept u → Ready self.new.noted.states self.new.kept u }
        ensures keeps { (all : Bool) (at : ℕ) → Keeps all at self.old.noted.states self.old.kept → Keeps all at self.new.noted.states self.new.kept }
    {
        let both = joined(self.kept.take(to), state);
        self.noted = self.noted.with(to, &both);
        self.kept.put(to, both);
    }
}
