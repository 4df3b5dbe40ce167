//! The states of a program, by unit.

ghost use Rattle.std.specs.Prelude.{◌≡◌, ◌<◌, [], length, slice_set, replicate, Some, None, IfOk};
ghost use Rattle.std.specs.Option.{option_map};
ghost use Rattle.std.specs.Box.{box_value};
ghost use Rattle.bpf_verify.specs.States.{state_at};

use bpf_flow::State;
use std::alloc::{AllocError, Allocator, Global};
use std::marker::Model;

/// The state before the instruction at each unit. A unit has no state if no edge leads to the unit. A unit without a state takes the memory
/// of a pointer.
#[derive(Drop)]
pub struct States<A: Allocator = Global> {
    boxes: Vec<Option<Box<State, A>>, A>,
}

impl<A: Allocator> Model for States<A> {
    ghost use Rattle.bpf_verify.specs.States.{States as StateList, unboxed};

    ghost Value = { StateList };

    ghost view = { λ a. unboxed a.boxes.items };
}

impl<A: Allocator> States<A> {
    /// Creates an empty table. Allocates no memory.
    pub(crate) fn empty(alloc: A) -> States<A>
        ensures { result ≡ [] }
    {
        States {
            boxes: Vec::new(alloc),
        }
    }

    /// Creates a table of `units` units without states.
    pub(crate) fn none(alloc: A, units: usize) -> Result<States<A>, AllocError>
        ensures { IfOk result (λ s. s ≡ replicate units None) }
    {
        let mut boxes = Vec::new(alloc);
        boxes.reserve(units)?;
        for _ in 0..units {
            boxes.push(None)?;
        }
        Ok(States { boxes })
    }

    /// Returns the state at a unit, or `None` if the unit has no state.
    pub fn get(&self, at: usize) -> Option<&State>
        ensures { option_map (λ s. s.now) result ≡ state_at self.now at }
    {
        let Some(boxed) = self.boxes.get(at)? else {
            return None;
        };
        Some(&**boxed)
    }

    /// Sets the state at a unit, and drops the old state.
    pub(crate) fn put(&mut self, at: usize, state: Box<State, A>)
        requires { at < length self.old }
        ensures { self.new ≡ slice_set self.old at (Some (box_value state)) }
    {
        self.boxes[at] = Some(state);
    }

    /// Removes the state at a unit.
    pub(crate) fn take(&mut self, at: usize) -> Option<Box<State, A>>
        requires { at < length self.old }
        ensures value { option_map box_value result ≡ state_at self.old at }
        ensures gone { self.new ≡ slice_set self.old at None }
    {
        self.boxes[at].take()
    }
}
