// States that only contracts read: proofs can speak of all states of a pass although no state is stored at run time.
ghost use Rattle.std.specs.Prelude.{◌≡◌, slice_set, replicate, Some, None};
ghost use base.Fml.{ftrue};
ghost use Rattle.bpf_verify.specs.States.{States as StateList};

use bpf_flow::State;
use std::marker::Model;

/// The states of a program, by unit, for contracts. A `GhostStates` is empty at run time and owns nothing.
pub struct GhostStates {
    pub ghost states: { StateList },
}

impl Model for GhostStates {
    ghost also_owns = { λ _. ftrue };
}

impl GhostStates {
    /// Creates the value with no state at any of `units` units.
    pub(crate) fn none(units: usize) -> GhostStates
        ensures { result.states ≡ replicate units None }
    {
        let _ = units;
        GhostStates {}
    }

    /// Returns the states with the state at the unit `at` replaced.
    #[inline(always)]
    pub(crate) fn with(&self, at: usize, state: &State) -> GhostStates
        ensures { result.states ≡ slice_set self.now.states at (Some state.now) }
    {
        let _ = at;
        let _ = state;
        GhostStates {}
    }
}

// The value owns nothing, so any thread may own or share it.
unsafe impl Send for GhostStates {}

unsafe impl Sync for GhostStates {}

impl Drop for GhostStates {
    fn drop(self) {
        let GhostStates {} = self;
    }
}
