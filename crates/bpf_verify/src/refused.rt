//! Refused programs.

use crate::fault::VerifyFault;
use crate::table::States;
use bpf_insn::Code;
use std::alloc::{Allocator, Global};

/// A refused program, its fault, and the states at the time of the fault. Up to the invalid instruction they are the states that `verify`
/// computes. There are no states if the structure is invalid.
#[derive(Drop)]
pub struct Refused<A: Allocator = Global> {
    pub fault: VerifyFault,
    pub code: Code<A>,
    pub states: States<A>,
}
