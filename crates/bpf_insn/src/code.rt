//! A program as a list of instructions.

ghost use Rattle.std.specs.Prelude.{◌≡◌, ◌≤◌, ◌<◌, ◌+◌, ◌++◌, ◌∷◌, [], length, IfOk, OnOk, OnErr, IfSome, IsTrue, ◌↔◌};
ghost use Rattle.bpf_insn.specs.Spelling.{HasSpelling};
ghost use Rattle.bpf_insn.specs.Code.{unit_count, units_of, fetch, IsCode, unit_limit};

use crate::insn::Insn;
use std::alloc::{AllocError, Allocator, Global};
use std::marker::Model;

impl Insn {
    /// The number of units: 2 for a constant of 64 bits, otherwise 1.
    pub fn units(&self) -> usize
        ensures { result ≡ units_of self.now }
    {
        match self {
            Insn::Wide { .. } => 2,
            _ => 1,
        }
    }
}

/// The maximum number of units of a code.
pub const UNIT_LIMIT: usize = 4096;

/// A code: a list of instructions of the table, of at most 4,096 units. In contracts, a code is this list.
#[derive(Drop)]
#[derive_where(Debug)]
pub struct Code<A: Allocator = Global> {
    // The slot of each unit; `None` for the second unit of a constant.
    slots: Vec<Option<Insn>, A>,
    count: usize,
}

impl<A: Allocator> Model for Code<A> {
    ghost use Rattle.std.specs.Prelude.{List};
    ghost use Rattle.bpf_insn.specs.declared.insn.Insn.{Insn};
    ghost use Rattle.bpf_insn.specs.Stored.{insns_of, IsStored};

    ghost Value = { List Insn };

    ghost view = { λ a. insns_of a.slots.items };

    ghost invariant = { λ a. IsStored a.slots.items a.count };
}

impl<A: Allocator> Code<A> {
    /// Creates an empty code. Allocates no memory.
    pub fn new(alloc: A) -> Code<A>
        ensures { result ≡ [] }
    {
        Code {
            slots: Vec::new(alloc),
            count: 0,
        }
    }

    /// Creates an empty code with memory for `units` units.
    pub fn with_capacity(alloc: A, units: usize) -> Result<Code<A>, AllocError>
        ensures { IfOk result (λ code. code ≡ []) }
    {
        let mut code = Code::new(alloc);
        code.slots.reserve(units)?;
        Ok(code)
    }

    /// The number of instructions.
    pub fn len(&self) -> usize
        ensures value { result ≡ length self.now }
        ensures is_code { IsCode self.now }
    {
        self.count
    }

    /// Returns true if there is no instruction.
    pub fn is_empty(&self) -> bool
        ensures { IsTrue result ↔ (self.now ≡ []) }
    {
        self.slots.is_empty()
    }

    /// The number of units: one for each instruction, two for a constant of 64 bits.
    pub fn units(&self) -> usize
        ensures value { result ≡ unit_count self.now }
        ensures limit { result ≤ unit_limit }
        ensures few { length self.now ≤ result }
        ensures is_code { IsCode self.now }
    {
        self.slots.len()
    }

    /// Returns the instruction that begins at a unit, or `None` at the second unit of a constant and
    /// past the end. Takes constant time.
    pub fn insn_at(&self, unit: usize) -> Option<Insn>
        ensures value { result ≡ fetch self.now unit }
        ensures has { IfSome result HasSpelling }
        ensures short { IfSome result (λ _. unit < unit_limit) }
        ensures within { IfSome result (λ insn. unit + units_of insn ≤ unit_count self.now) }
    {
        *self.slots.get(unit)?
    }

    /// Appends an instruction of the table. The code must stay within 4,096 units. If allocation
    /// fails, the code is unchanged.
    pub fn push(&mut self, insn: Insn) -> Result<(), AllocError>
        requires has { HasSpelling insn }
        requires room { unit_count self.old + units_of insn ≤ unit_limit }
        ensures ok { OnOk result (self.new ≡ self.old ++ insn ∷ []) }
        ensures err { OnErr result (self.new ≡ self.old) }
    {
        let units = insn.units();
        self.slots.reserve(units)?;
        self.count += 1;
        self.slots.push_reserved(Some(insn));
        if units == 2 {
            self.slots.push_reserved(None);
        }
        Ok(())
    }
}
