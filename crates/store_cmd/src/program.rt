//! Programs that commands carry.
ghost use Rattle.std.specs.Prelude.{◌≡◌, ◌↔◌, IsTrue, IfOk};
ghost use Rattle.std.specs.Arc.{arc_value};

use bpf_verify::Verified;
use std::alloc::{AllocError, Allocator};
use std::marker::Model;
use std::sync::Arc;

/// An accepted program that commands share, modelled as its list of instructions. It is read-only; the last owner frees it.
#[derive(Drop)]
pub struct Program<A: Allocator> {
    owned: Arc<Verified<A>, A>,
}

impl<A: Allocator> Model for Program<A> {
    ghost use Rattle.std.specs.Prelude.{List};
    ghost use Rattle.std.specs.Arc.{arc_value};
    ghost use Rattle.bpf_insn.specs.declared.insn.Insn.{Insn};

    ghost Value = { List Insn };

    ghost view = { λ a. (arc_value a.owned).code };
}

impl<A: Allocator> Program<A> {
    /// Wraps an owner of a program. Allocates nothing.
    pub fn new(owned: Arc<Verified<A>, A>) -> Self
        ensures { result ≡ (arc_value owned).code }
    {
        Program { owned }
    }

    /// The program, ready to run.
    pub fn verified(&self) -> &Verified<A>
        ensures { result.now.code ≡ self.now }
    {
        &*self.owned
    }

    /// Returns true if both programs have the same instructions. Allocates nothing.
    pub fn equals(&self, other: &Self) -> bool
        ensures { IsTrue result ↔ (self.now ≡ other.now) }
    {
        *self.owned == *other.owned
    }

    /// Adds an owner, without allocating. Returns an error if the owner count is at its maximum.
    pub fn try_clone(&self) -> Result<Self, AllocError>
        ensures { IfOk result (λ copy. copy ≡ self.now) }
    {
        let owned = Arc::try_clone(&self.owned)?;
        Ok(Program { owned })
    }
}

impl<A: Allocator> PartialEq for Program<A> {
    ghost use Rattle.std.specs.Prelude.{◌≡◌, ◌↔◌, IsTrue};
    ghost use Rattle.std.specs.Str.{bytes_eq};
    ghost use Rattle.std.specs.Cmp.{on_per, partial_equiv_from_equiv};
    ghost use Rattle.std.specs.Cmp.Lexicographic.{nat_list_eq_equiv};
    ghost use Rattle.bpf_insn.specs.Code.{image_of};

    ghost eq = { λ c d. bytes_eq (image_of c) (image_of d) };

    ghost laws = { on_per image_of (partial_equiv_from_equiv nat_list_eq_equiv) };

    /// Returns true if both programs have the same instructions. Allocates nothing.
    fn eq(&self, other: &Self) -> bool
        ensures exact { IsTrue result ↔ (self.now ≡ other.now) }
        ensures value { result ≡ bytes_eq (image_of self.now) (image_of other.now) }
    {
        *self.owned == *other.owned
    }
}
