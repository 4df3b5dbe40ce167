//! Equality of codes.

ghost use Rattle.std.specs.Prelude.{◌≡◌, ◌↔◌, ◌/◌, ◌^◌, IsTrue, IfSome};
ghost use Rattle.bpf_insn.specs.Spelling.{HasSpelling, high_number};
ghost use Rattle.bpf_insn.specs.Code.{IsCode};

use crate::code::Code;
use crate::fields::Fields;
use crate::insn::Insn;
use crate::spelling::row;
use std::alloc::Allocator;

/// The high half of a constant of 64 bits; 0 for any other instruction.
fn high_of(insn: Insn) -> u64
    ensures { result ≡ high_number insn }
{
    match insn {
        Insn::Wide { value, .. } => value / 0x1_0000_0000,
        _ => 0,
    }
}

fn same_fields(a: Fields, b: Fields) -> bool
    ensures { IsTrue result ↔ (a ≡ b) }
{
    a == b
}

/// Compares two instructions of the table by their spellings.
fn same_insn(a: Insn, b: Insn) -> bool
    requires left { HasSpelling a }
    requires right { HasSpelling b }
    ensures { IsTrue result ↔ (a ≡ b) }
{
    if !same_fields(row(a), row(b)) {
        return false;
    }
    high_of(a) == high_of(b)
}

fn same_slot(a: Option<Insn>, b: Option<Insn>) -> bool
    requires left { IfSome a HasSpelling }
    requires right { IfSome b HasSpelling }
    ensures { IsTrue result ↔ (a ≡ b) }
{
    match (a, b) {
        (None, None) => true,
        (Some(a), Some(b)) => same_insn(a, b),
        _ => false,
    }
}

fn same_code<A: Allocator>(a: &Code<A>, b: &Code<A>) -> bool
    ensures same { IsTrue result ↔ (a.now ≡ b.now) }
    ensures left { IsCode a.now }
    ensures right { IsCode b.now }
{
    let units = a.units();
    if units != b.units() {
        return false;
    }
    for unit in 0..units {
        if !same_slot(a.insn_at(unit), b.insn_at(unit)) {
            return false;
        }
    }
    true
}

impl<A: Allocator> PartialEq for Code<A> {
    ghost use Rattle.std.specs.Prelude.{◌≡◌, ◌↔◌, IsTrue};
    ghost use Rattle.std.specs.Str.{bytes_eq};
    ghost use Rattle.std.specs.Cmp.{on_per, partial_equiv_from_equiv};
    ghost use Rattle.std.specs.Cmp.Lexicographic.{nat_list_eq_equiv};
    ghost use Rattle.bpf_insn.specs.Code.{image_of};

    ghost eq = { λ c d. bytes_eq (image_of c) (image_of d) };

    ghost laws = { on_per image_of (partial_equiv_from_equiv nat_list_eq_equiv) };

    /// Compares the instructions. Two codes are equal if and only if their images are equal.
    /// Allocates no memory.
    fn eq(&self, other: &Self) -> bool
        ensures exact { IsTrue result ↔ (self.now ≡ other.now) }
        ensures value { result ≡ bytes_eq (image_of self.now) (image_of other.now) }
    {
        same_code(self, other)
    }
}
