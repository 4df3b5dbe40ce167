//! The kinds of registers before each instruction of a program, in a compact table.

ghost use Rattle.std.specs.Prelude.{◌≡◌, ◌≤◌, ◌<◌, ◌+◌, [], true, length, Some, None, IfOk, OnOk, vec_len, vec_capacity};
ghost use Rattle.bpf_verify.specs.Kinds.{AddsRow, AreRows, Extends, IsAt};
ghost use Rattle.bpf_verify.specs.States.{States};
ghost use Rattle.bpf_verify.specs.Verified.{kind_at};

use bpf_flow::State;
use bpf_range::Kind;
use std::alloc::{AllocError, Allocator};

/// The kinds of registers at each unit. A row has, for each register, the index of its kind in the pool. Consecutive units mostly differ
/// in one register, so their rows share the other kinds.
#[derive(Drop)]
pub(crate) struct Kinds<A: Allocator> {
    pub(crate) pool: Vec<Kind, A>,
    // One row for each unit so far; `None` if the unit has no state.
    pub(crate) rows: Vec<Option<[u16; 11]>, A>,
    // The last row that is not `None`. The kinds of the next row are looked up there first.
    last: [u16; 11],
}

fn is_same(one: &Kind, other: &Kind) -> bool
    ensures { result ≡ true → one.now ≡ other.now }
{
    match (one, other) {
        (Kind::Unset, Kind::Unset) => true,
        (Kind::RecLen, Kind::RecLen) => true,
        (Kind::ArgLen, Kind::ArgLen) => true,
        (Kind::Num(one), Kind::Num(other)) => *one == *other,
        (Kind::Rec { lo, hi }, Kind::Rec { lo: low, hi: high }) => *lo == *low && *hi == *high,
        (Kind::Arg { lo, hi }, Kind::Arg { lo: low, hi: high }) => *lo == *low && *hi == *high,
        (Kind::Stack { lo, hi }, Kind::Stack { lo: low, hi: high }) => *lo == *low && *hi == *high,
        _ => false,
    }
}

impl<A: Allocator> Kinds<A> {
    /// Creates an empty table, with memory for `units` rows and at least `units` kinds.
    pub(crate) fn new(alloc: A, units: usize) -> Result<Kinds<A>, AllocError>
    where
        A: Copy,
        ensures pool { IfOk result (λ k. length k.pool.items ≤ 1) }
        ensures rows { IfOk result (λ k. k.rows.items ≡ []) }
        ensures room { IfOk result (λ k. units ≤ vec_capacity k.rows) }
    {
        let mut rows = Vec::new(alloc);
        rows.reserve(units)?;
        let mut pool = Vec::new(alloc);
        pool.reserve(units + 16)?;
        pool.push(Kind::Unset)?;
        Ok(Kinds {
            pool,
            rows,
            last: [0; 11],
        })
    }

    /// Adds a unit without a state.
    pub(crate) fn skip(&mut self)
        requires room { vec_len self.old.rows < vec_capacity self.old.rows }
        ensures adds { AddsRow self.old.pool.items self.new.pool.items self.old.rows.items self.new.rows.items None }
        ensures room { vec_capacity self.new.rows ≡ vec_capacity self.old.rows }
    {
        self.rows.push_reserved(None);
    }

    /// Adds a unit with its state.
    pub(crate) fn add(&mut self, state: &State) -> Result<(), AllocError>
        requires room { vec_len self.old.rows < vec_capacity self.old.rows }
        requires few { length self.old.pool.items + 11 ≤ 0x1_0000 }
        ensures adds { OnOk result (AddsRow self.old.pool.items self.new.pool.items self.old.rows.items self.new.rows.items (Some state.now)) }
        ensures room { OnOk result (vec_capacity self.new.rows ≡ vec_capacity self.old.rows) }
    {
        let mut row = self.last;
        for register in 0..11usize {
            row[register] = self.place(row[register], &state.kinds[register])?;
        }
        self.rows.push_reserved(Some(row));
        self.last = row;
        Ok(())
    }

    // The index of a kind in the pool: `likely` or 0 (the index of `Unset`) if the kind is there, otherwise a new index.
    fn place(&mut self, likely: u16, kind: &Kind) -> Result<u16, AllocError>
        requires few { length self.old.pool.items < 0x1_0000 }
        ensures at { IfOk result (λ place. IsAt self.new.pool.items place kind.now) }
        ensures extends { Extends self.old.pool.items self.new.pool.items }
        ensures few { length self.new.pool.items ≤ length self.old.pool.items + 1 }
        ensures rows { self.new.rows ≡ self.old.rows }
    {
        if self.is_at(likely, kind) {
            return Ok(likely);
        }
        if self.is_at(0, kind) {
            return Ok(0);
        }
        let place = self.pool.len() as u16;
        self.pool.push(*kind)?;
        Ok(place)
    }

    // Returns true if the pool has the kind at an index.
    fn is_at(&self, place: u16, kind: &Kind) -> bool
        ensures { result ≡ true → IsAt self.now.pool.items place kind.now }
    {
        match self.pool.get(place as usize) {
            Some(there) => is_same(there, kind),
            None => false,
        }
    }

    /// Drops unused memory of the pool.
    pub(crate) fn shrink(&mut self)
        ensures pool { self.new.pool.items ≡ self.old.pool.items }
        ensures rows { self.new.rows.items ≡ self.old.rows.items }
    {
        self.pool.shrink_to_fit();
    }

    /// Returns the kind of a register at a unit, or `None` if the unit has no state.
    pub(crate) fn get(&self, at: usize, register: usize) -> Option<Kind>
        requires { register ≤ 10 }
        ensures { (states : States) → AreRows self.now.pool.items self.now.rows.items states → result ≡ kind_at states at register }
    {
        let Some(row) = self.rows.get(at)? else {
            return None;
        };
        let kind = self.pool.get(row[register] as usize)?;
        Some(*kind)
    }
}
