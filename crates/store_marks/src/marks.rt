//! The set of pages that may differ from the saved database.
ghost use Rattle.std.specs.Prelude.{◌≡◌, ◌↔◌, ◌⊎◌, ◌<◌, ℕ, false, List, [], length, take, get_or, IsTrue, OnOk, OnErr, Contains};
ghost use Rattle.store_marks.specs.Marks.{HasMoreMarks};

use std::alloc::{AllocError, Global};
use std::marker::Model;

/// A set of page numbers, in order of insertion. Look-up takes constant time.
#[derive(Drop)]
pub struct Marks {
    marked: Vec<bool>,
    numbers: Vec<u32>,
}

impl Model for Marks {
    ghost use Rattle.std.specs.Prelude.{ℕ, List};
    ghost use Rattle.store_marks.specs.Marks.{AreMarked};

    ghost Value = { List ℕ };

    ghost view = { λ a. a.numbers.items };

    ghost invariant = { λ a. AreMarked a.marked.items a.numbers.items };
}

// Makes room for the mark of a number. The existing marks are unchanged.
fn grow(marked: &mut Vec<bool>, number: u32) -> Result<(), AllocError>
    ensures same { (n : ℕ) → get_or marked.new.items n false ≡ get_or marked.old.items n false }
    ensures ok { OnOk result (number < length marked.new.items) }
{
    let at = number as usize;
    if at < marked.len() {
        return Ok(());
    }
    marked.resize(at + 1, false)
}

impl Marks {
    /// Makes an empty set. Allocates nothing.
    pub fn new(alloc: Global) -> Marks
        ensures { result ≡ [] }
    {
        Marks {
            marked: Vec::new(alloc),
            numbers: Vec::new(alloc),
        }
    }

    /// The numbers, in order of insertion.
    pub fn as_slice(&self) -> &[u32]
        ensures { result.now ≡ self.now }
    {
        self.numbers.as_slice()
    }

    /// Returns true if the set contains a number.
    pub fn has(&self, number: u32) -> bool
        ensures { IsTrue result ↔ Contains self.now number }
    {
        match self.marked.get(number as usize) {
            Some(bit) => *bit,
            None => false,
        }
    }

    /// Adds a number, unless it is in the set.
    ///
    /// # Errors
    /// `AllocError` if out of memory. The set is unchanged.
    pub fn add(&mut self, number: u32) -> Result<(), AllocError>
        ensures more { HasMoreMarks self.old self.new }
        ensures only { (n : ℕ) → Contains self.new n → Contains self.old n ⊎ (n ≡ number) }
        ensures ok { OnOk result (Contains self.new number) }
        ensures err { OnErr result (self.new ≡ self.old) }
    {
        if self.has(number) {
            return Ok(());
        }
        grow(&mut self.marked, number)?;
        self.numbers.push(number)?;
        self.marked[number as usize] = true;
        Ok(())
    }

    /// Adds the numbers that are not in the set yet.
    ///
    /// # Errors
    /// `AllocError` if out of memory. The set is unchanged.
    pub fn add_all(&mut self, numbers: &[u32]) -> Result<(), AllocError>
        ensures more { HasMoreMarks self.old self.new }
        ensures ok { OnOk result ((n : ℕ) → Contains numbers.now n → Contains self.new n) }
        ensures err { OnErr result (self.new ≡ self.old) }
    {
        let len = self.as_slice().len();
        for number in numbers {
            let Ok(()) = self.add(*number) else {
                self.cut(len);
                return Err(AllocError);
            };
        }
        Ok(())
    }

    /// Keeps the first `len` numbers and removes those added later.
    pub fn cut(&mut self, len: usize)
        ensures { self.new ≡ take len self.old }
    {
        while self.numbers.len() > len {
            if let Some(number) = self.numbers.pop() {
                self.marked[number as usize] = false;
            }
        }
    }
}
