//! Programs by number, and numbers by image.

ghost use Rattle.std.specs.Prelude.{◌≡◌, ◌<◌, ◌↔◌, ◌++◌, ◌∷◌, [], Some, IsTrue, IfSome, IfNone, IfOk, OnOk, OnErr, length, slice_get};
ghost use Rattle.std.specs.Option.{option_map};
ghost use Rattle.std.specs.Arc.{arc_value};
ghost use Rattle.prog_registry.specs.Judged.{IsProgramOf};
ghost use Rattle.prog_registry.specs.Programs.{StandsAt, IsNew, ArePrograms, program_limit};

use bpf_verify::Verified;
use std::alloc::{AllocError, Allocator};
use std::collections::HashMap;
use std::hash::{BuildHasherDefault, FoldHasher};
use std::marker::Model;
use std::sync::Arc;

/// The maximum number of programs of a registry.
pub const PROGRAM_LIMIT: usize = 4096;

/// Maps images to their numbers.
type Numbers<A> = HashMap<Vec<u8, A>, u32, BuildHasherDefault<FoldHasher>, A>;

/// Accepted programs with distinct images, in the order of their arrival. A program's number is its index.
#[derive(Drop)]
pub struct Programs<A: Allocator> {
    list: Vec<Arc<Verified<A>, A>, A>,
    numbers: Numbers<A>,
}

impl<A: Allocator> Model for Programs<A> {
    ghost use Rattle.std.specs.Prelude.{List};
    ghost use Rattle.bpf_verify.specs.Verified.{Accepted};
    ghost use Rattle.prog_registry.specs.Kept.{values_of, IsKept};

    ghost Value = { List Accepted };

    ghost view = { λ a. values_of a.list.items };

    ghost invariant = { λ a. IsKept (values_of a.list.items) a.numbers.entries };
}

impl<A: Allocator> Programs<A> {
    /// Creates an empty list. Allocates no memory.
    pub fn new(alloc: A) -> Programs<A>
    where
        A: Copy,
        ensures { result ≡ [] }
    {
        Programs {
            list: Vec::new(alloc),
            numbers: HashMap::new(alloc),
        }
    }

    /// The allocator.
    pub fn allocator(&self) -> A
    where
        A: Copy,
    {
        *self.list.allocator()
    }

    /// Returns the number of a known image, or `None` if the image is new. Takes constant time on average.
    pub fn find(&self, image: &[u8]) -> Option<u32>
        ensures some { IfSome result (StandsAt self.now image.now) }
        ensures none { IfNone result (IsNew self.now image.now) }
        ensures programs { ArePrograms self.now }
    {
        self.numbers.get(image).copied()
    }

    /// Returns the program with a number, or `None` if no program has it.
    pub fn get(&self, number: u32) -> Option<&Arc<Verified<A>, A>>
        ensures value { option_map (λ p. arc_value p.now) result ≡ slice_get self.now number }
        ensures programs { ArePrograms self.now }
    {
        self.list.get(number as usize)
    }

    /// Returns true if the maximum number of programs is reached.
    pub fn is_full(&self) -> bool
        ensures value { IsTrue result ↔ (length self.now ≡ program_limit) }
        ensures programs { ArePrograms self.now }
    {
        self.list.len() == PROGRAM_LIMIT
    }

    /// Appends the program of a new image and returns its number. On error, nothing changes.
    pub fn add(&mut self, image: &[u8], program: Verified<A>) -> Result<u32, AllocError>
    where
        A: Copy,
        requires room { length self.old < program_limit }
        requires new { IsNew self.old image.now }
        requires program { IsProgramOf image.now program }
        ensures number { IfOk result (λ n. n ≡ length self.old) }
        ensures ok { OnOk result (self.new ≡ self.old ++ program ∷ []) }
        ensures err { OnErr result (self.new ≡ self.old) }
    {
        let alloc = *self.list.allocator();
        self.list.reserve(1)?;
        let (key, shared) = keyed(alloc, image, program)?;
        let number = self.list.len() as u32;
        if self.numbers.insert(key, number).is_err() {
            return Err(AllocError);
        }
        self.list.push_reserved(shared);
        Ok(number)
    }
}

// Copies the image, and makes the program shareable.
fn keyed<A: Allocator + Copy>(
    alloc: A,
    image: &[u8],
    program: Verified<A>,
) -> Result<(Vec<u8, A>, Arc<Verified<A>, A>), AllocError>
    ensures key { IfOk result (λ r. r.0.items ≡ image.now) }
    ensures shared { IfOk result (λ r. arc_value r.1 ≡ program) }
{
    let key = Vec::from_slice(alloc, image)?;
    match Arc::new(alloc, program) {
        Ok(shared) => Ok((key, shared)),
        Err(_) => Err(AllocError),
    }
}
