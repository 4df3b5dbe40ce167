//! The held pages, each with the number of its holds in each mode.
ghost use Rattle.std.specs.Prelude.{◌≡◌, ◌<◌, [], Some, OnOk, IsSome, nat_eq};
ghost use Rattle.std.specs.HashMap.{get, spare};
ghost use Rattle.hold_modes.specs.Uses.{kept, uses_at, IsIndex, Keeps, Puts};

use crate::uses::Uses;
use std::alloc::{AllocError, Allocator};
use std::collections::HashMap;
use std::hash::{BuildHasherDefault, FoldHasher};

/// The held pages, each with the number of its holds in each mode. A page is found in constant time on average.
#[derive(Drop)]
pub struct Pages<A: Allocator> {
    pub uses: HashMap<u32, Uses, BuildHasherDefault<FoldHasher>, A>,
}

impl<A: Allocator + Copy> Pages<A> {
    // Makes an empty map. Does not allocate.
    pub(crate) fn new(alloc: A) -> Self
        ensures { IsIndex result.uses [] }
    {
        Pages {
            uses: HashMap::new(alloc),
        }
    }

    // Returns the number of the page's holds in each mode.
    pub(crate) fn at(&self, page: u32) -> Uses
        ensures { result ≡ uses_at self.now.uses page }
    {
        match self.uses.get(&page) {
            Some(uses) => *uses,
            None => Uses::NONE,
        }
    }

    // Makes room for one more page. On error no entry changes.
    pub(crate) fn reserve(&mut self) -> Result<(), AllocError>
        ensures same { Keeps self.old.uses self.new.uses }
        ensures room { OnOk result (0 < spare self.new.uses) }
    {
        self.uses.reserve(1)
    }

    // Sets the numbers of a page's holds. Call `reserve` first.
    pub(crate) fn put(&mut self, page: u32, uses: Uses)
        requires { 0 < spare self.old.uses }
        ensures { Puts self.old.uses self.new.uses page (Some uses) }
    {
        let Ok(_) = self.uses.insert(page, uses) else {
            unreachable!()
        };
    }

    // Changes the numbers of a held page's holds, or removes the page if all of them are 0. Does not allocate.
    pub(crate) fn change(&mut self, page: u32, uses: Uses)
        requires { IsSome (get nat_eq self.old.uses page) }
        ensures { Puts self.old.uses self.new.uses page (kept uses) }
    {
        if uses.is_none() {
            self.uses.remove(&page);
            return;
        }
        let Some(place) = self.uses.get_mut(&page) else {
            unreachable!()
        };
        *place = uses;
    }
}
