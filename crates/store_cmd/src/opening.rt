//! The pairs with which a store was opened.
ghost use Rattle.std.specs.Prelude.{◌≡◌, IfOk, IfErr};

use sdbm_addr::Bytes;
use std::alloc::{AllocError, Allocator};
use std::marker::Model;
use std::sync::Arc;

/// A shared, read-only list of pairs. Cloning adds an owner and allocates nothing; the last owner frees the pairs.
#[derive(Drop)]
pub struct Opening<A: Allocator> {
    owned: Arc<Vec<(Bytes<A>, Bytes<A>), A>, A>,
}

impl<A: Allocator> Model for Opening<A> {
    ghost use Rattle.std.specs.Prelude.{List};
    ghost use Rattle.std.specs.Arc.{arc_value};
    ghost use Rattle.sdbm_addr.specs.Pairs.{Pair};

    ghost Value = { List Pair };

    ghost view = { λ a. (arc_value a.owned).items };
}

impl<A: Allocator> Opening<A> {
    /// Wraps pairs, with a single owner. If out of memory, returns the pairs.
    pub fn new(
        alloc: A,
        pairs: Vec<(Bytes<A>, Bytes<A>), A>,
    ) -> Result<Self, Vec<(Bytes<A>, Bytes<A>), A>>
        ensures ok { IfOk result (λ opening. opening ≡ pairs.items) }
        ensures returned { IfErr result (λ refused. refused.items ≡ pairs.items) }
    {
        match Arc::new(alloc, pairs) {
            Ok(owned) => Ok(Opening { owned }),
            Err(refused) => Err(refused.value),
        }
    }

    /// The pairs, in their order.
    pub fn as_slice(&self) -> &[(Bytes<A>, Bytes<A>)]
        ensures { result.now ≡ self.now }
    {
        (*self.owned).as_slice()
    }

    /// Adds an owner, without allocating. Returns an error if the owner count is at its maximum.
    pub fn try_clone(&self) -> Result<Self, AllocError>
        ensures { IfOk result (λ copy. copy ≡ self.now) }
    {
        let owned = Arc::try_clone(&self.owned)?;
        Ok(Opening { owned })
    }
}
