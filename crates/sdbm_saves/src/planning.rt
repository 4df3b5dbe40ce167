// The reasons why a save cannot be planned.
ghost use Rattle.std.specs.Prelude.{◌≡◌};
ghost use Rattle.sdbm_saves.specs.declared.planning.SavePlanFault.TheVariants.{NoMemory};

use std::alloc::AllocError;

/// The least length in bytes of a file that is too long: offsets must fit in four bytes.
pub(crate) const LIMIT: usize = 4294967296;

/// The reason why a save cannot be planned.
#[derive(Clone, Copy, Debug, PartialEq, Eq)]
pub enum SavePlanFault {
    /// A file has, or would have, 2^32 bytes or more, or a list has more pages than a file of 2^32 bytes.
    TooLong,
    /// Out of memory.
    NoMemory,
}

impl From<AllocError> for SavePlanFault {
    ghost from_gives = { λ _ fault. fault ≡ NoMemory };

    fn from(_error: AllocError) -> SavePlanFault {
        SavePlanFault::NoMemory
    }
}
