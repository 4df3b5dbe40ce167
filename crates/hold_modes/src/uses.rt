//! The number of a page's holds in each mode.
ghost use Rattle.std.specs.Prelude.{◌≡◌, ◌<◌, ◌+◌, ◌^◌};
ghost use Rattle.hold_modes.specs.Uses.{is_free, uses_bar, uses_in, more, fewer};

use crate::modes::{Hold, compatible};

/// The number of a page's holds in each mode.
#[derive(Clone, Copy, Debug, PartialEq, Eq)]
pub struct Uses {
    pub read: usize,
    pub update: usize,
    pub exclusive: usize,
}

impl Uses {
    // No holds.
    pub(crate) const NONE: Uses = Uses {
        read: 0,
        update: 0,
        exclusive: 0,
    };

    // Returns `true` if there are no holds.
    pub(crate) fn is_none(self) -> bool
        ensures { result ≡ is_free self }
    {
        self.read == 0 && self.update == 0 && self.exclusive == 0
    }

    // Returns `true` if a page with these holds cannot be held by another ticket in this mode.
    pub(crate) fn bar(self, mode: Hold) -> bool
        ensures { result ≡ uses_bar mode self }
    {
        (self.read != 0 && !compatible(Hold::Read, mode))
            || (self.update != 0 && !compatible(Hold::Update, mode))
            || (self.exclusive != 0 && !compatible(Hold::Exclusive, mode))
    }

    // Returns the numbers with one more hold in a mode.
    pub(crate) fn with(self, mode: Hold) -> Uses
        requires { uses_in mode self + 1 < 2 ^ 64 }
        ensures { result ≡ more mode self }
    {
        let mut uses = self;
        match mode {
            Hold::Read => uses.read += 1,
            Hold::Update => uses.update += 1,
            Hold::Exclusive => uses.exclusive += 1,
        }
        uses
    }

    // Returns the numbers with one fewer hold in a mode that has a hold.
    pub(crate) fn without(self, mode: Hold) -> Uses
        requires { 0 < uses_in mode self }
        ensures { result ≡ fewer mode self }
    {
        let mut uses = self;
        match mode {
            Hold::Read => uses.read -= 1,
            Hold::Update => uses.update -= 1,
            Hold::Exclusive => uses.exclusive -= 1,
        }
        uses
    }
}
