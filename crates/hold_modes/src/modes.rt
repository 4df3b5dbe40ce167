//! The three modes of a hold, and their compatibility.
ghost use Rattle.std.specs.Prelude.{◌≡◌, false, true};
ghost use Rattle.hold_modes.specs.Held.{are_compatible};

/// The mode of a hold on a page.
#[derive(Clone, Copy, Debug, PartialEq, Eq)]
pub enum Hold {
    /// Reads the page. Compatible with other read holds and one update hold.
    Read,
    /// Will change the page later. Compatible with read holds.
    Update,
    /// Changes the page. Compatible with no other hold.
    Exclusive,
}

/// The number of an open command.
#[derive(Clone, Copy, Debug, PartialEq, Eq)]
pub struct Ticket(pub usize);

/// One hold: a page, a mode, and the ticket that owns the hold.
#[derive(Clone, Copy, Debug, PartialEq, Eq)]
pub struct Held {
    pub page: u32,
    pub mode: Hold,
    pub ticket: Ticket,
}

/// Returns `true` if two tickets may hold one page in these modes at the same time.
pub fn compatible(one: Hold, other: Hold) -> bool
    ensures { result ≡ are_compatible one other }
{
    match (one, other) {
        (Hold::Read, Hold::Read) => true,
        (Hold::Read, Hold::Update) => true,
        (Hold::Update, Hold::Read) => true,
        _ => false,
    }
}

/// The error that another ticket holds the page in a mode that bars the requested one.
#[derive(Clone, Copy, Debug, PartialEq, Eq)]
pub struct Busy;
