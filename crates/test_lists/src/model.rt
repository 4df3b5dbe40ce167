//! The model of a desk: its database, its open tickets, and its entries.

use crate::asks::{Ask, Told};
use crate::comes::{Comes, Does};
use crate::store::{Answer, Store, size_fault};
use desk_core::{AskFault, ConvertFault, FinishFault};
use std::alloc::{AllocError, Global};

// The three modes of a hold. `go_together` says which modes are compatible.
#[derive(Clone, Copy, Debug, PartialEq, Eq)]
enum Mode {
    Read,
    Update,
    Exclusive,
}

fn go_together(one: Mode, other: Mode) -> bool {
    match (one, other) {
        (Mode::Read, Mode::Read | Mode::Update) => true,
        (Mode::Update, Mode::Read) => true,
        _ => false,
    }
}

// An open ticket: its session, and the hold on its page.
#[derive(Clone, Copy)]
struct Open {
    session: u64,
    page: u32,
    mode: Mode,
}

// A ticket: its hold if it is open, and the command in hand, which may be computed already.
#[derive(Clone, Copy)]
struct Slot {
    open: Option<Open>,
    hand: Option<(Ask, bool)>,
}

const NOTHING: Slot = Slot {
    open: None,
    hand: None,
};

/// An entry of the trail.
#[derive(Clone, Copy)]
pub struct Answered {
    pub session: u64,
    pub ask: Ask,
    pub told: Told,
}

/// Counts of outcomes, which show what the lists cover.
#[derive(Clone, Copy)]
pub struct Seen {
    pub splits: usize,
    pub crowded: usize,
    pub busy: usize,
    /// Runs that saved or stored a record, and runs that deleted one.
    pub saved: usize,
    pub deleted: usize,
}

impl Seen {
    /// Creates counts of zero.
    pub fn nothing() -> Self {
        Seen {
            splits: 0,
            crowded: 0,
            busy: 0,
            saved: 0,
            deleted: 0,
        }
    }

    // Counts a reply.
    fn note(&mut self, told: Told, changes: bool) {
        let count = match told {
            Told::Crowded => &mut self.crowded,
            Told::Ran(1, _) => &mut self.saved,
            Told::Ran(2, _) if changes => &mut self.deleted,
            _ => return,
        };
        *count = count.saturating_add(1);
    }
}

/// A model of a desk. Closed tickets are reused: the ticket closed last is opened first.
#[derive(Drop)]
pub struct Model {
    pub store: Store,
    pub entries: Vec<Answered>,
    pub seen: Seen,
    slots: Vec<Slot>,
    closed: Vec<usize>,
    limit: usize,
}

// The key of a command and the mode of the first hold on its page. `None` for a count.
fn first_hold(ask: Ask) -> Option<(usize, Mode)> {
    match ask {
        Ask::Fetch(key) => Some((key, Mode::Read)),
        Ask::Insert(key, _) | Ask::Replace(key, _) | Ask::Delete(key) => Some((key, Mode::Update)),
        Ask::Run(run) => Some((run.key, Mode::Update)),
        Ask::Count => None,
    }
}

impl Model {
    /// Opens a model on a database.
    pub fn open(alloc: Global, store: Store, limit: usize, seen: Seen) -> Self {
        Model {
            store,
            entries: Vec::new(alloc),
            seen,
            slots: Vec::new(alloc),
            closed: Vec::new(alloc),
            limit,
        }
    }

    fn slot(&self, ticket: usize) -> Slot {
        self.slots.get(ticket).copied().unwrap_or(NOTHING)
    }

    fn set(&mut self, ticket: usize, open: Option<Open>, hand: Option<(Ask, bool)>) {
        if let Some(place) = self.slots.get_mut(ticket) {
            *place = Slot { open, hand };
        }
    }

    // Returns `true` if the entries and open tickets together have reached the limit.
    fn is_full(&self) -> bool {
        let open = self.slots.iter().filter(|slot| slot.open.is_some()).count();
        self.limit <= self.entries.len().saturating_add(open)
    }

    // Returns `true` if a ticket other than `own` holds a page in a mode that excludes this mode.
    fn bars(&self, page: u32, mode: Mode, own: Option<usize>) -> bool {
        for (ticket, slot) in self.slots.iter().enumerate() {
            if let Some(open) = slot.open {
                if open.page == page && !go_together(open.mode, mode) && own != Some(ticket) {
                    return true;
                }
            }
        }
        false
    }

    // Answers a command, and appends it to the trail.
    fn commit(&mut self, session: u64, ask: Ask) -> Result<Told, AllocError> {
        let Answer { told, change } = self.store.answer(session, ask);
        if let Some((key, value)) = change {
            let splits = self.store.change(key, value)?;
            self.seen.splits = self.seen.splits.saturating_add(splits as usize);
        }
        self.seen.note(told, change.is_some());
        self.entries.push(Answered { session, ask, told })?;
        Ok(told)
    }

    // Returns `true` if a session's command would change its page.
    fn changes(&self, session: u64, ask: Ask) -> bool {
        self.store.answer(session, ask).change.is_some()
    }

    fn busy(&mut self) -> Comes {
        self.seen.busy = self.seen.busy.saturating_add(1);
        Comes::AskRefused(AskFault::Busy)
    }

    // The next ticket to open.
    fn next_ticket(&mut self) -> Result<usize, AllocError> {
        if let Some(ticket) = self.closed.pop() {
            return Ok(ticket);
        }
        self.slots.push(NOTHING)?;
        Ok(self.slots.len().saturating_sub(1))
    }

    fn asks(&mut self, session: u64, ask: Ask) -> Result<Comes, AllocError> {
        if let Some(fault) = size_fault(ask) {
            return Ok(Comes::AskRefused(fault));
        }
        if self.is_full() {
            return Ok(Comes::AskRefused(AskFault::TrailFull));
        }
        let Some((key, mode)) = first_hold(ask) else {
            return Ok(Comes::Answered(self.commit(session, ask)?));
        };
        let page = self.store.page(key);
        if self.bars(page, mode, None) {
            return Ok(self.busy());
        }
        let ticket = self.next_ticket()?;
        let open = Open {
            session,
            page,
            mode,
        };
        self.set(ticket, Some(open), Some((ask, false)));
        Ok(Comes::Asked(ticket))
    }

    /// Makes a step and returns its outcome.
    pub fn steps(&mut self, session: u64, ask: Ask) -> Result<Comes, AllocError> {
        if let Some(fault) = size_fault(ask) {
            return Ok(Comes::AskRefused(fault));
        }
        if self.is_full() {
            return Ok(Comes::AskRefused(AskFault::TrailFull));
        }
        if let Some((key, mode)) = first_hold(ask) {
            let page = self.store.page(key);
            let changes = self.changes(session, ask);
            if self.bars(page, mode, None) || changes && self.bars(page, Mode::Exclusive, None) {
                return Ok(self.busy());
            }
        }
        Ok(Comes::Answered(self.commit(session, ask)?))
    }

    fn works(&mut self, ticket: usize) -> Comes {
        let slot = self.slot(ticket);
        let Some((ask, false)) = slot.hand else {
            return Comes::NoHand;
        };
        self.set(ticket, slot.open, Some((ask, true)));
        Comes::Worked
    }

    fn converts(&mut self, ticket: usize) -> Comes {
        let slot = self.slot(ticket);
        let Some(open) = slot.open else {
            return Comes::ConvertRefused(ConvertFault::NoTicket);
        };
        if open.mode != Mode::Update {
            return Comes::ConvertRefused(ConvertFault::NotUpdating);
        }
        if self.bars(open.page, Mode::Exclusive, Some(ticket)) {
            return Comes::ConvertRefused(ConvertFault::Busy);
        }
        let alone = Open {
            session: open.session,
            page: open.page,
            mode: Mode::Exclusive,
        };
        self.set(ticket, Some(alone), slot.hand);
        Comes::Converted
    }

    fn finishes(&mut self, ticket: usize) -> Result<Comes, AllocError> {
        let slot = self.slot(ticket);
        let Some((ask, true)) = slot.hand else {
            return Ok(Comes::NoHand);
        };
        let Some(open) = slot.open else {
            return Ok(Comes::FinishRefused(FinishFault::NoTicket));
        };
        if self.changes(open.session, ask) && open.mode != Mode::Exclusive {
            return Ok(Comes::FinishRefused(FinishFault::NotExclusive));
        }
        self.set(ticket, None, None);
        self.closed.push(ticket)?;
        Ok(Comes::Finished(self.commit(open.session, ask)?))
    }

    fn abandons(&mut self, ticket: usize) -> Result<Comes, AllocError> {
        let slot = self.slot(ticket);
        if slot.open.is_none() {
            return Ok(Comes::AbandonRefused);
        }
        self.set(ticket, None, slot.hand);
        self.closed.push(ticket)?;
        Ok(Comes::Abandoned)
    }

    /// Plays an event and returns its outcome.
    pub fn happens(&mut self, does: Does) -> Result<Comes, AllocError> {
        match does {
            Does::Ask(session, ask) => self.asks(session, ask),
            Does::Work(ticket) => Ok(self.works(ticket)),
            Does::Convert(ticket) => Ok(self.converts(ticket)),
            Does::Finish(ticket) => self.finishes(ticket),
            Does::Abandon(ticket) => self.abandons(ticket),
        }
    }
}
