//! The core of a store: it executes commands by ticket on a database and records their answers in a trail. The trail is always
//! a legal history of a plain map.
#![tactic(auto)]

ghost use Rattle.std.specs.Prelude.{◌≡◌, ◌≢◌, ◌≤◌, ◌+◌, ◌++◌, ◌∷◌, [], true, false, Some, None, IfOk, IfErr, OnOk, OnErr, vec_len, vec_capacity};
ghost use Rattle.std.specs.FinMap as map;
ghost use Rattle.std.specs.List.{list_any};
ghost use Rattle.slab.specs.Slab.{HasRoomFor, slab_len};
ghost use Rattle.hold_modes.specs.Held.{bars, is_of, obeys_rule};
ghost use Rattle.sdbm_addr.specs.Database.{IsDatabase, map_of};
ghost use Rattle.store_cmd.specs.declared.Command.TheVariants.{Count};
ghost use Rattle.store_moves.specs.Works.{key_of};
ghost use Rattle.store_moves.specs.Leads.{IsPlaceOf};
ghost use Rattle.desk_core.specs.Desk.{IsSound, first_hold, ticket_of};
ghost use Rattle.desk_core.specs.Calls.{refusal_of};

mod events;
mod job;
mod look;
mod step;

pub use events::{Event, EventOutcome};
pub use hold_modes::Ticket;
use hold_modes::{Hold, Holds};
use job::Open;
pub use job::{Done, Job};
pub use look::{Look, PutFault, Seen};
use sdbm_addr::Bytes;
use sdbm_dir::Place;
use sdbm_files::Image;
use slab::Slab;
use std::alloc::{AllocError, Allocator};
use std::marker::Model;
pub use step::ReplyPair;
use store_cmd::{Command, KeptEntry, Opening, Reply, SharedCommand, SizeFault, Trail, check_sizes};
use store_moves::{PageCopy, key_in, put_in};

/// The core of a store. It is modelled as its database, the opening and the entries of its trail, the open command under each
/// ticket, the next ticket to open, the holds, and the maximum number of entries and open tickets.
#[derive(Drop)]
pub struct Desk<A: Allocator> {
    alloc: A,
    image: Image<A>,
    trail: Trail<A>,
    tickets: Slab<Open<A>, A>,
    holds: Holds<A>,
    limit: usize,
}

impl<A: Allocator> Model for Desk<A> {
    ghost use Rattle.std.specs.Prelude.{◌≤◌, ◌+◌, vec_len, vec_capacity};
    ghost use Rattle.slab.specs.Slab.{slab_len};
    ghost use Rattle.desk_core.specs.Desk.{DeskState, IsSound};
    ghost use Rattle.std.specs.Coded.{codes};
    ghost use Rattle.sdbm_addr.specs.Database.{coded_database};

    ghost Value = { DeskState A };

    ghost coded = { Prim.hlevel (codes, coded_database) };

    ghost view = { λ a. record { database = a.image; opening = a.trail.opening; entries = a.trail.entries.items; tickets = a.tickets.slots; next = a.tickets.vacant_key; holds = a.holds; limit = a.limit } };

    ghost invariant = { λ a. IsSound (record { database = a.image; opening = a.trail.opening; entries = a.trail.entries.items; tickets = a.tickets.slots; next = a.tickets.vacant_key; holds = a.holds; limit = a.limit })
        × (vec_len a.trail.entries + slab_len a.tickets ≤ vec_capacity a.trail.entries) };
}

/// The reasons why a command is refused, checked in this order.
#[derive(Clone, Copy, Debug, PartialEq, Eq)]
pub enum AskFault {
    /// Key and value, or key and blank, are together longer than a pair may be.
    PairTooLarge,
    /// The argument of a run is longer than the limit.
    ArgTooLong,
    /// The number of entries and open tickets together is at its limit.
    TrailFull,
    /// Another ticket's hold on the page conflicts.
    Busy,
    /// Out of memory.
    NoMemory,
}

/// The reasons why a hold is not made exclusive, checked in this order.
#[derive(Clone, Copy, Debug, PartialEq, Eq)]
pub enum ConvertFault {
    /// The ticket is not open.
    NoTicket,
    /// The ticket's hold is not an update hold.
    NotUpdating,
    /// Another ticket reads the page.
    Busy,
}

/// The reasons why a computed command is not finished, checked in this order.
#[derive(Clone, Copy, Debug, PartialEq, Eq)]
pub enum FinishFault {
    /// The ticket is not open.
    NoTicket,
    /// The session, command, place, hash kind or page of the computed command differs from the ticket's.
    Foreign,
    /// The command changes the page, but the ticket's hold is not exclusive.
    NotExclusive,
    /// There is no memory to install the change.
    NoMemory,
}

/// The ticket is not open.
#[derive(Clone, Copy, Debug, PartialEq, Eq)]
pub struct NoTicket;

/// The result of a request.
#[derive(Drop)]
pub enum Asked<A: Allocator> {
    /// A command to compute.
    Job(Job<A>),
    /// A count, answered immediately.
    Answered(Reply<A>),
}

/// The place of a command's key, and the mode of the command's first hold on the page there.
#[derive(Clone, Copy)]
pub(crate) struct PageNeed {
    pub(crate) place: Place,
    pub(crate) mode: Hold,
}

impl<A: Allocator + Copy> Desk<A> {
    ghost use Rattle.desk_core.specs.Calls.{StartsWith, MayAsk, IsWanted, IsAsked, Counts, Asks, Opens, IsAskFault, Converts, IsConvertFault, MayFinish, Finishes, IsFinishFault, Abandons};

    /// Opens a desk on a database. Its trail begins with the pairs of the database. `limit` is the maximum number of entries
    /// and open tickets together.
    ///
    /// # Errors
    /// `AllocError` if there is no memory for the opening. The image is returned.
    pub fn open(alloc: A, image: Image<A>, limit: usize) -> Result<Self, (AllocError, Image<A>)>
        ensures ok { IfOk result (λ desk. StartsWith image limit desk) }
        ensures sound { IfOk result (λ desk. IsSound desk) }
        ensures returned { IfErr result (λ refused. refused.1 ≡ image) }
    {
        let Ok(opening) = opening_of(alloc, &image) else {
            return Err((AllocError, image));
        };
        Ok(Desk {
            alloc,
            image,
            trail: Trail {
                opening,
                entries: Vec::new(alloc),
            },
            tickets: Slab::new(alloc),
            holds: Holds::new(alloc),
            limit,
        })
    }

    /// Opens a ticket for a session's command, or answers a count immediately. Tickets are reused: the ticket that was closed
    /// last is opened next.
    ///
    /// # Errors
    /// Each `AskFault` except `NoMemory` if and only if its condition holds; `NoMemory` only if no other condition holds. On an
    /// error the desk is unchanged, and the command is returned.
    pub fn ask(
        &mut self,
        session: u64,
        command: SharedCommand<A>,
    ) -> Result<Asked<A>, (AskFault, SharedCommand<A>)>
        ensures ok { IfOk result (λ asked. Asks self.old session command asked self.new) }
        ensures refused { IfErr result (λ refused. IsAskFault self.old command refused.0) }
        ensures returned { IfErr result (λ refused. refused.1 ≡ command) }
        ensures err { OnErr result (self.new ≡ self.old) }
    {
        match self.may_ask(&command) {
            Ok(wanted) => self.admit(session, command, wanted),
            Err(fault) => Err((fault, command)),
        }
    }

    // Checks that a command may be requested, and returns its place and hold (`None` for a count). Does not check memory.
    fn may_ask(&self, command: &SharedCommand<A>) -> Result<Option<PageNeed>, AskFault>
        ensures ok { OnOk result (MayAsk self.now command.now) }
        ensures wanted { IfOk result (IsWanted self.now command.now) }
        ensures refused { IfErr result (λ fault. IsAskFault self.now command.now fault) }
        ensures told { IfErr result (λ fault. fault ≢ AskFault.NoMemory) }
    {
        let command = command.command();
        if let Err(fault) = check_sizes(command, self.image.page_size()) {
            return Err(ask_fault(fault));
        }
        if self.limit <= self.trail.entries.len() + self.tickets.len() {
            return Err(AskFault::TrailFull);
        }
        let Some(mode) = hold_for(command) else {
            return Ok(None);
        };
        let place = self.image.place(key_in(command));
        if self.holds.bars(place.page, mode) {
            return Err(AskFault::Busy);
        }
        Ok(Some(PageNeed { place, mode }))
    }

    // Requests a command that passed `may_ask`.
    fn admit(
        &mut self,
        session: u64,
        command: SharedCommand<A>,
        wanted: Option<PageNeed>,
    ) -> Result<Asked<A>, (AskFault, SharedCommand<A>)>
        requires may { MayAsk self.old command }
        requires wanted { IsWanted self.old command wanted }
        ensures ok { IfOk result (λ asked. Asks self.old session command asked self.new) }
        ensures refused { IfErr result (λ refused. IsAskFault self.old command refused.0) }
        ensures returned { IfErr result (λ refused. refused.1 ≡ command) }
        ensures err { OnErr result (self.new ≡ self.old) }
    {
        match wanted {
            Some(wanted) => self.take(session, command, wanted),
            None => match self.answer_count(session, command) {
                Ok(reply) => Ok(Asked::Answered(reply)),
                Err(refused) => Err(refused),
            },
        }
    }

    // Holds the page of a command and opens a ticket.
    fn take(
        &mut self,
        session: u64,
        command: SharedCommand<A>,
        wanted: PageNeed,
    ) -> Result<Asked<A>, (AskFault, SharedCommand<A>)>
        requires may { MayAsk self.old command }
        requires mode { first_hold command ≡ Some wanted.mode }
        requires place { IsPlaceOf self.old.database (key_of command) wanted.place }
        ensures ok { IfOk result (λ asked. Asks self.old session command asked self.new) }
        ensures refused { IfErr result (λ refused. IsAskFault self.old command refused.0) }
        ensures returned { IfErr result (λ refused. refused.1 ≡ command) }
        ensures err { OnErr result (self.new ≡ self.old) }
    {
        let Ok(own) = self.asked_of(session, &command, wanted.place) else {
            return Err((AskFault::NoMemory, command));
        };
        let Ok(page) = own.page.try_clone() else {
            return Err((AskFault::NoMemory, command));
        };
        let kind = self.image.key_bytes();
        let Ok(ticket) = self.enter(own, wanted.mode) else {
            return Err((AskFault::NoMemory, command));
        };
        let asked = Open {
            session,
            command,
            place: wanted.place,
            kind,
            page,
        };
        Ok(Asked::Job(Job {
            alloc: self.alloc,
            ticket,
            asked,
        }))
    }

    // Makes the open command of a ticket. Adds an owner to the command.
    fn asked_of(
        &self,
        session: u64,
        command: &SharedCommand<A>,
        place: Place,
    ) -> Result<Open<A>, AllocError>
        requires { IsPlaceOf self.now.database (key_of command.now) place }
        ensures asked { IfOk result (IsAsked self.now session command.now) }
        ensures place { IfOk result (λ own. own.place ≡ place) }
    {
        let page = PageCopy::of(&self.image, place.page)?;
        let command = command.try_clone()?;
        Ok(Open {
            session,
            command,
            place,
            kind: self.image.key_bytes(),
            page,
        })
    }

    // Opens the next ticket for an open command, and holds its page.
    fn enter(&mut self, own: Open<A>, mode: Hold) -> Result<Ticket, AllocError>
        requires may { MayAsk self.old own.command }
        requires mode { first_hold own.command ≡ Some mode }
        requires asked { IsAsked self.old own.session own.command own }
        ensures ok { IfOk result (λ ticket. Opens self.old own.command (record { ticket = ticket.0; asked = own }) self.new) }
        ensures err { OnErr result (self.new ≡ self.old) }
    {
        let ticket = Ticket(self.tickets.vacant_key());
        make_room(
            &mut self.trail.entries,
            &mut self.tickets,
            &mut self.holds,
            own.place.page,
            mode,
            ticket,
        )?;
        let _key = self.tickets.insert_reserved(own);
        Ok(ticket)
    }

    // Answers a count immediately.
    fn answer_count(
        &mut self,
        session: u64,
        command: SharedCommand<A>,
    ) -> Result<Reply<A>, (AskFault, SharedCommand<A>)>
        requires may { MayAsk self.old command }
        requires counts { command ≡ Count }
        ensures ok { IfOk result (λ reply. Counts self.old session reply self.new) }
        ensures refused { IfErr result (λ refused. refused.0 ≡ AskFault.NoMemory) }
        ensures returned { IfErr result (λ refused. refused.1 ≡ command) }
        ensures err { OnErr result (self.new ≡ self.old) }
    {
        let Ok(()) = self.trail.entries.reserve(self.tickets.len() + 1) else {
            return Err((AskFault::NoMemory, command));
        };
        let counted = self.image.count();
        let entry = KeptEntry::new(session, command, Reply::Count(counted));
        self.trail.entries.push_reserved(entry);
        Ok(Reply::Count(counted))
    }

    /// Makes a ticket's update hold exclusive. Allocates nothing.
    ///
    /// # Errors
    /// Each `ConvertFault` if and only if its condition holds. The desk is unchanged.
    pub fn convert(&mut self, ticket: Ticket) -> Result<(), ConvertFault>
        ensures ok { OnOk result (Converts self.old ticket.0 self.new) }
        ensures refused { IfErr result (IsConvertFault self.old ticket.0) }
        ensures err { OnErr result (self.new ≡ self.old) }
    {
        if !self.tickets.contains(ticket.0) {
            return Err(ConvertFault::NoTicket);
        }
        if !self.holds.is_updating(ticket) {
            return Err(ConvertFault::NotUpdating);
        }
        if self.holds.convert(ticket).is_err() {
            return Err(ConvertFault::Busy);
        }
        Ok(())
    }

    /// Closes a ticket without committing. Allocates nothing.
    ///
    /// # Errors
    /// `NoTicket` if and only if the ticket is not open. The desk is unchanged.
    pub fn abandon(&mut self, ticket: Ticket) -> Result<(), NoTicket>
        ensures ok { OnOk result (Abandons self.old ticket.0 self.new) }
        ensures refused { OnErr result (ticket_of self.old ticket.0 ≡ None) }
        ensures err { OnErr result (self.new ≡ self.old) }
    {
        if !self.tickets.contains(ticket.0) {
            return Err(NoTicket);
        }
        let _open = self.tickets.remove(ticket.0);
        self.holds.release(ticket);
        Ok(())
    }

    /// Commits a computed command and closes its ticket. Allocates nothing if no page changes.
    ///
    /// # Errors
    /// Each `FinishFault` except `NoMemory` if and only if its condition holds; `NoMemory` only if no other condition holds and
    /// a page changes. On an error the desk is unchanged, and the computed command is returned.
    pub fn finish(&mut self, done: Done<A>) -> Result<Reply<A>, (FinishFault, Done<A>)>
        ensures ok { IfOk result (λ reply. Finishes self.old done reply self.new) }
        ensures refused { IfErr result (λ refused. IsFinishFault self.old done refused.0) }
        ensures returned { IfErr result (λ refused. refused.1 ≡ done) }
        ensures err { OnErr result (self.new ≡ self.old) }
    {
        let ticket = done.ticket();
        let Some(own) = self.tickets.get(ticket.0) else {
            return Err((FinishFault::NoTicket, done));
        };
        if !own.equals(done.asked()) {
            return Err((FinishFault::Foreign, done));
        }
        if !done.changes() {
            return self.commit(done);
        }
        if !self.holds.is_exclusive(ticket) {
            return Err((FinishFault::NotExclusive, done));
        }
        self.commit(done)
    }

    // Installs the result of an open ticket, adds its entry, and closes the ticket.
    fn commit(&mut self, done: Done<A>) -> Result<Reply<A>, (FinishFault, Done<A>)>
        requires { MayFinish self.old done }
        ensures ok { IfOk result (λ reply. Finishes self.old done reply self.new) }
        ensures refused { IfErr result (λ refused. IsFinishFault self.old done refused.0) }
        ensures returned { IfErr result (λ refused. refused.1 ≡ done) }
        ensures err { OnErr result (self.new ≡ self.old) }
    {
        let Done {
            ticket,
            asked,
            reply,
            copy,
            change,
        } = done;
        if let Err((_, change)) = put_in(&mut self.image, asked.place, change) {
            let done = Done {
                ticket,
                asked,
                reply,
                copy,
                change,
            };
            return Err((FinishFault::NoMemory, done));
        }
        let Open {
            session,
            command,
            ..
        } = asked;
        let _own = self.tickets.remove(ticket.0);
        let entry = KeptEntry::new(session, command, copy);
        self.trail.entries.push_reserved(entry);
        self.holds.release(ticket);
        Ok(reply)
    }

    /// The pairs of the map, sorted by the bytes of their keys.
    ///
    /// # Errors
    /// `AllocError` if out of memory.
    pub fn pairs(&self) -> Result<Vec<(Bytes<A>, Bytes<A>), A>, AllocError>
        ensures { IfOk result (λ pairs. pairs.items ≡ map.entries (map_of self.now.database)) }
    {
        self.image.pairs()
    }

    /// The current database.
    pub fn image(&self) -> &Image<A>
        ensures { result.now ≡ self.now.database }
    {
        &self.image
    }

    /// The desk's initial pairs and the commands that were answered since.
    pub fn trail(&self) -> &Trail<A>
        ensures opening { result.now.opening ≡ self.now.opening }
        ensures entries { result.now.entries.items ≡ self.now.entries }
        ensures sound { IsSound self.now }
    {
        &self.trail
    }

    /// Returns the database and the trail. Discards open tickets.
    pub fn into_parts(self) -> (Image<A>, Trail<A>)
        ensures image { result.0 ≡ self.database }
        ensures opening { result.1.opening ≡ self.opening }
        ensures entries { result.1.entries.items ≡ self.entries }
        ensures sound { IsSound self }
    {
        let Desk { image, trail, .. } = self;
        (image, trail)
    }
}

// The pairs of a database, sorted by the bytes of their keys.
fn opening_of<A: Allocator + Copy>(alloc: A, image: &Image<A>) -> Result<Opening<A>, AllocError>
    ensures opening { IfOk result (λ opening. opening ≡ map.entries (map_of image.now)) }
    ensures database { IsDatabase image.now }
{
    let pairs = image.pairs()?;
    match Opening::new(alloc, pairs) {
        Ok(opening) => Ok(opening),
        Err(_) => Err(AllocError),
    }
}

// A command's first hold on its page.
fn hold_for<A: Allocator>(command: &Command<A>) -> Option<Hold>
    ensures { result ≡ first_hold command.now }
{
    match command {
        Command::Fetch { .. } => Some(Hold::Read),
        Command::Store { .. } => Some(Hold::Update),
        Command::Delete { .. } => Some(Hold::Update),
        Command::Run { .. } => Some(Hold::Update),
        Command::Count => None,
    }
}

// The refusal for an invalid size.
fn ask_fault(fault: SizeFault) -> AskFault
    ensures { result ≡ refusal_of fault }
{
    match fault {
        SizeFault::PairTooLarge => AskFault::PairTooLarge,
        SizeFault::ArgTooLong => AskFault::ArgTooLong,
    }
}

// Allocates all memory that one more ticket and its hold need.
fn make_room<A: Allocator + Copy>(
    entries: &mut Vec<KeptEntry<A>, A>,
    tickets: &mut Slab<Open<A>, A>,
    holds: &mut Holds<A>,
    page: u32,
    mode: Hold,
    ticket: Ticket,
) -> Result<(), AllocError>
    requires fits { vec_len entries.old + slab_len tickets.old ≤ vec_capacity entries.old }
    requires ticket { list_any (is_of ticket) holds.old ≡ false }
    requires free { list_any (bars page mode) holds.old ≡ false }
    ensures items { entries.new.items ≡ entries.old.items }
    ensures len { vec_len entries.new ≡ vec_len entries.old }
    ensures capacity { vec_capacity entries.old ≤ vec_capacity entries.new }
    ensures rest_kept { tickets.new ≡ record tickets.old { capacity = tickets.new.capacity } }
    ensures count { slab_len tickets.new ≡ slab_len tickets.old }
    ensures entry { OnOk result (vec_len entries.new + (slab_len tickets.old + 1) ≤ vec_capacity entries.new) }
    ensures slot { OnOk result (HasRoomFor tickets.new 1) }
    ensures hold { OnOk result (holds.new ≡ holds.old ++ record { page = page; mode = mode; ticket = ticket } ∷ []) }
    ensures rule { OnOk result (obeys_rule holds.new ≡ true) }
    ensures err { OnErr result (holds.new ≡ holds.old) }
{
    entries.reserve(tickets.len() + 1)?;
    tickets.reserve(1)?;
    holds.take_free(page, mode, ticket)
}
