//! Open commands: commands that were requested but not yet answered.
ghost use Rattle.std.specs.Prelude.{◌≡◌, ◌↔◌, IsTrue, IfOk, IfErr, OnOk, is_some};
ghost use Rattle.desk_core.specs.Jobs.{worked, was_there, IsJob};
ghost use Rattle.store_moves.specs.Works.{HasEnd};
ghost use Rattle.store_moves.specs.Leads.{does_change};
ghost use Rattle.store_moves.specs.Worked.{IsWorked};

use hold_modes::Ticket;
use sdbm_addr::KeyBytes;
use sdbm_dir::Place;
use sdbm_split::Plan;
use std::alloc::{AllocError, Allocator};
use std::marker::Model;
use store_cmd::{Reply, SharedCommand};
use store_moves::{PageCopy, Worked, work_on};

/// A command under an open ticket: the session, the command, the place of its key, the hash kind of the database, and a
/// snapshot of the page.
#[derive(Drop)]
pub(crate) struct Open<A: Allocator> {
    pub session: u64,
    pub command: SharedCommand<A>,
    pub place: Place,
    pub kind: KeyBytes,
    pub page: PageCopy<A>,
}

impl<A: Allocator> Open<A> {
    /// Returns true if session, command, place, hash kind and page are equal.
    pub fn equals(&self, other: &Open<A>) -> bool
        ensures { IsTrue result ↔ (self.now ≡ other.now) }
    {
        if self.session != other.session {
            return false;
        }
        if self.place != other.place {
            return false;
        }
        if self.kind != other.kind {
            return false;
        }
        if !self.command.equals(&other.command) {
            return false;
        }
        self.page.equals(&other.page)
    }
}

/// A requested command, to be computed without the desk. It is modelled as its ticket and the open command.
#[derive(Drop)]
pub struct Job<A: Allocator> {
    pub(crate) alloc: A,
    pub(crate) ticket: Ticket,
    pub(crate) asked: Open<A>,
}

impl<A: Allocator> Model for Job<A> {
    ghost use Rattle.desk_core.specs.Jobs.{Ticketed, IsJob};

    ghost Value = { Ticketed A };

    ghost view = { λ a. record { ticket = a.ticket.0; asked = a.asked } };

    ghost invariant = { λ a. IsJob a.asked };
}

/// A computed command. It is modelled as its ticket and the open command, which determine its result.
#[derive(Drop)]
pub struct Done<A: Allocator> {
    pub(crate) ticket: Ticket,
    pub(crate) asked: Open<A>,
    pub(crate) reply: Reply<A>,
    pub(crate) copy: Reply<A>,
    pub(crate) change: Option<Plan<A>>,
}

impl<A: Allocator> Model for Done<A> {
    ghost use Rattle.desk_core.specs.Jobs.{Ticketed, IsDone};

    ghost Value = { Ticketed A };

    ghost view = { λ a. record { ticket = a.ticket.0; asked = a.asked } };

    ghost invariant = { λ a. IsDone a.asked a.reply a.copy a.change };
}

impl<A: Allocator> Job<A> {
    /// The ticket of the command.
    pub fn ticket(&self) -> Ticket
        ensures { result.0 ≡ self.now.ticket }
    {
        self.ticket
    }

    /// The number of the command's page.
    pub fn page(&self) -> u32
        ensures { result ≡ self.now.asked.place.page }
    {
        self.asked.place.page
    }

    /// Computes the result from the snapshot of the page. Neither reads nor changes anything else.
    ///
    /// # Errors
    /// `AllocError` if there is no memory for the reply, the changed pages or the page of a run. The job is returned.
    pub fn work(self) -> Result<Done<A>, (AllocError, Job<A>)>
    where
        A: Copy,
        ensures ok { IfOk result (λ done. done ≡ self) }
        ensures returned { IfErr result (λ refused. refused.1 ≡ self) }
        ensures ends { OnOk result (HasEnd self.asked.page.pairs self.asked.session self.asked.command) }
    {
        let Ok(worked) = work_asked(self.alloc, &self.asked) else {
            return Err((AllocError, self));
        };
        let Ok(copy) = worked.reply.try_clone(self.alloc) else {
            return Err((AllocError, self));
        };
        let Worked { reply, change } = worked;
        let Job { ticket, asked, .. } = self;
        Ok(Done {
            ticket,
            asked,
            reply,
            copy,
            change,
        })
    }
}

// Computes the result of an open command.
pub(crate) fn work_asked<A: Allocator + Copy>(
    alloc: A,
    asked: &Open<A>,
) -> Result<Worked<A>, AllocError>
    requires { IsJob asked.now }
    ensures worked { IfOk result (IsWorked (worked asked.now)) }
    ensures ends { OnOk result (HasEnd asked.now.page.pairs asked.now.session asked.now.command) }
{
    work_on(
        alloc,
        asked.page.page(),
        asked.place,
        asked.kind,
        asked.page.page_size(),
        asked.session,
        asked.command.command(),
    )
}

impl<A: Allocator> Done<A> {
    /// The ticket of the command.
    pub fn ticket(&self) -> Ticket
        ensures { result.0 ≡ self.now.ticket }
    {
        self.ticket
    }

    // The open command.
    pub(crate) fn asked(&self) -> &Open<A>
        ensures { result.now ≡ self.now.asked }
    {
        &self.asked
    }

    /// Returns true if the command changes its page. Three commands do: a store that stores, a delete that deletes, and a run
    /// that saves its record or removes the pair of an existing key.
    pub fn changes(&self) -> bool
        ensures change { result ≡ is_some (worked self.now.asked).change }
        ensures reply { result ≡ does_change (was_there self.now.asked) (worked self.now.asked).reply }
    {
        self.change.is_some()
    }

    /// The reply that `finish` will return. If the command is a run, its program has ended.
    pub fn reply(&self) -> &Reply<A>
        ensures value { result.now ≡ (worked self.now.asked).reply }
        ensures ends { HasEnd self.now.asked.page.pairs self.now.asked.session self.now.asked.command }
    {
        &self.reply
    }
}
