//! Commands computed without a ticket. A `Look` has a snapshot of the command's page. The result is computed from the
//! snapshot, and installed if the page is unchanged.
ghost use Rattle.std.specs.Prelude.{◌≡◌, ◌↔◌, IsTrue, IfOk, IfErr, OnOk, OnErr, is_some};
ghost use Rattle.store_moves.specs.Works.{HasKey, HasEnd, key_of};
ghost use Rattle.store_moves.specs.Leads.{IsPlaceOf};
ghost use Rattle.desk_core.specs.Jobs.{worked};
ghost use Rattle.desk_core.specs.Calls.{MayAsk, IsAsked, IsAskFault, IsStill, Steps, MayPut, IsPutFault};

use crate::job::{Open, work_asked};
use crate::step::ReplyPair;
use crate::{AskFault, Desk};
use sdbm_dir::Place;
use std::alloc::{AllocError, Allocator};
use std::marker::Model;
use store_cmd::SharedCommand;
use store_moves::{PageCopy, Worked};

/// A command with a snapshot of its page, to be computed without the desk. It is modelled as an open command. It has no
/// ticket, so it holds no page and reserves no room in the trail.
#[derive(Drop)]
pub struct Look<A: Allocator> {
    alloc: A,
    asked: Open<A>,
}

impl<A: Allocator> Model for Look<A> {
    ghost use Rattle.desk_core.specs.declared.job.Open.{Open};
    ghost use Rattle.desk_core.specs.Jobs.{IsJob};

    ghost Value = { Open A };

    ghost view = { λ a. a.asked };

    ghost invariant = { λ a. IsJob a.asked };
}

/// A computed look, modelled as the look, which determines its result.
#[derive(Drop)]
pub struct Seen<A: Allocator> {
    asked: Open<A>,
    worked: Worked<A>,
}

impl<A: Allocator> Model for Seen<A> {
    ghost use Rattle.desk_core.specs.declared.job.Open.{Open};
    ghost use Rattle.desk_core.specs.Jobs.{IsSeen};

    ghost Value = { Open A };

    ghost view = { λ a. a.asked };

    ghost invariant = { λ a. IsSeen a.asked a.worked };
}

/// The reasons why the result of a look is not installed.
#[derive(Clone, Copy, Debug, PartialEq, Eq)]
pub enum PutFault {
    /// `ask` refuses the command, a ticket holds the page that it changes, or memory runs out.
    Refused(AskFault),
    /// The page of the command's key has changed since the look.
    Changed,
}

impl<A: Allocator> Look<A> {
    /// Computes the result from the snapshot of the page. Neither reads nor changes anything else.
    ///
    /// # Errors
    /// `AllocError` if there is no memory for the reply, the changed pages or the page of a run. The look is returned.
    pub fn work(self) -> Result<Seen<A>, (AllocError, Look<A>)>
    where
        A: Copy,
        ensures ok { IfOk result (λ seen. seen ≡ self) }
        ensures returned { IfErr result (λ refused. refused.1 ≡ self) }
        ensures ends { OnOk result (HasEnd self.page.pairs self.session self.command) }
    {
        let Ok(worked) = work_asked(self.alloc, &self.asked) else {
            return Err((AllocError, self));
        };
        let Look { asked, .. } = self;
        Ok(Seen { asked, worked })
    }
}

impl<A: Allocator> Seen<A> {
    // Returns true if the command changes its page.
    fn changes(&self) -> bool
        ensures { result ≡ is_some (worked self.now).change }
    {
        self.worked.change.is_some()
    }

    // The open command.
    fn asked(&self) -> &Open<A>
        ensures value { result.now ≡ self.now }
        ensures keyed { HasKey self.now.command }
    {
        &self.asked
    }
}

impl<A: Allocator + Copy> Desk<A> {
    /// Takes a `Look` for a session's command about a key, to be computed without the desk. Allocates nothing and holds
    /// nothing, so other sessions may change the page in the meantime.
    ///
    /// # Errors
    /// Those of `ask`. `NoMemory` only if the owner count of the page is at its maximum. The command is returned.
    pub fn look(
        &self,
        session: u64,
        command: SharedCommand<A>,
    ) -> Result<Look<A>, (AskFault, SharedCommand<A>)>
        requires keyed { HasKey command }
        ensures may { OnOk result (MayAsk self.now command) }
        ensures ok { IfOk result (λ look. IsAsked self.now session command look) }
        ensures refused { IfErr result (λ refused. IsAskFault self.now command refused.0) }
        ensures returned { IfErr result (λ refused. refused.1 ≡ command) }
    {
        match self.may_ask(&command) {
            Ok(Some(wanted)) => self.look_at(session, command, wanted.place),
            Ok(None) => unreachable!(),
            Err(fault) => Err((fault, command)),
        }
    }

    // Like `look`, for a command that may be requested, at the place of its key.
    fn look_at(
        &self,
        session: u64,
        command: SharedCommand<A>,
        place: Place,
    ) -> Result<Look<A>, (AskFault, SharedCommand<A>)>
        requires keyed { HasKey command }
        requires may { MayAsk self.now command }
        requires place { IsPlaceOf self.now.database (key_of command) place }
        ensures ok { IfOk result (λ look. IsAsked self.now session command look) }
        ensures refused { IfErr result (λ refused. IsAskFault self.now command refused.0) }
        ensures returned { IfErr result (λ refused. refused.1 ≡ command) }
    {
        let Ok(page) = PageCopy::of(&self.image, place.page) else {
            return Err((AskFault::NoMemory, command));
        };
        let kind = self.image.key_bytes();
        let asked = Open {
            session,
            command,
            place,
            kind,
            page,
        };
        Ok(Look {
            alloc: self.alloc,
            asked,
        })
    }

    /// Installs the result of a look if the page of its key is unchanged. The effect is that of one `step` of its command.
    /// Returns the reply twice, like `step_twice`.
    ///
    /// # Errors
    /// Checked in this order. On an error the desk is unchanged, and the command is returned.
    /// - `Refused` if and only if `ask` refuses the command for a reason other than memory.
    /// - `Changed` if and only if the page of the key has changed, or the database has another page size or hash kind.
    /// - `Refused(Busy)` if and only if the command changes a page that a ticket holds.
    /// - `Refused(NoMemory)` if memory runs out.
    pub fn put(&mut self, seen: Seen<A>) -> Result<ReplyPair<A>, (PutFault, SharedCommand<A>)>
        ensures ok { IfOk result (λ stepped. Steps self.old seen.session seen.command stepped.reply self.new) }
        ensures reply { IfOk result (λ stepped. stepped.reply ≡ (worked seen).reply) }
        ensures copy { IfOk result (λ stepped. stepped.copy ≡ stepped.reply) }
        ensures still { OnOk result (IsStill self.old seen) }
        ensures refused { IfErr result (λ refused. IsPutFault self.old seen refused.0) }
        ensures returned { IfErr result (λ refused. refused.1 ≡ seen.command) }
        ensures err { OnErr result (self.new ≡ self.old) }
    {
        if let Err(fault) = self.may_put(&seen) {
            let Seen { asked, .. } = seen;
            return Err((fault, asked.command));
        }
        let Seen { asked, worked } = seen;
        let Open {
            session,
            command,
            place,
            ..
        } = asked;
        match self.put_step(session, command, place, worked) {
            Ok(stepped) => Ok(stepped),
            Err((_, command)) => Err((PutFault::Refused(AskFault::NoMemory), command)),
        }
    }

    // Checks that the result of a look may be installed. Does not check memory.
    fn may_put(&self, seen: &Seen<A>) -> Result<(), PutFault>
        ensures ok { OnOk result (MayPut self.now seen.now) }
        ensures refused { IfErr result (IsPutFault self.now seen.now) }
    {
        let asked = seen.asked();
        match self.may_ask(&asked.command) {
            Ok(Some(wanted)) => self.may_put_at(seen, wanted.place),
            Ok(None) => unreachable!(),
            Err(fault) => Err(PutFault::Refused(fault)),
        }
    }

    // Like `may_put`, for a command that may be requested and whose key has this place.
    fn may_put_at(&self, seen: &Seen<A>, place: Place) -> Result<(), PutFault>
        requires may { MayAsk self.now seen.now.command }
        requires place { IsPlaceOf self.now.database (key_of seen.now.command) place }
        ensures ok { OnOk result (MayPut self.now seen.now) }
        ensures refused { IfErr result (IsPutFault self.now seen.now) }
    {
        let asked = seen.asked();
        if !self.is_still(asked, place) {
            return Err(PutFault::Changed);
        }
        if self.is_in_the_way(asked.place.page, seen.changes()) {
            return Err(PutFault::Refused(AskFault::Busy));
        }
        Ok(())
    }

    // Returns true if the page of the open command is the current page of its key, whose place is `place`.
    fn is_still(&self, asked: &Open<A>, place: Place) -> bool
        requires { IsPlaceOf self.now.database (key_of asked.now.command) place }
        ensures { IsTrue result ↔ IsStill self.now asked.now }
    {
        if asked.place != place {
            return false;
        }
        if asked.kind != self.image.key_bytes() {
            return false;
        }
        asked.page.is_still(&self.image, place.page)
    }
}
