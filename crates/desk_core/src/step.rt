//! Commands on a desk in one call, without a ticket.
ghost use Rattle.std.specs.Prelude.{◌≡◌, cond, false, true, Some, IfOk, IfErr, OnOk, OnErr, is_some, ◌&&◌, ℕ};
ghost use Rattle.std.specs.List.{list_any};
ghost use Rattle.hold_modes.specs.declared.modes.Hold.TheVariants.{Exclusive};
ghost use Rattle.hold_modes.specs.Held.{bars};
ghost use Rattle.store_cmd.specs.declared.Command.TheVariants.{Count};
ghost use Rattle.store_cmd.specs.declared.Reply.TheVariants as replies;
ghost use Rattle.store_cmd.specs.Command.{IsSmall};
ghost use Rattle.sdbm_addr.specs.Database.{pairs_at};
ghost use Rattle.store_moves.specs.Works.{HasKey, HasEnd, key_of};
ghost use Rattle.store_moves.specs.Worked as worked;
ghost use Rattle.store_moves.specs.Worked.{IsWorked, takes_memory};
ghost use Rattle.store_moves.specs.Leads.{IsPlaceOf};
ghost use Rattle.desk_core.specs.Desk.{IsSound, first_hold};
ghost use Rattle.desk_core.specs.Calls.{MayAsk, Steps, IsStepFault, works_there};

use crate::{AskFault, Desk, PageNeed};
use hold_modes::Hold;
use sdbm_dir::Place;
use std::alloc::{AllocError, Allocator};
use store_cmd::{Command, KeptEntry, Reply, SharedCommand};
use store_moves::{Worked, is_run, put_in, ran, run_in_place, work_at};

/// The reply of a step, in two copies.
#[derive(Drop)]
pub struct ReplyPair<A: Allocator> {
    pub reply: Reply<A>,
    pub copy: Reply<A>,
}

impl<A: Allocator + Copy> Desk<A> {
    /// Answers a session's command in one call, without a ticket.
    ///
    /// # Errors
    /// Those of `ask`, and `Busy` if the command would change a page that a ticket holds. `NoMemory` only if neither applies. A
    /// run may fail with `NoMemory` instead of this `Busy`, since it allocates before it is known whether its page changes. On an
    /// error the desk is unchanged, and the command is returned.
    pub fn step(
        &mut self,
        session: u64,
        command: SharedCommand<A>,
    ) -> Result<Reply<A>, (AskFault, SharedCommand<A>)>
        ensures ok { IfOk result (λ reply. Steps self.old session command reply self.new) }
        ensures refused { IfErr result (λ refused. IsStepFault self.old session command refused.0) }
        ensures returned { IfErr result (λ refused. refused.1 ≡ command) }
        ensures err { OnErr result (self.new ≡ self.old) }
    {
        match self.step_twice(session, command) {
            Ok(stepped) => Ok(stepped.reply),
            Err(refused) => Err(refused),
        }
    }

    /// Like `step`, but returns the reply twice, so that the caller can keep one copy. Both copies are made before the desk
    /// changes.
    ///
    /// # Errors
    /// Those of `step`. On an error the desk is unchanged, and the command is returned.
    pub fn step_twice(
        &mut self,
        session: u64,
        command: SharedCommand<A>,
    ) -> Result<ReplyPair<A>, (AskFault, SharedCommand<A>)>
        ensures ok { IfOk result (λ stepped. Steps self.old session command stepped.reply self.new) }
        ensures copy { IfOk result (λ stepped. stepped.copy ≡ stepped.reply) }
        ensures refused { IfErr result (λ refused. IsStepFault self.old session command refused.0) }
        ensures returned { IfErr result (λ refused. refused.1 ≡ command) }
        ensures err { OnErr result (self.new ≡ self.old) }
    {
        match self.may_ask(&command) {
            Ok(Some(wanted)) => self.step_on(session, command, wanted),
            Ok(None) => self.step_count(session, command),
            Err(fault) => Err((fault, command)),
        }
    }

    // Like `step_twice`, for a count.
    fn step_count(
        &mut self,
        session: u64,
        command: SharedCommand<A>,
    ) -> Result<ReplyPair<A>, (AskFault, SharedCommand<A>)>
        requires may { MayAsk self.old command }
        requires counts { command ≡ Count }
        ensures ok { IfOk result (λ stepped. Steps self.old session command stepped.reply self.new) }
        ensures copy { IfOk result (λ stepped. stepped.copy ≡ stepped.reply) }
        ensures refused { IfErr result (λ refused. IsStepFault self.old session command refused.0) }
        ensures returned { IfErr result (λ refused. refused.1 ≡ command) }
        ensures err { OnErr result (self.new ≡ self.old) }
    {
        match self.answer_count(session, command) {
            Ok(reply) => Ok(twice(reply)),
            Err(refused) => Err(refused),
        }
    }

    // Like `step_twice`, for a command about a key, on its current page.
    fn step_on(
        &mut self,
        session: u64,
        command: SharedCommand<A>,
        wanted: PageNeed,
    ) -> Result<ReplyPair<A>, (AskFault, SharedCommand<A>)>
        requires may { MayAsk self.old command }
        requires mode { first_hold command ≡ Some wanted.mode }
        requires place { IsPlaceOf self.old.database (key_of command) wanted.place }
        ensures ok { IfOk result (λ stepped. Steps self.old session command stepped.reply self.new) }
        ensures copy { IfOk result (λ stepped. stepped.copy ≡ stepped.reply) }
        ensures refused { IfErr result (λ refused. IsStepFault self.old session command refused.0) }
        ensures returned { IfErr result (λ refused. refused.1 ≡ command) }
        ensures err { OnErr result (self.new ≡ self.old) }
    {
        match self.step_in_place(session, command, wanted.place) {
            Ok(stepped) => Ok(stepped),
            Err(command) => self.step_by_plan(session, command, wanted),
        }
    }

    // Like `step_twice`, for a run on a short record whose page no ticket holds and no snapshot shares. Allocates only the
    // entry. Returns the command and changes nothing in any other case, or if memory runs out.
    fn step_in_place(
        &mut self,
        session: u64,
        command: SharedCommand<A>,
        place: Place,
    ) -> Result<ReplyPair<A>, SharedCommand<A>>
        requires may { MayAsk self.old command }
        requires place { IsPlaceOf self.old.database (key_of command) place }
        ensures ok { IfOk result (λ stepped. Steps self.old session command stepped.reply self.new) }
        ensures copy { IfOk result (λ stepped. stepped.copy ≡ stepped.reply) }
        ensures returned { IfErr result (λ back. back ≡ command) }
        ensures err { OnErr result (self.new ≡ self.old) }
    {
        if !is_run(command.command()) {
            return Err(command);
        }
        if self.is_in_the_way(place.page, true) {
            return Err(command);
        }
        let Ok(()) = self.trail.entries.reserve(self.tickets.len() + 1) else {
            return Err(command);
        };
        let Some(ended) = run_in_place(&mut self.image, place, session, command.command()) else {
            return Err(command);
        };
        let entry = KeptEntry::new(session, command, ran(ended));
        self.trail.entries.push_reserved(entry);
        Ok(ReplyPair {
            reply: ran(ended),
            copy: ran(ended),
        })
    }

    // Like `step_twice`, for a command about a key: computes the result, then installs it.
    fn step_by_plan(
        &mut self,
        session: u64,
        command: SharedCommand<A>,
        wanted: PageNeed,
    ) -> Result<ReplyPair<A>, (AskFault, SharedCommand<A>)>
        requires may { MayAsk self.old command }
        requires mode { first_hold command ≡ Some wanted.mode }
        requires place { IsPlaceOf self.old.database (key_of command) wanted.place }
        ensures ok { IfOk result (λ stepped. Steps self.old session command stepped.reply self.new) }
        ensures copy { IfOk result (λ stepped. stepped.copy ≡ stepped.reply) }
        ensures refused { IfErr result (λ refused. IsStepFault self.old session command refused.0) }
        ensures returned { IfErr result (λ refused. refused.1 ≡ command) }
        ensures err { OnErr result (self.new ≡ self.old) }
    {
        let PageNeed { place, .. } = wanted;
        let Ok(worked) = self.work_there(session, &command, place) else {
            return Err((self.refusal(place.page, is_change(&command)), command));
        };
        if self.is_in_the_way(place.page, worked.change.is_some()) {
            return Err((AskFault::Busy, command));
        }
        match self.put_step(session, command, place, worked) {
            Ok(stepped) => Ok(stepped),
            Err((_, command)) => Err((AskFault::NoMemory, command)),
        }
    }

    // Computes the result of a command on its current page.
    fn work_there(
        &self,
        session: u64,
        command: &SharedCommand<A>,
        place: Place,
    ) -> Result<Worked<A>, AllocError>
        requires keyed { HasKey command.now }
        requires small { IsSmall self.now.database.size command.now }
        requires place { IsPlaceOf self.now.database (key_of command.now) place }
        ensures worked { IfOk result (IsWorked (works_there self.now session command.now place)) }
        ensures ends { OnOk result (HasEnd (pairs_at self.now.database place.page) session command.now) }
        ensures err { OnErr result (takes_memory (works_there self.now session command.now place).reply ≡ true) }
        ensures sound { IsSound self.now }
    {
        work_at(self.alloc, &self.image, place, session, command.command())
    }

    // Installs a command's result on its page, and adds its entry.
    pub(crate) fn put_step(
        &mut self,
        session: u64,
        command: SharedCommand<A>,
        place: Place,
        worked: Worked<A>,
    ) -> Result<ReplyPair<A>, (AllocError, SharedCommand<A>)>
        requires may { MayAsk self.old command }
        requires keyed { HasKey command }
        requires place { IsPlaceOf self.old.database (key_of command) place }
        requires worked { IsWorked (works_there self.old session command place) worked }
        requires ends { HasEnd (pairs_at self.old.database place.page) session command }
        requires free { (is_some worked.change && list_any (bars place.page Exclusive) self.old.holds) ≡ false }
        ensures ok { IfOk result (λ stepped. Steps self.old session command stepped.reply self.new) }
        ensures copy { IfOk result (λ stepped. stepped.copy ≡ stepped.reply) }
        ensures reply { IfOk result (λ stepped. stepped.reply ≡ worked.reply) }
        ensures returned { IfErr result (λ refused. refused.1 ≡ command) }
        ensures err { OnErr result (self.new ≡ self.old) }
    {
        let Ok(copy) = worked.reply.try_clone(self.alloc) else {
            return Err((AllocError, command));
        };
        let Ok(entered) = worked.reply.try_clone(self.alloc) else {
            return Err((AllocError, command));
        };
        let Ok(()) = self.trail.entries.reserve(self.tickets.len() + 1) else {
            return Err((AllocError, command));
        };
        let Worked { reply, change } = worked;
        let Ok(()) = put_in(&mut self.image, place, change) else {
            return Err((AllocError, command));
        };
        let entry = KeptEntry::new(session, command, entered);
        self.trail.entries.push_reserved(entry);
        Ok(ReplyPair { reply, copy })
    }

    // The refusal of a command for which memory ran out: `Busy` if a ticket holds the page that it would change, otherwise
    // `NoMemory`.
    fn refusal(&self, page: u32, changes: bool) -> AskFault
        ensures { result ≡ cond (changes && list_any (bars page Exclusive) self.now.holds) AskFault.Busy AskFault.NoMemory }
    {
        if self.is_in_the_way(page, changes) {
            return AskFault::Busy;
        }
        AskFault::NoMemory
    }

    // Returns true if the page is to be changed and a ticket holds it.
    pub(crate) fn is_in_the_way(&self, page: u32, changes: bool) -> bool
        ensures { result ≡ (changes && list_any (bars page Exclusive) self.now.holds) }
    {
        if !changes {
            return false;
        }
        self.holds.bars(page, Hold::Exclusive)
    }
}

// Both copies of the reply to a count. Allocates nothing.
fn twice<A: Allocator>(reply: Reply<A>) -> ReplyPair<A>
    requires { (n : ℕ) × (reply ≡ replies.Count n) }
    ensures reply { result.reply ≡ reply }
    ensures copy { result.copy ≡ reply }
{
    match reply {
        Reply::Count(count) => ReplyPair {
            reply: Reply::Count(count),
            copy: Reply::Count(count),
        },
        _ => unreachable!(),
    }
}

// Returns true if a command allocates only if it changes its page. This is false for a run: its program runs before it is known
// whether the page changes.
fn is_change<A: Allocator>(command: &SharedCommand<A>) -> bool
    ensures { result ≡ worked.is_change command.now }
{
    match command.command() {
        Command::Store { .. } => true,
        Command::Delete { .. } => true,
        _ => false,
    }
}
