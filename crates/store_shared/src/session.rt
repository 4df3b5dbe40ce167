//! Sessions: the clients of a store.
ghost use Rattle.std.specs.Prelude.{◌≡◌, ◌+◌, ◌≤◌, IfOk, IfErr, OnOk, OnErr, [], length};
ghost use Rattle.sdbm_addr.specs.Pairs.{pair_limit};
ghost use Rattle.store_cmd.specs.Command.{IsSmall};
ghost use Rattle.store_cmd.specs.declared.Command.{Command};
ghost use Rattle.store_cmd.specs.declared.Command.TheVariants as commands;
ghost use Rattle.store_shared.specs.Shared.{calls_left, with_call, IsReplyTo, IsNotForSize, IsRefusal};
ghost use Rattle.store_shared.specs.Groups.{AreAnswered};

use crate::grouping::{Maker, make_all};
use crate::passing::answer;
use crate::serving::AnsweredCall;
use crate::store::{Gate, Store};
use sdbm_addr::{Bytes, Mode, PageSize};
use std::alloc::{AllocError, Allocator};
use std::marker::Model;
use std::sync::Wait;
use store_cmd::{
    Command, KeptEntry, Program, Refusal, Reply, SharedCommand, SizeFault, check_pair, check_run,
};

/// A client of a store, modelled as its number, the page size of the store, and its answered calls in order. `Store::close`
/// needs these calls: if a session that has answered calls is dropped, the store can never be closed.
#[derive(Drop)]
pub struct Session<'a, A: Allocator, G: Gate> {
    store: &'a Store<A, G>,
    alloc: A,
    number: u64,
    size: PageSize,
    calls: Vec<KeptEntry<A>, A>,
}

impl<'a, A: Allocator, G: Gate> Model for Session<'a, A, G> {
    ghost use Rattle.store_shared.specs.Shared.{SessionState};

    ghost Value = { SessionState A };

    ghost view = { λ a. record { number = a.number; size = a.size; calls = a.calls.items } };
}

/// The calls of an ended session, modelled as its number and its answered calls in order.
#[derive(Drop)]
pub struct Calls<A: Allocator> {
    number: u64,
    calls: Vec<KeptEntry<A>, A>,
}

impl<A: Allocator> Model for Calls<A> {
    ghost use Rattle.store_shared.specs.Shared.{CallsState};

    ghost Value = { CallsState A };

    ghost view = { λ a. record { number = a.number; calls = a.calls.items } };
}

impl<A: Allocator> Calls<A> {
    /// The number of the session.
    pub fn number(&self) -> u64
        ensures { result ≡ self.now.number }
    {
        self.number
    }

    /// The answered calls, in order.
    pub fn entries(&self) -> &[KeptEntry<A>]
        ensures { result.now ≡ self.now.calls }
    {
        self.calls.as_slice()
    }
}

/// A short call is one step of the desk, under one hold of the lock. A long program runs without the lock. A call blocks while
/// another session's hold on the page conflicts. An answered call is added to the session's calls. A refused call commits
/// nothing, leaves no ticket open and adds nothing.
///
/// # Errors
/// - Any call: `TrailFull` if the number of entries and open tickets is at the limit of the trail.
/// - Any call: `NoMemory` if there is no memory for the copied operands, the shared command, a ticket, the reply, the new
///   pages or the session's own entry.
/// - Any call: `NoMemory` if an owner count is at its maximum.
/// - Any call: `Strayed` if the desk does not recognize the session's ticket. A test checks that no call here causes this.
/// - `store`, `run` and `call_all` only: `PairTooLarge`, and `ArgTooLong` for a run. These are checked first.
impl<'a, A: Allocator + Copy, G: Gate> Session<'a, A, G> {
    // A session without calls.
    pub(crate) fn new(store: &'a Store<A, G>, alloc: A, size: PageSize, number: u64) -> Self
        ensures { result ≡ record { number = number; size = size; calls = [] } }
    {
        Session {
            store,
            alloc,
            number,
            size,
            calls: Vec::new(alloc),
        }
    }

    /// Ends the session and returns its calls. Takes no lock and allocates nothing.
    pub fn into_calls(self) -> Calls<A>
        ensures { result ≡ calls_left self.entry }
    {
        let Session { number, calls, .. } = self;
        Calls { number, calls }
    }

    /// Returns the value of a key: `Found` or `Missing`. The key may have any length. Waits while another session is changing
    /// the key's page.
    pub fn fetch<R: Wait>(&mut self, rt: &R, key: &[u8]) -> Result<Reply<A>, Refusal>
        ensures ok { IfOk result (λ reply. self.new ≡ with_call self.old (commands.Fetch key.now) reply) }
        ensures reply { IfOk result (λ reply. IsReplyTo self.old.number (commands.Fetch key.now) reply) }
        ensures refused { IfErr result IsNotForSize }
        ensures err { OnErr result (self.new ≡ self.old) }
    {
        let Ok(key) = Bytes::from_slice(self.alloc, key) else {
            return Err(Refusal::NoMemory);
        };
        self.call(rt, Command::Fetch { key })
    }

    /// Stores a value under a key. Returns `Stored`; `Exists` if the mode is `Insert` and the key exists; or `Crowded` if no
    /// number of splits makes room. Waits while another session is about to change the key's page. Waits before the change
    /// while other sessions read the page.
    ///
    /// # Errors
    /// `PairTooLarge` if and only if key and value together are longer than a pair of the store may be: 1,008 or 8,008 bytes.
    pub fn store<R: Wait>(
        &mut self,
        rt: &R,
        key: &[u8],
        value: &[u8],
        mode: Mode,
    ) -> Result<Reply<A>, Refusal>
        ensures ok { IfOk result (λ reply. self.new ≡ with_call self.old (commands.Store key.now value.now mode) reply) }
        ensures reply { IfOk result (λ reply. IsReplyTo self.old.number (commands.Store key.now value.now mode) reply) }
        ensures small { OnOk result (length key.now + length value.now ≤ pair_limit self.old.size) }
        ensures refused { let command : Command A = commands.Store key.now value.now mode in IfErr result (IsRefusal self.old.size command) }
        ensures err { OnErr result (self.new ≡ self.old) }
    {
        if check_pair(key, value.len(), self.size).is_err() {
            return Err(Refusal::PairTooLarge);
        }
        let Ok(key) = Bytes::from_slice(self.alloc, key) else {
            return Err(Refusal::NoMemory);
        };
        let Ok(value) = Bytes::from_slice(self.alloc, value) else {
            return Err(Refusal::NoMemory);
        };
        self.call(rt, Command::Store { key, value, mode })
    }

    /// Removes a key and its value: `Deleted` or `Missing`. The key may have any length. Waits like `store`.
    pub fn delete<R: Wait>(&mut self, rt: &R, key: &[u8]) -> Result<Reply<A>, Refusal>
        ensures ok { IfOk result (λ reply. self.new ≡ with_call self.old (commands.Delete key.now) reply) }
        ensures reply { IfOk result (λ reply. IsReplyTo self.old.number (commands.Delete key.now) reply) }
        ensures refused { IfErr result IsNotForSize }
        ensures err { OnErr result (self.new ≡ self.old) }
    {
        let Ok(key) = Bytes::from_slice(self.alloc, key) else {
            return Err(Refusal::NoMemory);
        };
        self.call(rt, Command::Delete { key })
    }

    /// Runs a program on the record of a key, with an argument and a time. Returns `Ran` with the program's exit number and
    /// reply word; `Missing` if the key does not exist and no blank is given; or `Crowded` if the program saves the blank but
    /// no number of splits makes room. `blank` is the number of zero bytes on which the program runs if the key is missing. The
    /// call adds an owner to the program and does not copy it. Waits like `store`.
    ///
    /// # Errors
    /// `PairTooLarge` if and only if key and blank together are longer than a pair of the store may be, 1,008 or 8,008 bytes;
    /// otherwise `ArgTooLong` if and only if the argument is longer than 1,024 bytes. `NoMemory` if the program's owner count is
    /// at its maximum.
    pub fn run<R: Wait>(
        &mut self,
        rt: &R,
        key: &[u8],
        prog: &Program<A>,
        arg: &[u8],
        blank: Option<usize>,
        now: u64,
    ) -> Result<Reply<A>, Refusal>
        ensures ok { IfOk result (λ reply. self.new ≡ with_call self.old (commands.Run key.now prog.now arg.now blank now) reply) }
        ensures reply { IfOk result (λ reply. IsReplyTo self.old.number (commands.Run key.now prog.now arg.now blank now) reply) }
        ensures small { let command : Command A = commands.Run key.now prog.now arg.now blank now in OnOk result (IsSmall self.old.size command) }
        ensures refused { let command : Command A = commands.Run key.now prog.now arg.now blank now in IfErr result (IsRefusal self.old.size command) }
        ensures err { OnErr result (self.new ≡ self.old) }
    {
        match check_run(key, arg, blank, self.size) {
            Ok(()) => {}
            Err(SizeFault::PairTooLarge) => return Err(Refusal::PairTooLarge),
            Err(SizeFault::ArgTooLong) => return Err(Refusal::ArgTooLong),
        }
        let Ok(key) = Bytes::from_slice(self.alloc, key) else {
            return Err(Refusal::NoMemory);
        };
        let Ok(prog) = prog.try_clone() else {
            return Err(Refusal::NoMemory);
        };
        let Ok(arg) = Bytes::from_slice(self.alloc, arg) else {
            return Err(Refusal::NoMemory);
        };
        self.call(
            rt,
            Command::Run {
                key,
                prog,
                arg,
                blank,
                now,
            },
        )
    }

    /// The page size of the store, which determines the largest pair.
    pub fn page_size(&self) -> PageSize
        ensures { result ≡ self.now.size }
    {
        self.size
    }

    /// Makes calls in order, as single calls would, and appends the outcome of each to `outcomes`: its reply, or its refusal.
    /// The session and the trail share the command of an answered call. A refused call commits nothing, and the next call is
    /// still made. Calls that take no ticket are made under one hold of the lock, so they cost less than single calls. Other
    /// sessions wait in the meantime, so pass a few tens of calls at a time.
    ///
    /// # Errors
    /// `AllocError` if there is no memory for the session's own entries or for the outcomes. No call is made then, and all
    /// commands are returned.
    pub fn call_all<R: Wait>(
        &mut self,
        rt: &R,
        calls: Vec<SharedCommand<A>, A>,
        outcomes: &mut Vec<Result<Reply<A>, Refusal>, A>,
    ) -> Result<(), (AllocError, Vec<SharedCommand<A>, A>)>
        ensures ok { OnOk result (AreAnswered self.old calls.items outcomes.old.items self.new outcomes.new.items) }
        ensures returned { IfErr result (λ refused. refused.1.items ≡ calls.items) }
        ensures kept { OnErr result (outcomes.new.items ≡ outcomes.old.items) }
        ensures err { OnErr result (self.new ≡ self.old) }
    {
        let Ok(()) = self.calls.reserve(calls.len()) else {
            return Err((AllocError, calls));
        };
        let Ok(()) = outcomes.reserve(calls.len()) else {
            return Err((AllocError, calls));
        };
        let maker = Maker {
            alloc: self.alloc,
            session: self.number,
            size: self.size,
        };
        let entries = &mut self.calls;
        make_all(rt, self.store, maker, calls.into_iter(), entries, outcomes);
        Ok(())
    }

    /// Returns the number of pairs: `Count`. Waits only for the lock.
    pub fn count<R: Wait>(&mut self, rt: &R) -> Result<Reply<A>, Refusal>
        ensures ok { IfOk result (λ reply. self.new ≡ with_call self.old commands.Count reply) }
        ensures reply { IfOk result (λ reply. IsReplyTo self.old.number commands.Count reply) }
        ensures refused { IfErr result IsNotForSize }
        ensures err { OnErr result (self.new ≡ self.old) }
    {
        self.call(rt, Command::Count)
    }

    // Makes a call. The memory for the session's own entry is allocated before the desk commits anything.
    fn call<R: Wait>(&mut self, rt: &R, command: Command<A>) -> Result<Reply<A>, Refusal>
        ensures ok { IfOk result (λ reply. self.new ≡ with_call self.old command reply) }
        ensures reply { IfOk result (λ reply. IsReplyTo self.old.number command reply) }
        ensures refused { IfErr result IsNotForSize }
        ensures err { OnErr result (self.new ≡ self.old) }
    {
        let Ok(()) = self.calls.reserve(1) else {
            return Err(Refusal::NoMemory);
        };
        let Ok(command) = SharedCommand::new(self.alloc, command) else {
            return Err(Refusal::NoMemory);
        };
        let store = self.store;
        let jobs = store.gate.wants_jobs();
        let AnsweredCall { reply, entry } = answer(
            rt,
            store,
            self.alloc,
            self.number,
            jobs,
            command,
        )?;
        self.calls.push_reserved(entry);
        Ok(reply)
    }
}
