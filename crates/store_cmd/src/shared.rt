//! Commands with several owners, and entries that hold them.
ghost use Rattle.std.specs.Prelude.{◌≡◌, ◌↔◌, IsTrue, IfOk, IfErr};

use crate::{Command, Reply};
use std::alloc::{AllocError, Allocator};
use std::marker::Model;
use std::sync::Arc;

/// A shared, read-only command. Cloning adds an owner and allocates nothing; the last owner frees the command.
#[derive(Drop)]
pub struct SharedCommand<A: Allocator> {
    owned: Arc<Command<A>, A>,
}

impl<A: Allocator> Model for SharedCommand<A> {
    ghost use Rattle.std.specs.Arc.{arc_value};
    ghost use Rattle.store_cmd.specs.declared.Command.{Command};

    ghost Value = { Command A };

    ghost view = { λ a. arc_value a.owned };
}

impl<A: Allocator> SharedCommand<A> {
    /// Wraps a command, with a single owner. If out of memory, returns the command.
    pub fn new(alloc: A, command: Command<A>) -> Result<Self, Command<A>>
        ensures ok { IfOk result (λ shared. shared ≡ command) }
        ensures returned { IfErr result (λ refused. refused ≡ command) }
    {
        match Arc::new(alloc, command) {
            Ok(owned) => Ok(SharedCommand { owned }),
            Err(refused) => Err(refused.value),
        }
    }

    /// The command.
    pub fn command(&self) -> &Command<A>
        ensures { result.now ≡ self.now }
    {
        &*self.owned
    }

    /// Returns true if both owners hold equal commands. Allocates nothing.
    pub fn equals(&self, other: &Self) -> bool
        ensures { IsTrue result ↔ (self.now ≡ other.now) }
    {
        self.command().equals(other.command())
    }

    /// Adds an owner, without allocating. Returns an error if the owner count is at its maximum.
    pub fn try_clone(&self) -> Result<Self, AllocError>
        ensures { IfOk result (λ copy. copy ≡ self.now) }
    {
        let owned = Arc::try_clone(&self.owned)?;
        Ok(SharedCommand { owned })
    }
}

/// An answered command, modelled as an `Entry`. The trail and the session each store one, and share its command.
#[derive(Drop)]
pub struct KeptEntry<A: Allocator> {
    session: u64,
    command: SharedCommand<A>,
    reply: Reply<A>,
}

impl<A: Allocator> Model for KeptEntry<A> {
    ghost use Rattle.store_cmd.specs.declared.Entry.{Entry};

    ghost Value = { Entry A };

    ghost view = { λ a. record { session = a.session; command = a.command; reply = a.reply } };
}

impl<A: Allocator> KeptEntry<A> {
    /// Makes the entry of a session's command and its reply.
    pub fn new(session: u64, command: SharedCommand<A>, reply: Reply<A>) -> Self
        ensures { result ≡ record { session = session; command = command; reply = reply } }
    {
        KeptEntry {
            session,
            command,
            reply,
        }
    }

    /// The number of the session.
    pub fn session(&self) -> u64
        ensures { result ≡ self.now.session }
    {
        self.session
    }

    /// The command.
    pub fn command(&self) -> &Command<A>
        ensures { result.now ≡ self.now.command }
    {
        self.command.command()
    }

    /// The reply.
    pub fn reply(&self) -> &Reply<A>
        ensures { result.now ≡ self.now.reply }
    {
        &self.reply
    }

    /// Returns true if session, command and reply are equal. Allocates nothing.
    pub fn equals(&self, other: &Self) -> bool
        ensures { IsTrue result ↔ (self.now ≡ other.now) }
    {
        if self.session != other.session {
            return false;
        }
        if !self.command.equals(&other.command) {
            return false;
        }
        self.reply == other.reply
    }

    /// Clones the entry and adds an owner to its command. Returns an error if there is no memory for the reply or if the
    /// command's owner count is at its maximum.
    pub fn try_clone(&self, alloc: A) -> Result<Self, AllocError>
    where
        A: Copy,
        ensures { IfOk result (λ copy. copy ≡ self.now) }
    {
        Ok(KeptEntry {
            session: self.session,
            command: self.command.try_clone()?,
            reply: self.reply.try_clone(alloc)?,
        })
    }
}
