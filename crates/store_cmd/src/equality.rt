//! Equality of commands.
ghost use Rattle.std.specs.Prelude.{◌≡◌, ◌↔◌, IsTrue};
ghost use Rattle.store_cmd.specs.declared.Command.TheVariants.{Fetch, Store, Delete, Run, Count};

use crate::Command;
use crate::program::Program;
use sdbm_addr::{Bytes, Mode};
use std::alloc::Allocator;

impl<A: Allocator> Command<A> {
    /// Returns true if both commands are equal. Allocates nothing.
    pub fn equals(&self, other: &Self) -> bool
        ensures { IsTrue result ↔ (self.now ≡ other.now) }
    {
        match other {
            Command::Fetch { key } => self.is_fetch(key),
            Command::Store { key, value, mode } => self.is_store(key, value, *mode),
            Command::Delete { key } => self.is_delete(key),
            Command::Run {
                key,
                prog,
                arg,
                blank,
                now,
            } => self.is_run(key, prog, arg, *blank, *now),
            Command::Count => self.is_count(),
        }
    }

    // Returns true if this is a fetch of `key`.
    fn is_fetch(&self, key: &Bytes<A>) -> bool
        ensures { IsTrue result ↔ (self.now ≡ Fetch key.now) }
    {
        match self {
            Command::Fetch { key: own } => own == key,
            _ => false,
        }
    }

    // Returns true if this is a store of `value` under `key` in this mode.
    fn is_store(&self, key: &Bytes<A>, value: &Bytes<A>, mode: Mode) -> bool
        ensures { IsTrue result ↔ (self.now ≡ Store key.now value.now mode) }
    {
        let Command::Store {
            key: own,
            value: its,
            mode: how,
        } = self
        else {
            return false;
        };
        if own != key {
            return false;
        }
        if its != value {
            return false;
        }
        *how == mode
    }

    // Returns true if this is a delete of `key`.
    fn is_delete(&self, key: &Bytes<A>) -> bool
        ensures { IsTrue result ↔ (self.now ≡ Delete key.now) }
    {
        match self {
            Command::Delete { key: own } => own == key,
            _ => false,
        }
    }

    // Returns true if this is a run with these operands.
    fn is_run(
        &self,
        key: &Bytes<A>,
        prog: &Program<A>,
        arg: &Bytes<A>,
        blank: Option<usize>,
        time: u64,
    ) -> bool
        ensures { IsTrue result ↔ (self.now ≡ Run key.now prog.now arg.now blank time) }
    {
        let Command::Run {
            key: own,
            prog: program,
            arg: argument,
            blank: len,
            now,
        } = self
        else {
            return false;
        };
        if own != key {
            return false;
        }
        if !program.equals(prog) {
            return false;
        }
        if argument != arg {
            return false;
        }
        if *len != blank {
            return false;
        }
        *now == time
    }

    // Returns true if this is a count.
    fn is_count(&self) -> bool
        ensures { IsTrue result ↔ (self.now ≡ Count) }
    {
        match self {
            Command::Count => true,
            _ => false,
        }
    }
}
