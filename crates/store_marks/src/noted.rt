//! Commands that note the changed pages only if these are wanted.
ghost use Rattle.std.specs.Prelude.{◌≡◌, ◌+◌, ◌≤◌, length, IfOk, IfErr, IfSome, IfNone, OnErr, true, false};
ghost use Rattle.sdbm_addr.specs.Database.{Database};
ghost use Rattle.sdbm_addr.specs.Pairs.{pair_limit};
ghost use Rattle.store_cmd.specs.Command.{IsSmall};
ghost use Rattle.store_cmd.specs.declared.Command.TheVariants.{Store};
ghost use Rattle.store_cmd.specs.declared.Reply.TheVariants.{Ran, Stored};
ghost use Rattle.store_moves.specs.Acts.{Acts};
ghost use Rattle.store_moves.specs.Rewrites.{command_of};
ghost use Rattle.store_marks.specs.Noted.{Notes};

use crate::changes::{act_marked, run_marked, store_there};
use crate::marks::Marks;
use bpf_machine::Ended;
use sdbm_addr::Mode;
use sdbm_files::Image;
use std::alloc::{AllocError, Allocator, Global};
use store_cmd::{Command, Entry};
use store_moves::{RunInput, act, act_run, act_store};

/// The pages of a database that may have changed since some moment.
#[derive(Drop)]
pub enum Changes {
    /// Any page may have changed. Nothing is noted.
    Any,
    /// Only these pages may have changed.
    Pages(Marks),
}

impl Changes {
    /// No page has changed yet. Allocates nothing.
    pub fn none(alloc: Global) -> Changes
        ensures { (base : Database) → Notes result base base }
    {
        Changes::Pages(Marks::new(alloc))
    }
}

/// Executes a session's command like `act`, and notes the pages that change.
///
/// # Errors
/// `AllocError` if out of memory. The command is returned, and the database is unchanged.
pub fn act_noted<A: Allocator + Copy>(
    alloc: A,
    image: &mut Image<A>,
    changes: &mut Changes,
    session: u64,
    command: Command<A>,
) -> Result<Entry<A>, (AllocError, Command<A>)>
    requires small { IsSmall image.old.size command }
    ensures session { IfOk result (λ entry. entry.session ≡ session) }
    ensures command { IfOk result (λ entry. entry.command ≡ command) }
    ensures ok { IfOk result (λ entry. Acts image.old entry image.new) }
    ensures notes { (base : Database) → Notes changes.old base image.old → Notes changes.new base image.new }
    ensures returned { IfErr result (λ refused. refused.1 ≡ command) }
    ensures err { OnErr result (image.new ≡ image.old) }
{
    match changes {
        Changes::Any => act(alloc, image, session, command),
        Changes::Pages(marks) => act_marked(alloc, image, marks, session, command),
    }
}

/// Stores a pair for session 0 like `act_store`, and notes the page. Returns `false` and changes nothing if `act_store` returns false, or
/// if the page cannot be noted.
pub fn store_noted<A: Allocator + Copy>(
    image: &mut Image<A>,
    changes: &mut Changes,
    key: &[u8],
    value: &[u8],
    mode: Mode,
) -> bool
    requires small { length key.now + length value.now ≤ pair_limit image.old.size }
    ensures done { result ≡ true → Acts {A = A} image.old (record { session = 0; command = Store key.now value.now mode; reply = Stored }) image.new }
    ensures notes { (base : Database) → Notes changes.old base image.old → Notes changes.new base image.new }
    ensures none { result ≡ false → image.new ≡ image.old }
{
    match changes {
        Changes::Any => act_store(image, key, value, mode),
        Changes::Pages(marks) => store_there(image, marks, key, value, mode),
    }
}

/// Executes a run like `act_run`, and notes the page. Returns `None` and changes nothing if `act_run` returns `None`, or if the page
/// cannot be noted.
pub fn run_noted<A: Allocator + Copy>(
    image: &mut Image<A>,
    changes: &mut Changes,
    input: &RunInput<'_, A>,
) -> Option<Ended>
    requires small { IsSmall image.old.size (command_of input.now) }
    ensures done { IfSome result (λ ended. Acts image.old (record { session = input.now.session; command = command_of input.now; reply = Ran ended.code ended.word }) image.new) }
    ensures notes { (base : Database) → Notes changes.old base image.old → Notes changes.new base image.new }
    ensures none { IfNone result (image.new ≡ image.old) }
{
    match changes {
        Changes::Any => act_run(image, input),
        Changes::Pages(marks) => run_marked(image, marks, input),
    }
}
