//! Executes one command on a database: computes the result, installs it, or both.
ghost use Rattle.std.specs.Prelude.{◌≡◌, ◌+◌, ◌≤◌, ℕ, length, IfOk, IfErr, IfSome, IfNone, OnOk, OnErr, is_some, true, false};
ghost use Rattle.std.specs.Option.{option_map};
ghost use Rattle.sdbm_addr.specs.Database.{IsDatabase, pairs_at};
ghost use Rattle.sdbm_addr.specs.Pairs.{pair_limit};
ghost use Rattle.store_cmd.specs.Command.{IsSmall};
ghost use Rattle.store_cmd.specs.declared.Command.TheVariants.{Store};
ghost use Rattle.store_cmd.specs.declared.Reply.TheVariants.{Ran, Stored};
ghost use Rattle.store_moves.specs.Acts.{Acts, IsPutIn};
ghost use Rattle.store_moves.specs.Leads.{IsPlaceOf, FillsNone, MayChange, changed_by};
ghost use Rattle.store_moves.specs.Rewrites.{command_of};
ghost use Rattle.store_moves.specs.Wants.{WantsMemory};
ghost use Rattle.store_moves.specs.Worked.{IsWorked, takes_memory};
ghost use Rattle.store_moves.specs.Works.{works, HasKey, HasEnd, key_of, change_of, IsRun};

use crate::in_place::{run_in_place, run_input_in_place, store_in_place, try_store};
use crate::pages::page_at;
use crate::runs::{RunInput, ran};
use crate::work::work_on;
use crate::worked::Worked;
use bpf_machine::Ended;
use sdbm_addr::Mode;
use sdbm_dir::Place;
use sdbm_files::Image;
use sdbm_split::Plan;
use std::alloc::{AllocError, Allocator};
use store_cmd::{Command, Entry, Reply};

/// Executes a session's command on a database that keeps no trail. Returns the entry that a trail would record. `check_sizes`
/// must accept the command for the page size of the database.
///
/// # Errors
/// `AllocError` if out of memory; never if the reply would be `Missing`, `Exists`, `Crowded` or a `Count`. The command is
/// returned, and the database is unchanged.
pub fn act<A: Allocator + Copy>(
    alloc: A,
    image: &mut Image<A>,
    session: u64,
    command: Command<A>,
) -> Result<Entry<A>, (AllocError, Command<A>)>
    requires small { IsSmall image.old.size command }
    ensures session { IfOk result (λ entry. entry.session ≡ session) }
    ensures command { IfOk result (λ entry. entry.command ≡ command) }
    ensures ok { IfOk result (λ entry. Acts image.old entry image.new) }
    ensures wants { OnErr result (WantsMemory image.old session command) }
    ensures returned { IfErr result (λ refused. refused.1 ≡ command) }
    ensures err { OnErr result (image.new ≡ image.old) }
{
    match reply_to(alloc, image, session, &command) {
        Ok(reply) => Ok(Entry {
            session,
            command,
            reply,
        }),
        Err(error) => Err((error, command)),
    }
}

/// Stores a pair as `act` does, if that needs no memory. Returns true if the pair was stored, and false if the database is
/// unchanged. Stores the pair if its page is not shared and has room for it, unless the store is an insert of an existing key.
/// A page without pairs stays without pairs, so the files do not grow. `check_pair` must accept the pair for the page size of
/// the database.
pub fn act_store<A: Allocator + Copy>(
    image: &mut Image<A>,
    key: &[u8],
    value: &[u8],
    mode: Mode,
) -> bool
    requires small { length key.now + length value.now ≤ pair_limit image.old.size }
    ensures done { result ≡ true → (session : ℕ) → Acts {A = A} image.old (record { session = session; command = Store key.now value.now mode; reply = Stored }) image.new }
    ensures fills { result ≡ true → FillsNone image.old image.new }
    ensures none { result ≡ false → image.new ≡ image.old }
{
    let place = image.place(key);
    act_store_at(image, place, key, value, mode)
}

/// Like `act_store`, if the caller has looked up the place of the key.
pub fn act_store_at<A: Allocator + Copy>(
    image: &mut Image<A>,
    place: Place,
    key: &[u8],
    value: &[u8],
    mode: Mode,
) -> bool
    requires small { length key.now + length value.now ≤ pair_limit image.old.size }
    requires place { IsPlaceOf image.old key.now place }
    requires database { IsDatabase image.old }
    ensures done { result ≡ true → (session : ℕ) → Acts {A = A} image.old (record { session = session; command = Store key.now value.now mode; reply = Stored }) image.new }
    ensures fills { result ≡ true → FillsNone image.old image.new }
    ensures none { result ≡ false → image.new ≡ image.old }
{
    store_in_place(image, place, key, value, mode)
}

/// Executes a run as `act` does, if that needs no memory, and returns how its program ended. Returns `None`, and leaves the
/// database unchanged, if the key is missing, its value is longer than 256 bytes, or the program removes the pair or saves its
/// record on a shared page. A page without pairs stays without pairs. `check_run` must accept the run for the page size of the
/// database.
pub fn act_run<A: Allocator + Copy>(image: &mut Image<A>, input: &RunInput<'_, A>) -> Option<Ended>
    requires small { IsSmall image.old.size (command_of input.now) }
    ensures done { IfSome result (λ ended. Acts image.old (record { session = input.now.session; command = command_of input.now; reply = Ran ended.code ended.word }) image.new) }
    ensures fills { IfSome result (λ _. FillsNone image.old image.new) }
    ensures none { IfNone result (image.new ≡ image.old) }
{
    let place = image.place(input.key);
    act_run_at(image, place, input)
}

/// Like `act_run`, if the caller has looked up the place of the key.
pub fn act_run_at<A: Allocator + Copy>(
    image: &mut Image<A>,
    place: Place,
    input: &RunInput<'_, A>,
) -> Option<Ended>
    requires small { IsSmall image.old.size (command_of input.now) }
    requires place { IsPlaceOf image.old input.now.key.now place }
    requires database { IsDatabase image.old }
    ensures done { IfSome result (λ ended. Acts image.old (record { session = input.now.session; command = command_of input.now; reply = Ran ended.code ended.word }) image.new) }
    ensures fills { IfSome result (λ _. FillsNone image.old image.new) }
    ensures none { IfNone result (image.new ≡ image.old) }
{
    run_input_in_place(image, place, input)
}

// Executes a command and returns its reply.
fn reply_to<A: Allocator + Copy>(
    alloc: A,
    image: &mut Image<A>,
    session: u64,
    command: &Command<A>,
) -> Result<Reply<A>, AllocError>
    requires small { IsSmall image.old.size command.now }
    ensures ok { IfOk result (λ reply. Acts image.old (record { session = session; command = command.now; reply = reply }) image.new) }
    ensures wants { OnErr result (WantsMemory image.old session command.now) }
    ensures err { OnErr result (image.new ≡ image.old) }
{
    match command {
        Command::Count => Ok(Reply::Count(image.count())),
        Command::Run { .. } => act_by_run(alloc, image, session, command),
        _ => act_on_page(alloc, image, session, command),
    }
}

// Like `reply_to`, for a command about a key.
fn act_on_page<A: Allocator + Copy>(
    alloc: A,
    image: &mut Image<A>,
    session: u64,
    command: &Command<A>,
) -> Result<Reply<A>, AllocError>
    requires keyed { HasKey command.now }
    requires small { IsSmall image.old.size command.now }
    ensures ok { IfOk result (λ reply. Acts image.old (record { session = session; command = command.now; reply = reply }) image.new) }
    ensures wants { OnErr result (WantsMemory image.old session command.now) }
    ensures err { OnErr result (image.new ≡ image.old) }
{
    let place = image.place(key_in(command));
    if try_store(image, place, command) {
        return Ok(Reply::Stored);
    }
    work_and_put(alloc, image, place, session, command)
}

// Like `reply_to`, for a run.
fn act_by_run<A: Allocator + Copy>(
    alloc: A,
    image: &mut Image<A>,
    session: u64,
    command: &Command<A>,
) -> Result<Reply<A>, AllocError>
    requires run { IsRun command.now }
    requires keyed { HasKey command.now }
    requires small { IsSmall image.old.size command.now }
    ensures ok { IfOk result (λ reply. Acts image.old (record { session = session; command = command.now; reply = reply }) image.new) }
    ensures wants { OnErr result (WantsMemory image.old session command.now) }
    ensures err { OnErr result (image.new ≡ image.old) }
{
    let place = image.place(key_in(command));
    if let Some(ended) = run_in_place(image, place, session, command) {
        return Ok(ran(ended));
    }
    work_and_put(alloc, image, place, session, command)
}

// Computes the result of a session's command on its page, and installs it.
fn work_and_put<A: Allocator + Copy>(
    alloc: A,
    image: &mut Image<A>,
    place: Place,
    session: u64,
    command: &Command<A>,
) -> Result<Reply<A>, AllocError>
    requires keyed { HasKey command.now }
    requires small { IsSmall image.old.size command.now }
    requires place { IsPlaceOf image.old (key_of command.now) place }
    requires database { IsDatabase image.old }
    ensures done { IfOk result (λ reply. IsPutIn image.old place session command.now reply image.new) }
    ensures wants { OnErr result (WantsMemory image.old session command.now) }
    ensures err { OnErr result (image.new ≡ image.old) }
{
    let Worked { reply, change } = work_at(alloc, image, place, session, command)?;
    match put_in(image, place, change) {
        Ok(()) => Ok(reply),
        Err((error, _)) => Err(error),
    }
}

/// The key of a command; empty for a count.
pub fn key_in<A: Allocator>(command: &Command<A>) -> &[u8]
    ensures { result.now ≡ key_of command.now }
{
    match command {
        Command::Fetch { key } => key.as_slice(),
        Command::Store { key, .. } => key.as_slice(),
        Command::Delete { key } => key.as_slice(),
        Command::Run { key, .. } => key.as_slice(),
        Command::Count => &[],
    }
}

/// Computes the result of a session's command on its current page. The database is only read. The command must not be a count,
/// and `check_sizes` must accept it for the page size of the database. The place must be that of the command's key
/// (`Image::place`).
///
/// # Errors
/// `AllocError` if there is no memory for the found value, for the changed pages, or for the page on which a program runs;
/// never if the reply would be `Missing`, `Exists` or `Crowded`.
pub fn work_at<A: Allocator + Copy>(
    alloc: A,
    image: &Image<A>,
    place: Place,
    session: u64,
    command: &Command<A>,
) -> Result<Worked<A>, AllocError>
    requires place { IsPlaceOf image.now (key_of command.now) place }
    requires keyed { HasKey command.now }
    requires small { IsSmall image.now.size command.now }
    requires database { IsDatabase image.now }
    ensures worked { IfOk result (IsWorked (works place image.now.kind image.now.size (pairs_at image.now place.page) session command.now)) }
    ensures ends { OnOk result (HasEnd (pairs_at image.now place.page) session command.now) }
    ensures err { OnErr result (takes_memory (works place image.now.kind image.now.size (pairs_at image.now place.page) session command.now).reply ≡ true) }
{
    let kind = image.key_bytes();
    let size = image.page_size();
    let page = page_at(image, place.page);
    work_on(alloc, page, place, kind, size, session, command)
}

/// Installs the change of a place's page; does nothing if there is no change. The plan must be installable in the current
/// database. A plan from `work_at` for the same database and place is installable.
///
/// # Errors
/// `AllocError` if there is no memory for the pages and the bits of the plan. The database is unchanged, and the plan is
/// returned.
pub fn put_in<A: Allocator + Copy>(
    image: &mut Image<A>,
    place: Place,
    change: Option<Plan<A>>,
) -> Result<(), (AllocError, Option<Plan<A>>)>
    requires { MayChange image.old place.page (option_map change_of change) }
    ensures ok { OnOk result (image.new ≡ changed_by image.old place.page (option_map change_of change)) }
    ensures some { OnErr result (is_some change ≡ true) }
    ensures returned { IfErr result (λ refused. refused.1 ≡ change) }
    ensures err { OnErr result (image.new ≡ image.old) }
{
    let Some(plan) = change else {
        return Ok(());
    };
    match image.install(place, plan) {
        Ok(()) => Ok(()),
        Err((error, plan)) => Err((error, Some(plan))),
    }
}
