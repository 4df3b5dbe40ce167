//! Executes commands in place, on a page that is neither shared nor copied: stores that need no split, and runs on short
//! records.
ghost use Rattle.std.specs.Prelude.{◌≡◌, ◌+◌, ◌≤◌, ℕ, length, true, false, IfSome, IfNone};
ghost use Rattle.sdbm_addr.specs.Database.{IsDatabase, pairs_at};
ghost use Rattle.sdbm_addr.specs.Pairs.{pair_limit};
ghost use Rattle.bpf_helpers.specs.Runs.{argument_limit};
ghost use Rattle.store_cmd.specs.Command.{IsSmall};
ghost use Rattle.store_cmd.specs.declared.Command.TheVariants.{Store};
ghost use Rattle.store_cmd.specs.declared.Reply.TheVariants as Reply;
ghost use Rattle.store_moves.specs.Leads.{IsPlaceOf, FillsNone};
ghost use Rattle.store_moves.specs.Works.{key_of, HasKey, IsRun};
ghost use Rattle.store_moves.specs.Acts.{IsPutIn};
ghost use Rattle.store_moves.specs.Rewrites.{IsRunCopied, command_of};

use crate::pages::page_at;
use crate::runs::{REMOVED, RunInput, SAVED, env_of};
use crate::work::input_of;
use crate::worked::pair_of;
use bpf_machine::{Ended, run};
use sdbm_addr::Mode;
use sdbm_dir::Place;
use sdbm_files::Image;
use std::alloc::Allocator;
use store_cmd::Command;

// The longest record, in bytes, that is run in place.
const SHORT: usize = 256;

/// A run on a copy of a pair's value: the index of the pair, the length of its value, and how the run ended.
#[derive(Clone, Copy)]
struct RunOnCopy {
    i: usize,
    len: usize,
    ended: Ended,
}

/// Returns true if a command is a run of a program.
pub fn is_run<A: Allocator>(command: &Command<A>) -> bool
    ensures run { result ≡ true → IsRun command.now }
    ensures other { IsRun command.now → result ≡ true }
{
    match command {
        Command::Run { .. } => true,
        _ => false,
    }
}

/// Stores a pair without allocating. Returns true if the pair was stored, and false if the database is unchanged; use `work_at`
/// and `put_in` then. Stores the pair if its place has a page that is not shared and the pair fits next to those of other keys,
/// unless the store is an insert of an existing key. A page without pairs stays without pairs. The pair must be small enough
/// for the page size of the database, and the place must be that of its key (`Image::place`).
pub fn store_in_place<A: Allocator + Copy>(
    image: &mut Image<A>,
    place: Place,
    key: &[u8],
    value: &[u8],
    mode: Mode,
) -> bool
    requires small { length key.now + length value.now ≤ pair_limit image.old.size }
    requires place { IsPlaceOf image.old key.now place }
    requires database { IsDatabase image.old }
    ensures done { result ≡ true → (session : ℕ) → IsPutIn {A = A} image.old place session (Store key.now value.now mode) Reply.Stored image.new }
    ensures fills { result ≡ true → FillsNone image.old image.new }
    ensures none { result ≡ false → image.new ≡ image.old }
{
    image.store_pair(place.page, key, value, mode)
}

/// Like `store_in_place`, for a command. Does nothing if the command is not a store.
pub fn try_store<A: Allocator + Copy>(
    image: &mut Image<A>,
    place: Place,
    command: &Command<A>,
) -> bool
    requires small { IsSmall image.old.size command.now }
    requires place { IsPlaceOf image.old (key_of command.now) place }
    requires database { IsDatabase image.old }
    ensures done { result ≡ true → (session : ℕ) → IsPutIn image.old place session command.now Reply.Stored image.new }
    ensures none { result ≡ false → image.new ≡ image.old }
{
    match command {
        Command::Store { key, value, mode } => {
            store_in_place(image, place, key.as_slice(), value.as_slice(), *mode)
        }
        _ => false,
    }
}

/// Executes a session's run like `run_input_in_place`. The command must be a run that `check_sizes` accepts for the page size
/// of the database.
pub fn run_in_place<A: Allocator + Copy>(
    image: &mut Image<A>,
    place: Place,
    session: u64,
    command: &Command<A>,
) -> Option<Ended>
    requires run { IsRun command.now }
    requires small { IsSmall image.old.size command.now }
    requires place { IsPlaceOf image.old (key_of command.now) place }
    requires database { IsDatabase image.old }
    ensures done { IfSome result (λ ended. IsPutIn image.old place session command.now (Reply.Ran ended.code ended.word) image.new) }
    ensures none { IfNone result (image.new ≡ image.old) }
{
    let input = input_of(session, command);
    run_input_in_place(image, place, &input)
}

/// Executes a run without allocating, and returns how its program ended. Returns `None`, and leaves the database unchanged, if
/// the key is missing, its value is longer than 256 bytes, or the program removes the pair or saves its record on a shared
/// page; use `work_at` and `put_in` then. A page without pairs stays without pairs. `check_run` must accept the run for the
/// page size of the database, and the place must be that of its key (`Image::place`).
pub fn run_input_in_place<A: Allocator + Copy>(
    image: &mut Image<A>,
    place: Place,
    input: &RunInput<'_, A>,
) -> Option<Ended>
    requires small { IsSmall image.old.size (command_of input.now) }
    requires place { IsPlaceOf image.old input.now.key.now place }
    requires database { IsDatabase image.old }
    ensures done { IfSome result (λ ended. IsPutIn image.old place input.now.session (command_of input.now) (Reply.Ran ended.code ended.word) image.new) }
    ensures fills { IfSome result (λ _. FillsNone image.old image.new) }
    ensures none { IfNone result (image.new ≡ image.old) }
{
    let mut bytes = [0; SHORT];
    let Some(copied) = run_copied(image, place.page, input, &mut bytes) else {
        return None;
    };
    if copied.ended.code == REMOVED {
        return None;
    }
    if copied.ended.code != SAVED {
        return Some(copied.ended);
    }
    if image.write_record(place.page, copied.i, &bytes[..copied.len]) {
        return Some(copied.ended);
    }
    None
}

// Copies the value of the key into the start of `bytes` and runs the program on the copy. Returns `None` if the key has no
// pair on the page or its value is longer than `bytes`.
fn run_copied<A: Allocator + Copy>(
    image: &Image<A>,
    number: u32,
    input: &RunInput<'_, A>,
    bytes: &mut [u8],
) -> Option<RunOnCopy>
    requires long { length bytes.old ≤ 256 }
    requires argument_fits { length input.now.arg.now ≤ argument_limit }
    ensures { IfSome result (λ copied. IsRunCopied (pairs_at image.now number) input.now copied bytes.new) }
{
    let Some((page, i)) = pair_of(page_at(image, number), input.key) else {
        return None;
    };
    let value = page.record(i);
    let len = value.len();
    if bytes.len() < len {
        return None;
    }
    bytes[..len].copy_from_slice(value);
    let env = env_of(input, true);
    let ended = run(input.program, &env, &mut bytes[..len], input.arg);
    Some(RunOnCopy { i, len, ended })
}
