//! The result of a command, computed from the page of its key alone: its reply, and the change of the page.
ghost use Rattle.std.specs.Prelude.{◌≡◌, ◌+◌, ◌<◌, length, remove, true, IfOk, IfSome, OnOk, OnErr, Some};
ghost use Rattle.sdbm_addr.specs.Pairs.{HasDistinctKeys, value_of};
ghost use Rattle.store_cmd.specs.declared.Command.TheVariants.{Run};
ghost use Rattle.store_moves.specs.Works.{works, fetched, deleted, HasEnd, IsWorkable, pairs_lent, IsRun};
ghost use Rattle.store_moves.specs.Worked.{IsWorked, takes_memory};

use crate::runs::{RunInput, run_on};
use crate::stores::store_in;
use crate::worked::{Site, Worked, changed, pair_of, unchanged};
use sdbm_addr::{Bytes, KeyBytes, PageSize};
use sdbm_dir::Place;
use sdbm_page::{Page, SharedPage};
use std::alloc::{AllocError, Allocator};
use store_cmd::{Command, Reply};

/// Computes the result of a session's command on the page of its place; pass `None` if the place has no pairs. The command must
/// not be a count, and `check_sizes` must accept it for this page size. The place must be that of the command's key in a
/// database of this hash kind, and the page must be the one at that place. Nothing is modified.
///
/// # Errors
/// `AllocError` if there is no memory for the found value, for the changed pages, or for the page on which a program runs;
/// never if the reply would be `Missing`, `Exists` or `Crowded`.
pub fn work_on<A: Allocator + Copy>(
    alloc: A,
    page: Option<&Page<A>>,
    place: Place,
    kind: KeyBytes,
    size: PageSize,
    session: u64,
    command: &Command<A>,
) -> Result<Worked<A>, AllocError>
    requires size { IfSome page (λ p. p.now.size ≡ size) }
    requires may { IsWorkable place kind size (pairs_lent page) command.now }
    ensures worked { IfOk result (IsWorked (works place kind size (pairs_lent page.entry) session command.now)) }
    ensures ends { OnOk result (HasEnd (pairs_lent page.entry) session command.now) }
    ensures err { OnErr result (takes_memory (works place kind size (pairs_lent page.entry) session command.now).reply ≡ true) }
{
    let site = Site { place, kind, size };
    match command {
        Command::Fetch { key } => fetch(alloc, page, key.as_slice()),
        Command::Store { key, value, mode } => {
            let key = key.as_slice();
            let value = value.as_slice();
            store_in(alloc, page, site, key, value, *mode)
        }
        Command::Delete { key } => delete(alloc, page, size, key.as_slice()),
        Command::Run { .. } => {
            let input = input_of(session, command);
            run_on(alloc, page, site, &input)
        }
        Command::Count => unreachable!(),
    }
}

/// The operands of a session's run command.
pub(crate) fn input_of<A: Allocator>(session: u64, command: &Command<A>) -> RunInput<'_, A>
    requires { IsRun command.now }
    ensures session { result.session ≡ session }
    ensures command { command.now ≡ Run result.key.now result.program.now.code result.arg.now result.blank result.time }
{
    match command {
        Command::Run {
            key,
            prog,
            arg,
            blank,
            now,
        } => RunInput {
            session,
            time: *now,
            key: key.as_slice(),
            program: prog.verified(),
            arg: arg.as_slice(),
            blank: *blank,
        },
        _ => unreachable!(),
    }
}

// The reply to a fetch. Copies only the value.
fn fetch<A: Allocator + Copy>(
    alloc: A,
    page: Option<&Page<A>>,
    key: &[u8],
) -> Result<Worked<A>, AllocError>
    ensures worked { IfOk result (IsWorked (fetched (value_of (pairs_lent page.entry) key.now))) }
    ensures err { OnErr result (takes_memory (fetched {A = A} (value_of (pairs_lent page.entry) key.now)).reply ≡ true) }
{
    let Some((page, i)) = pair_of(page, key) else {
        return Ok(unchanged(Reply::Missing));
    };
    let value = Bytes::from_slice(alloc, page.record(i))?;
    Ok(unchanged(Reply::Found(value)))
}

// The reply to a delete, and the page without the pair.
fn delete<A: Allocator + Copy>(
    alloc: A,
    page: Option<&Page<A>>,
    size: PageSize,
    key: &[u8],
) -> Result<Worked<A>, AllocError>
    requires size { IfSome page (λ p. p.now.size ≡ size) }
    requires distinct { HasDistinctKeys (pairs_lent page) }
    ensures worked { let pairs = pairs_lent page.entry in IfOk result (IsWorked (deleted size pairs key.now (value_of pairs key.now))) }
    ensures err { let pairs = pairs_lent page.entry in OnErr result (takes_memory (deleted {A = A} size pairs key.now (value_of pairs key.now)).reply ≡ true) }
{
    let Some((page, i)) = pair_of(page, key) else {
        return Ok(unchanged(Reply::Missing));
    };
    let made = without_pair(alloc, page, size, i)?;
    let leaf = SharedPage::new(alloc, made)?;
    Ok(changed(alloc, Reply::Deleted, leaf))
}

// A page without one of its pairs.
fn without_pair<A: Allocator + Copy>(
    alloc: A,
    page: &Page<A>,
    size: PageSize,
    i: usize,
) -> Result<Page<A>, AllocError>
    requires size { page.now.size ≡ size }
    requires inside { i < length page.now.pairs }
    ensures { IfOk result (λ made. made ≡ record { size = size; pairs = remove page.now.pairs i }) }
{
    if page.len() == 1 {
        return Page::empty(alloc, size);
    }
    let mut made = page.try_clone()?;
    made.remove(i);
    Ok(made)
}
