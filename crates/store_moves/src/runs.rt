//! The result of a program's run on the page of its key. The program runs on the value in a copy of the page, or on a blank. A
//! blank that the program saves is stored as an insert.
ghost use Rattle.std.specs.Prelude.{◌≡◌, ◌+◌, ◌≤◌, ◌<◌, length, true, None, IfOk, IfSome, OnOk, OnErr};
ghost use Rattle.std.specs.Option.{option_map};
ghost use Rattle.sdbm_addr.specs.Pairs.{pair_limit, value_of, value_at};
ghost use Rattle.bpf_helpers.specs.Runs.{argument_limit, record_limit};
ghost use Rattle.store_cmd.specs.Command.{FitsBlank};
ghost use Rattle.store_cmd.specs.Answers.{env_of};
ghost use Rattle.store_moves.specs.Works.{as_ran, change_of, IsPageOfKey, pairs_lent};
ghost use Rattle.store_cmd.specs.declared.Reply.TheVariants as Reply;
ghost use Rattle.store_moves.specs.Worked.{IsWorked, run_by, EndsBy, IsRunAt, IsRunAnew, WantsAnew, takes_memory};

use crate::stores::store_in;
use crate::worked::{Site, Worked, changed, pair_of, unchanged};
use bpf_helpers::{Env, RECORD_LIMIT};
use bpf_machine::{Ended, run};
use bpf_verify::Verified;
use sdbm_addr::Mode;
use sdbm_page::{Page, SharedPage};
use std::alloc::{AllocError, Allocator};
use store_cmd::Reply;

// Exit numbers with which a program saves its record or removes the pair.
pub(crate) const SAVED: u64 = 1;

pub(crate) const REMOVED: u64 = 2;

/// The operands of a run. If the key is missing, the program runs on a record of `blank` zero bytes.
#[derive(Drop)]
pub struct RunInput<'a, A: Allocator> {
    pub session: u64,
    pub time: u64,
    pub key: &'a [u8],
    pub program: &'a Verified<A>,
    pub arg: &'a [u8],
    pub blank: Option<usize>,
}

/// Runs a program on the value of its key, or on a blank of zeros if the key is missing.
///
/// # Errors
/// `AllocError` if there is no memory for the page on which the program runs, or for the pages that store its record.
pub fn run_on<A: Allocator + Copy>(
    alloc: A,
    page: Option<&Page<A>>,
    site: Site,
    input: &RunInput<'_, A>,
) -> Result<Worked<A>, AllocError>
    requires size { IfSome page (λ p. p.now.size ≡ site.size) }
    requires blank_fits { FitsBlank site.size input.now.key.now input.now.blank }
    requires placed { IsPageOfKey site.place site.kind site.size (pairs_lent page) input.now.key.now }
    requires argument_fits { length input.now.arg.now ≤ argument_limit }
    ensures worked { IfOk result (IsWorked (run_by site (pairs_lent page.entry) input.now)) }
    ensures ends { OnOk result (EndsBy (pairs_lent page.entry) input.now) }
    ensures err { OnErr result (takes_memory (run_by site (pairs_lent page.entry) input.now).reply ≡ true) }
{
    if let Some((page, i)) = pair_of(page, input.key) {
        return run_there(alloc, page, i, input);
    }
    let Some(len) = input.blank else {
        return Ok(unchanged(Reply::Missing));
    };
    run_anew(alloc, page, site, input, len)
}

/// The environment that helpers see in a run.
pub(crate) fn env_of<A: Allocator>(input: &RunInput<'_, A>, present: bool) -> Env
    ensures { result ≡ env_of input.now.time present input.now.session }
{
    Env {
        now: input.time,
        present,
        who: input.session,
    }
}

// Runs a program on the value of pair i in a copy of its page.
fn run_there<A: Allocator + Copy>(
    alloc: A,
    page: &Page<A>,
    i: usize,
    input: &RunInput<'_, A>,
) -> Result<Worked<A>, AllocError>
    requires inside { i < length page.now.pairs }
    requires record_fits { length (value_at page.now.pairs i) ≤ record_limit }
    requires argument_fits { length input.now.arg.now ≤ argument_limit }
    ensures { IfOk result (IsRunAt page.now i input.now) }
{
    let env = env_of(input, true);
    let mut made = page.try_clone()?;
    let ended = run(input.program, &env, made.record_mut(i), input.arg);
    if ended.code == SAVED {
        let leaf = SharedPage::new(alloc, made)?;
        return Ok(changed(alloc, ran(ended), leaf));
    }
    if ended.code == REMOVED {
        made.remove(i);
        let leaf = SharedPage::new(alloc, made)?;
        return Ok(changed(alloc, ran(ended), leaf));
    }
    Ok(unchanged(ran(ended)))
}

// Runs a program on a blank for a missing key, and stores the record if the program saves it.
fn run_anew<A: Allocator + Copy>(
    alloc: A,
    page: Option<&Page<A>>,
    site: Site,
    input: &RunInput<'_, A>,
    len: usize,
) -> Result<Worked<A>, AllocError>
    requires size { IfSome page (λ p. p.now.size ≡ site.size) }
    requires absent { value_of (pairs_lent page) input.now.key.now ≡ None }
    requires small { length input.now.key.now + len ≤ pair_limit site.size }
    requires placed { IsPageOfKey site.place site.kind site.size (pairs_lent page) input.now.key.now }
    requires argument_fits { length input.now.arg.now ≤ argument_limit }
    ensures ran { IfOk result (IsRunAnew site (pairs_lent page.entry) input.now len) }
    ensures err { OnErr result (WantsAnew site (pairs_lent page.entry) input.now len) }
{
    let env = env_of(input, false);
    let mut zeros = [0; RECORD_LIMIT];
    let bytes = &mut zeros[..len];
    let ended = run(input.program, &env, bytes, input.arg);
    if ended.code != SAVED {
        return Ok(unchanged(ran(ended)));
    }
    let stored = store_in(alloc, page, site, input.key, bytes, Mode::Insert)?;
    Ok(as_ran(stored, ran(ended)))
}

// Turns the result of storing a record into the run's result: the reply is the run's, or `Crowded` if nothing was stored.
fn as_ran<A: Allocator>(stored: Worked<A>, reply: Reply<A>) -> Worked<A>
    ensures { IsWorked (as_ran reply (option_map change_of stored.change)) result }
{
    let Worked { change, .. } = stored;
    match change {
        Some(change) => Worked {
            reply,
            change: Some(change),
        },
        None => unchanged(Reply::Crowded),
    }
}

/// The reply to a finished run: its exit number and its reply word.
pub fn ran<A: Allocator>(ended: Ended) -> Reply<A>
    ensures { result ≡ Reply.Ran ended.code ended.word }
{
    Reply::Ran {
        code: ended.code,
        word: ended.word,
    }
}
