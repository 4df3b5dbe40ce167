//! Changes a database, and marks every page whose pairs change.
ghost use Rattle.std.specs.Prelude.{◌≡◌, ◌+◌, ◌≤◌, length, IfOk, IfErr, IfSome, IfNone, OnOk, OnErr, true, false};
ghost use Rattle.std.specs.Option.{option_map};
ghost use Rattle.std.specs.Arc.{arc_value};
ghost use Rattle.sdbm_addr.specs.Database.{Database, IsDatabase, pairs_at};
ghost use Rattle.sdbm_addr.specs.Pairs.{pair_limit};
ghost use Rattle.store_cmd.specs.Command.{IsSmall};
ghost use Rattle.store_cmd.specs.declared.Command.TheVariants.{Store, Run};
ghost use Rattle.store_cmd.specs.declared.Reply.TheVariants.{Ran, Stored};
ghost use Rattle.store_moves.specs.Acts.{Acts};
ghost use Rattle.store_moves.specs.Leads.{FillsNone, IsPlaceOf, MayChange, changed_by};
ghost use Rattle.store_moves.specs.Rewrites.{command_of};
ghost use Rattle.store_moves.specs.Works.{HasKey, change_of, key_of};
ghost use Rattle.store_marks.specs.Marks.{HasMoreMarks, DifferOn, CoversChange};

use crate::marks::Marks;
use bpf_machine::Ended;
use bpf_verify::Verified;
use sdbm_addr::Mode;
use sdbm_dir::Place;
use sdbm_files::Image;
use sdbm_page::SharedPage;
use sdbm_split::Plan;
use std::alloc::{AllocError, Allocator};
use std::sync::Arc;
use store_cmd::{Command, Entry, Reply};
use store_moves::{RunInput, Worked, act_run_at, act_store_at, key_in, put_in, ran, work_at};

// Returns true if the new page has no pairs, and the page that it replaces has none either.
fn stays_bare<A: Allocator + Copy>(image: &Image<A>, number: u32, page: &SharedPage<A>) -> bool
    ensures { result ≡ true → page.now.pairs ≡ pairs_at image.now number }
{
    if !page.page().is_empty() {
        return false;
    }
    !image.has_pairs(number)
}

// Marks the pages whose pairs a change replaces: the page with this number, and its twins that do not stay empty.
fn mark_change<A: Allocator + Copy>(
    image: &Image<A>,
    marks: &mut Marks,
    number: u32,
    change: &Option<Plan<A>>,
) -> Result<(), AllocError>
    ensures more { HasMoreMarks marks.old marks.new }
    ensures covers { OnOk result (CoversChange image.now number (option_map change_of change.now) marks.new) }
{
    let Some(plan) = change else {
        return Ok(());
    };
    marks.add(number)?;
    for twin in plan.twins.as_slice() {
        if stays_bare(image, twin.0, &twin.1) {
            continue;
        }
        marks.add(twin.0)?;
    }
    Ok(())
}

/// Puts the change of a page into the database like `put_in`, and marks the pages whose pairs change.
///
/// # Errors
/// `AllocError` if out of memory. Nothing is changed, and the plan is returned.
pub fn put_marked<A: Allocator + Copy>(
    image: &mut Image<A>,
    marks: &mut Marks,
    place: Place,
    change: Option<Plan<A>>,
) -> Result<(), (AllocError, Option<Plan<A>>)>
    requires { MayChange image.old place.page (option_map change_of change) }
    ensures ok { OnOk result (image.new ≡ changed_by image.old place.page (option_map change_of change)) }
    ensures differ { OnOk result ((base : Database) → DifferOn marks.old base image.old → DifferOn marks.new base image.new) }
    ensures more { OnOk result (HasMoreMarks marks.old marks.new) }
    ensures returned { IfErr result (λ refused. refused.1 ≡ change) }
    ensures err { OnErr result (image.new ≡ image.old) }
    ensures kept { OnErr result (marks.new ≡ marks.old) }
{
    let len = marks.as_slice().len();
    let Ok(()) = mark_change(image, marks, place.page, &change) else {
        marks.cut(len);
        return Err((AllocError, change));
    };
    match put_in(image, place, change) {
        Ok(()) => Ok(()),
        Err(refused) => {
            marks.cut(len);
            Err(refused)
        }
    }
}

/// Executes a session's command like `act`, and marks the pages whose pairs change. Computes the result on a copy of the page.
///
/// # Errors
/// `AllocError` if out of memory. The command is returned, and database and marks are unchanged.
pub fn act_marked<A: Allocator + Copy>(
    alloc: A,
    image: &mut Image<A>,
    marks: &mut Marks,
    session: u64,
    command: Command<A>,
) -> Result<Entry<A>, (AllocError, Command<A>)>
    requires small { IsSmall image.old.size command }
    ensures session { IfOk result (λ entry. entry.session ≡ session) }
    ensures command { IfOk result (λ entry. entry.command ≡ command) }
    ensures ok { IfOk result (λ entry. Acts image.old entry image.new) }
    ensures differ { OnOk result ((base : Database) → DifferOn marks.old base image.old → DifferOn marks.new base image.new) }
    ensures returned { IfErr result (λ refused. refused.1 ≡ command) }
    ensures err { OnErr result (image.new ≡ image.old) }
    ensures kept { OnErr result (marks.new ≡ marks.old) }
{
    match reply_marked(alloc, image, marks, session, &command) {
        Ok(reply) => Ok(Entry {
            session,
            command,
            reply,
        }),
        Err(error) => Err((error, command)),
    }
}

// Executes a command, marks the pages whose pairs change, and returns the reply.
fn reply_marked<A: Allocator + Copy>(
    alloc: A,
    image: &mut Image<A>,
    marks: &mut Marks,
    session: u64,
    command: &Command<A>,
) -> Result<Reply<A>, AllocError>
    requires small { IsSmall image.old.size command.now }
    ensures ok { IfOk result (λ reply. Acts image.old (record { session = session; command = command.now; reply = reply }) image.new) }
    ensures differ { OnOk result ((base : Database) → DifferOn marks.old base image.old → DifferOn marks.new base image.new) }
    ensures err { OnErr result (image.new ≡ image.old) }
    ensures kept { OnErr result (marks.new ≡ marks.old) }
{
    match command {
        Command::Count => Ok(Reply::Count(image.count())),
        _ => {
            let place = image.place(key_in(command));
            work_and_mark(alloc, image, marks, place, session, command)
        }
    }
}

// Like `reply_marked`, for a command about a key, whose place is given.
fn work_and_mark<A: Allocator + Copy>(
    alloc: A,
    image: &mut Image<A>,
    marks: &mut Marks,
    place: Place,
    session: u64,
    command: &Command<A>,
) -> Result<Reply<A>, AllocError>
    requires keyed { HasKey command.now }
    requires small { IsSmall image.old.size command.now }
    requires place { IsPlaceOf image.old (key_of command.now) place }
    requires database { IsDatabase image.old }
    ensures ok { IfOk result (λ reply. Acts image.old (record { session = session; command = command.now; reply = reply }) image.new) }
    ensures differ { OnOk result ((base : Database) → DifferOn marks.old base image.old → DifferOn marks.new base image.new) }
    ensures err { OnErr result (image.new ≡ image.old) }
    ensures kept { OnErr result (marks.new ≡ marks.old) }
{
    let Worked { reply, change } = work_at(alloc, image, place, session, command)?;
    match put_marked(image, marks, place, change) {
        Ok(()) => Ok(reply),
        Err((error, _)) => Err(error),
    }
}

/// Stores a pair like `act_store`, marks its page, and returns true if it was stored. Returns `false` and changes nothing if
/// `act_store` returns false, if there is no memory for the mark, or if the page has no pairs. So only pages with pairs are
/// marked, and there are no more marks than pages in `.pag`.
pub fn store_there<A: Allocator + Copy>(
    image: &mut Image<A>,
    marks: &mut Marks,
    key: &[u8],
    value: &[u8],
    mode: Mode,
) -> bool
    requires small { length key.now + length value.now ≤ pair_limit image.old.size }
    ensures done { result ≡ true → Acts {A = A} image.old (record { session = 0; command = Store key.now value.now mode; reply = Stored }) image.new }
    ensures fills { result ≡ true → FillsNone image.old image.new }
    ensures differ { result ≡ true → (base : Database) → DifferOn marks.old base image.old → DifferOn marks.new base image.new }
    ensures more { result ≡ true → HasMoreMarks marks.old marks.new }
    ensures none { result ≡ false → image.new ≡ image.old }
    ensures kept { result ≡ false → marks.new ≡ marks.old }
{
    let place = image.place(key);
    if !image.has_pairs(place.page) {
        return false;
    }
    let len = marks.as_slice().len();
    let Ok(()) = marks.add(place.page) else {
        return false;
    };
    if act_store_at(image, place, key, value, mode) {
        return true;
    }
    marks.cut(len);
    false
}

/// Runs a program on a record in place like `act_run`, marks its page, and returns how the program ended. Returns `None` and
/// changes nothing if `act_run` returns `None`, if there is no memory for the mark, or if the page has no pairs, as in
/// `store_there`.
pub fn run_marked<A: Allocator + Copy>(
    image: &mut Image<A>,
    marks: &mut Marks,
    input: &RunInput<'_, A>,
) -> Option<Ended>
    requires small { IsSmall image.old.size (command_of input.now) }
    ensures done { IfSome result (λ ended. Acts image.old (record { session = input.now.session; command = command_of input.now; reply = Ran ended.code ended.word }) image.new) }
    ensures fills { IfSome result (λ _. FillsNone image.old image.new) }
    ensures differ { IfSome result (λ _. (base : Database) → DifferOn marks.old base image.old → DifferOn marks.new base image.new) }
    ensures more { IfSome result (λ _. HasMoreMarks marks.old marks.new) }
    ensures none { IfNone result (image.new ≡ image.old) }
    ensures kept { IfNone result (marks.new ≡ marks.old) }
{
    let place = image.place(input.key);
    if !image.has_pairs(place.page) {
        return None;
    }
    let len = marks.as_slice().len();
    let Ok(()) = marks.add(place.page) else {
        return None;
    };
    match act_run_at(image, place, input) {
        Some(ended) => Some(ended),
        None => {
            marks.cut(len);
            None
        }
    }
}

/// Like `run_marked`, for a run of session 0 with these operands. Returns the reply.
pub fn run_there<A: Allocator + Copy>(
    image: &mut Image<A>,
    marks: &mut Marks,
    program: &Arc<Verified<A>, A>,
    key: &[u8],
    arg: &[u8],
    blank: Option<usize>,
    now: u64,
) -> Option<Reply<A>>
    requires small { IsSmall {A = A} image.old.size (Run key.now (arc_value program.now).code arg.now blank now) }
    ensures done { IfSome result (λ reply. Acts image.old (record { session = 0; command = Run key.now (arc_value program.now).code arg.now blank now; reply = reply }) image.new) }
    ensures fills { IfSome result (λ _. FillsNone image.old image.new) }
    ensures differ { IfSome result (λ _. (base : Database) → DifferOn marks.old base image.old → DifferOn marks.new base image.new) }
    ensures more { IfSome result (λ _. HasMoreMarks marks.old marks.new) }
    ensures none { IfNone result (image.new ≡ image.old) }
    ensures kept { IfNone result (marks.new ≡ marks.old) }
{
    let input = RunInput {
        session: 0,
        time: now,
        key,
        program: &**program,
        arg,
        blank,
    };
    match run_marked(image, marks, &input) {
        Some(ended) => Some(ran(ended)),
        None => None,
    }
}
