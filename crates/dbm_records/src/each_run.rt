//! The runs of `each`.
ghost use Rattle.std.specs.Prelude.{◌≡◌, ◌++◌, ◌∷◌, [], IfOk, IsSome, OnOk, slice_get};
ghost use Rattle.std.specs.FinMap as map;
ghost use Rattle.sdbm_addr.specs.Database.{map_of};
ghost use Rattle.sdbm_files.specs.Lent.{pair_lent, pairs_lent};
ghost use Rattle.dbm_records.specs.EachRuns.{RunsAll, RunsEach, RunsNumber, RunsOne, keys_with, written_by};

use crate::tally::Tally;
use dbm_reports::{Notes, Report, refused};
use dbm_script::{RunAsk, answer_command, command_of_run};
use prog_registry::Registry;
use sdbm_addr::Bytes;
use sdbm_files::Image;
use std::alloc::{AllocError, Global};

/// The meaning of the arguments of `each`, except the program.
#[derive(Drop)]
pub struct EachWords {
    pub prefix: Bytes<Global>,
    pub arg: Bytes<Global>,
    /// The time that is passed to the program.
    pub time: u64,
}

/// Runs the program of an image on each record whose key begins with the prefix. If the program is refused, the report gives the reason.
/// The report of a dry run has no database.
///
/// # Errors
/// `AllocError` if allocation fails.
pub fn run_each(
    alloc: Global,
    database: Image<Global>,
    image: &[u8],
    words: EachWords,
    is_dry: bool,
) -> Result<Report, AllocError>
    ensures { IfOk result (RunsEach database words image.now is_dry) }
{
    let mut registry = Registry::new(alloc)?;
    match registry.submit(image) {
        Ok(id) => run_program(alloc, database, &registry, id.0, words, is_dry),
        Err(fault) => refused(alloc, fault, 1, written(database, is_dry)),
    }
}

// Returns the database to save, or `None` for a dry run.
fn written(database: Image<Global>, is_dry: bool) -> Option<Image<Global>>
    ensures { result ≡ written_by is_dry database }
{
    if is_dry {
        return None;
    }
    Some(database)
}

// Runs the program with this number on the records.
fn run_program(
    alloc: Global,
    database: Image<Global>,
    registry: &Registry<Global>,
    prog: u32,
    words: EachWords,
    is_dry: bool,
) -> Result<Report, AllocError>
    requires { IsSome (slice_get registry.now.programs prog) }
    ensures { IfOk result (RunsNumber registry.now.programs prog database words is_dry) }
{
    let keys = keys_with(alloc, &database, words.prefix.as_slice())?;
    let mut tally = Tally::new(alloc);
    let after = run_keys(
        alloc,
        database,
        registry,
        prog,
        keys.as_slice(),
        &words,
        &mut tally,
    )?;
    Ok(Report {
        text: tally.text(alloc)?,
        status: 0,
        database: written(after, is_dry),
        notes: Notes::none(),
    })
}

// Copies the keys that begin with a prefix, in their order.
fn keys_with(
    alloc: Global,
    image: &Image<Global>,
    prefix: &[u8],
) -> Result<Vec<Bytes<Global>>, AllocError>
    ensures { IfOk result (λ keys. keys.items ≡ keys_with prefix.now (map.entries (map_of image.now))) }
{
    let pairs = image.lend_pairs()?;
    keys_among(alloc, pairs.as_slice(), prefix)
}

// Copies the keys of pairs that begin with a prefix, in their order.
fn keys_among(
    alloc: Global,
    pairs: &[(&[u8], &[u8])],
    prefix: &[u8],
) -> Result<Vec<Bytes<Global>>, AllocError>
    ensures { IfOk result (λ keys. keys.items ≡ keys_with prefix.now (pairs_lent pairs.now)) }
{
    let mut keys = Vec::new(alloc);
    for pair in pairs {
        push_key(alloc, pair, prefix, &mut keys)?;
    }
    Ok(keys)
}

// Appends the key of a pair if it begins with a prefix.
fn push_key(
    alloc: Global,
    pair: &(&[u8], &[u8]),
    prefix: &[u8],
    keys: &mut Vec<Bytes<Global>>,
) -> Result<(), AllocError>
    ensures { OnOk result (keys.new.items ≡ keys.old.items ++ keys_with prefix.now (pair_lent pair.now ∷ [])) }
{
    let (key, _value) = *pair;
    if !key.starts_with(prefix) {
        return Ok(());
    }
    keys.push(Bytes::from_slice(alloc, key)?)?;
    Ok(())
}

// Runs the program once for each key, in order, and counts the answers.
fn run_keys(
    alloc: Global,
    database: Image<Global>,
    registry: &Registry<Global>,
    prog: u32,
    keys: &[Bytes<Global>],
    words: &EachWords,
    tally: &mut Tally,
) -> Result<Image<Global>, AllocError>
    requires { IsSome (slice_get registry.now.programs prog) }
    ensures { IfOk result (RunsAll registry.now.programs prog words.now database keys.now) }
{
    let mut image = database;
    for key in keys {
        image = run_key(alloc, image, registry, prog, key, words, tally)?;
    }
    Ok(image)
}

// Runs the program on the record of a key, and counts the answer.
fn run_key(
    alloc: Global,
    database: Image<Global>,
    registry: &Registry<Global>,
    prog: u32,
    key: &Bytes<Global>,
    words: &EachWords,
    tally: &mut Tally,
) -> Result<Image<Global>, AllocError>
    requires { IsSome (slice_get registry.now.programs prog) }
    ensures { IfOk result (RunsOne registry.now.programs prog words.now database key.now) }
{
    let ask = RunAsk {
        key: key.try_clone(alloc)?,
        prog,
        arg: words.arg.try_clone(alloc)?,
        blank: None,
        now: words.time,
    };
    let Some(command) = command_of_run(registry, ask)? else {
        unreachable!()
    };
    let mut image = database;
    let answer = answer_command(alloc, &mut image, command)?;
    tally.add(&answer)?;
    Ok(image)
}
