//! The requests of a command line.
ghost use Rattle.std.specs.Prelude.{◌≡◌};
ghost use Rattle.dbm_command_line.specs.Wishes.{asks_clock, asks_cores, head_of, time_asked, unit_named, with_clock, with_time, with_workers};

use dbm_args::{Access, Head, TimeUnit, Words};
use dbm_databases::{Check, Count, Keys, List, Script, Stats, Widen};
use dbm_dump::{Backup, Compact, Dump, Load};
use dbm_programs::{Asm, Disasm, Programs, Verify};
use dbm_records::{Batch, Delete, EACH_CORE, Each, Fetch, Incr, Rename, Run, Store};
use dbm_script::TimeOfDay;
use dbm_session::Session;

/// A request: one subcommand with its arguments and options as given. They are still text, not yet read as bytes or numbers. A `base` names
/// the files of a database, `BASE.dir` and `BASE.pag`.
#[derive(Clone, Copy)]
pub enum Wish<'a> {
    Fetch(Fetch<'a>),
    Store(Store<'a>),
    Delete(Delete<'a>),
    Rename(Rename<'a>),
    Run(Run<'a>),
    Incr(Incr<'a>),
    Each(Each<'a>),
    Batch(Batch<'a>),
    List(List<'a>),
    Keys(Keys<'a>),
    Count(Count<'a>),
    Check(Check<'a>),
    Stats(Stats<'a>),
    Script(Script<'a>),
    Widen(Widen<'a>),
    Compact(Compact<'a>),
    Dump(Dump<'a>),
    Load(Load<'a>),
    Asm(Asm<'a>),
    Disasm(Disasm<'a>),
    Verify(Verify<'a>),
}

// Returns the unit of `now` or `now-ms`. Returns `None` for any other time.
fn unit_named(word: &str) -> Option<TimeUnit>
    ensures { result ≡ unit_named word.now }
{
    match word {
        "now" => Some(TimeUnit::Seconds),
        "now-ms" => Some(TimeUnit::Milliseconds),
        _ => None,
    }
}

/// The request of a command line.
#[derive(Clone, Copy)]
pub enum Ask<'a> {
    /// A subcommand other than the three below.
    Wish(Wish<'a>),
    /// `session`, which answers lines one by one.
    Session(Session<'a>),
    /// `backup`, which copies the database to new files.
    Backup(Backup<'a>),
    /// `programs`, which prints the stock programs.
    Programs(Programs<'a>),
}

/// The request of a command line, and how to access its database.
#[derive(Clone, Copy)]
pub struct Request<'a> {
    pub ask: Ask<'a>,
    pub access: Access<'a>,
}

impl<'a> Wish<'a> {
    /// Returns the head of the subcommand: its files, whether its database is saved afterwards, and its notation.
    pub fn head(&self) -> Head<'a>
        ensures { result ≡ head_of self.now }
    {
        match *self {
            Wish::Fetch(fetch) => fetch.head(),
            Wish::Store(store) => store.head(),
            Wish::Delete(delete) => delete.head(),
            Wish::Rename(rename) => rename.head(),
            Wish::Run(run) => run.head(),
            Wish::Incr(incr) => incr.head(),
            Wish::Each(each) => each.head(),
            Wish::Batch(batch) => batch.head(),
            Wish::List(list) => list.head(),
            Wish::Keys(keys) => keys.head(),
            Wish::Count(count) => count.head(),
            Wish::Check(check) => check.head(),
            Wish::Stats(stats) => stats.head(),
            Wish::Script(script) => script.head(),
            Wish::Widen(widen) => widen.head(),
            Wish::Compact(compact) => compact.head(),
            Wish::Dump(dump) => dump.head(),
            Wish::Load(load) => load.head(),
            Wish::Asm(asm) => asm.head(),
            Wish::Disasm(disasm) => disasm.head(),
            Wish::Verify(verify) => verify.head(),
        }
    }

    /// Returns the unit of the time of day if a `run` or an `each` has the time `now` or `now-ms`, otherwise `None`.
    pub fn time_asked(&self) -> Option<TimeUnit>
        ensures { result ≡ time_asked self.now }
    {
        match *self {
            Wish::Run(run) => unit_named(run.now),
            Wish::Each(each) => unit_named(each.now),
            _ => None,
        }
    }

    /// Returns the request with another time for its runs.
    pub fn with_time(self, time: &'a str) -> Wish<'a>
        ensures { result ≡ with_time time.entry self.entry }
    {
        match self {
            Wish::Run(run) => Wish::Run(Run { now: time, ..run }),
            Wish::Each(each) => Wish::Each(Each { now: time, ..each }),
            other => other,
        }
    }

    /// Returns `true` for a `script` or a `batch` with `--clock`, whose lines may request the time of day.
    pub fn asks_clock(&self) -> bool
        ensures { result ≡ asks_clock self.now }
    {
        match *self {
            Wish::Script(script) => script.clock,
            Wish::Batch(batch) => batch.clock,
            _ => false,
        }
    }

    /// Returns the request with this time for the lines of a script or a batch.
    pub fn with_clock(self, time: TimeOfDay) -> Wish<'a>
        ensures { result ≡ with_clock time self.entry }
    {
        match self {
            Wish::Script(script) => Wish::Script(Script {
                time: Some(time),
                ..script
            }),
            Wish::Batch(batch) => Wish::Batch(Batch {
                time: Some(time),
                ..batch
            }),
            other => other,
        }
    }

    /// Returns `true` for a `batch` with one worker per core.
    pub fn asks_cores(&self) -> bool
        ensures { result ≡ asks_cores self.now }
    {
        match *self {
            Wish::Batch(batch) => batch.workers == EACH_CORE,
            _ => false,
        }
    }

    /// Returns the request with this number of workers for a batch.
    pub fn with_workers(self, workers: &'a str) -> Wish<'a>
        ensures { result ≡ with_workers workers.entry self.entry }
    {
        match self {
            Wish::Batch(batch) => Wish::Batch(Batch { workers, ..batch }),
            other => other,
        }
    }

    /// Returns the arguments that messages may show.
    pub fn words(&self) -> Words<'a> {
        match self {
            Wish::Fetch(fetch) => fetch.words(),
            Wish::Store(store) => store.words(),
            Wish::Delete(delete) => delete.words(),
            Wish::Rename(rename) => rename.words(),
            Wish::Run(run) => run.words(),
            Wish::Incr(incr) => incr.words(),
            Wish::Each(each) => each.words(),
            Wish::Batch(batch) => batch.words(),
            Wish::List(list) => list.words(),
            Wish::Keys(keys) => keys.words(),
            Wish::Count(count) => count.words(),
            Wish::Check(check) => check.words(),
            Wish::Stats(stats) => stats.words(),
            Wish::Script(script) => script.words(),
            Wish::Widen(widen) => widen.words(),
            Wish::Compact(compact) => compact.words(),
            Wish::Dump(dump) => dump.words(),
            Wish::Load(load) => load.words(),
            Wish::Asm(asm) => asm.words(),
            Wish::Disasm(disasm) => disasm.words(),
            Wish::Verify(verify) => verify.words(),
        }
    }
}
