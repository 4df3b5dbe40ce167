//! The arguments of `batch`, which runs a program on the records of many keys in parallel.
ghost use Rattle.std.specs.Prelude.{◌≡◌, IfOk, IfSome, IsNone, codes, false};
ghost use Rattle.clap.specs.Words.{found_of, new_rule, rows_of, rule_of};
ghost use Rattle.dbm_args.specs.CommandLine.{IsSubcommand};
ghost use Rattle.dbm_args.specs.Given.{has_words};
ghost use Rattle.dbm_records.specs.Batch as spec;
ghost use Rattle.dbm_records.specs.Batch.{BatchAsks, batch_head};

use clap::{Arg, ArgMatches, Command};
use dbm_args::arguments::{
    base, file, flag, image, insist, layout, must_exist, text, timeout, unsigned, verbose, wide,
};
use dbm_args::{
    Form, Head, NotationOptions, Numbers, Words, form, has_flag, notation, subcommand, word,
};
use dbm_script::TimeOfDay;
use std::alloc::{AllocError, Global};

/// The value of `WORKERS` that means one worker for each core.
pub const EACH_CORE: &str = "cores";

/// The arguments of `batch`, which runs a program once for each line of standard input, with `workers` workers. `file` has the text of the
/// program, or with `image` its program image.
#[derive(Clone, Copy, Debug)]
pub struct Batch<'a> {
    pub base: &'a str,
    pub form: Form,
    pub notation: NotationOptions<'a>,
    pub file: &'a str,
    pub workers: &'a str,
    pub image: bool,
    /// Lines may use the time of day.
    pub clock: bool,
    /// The time of day for the lines. `None` until the clock is read.
    pub time: Option<TimeOfDay>,
}

impl<'a> Batch<'a> {
    /// Reads the matches of `batch`. Returns `None` if a required argument is missing.
    pub fn matched(matches: &ArgMatches<'a>) -> Option<Batch<'a>>
        ensures some { IfSome result (BatchAsks (rows_of (found_of matches.now))) }
        ensures none { IsNone result → has_words spec.batch.rules (rows_of (found_of matches.now)) ≡ false }
    {
        Some(Batch {
            base: word(matches, "BASE")?,
            form: form(matches),
            notation: notation(matches),
            file: word(matches, "FILE")?,
            workers: workers_in(matches),
            image: has_flag(matches, "image"),
            clock: has_flag(matches, "clock"),
            time: None,
        })
    }

    /// Returns the head of the subcommand: its files and its notation.
    pub fn head(&self) -> Head<'a>
        ensures { result ≡ batch_head self.now }
    {
        Head {
            file: Some(self.file),
            image: self.image,
            writes: true,
            notation: self.notation,
            ..Head::on(Some(self.base))
        }
    }

    /// Returns the arguments that messages may show.
    pub fn words(&self) -> Words<'a> {
        Words {
            file: Some(self.file),
            layout: self.notation.layout,
            numbers: Numbers {
                workers: Some(self.workers),
                ..Numbers::none()
            },
            ..Words::on(Some(self.base), self.form)
        }
    }
}

// Returns the argument for the number of workers, by default `EACH_CORE`.
fn workers_in<'a>(matches: &ArgMatches<'a>) -> &'a str
    ensures { result.now ≡ spec.workers_in (rows_of (found_of matches.now)) }
{
    match word(matches, "WORKERS") {
        Some(workers) => workers,
        None => EACH_CORE,
    }
}

// Declares the optional argument for the number of workers.
fn workers_word<'a>(alloc: Global) -> Arg<'a>
    ensures rule { rule_of result ≡ new_rule (codes "WORKERS") }
    ensures local { result.global ≡ false }
{
    let help =
        "The number of workers that share the tasks, each with a thread if one can be made; or cores, the default, for one on each core";
    Arg::new(alloc, "WORKERS").help(help)
}

/// Declares the subcommand `batch` for `clap`.
///
/// # Errors
/// `AllocError` if allocation fails.
pub fn batch_command<'a>(alloc: Global) -> Result<Command<'a>, AllocError>
    ensures { IfOk result (IsSubcommand spec.batch) }
{
    let clock =
        "Let lines use now and now-ms as NOW: seconds or milliseconds, the same for all lines";
    let args = vec![in alloc;
        base(alloc),
        file(
            alloc,
            "The program as text, one instruction a line; or @NAME for a stock program"
        ),
        workers_word(alloc),
        image(alloc),
        flag(alloc, "clock", clock),
        text(alloc),
        layout(alloc),
        unsigned(alloc),
        wide(alloc),
        insist(alloc),
        must_exist(alloc),
        timeout(alloc),
        verbose(alloc),
    ]?;
    let about = "Run a program on the records of many keys, by parallel workers";
    let notes =
        "Each line of standard input is a task: KEY ARG BLANK NOW, as for run. An empty line is skipped. Lines end\n\
         in LF: one that ends in CR LF is not a task. Prints for each task, in order, ran CODE WORD, missing, or\n\
         crowded (there is no room for a new record). Nothing is printed or written if a line is not a task, the\n\
         program is not accepted, or a task is refused; the fault is then bad line N, Verify(FAULT), or\n\
         Refused(N, FAULT) with the number of the task, from 0 on.\n\n\
         Example: printf '6162 . 8 now\\n6364 . 8 now\\n' | dbm batch users @counter --clock";
    subcommand(alloc, "batch", about, notes, args)
}
