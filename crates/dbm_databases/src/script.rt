//! `script`: runs the commands on standard input, one in each line.
ghost use Rattle.std.specs.Prelude.{◌≡◌, IfOk, IfSome, IsNone, false};
ghost use Rattle.clap.specs.Words.{found_of, rows_of};
ghost use Rattle.dbm_args.specs.CommandLine.{IsSubcommand};
ghost use Rattle.dbm_args.specs.Given.{has_words};
ghost use Rattle.dbm_databases.specs.Script as spec;
ghost use Rattle.dbm_databases.specs.Script.{ScriptAsks, script_head};

use crate::playing::{output_limit, report_alone, report_played};
use clap::{ArgMatches, Command};
use dbm_args::arguments::{
    flag, insist, layout, must_exist, text, timeout, unsigned, valued_option, verbose, wide,
};
use dbm_args::{
    Form, Head, NotationOptions, Numbers, Words, form, has_flag, notation, subcommand, word,
};
use dbm_reports::{Given, Report, ReportFault, Subcommand};
use dbm_script::{Notation, TimeOfDay};
use std::alloc::{AllocError, Global};
use std::io::Read;

/// The subcommand `script`. Runs the script on standard input. Without a base, the script runs on an empty database, which is then dropped.
/// `max_output` limits the bytes of the answers.
#[derive(Clone, Copy, Debug)]
pub struct Script<'a> {
    pub base: Option<&'a str>,
    pub form: Form,
    pub notation: NotationOptions<'a>,
    pub max_output: Option<&'a str>,
    /// A script with a bad line does not run.
    pub strict: bool,
    /// The lines may say `now` or `now-ms` for the time of day.
    pub clock: bool,
    /// The time of day for the lines. `None` until the clock is read.
    pub time: Option<TimeOfDay>,
}

impl<'a> Script<'a> {
    /// Reads the matches of `script`. Returns `None` if a required argument is missing.
    pub fn matched(matches: &ArgMatches<'a>) -> Option<Script<'a>>
        ensures some { IfSome result (ScriptAsks (rows_of (found_of matches.now))) }
        ensures none { IsNone result → has_words spec.script.rules (rows_of (found_of matches.now)) ≡ false }
    {
        Some(Script {
            base: word(matches, "base"),
            max_output: word(matches, "max-output"),
            form: form(matches),
            notation: notation(matches),
            strict: has_flag(matches, "strict"),
            clock: has_flag(matches, "clock"),
            time: None,
        })
    }

    /// Returns the head of the subcommand: its files and its notation.
    pub fn head(&self) -> Head<'a>
        ensures { result ≡ script_head self.now }
    {
        Head {
            writes: self.base.is_some(),
            notation: self.notation,
            ..Head::on(self.base)
        }
    }

    /// Returns the arguments that messages may show.
    pub fn words(&self) -> Words<'a> {
        Words {
            layout: self.notation.layout,
            numbers: Numbers {
                max_output: self.max_output,
                ..Numbers::none()
            },
            ..Words::on(self.base, self.form)
        }
    }
}

/// Declares the subcommand `script` for `clap`.
///
/// # Errors
/// `AllocError` if allocation fails.
pub fn script_command<'a>(alloc: Global) -> Result<Command<'a>, AllocError>
    ensures { IfOk result (IsSubcommand spec.script) }
{
    let help = "The database, in BASE.dir and BASE.pag; without it, an empty one that is discarded";
    let limit = "Fail, with nothing printed or saved, if the answers have more bytes";
    let strict = "Run nothing if a line is not a command: exit with status 1, and report the line";
    let clock =
        "Let lines use now and now-ms as NOW: seconds or milliseconds, the same for all lines";
    let args = vec![in alloc;
        valued_option(alloc, "base", "BASE", help),
        valued_option(alloc, "max-output", "BYTES", limit),
        flag(alloc, "strict", strict),
        flag(alloc, "clock", clock),
        text(alloc),
        layout(alloc),
        unsigned(alloc),
        wide(alloc),
        insist(alloc),
        must_exist(alloc),
        timeout(alloc),
        verbose(alloc),
    ]?;
    let about = "Run the commands on standard input, one in each line";
    let notes =
        "The lines are fetch KEY, insert KEY VALUE, replace KEY VALUE, delete KEY, incr KEY [AMOUNT], count,\n\
         program IMAGE and run KEY PROG ARG BLANK NOW; get, put and del are short for fetch, replace and delete.\n\
         insert answers exists if the key exists, and replace replaces its value. incr adds AMOUNT, by default 1,\n\
         to a number, and answers ran 1 and the new number. IMAGE is the output of asm, and PROG the number that\n\
         program answered, from 0 on. Empty lines and lines that begin with # are skipped. Prints\n\
         an answer for each other line, bad line if it is not a command; with --strict nothing is run then.\n\
         Lines end in LF: one that ends in CR LF is a bad line. All lines together have at most 16 MiB. Their\n\
         answers may have thousands of times as much; if they have more than BYTES, the fault is OutputTooLong.\n\n\
         Example: dbm script --base users < first.script\n\
         or: printf 'program %s\\nrun hits 0 . 8 now\\n' \"$(dbm asm counter.s)\" | dbm script --base users --text --clock";
    subcommand(alloc, "script", about, notes, args)
}

impl Subcommand for Script<'_> {
    ghost use Rattle.std.specs.Prelude.{is_some, true};
    ghost use Rattle.dbm_databases.specs.Script.{script_in};
    ghost use Rattle.dbm_reports.specs.Causes.{IsCaused};

    type Fault = ReportFault;

    ghost reports = { λ script n given input report. (script_in n script.base script given input).reports report };

    ghost causes = { λ script n given input fault. IsCaused (script_in n script.base script given input).causes fault };

    ghost writes = { λ script. is_some script.base };

    ghost reads = { λ script. true };

    fn report<R: Read>(
        &self,
        alloc: Global,
        notation: &Notation<Global>,
        given: &Given,
        reader: &mut R,
    ) -> Result<Report, ReportFault> {
        let Some(most) = output_limit(self.max_output) else {
            return Err(ReportFault::BadNumber);
        };
        match self.base {
            None => report_alone(
                alloc,
                notation,
                self.form,
                most,
                self.strict,
                self.time,
                reader,
            ),
            Some(_) => report_played(
                alloc,
                notation,
                given,
                self.form,
                most,
                self.strict,
                self.time,
                reader,
            ),
        }
    }
}
