//! `session`: keeps a database open and answers the lines of standard input one by one.
ghost use Rattle.std.specs.Prelude.{◌≡◌, IfOk, IfSome, IsNone, false};
ghost use Rattle.clap.specs.Words.{found_of, rows_of};
ghost use Rattle.dbm_args.specs.CommandLine.{IsSubcommand};
ghost use Rattle.dbm_args.specs.Given.{has_words};
ghost use Rattle.dbm_session.specs.Session as spec;
ghost use Rattle.dbm_session.specs.Session.{SessionAsks};

use clap::{ArgMatches, Command};
use dbm_args::arguments::{
    base, flag, insist, layout, must_exist, text, timeout, unsigned, valued_option, verbose, wide,
};
use dbm_args::{
    Form, NotationOptions, Numbers, Subject, Words, form, has_flag, notation, subcommand, word,
};
use std::alloc::{AllocError, Global};

/// The arguments of `session`, which answers the lines of standard input one by one. It saves the database at the end, and in between as
/// `save_every` says.
#[derive(Clone, Copy, Debug)]
pub struct Session<'a> {
    pub base: &'a str,
    pub form: Form,
    pub notation: NotationOptions<'a>,
    pub save_every: Option<&'a str>,
    /// Lines may use the time of day.
    pub clock: bool,
}

impl<'a> Session<'a> {
    /// Reads the matches of `session`. Returns `None` if a required argument is missing.
    pub fn matched(matches: &ArgMatches<'a>) -> Option<Session<'a>>
        ensures some { IfSome result (SessionAsks (rows_of (found_of matches.now))) }
        ensures none { IsNone result → has_words spec.session.rules (rows_of (found_of matches.now)) ≡ false }
    {
        Some(Session {
            base: word(matches, "BASE")?,
            form: form(matches),
            notation: notation(matches),
            save_every: word(matches, "save-every"),
            clock: has_flag(matches, "clock"),
        })
    }

    /// Returns the arguments that messages may show.
    pub fn words(&self) -> Words<'a> {
        Words {
            subject: Subject::Session,
            layout: self.notation.layout,
            numbers: Numbers {
                save_every: self.save_every,
                ..Numbers::none()
            },
            ..Words::on(Some(self.base), self.form)
        }
    }
}

/// Declares the subcommand `session` for `clap`.
///
/// # Errors
/// `AllocError` if allocation fails.
pub fn session_command<'a>(alloc: Global) -> Result<Command<'a>, AllocError>
    ensures { IfOk result (IsSubcommand spec.session) }
{
    let every =
        "Save after N lines that may change something, or with Ns after the first line after N seconds";
    let clock = "Let lines use now and now-ms as NOW: the time when the line is answered";
    let args = vec![in alloc;
        base(alloc),
        valued_option(alloc, "save-every", "N", every),
        flag(alloc, "clock", clock),
        text(alloc),
        layout(alloc),
        unsigned(alloc),
        wide(alloc),
        insist(alloc),
        must_exist(alloc),
        timeout(alloc),
        verbose(alloc),
    ]?;
    let about = "Answer the lines of standard input one by one, as a shell or through a pipe";
    let notes =
        "Takes the lines of script, and answers each before it reads the next. The line save saves, and answers\n\
         saved once the save is on the disk; the end of the input saves too. If the session is killed, unsaved\n\
         changes are lost. Each line ends in LF; an incomplete last line is not run, and is a fault. Nobody else\n\
         may change the database until the session ends; readers get its last save. The line help prints the\n\
         lines that scripts do not have: .list, .keys, .stats, and .program FILE.\n\n\
         Example: printf 'put 68 01\\nget 68\\n' | dbm session users";
    subcommand(alloc, "session", about, notes, args)
}
