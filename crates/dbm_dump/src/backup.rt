//! `backup`: copies a database to new files.
ghost use Rattle.std.specs.Prelude.{◌≡◌, IfOk, IfSome, IsNone, false};
ghost use Rattle.clap.specs.Words.{found_of, rows_of};
ghost use Rattle.dbm_args.specs.CommandLine.{IsSubcommand};
ghost use Rattle.dbm_args.specs.Given.{has_words};
ghost use Rattle.dbm_dump.specs.Backup as spec;
ghost use Rattle.dbm_dump.specs.Backup.{BackupAsks};

use clap::{ArgMatches, Command};
use dbm_args::arguments::{base, insist, required_word, timeout, unsigned, verbose, wide};
use dbm_args::{Form, Words, form, subcommand, word};
use std::alloc::{AllocError, Global};

/// The subcommand `backup`. Copies the database `base` to the new files of `to`.
#[derive(Clone, Copy, Debug)]
pub struct Backup<'a> {
    pub base: &'a str,
    pub to: &'a str,
    pub form: Form,
}

impl<'a> Backup<'a> {
    /// Reads the matches of `backup`. Returns `None` if a required argument is missing.
    pub fn matched(matches: &ArgMatches<'a>) -> Option<Backup<'a>>
        ensures some { IfSome result (BackupAsks (rows_of (found_of matches.now))) }
        ensures none { IsNone result → has_words spec.backup.rules (rows_of (found_of matches.now)) ≡ false }
    {
        Some(Backup {
            base: word(matches, "BASE")?,
            to: word(matches, "TO")?,
            form: form(matches),
        })
    }

    /// Returns the arguments that messages about the database may show.
    pub fn words(&self) -> Words<'a> {
        Words::on(Some(self.base), self.form)
    }

    /// Returns the arguments that messages about the copy may show.
    pub fn words_of_copy(&self) -> Words<'a> {
        Words::on(Some(self.to), self.form)
    }
}

/// Declares the subcommand `backup` for `clap`.
///
/// # Errors
/// `AllocError` if allocation fails.
pub fn backup_command<'a>(alloc: Global) -> Result<Command<'a>, AllocError>
    ensures { IfOk result (IsSubcommand spec.backup) }
{
    let to = "The copy, in the new files TO.dir and TO.pag";
    let args = vec![in alloc;
        base(alloc),
        required_word(alloc, "TO", to),
        unsigned(alloc),
        wide(alloc),
        insist(alloc),
        timeout(alloc),
        verbose(alloc),
    ]?;
    let about = "Copy a database into new files, also while it is in use";
    let notes =
        "Copies the last save of BASE, checks it, and prints ok N for a copy of N pairs that is on the disk. A\n\
         process that has BASE open continues; only its saves wait while BASE is read. If TO.dir or TO.pag exists,\n\
         the fault is Exists. The files get the permissions of BASE.pag. The disk needs room for two copies.\n\n\
         Example: dbm backup users backups/users-2026-11-28";
    subcommand(alloc, "backup", about, notes, args)
}
