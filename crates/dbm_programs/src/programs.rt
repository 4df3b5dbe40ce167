//! `programs`: lists the stock programs, with their arguments and replies.
ghost use Rattle.std.specs.Prelude.{IfOk};
ghost use Rattle.clap.specs.Words.{found_of, rows_of};
ghost use Rattle.dbm_args.specs.CommandLine.{IsSubcommand};
ghost use Rattle.dbm_programs.specs.Programs as spec;
ghost use Rattle.dbm_programs.specs.Programs.{ProgramsAsks};

use crate::stock::{show_all, show_one};
use clap::{Arg, ArgMatches, Command};
use dbm_args::{Words, subcommand, word};
use std::alloc::{AllocError, Global};
use stock_names::{ProgramWord, Stock, read_word};

/// The arguments of `programs`. Without a name, it lists the stock programs; with a name, it describes that program.
#[derive(Clone, Copy, Debug)]
pub struct Programs<'a> {
    pub name: Option<&'a str>,
}

impl<'a> Programs<'a> {
    /// Reads the matches of `programs`.
    pub fn matched(matches: &ArgMatches<'a>) -> Programs<'a>
        ensures { ProgramsAsks (rows_of (found_of matches.now)) result }
    {
        Programs {
            name: word(matches, "NAME"),
        }
    }

    /// Returns the arguments that messages may show.
    pub fn words(&self) -> Words<'a> {
        Words {
            file: self.name,
            ..Words::none()
        }
    }

    /// Returns the text to print: a line for each stock program, or the table of the named one. The name may begin with `@`. Returns `None`
    /// if no stock program has the name.
    ///
    /// # Errors
    /// `AllocError` if allocation fails.
    pub fn text(&self, alloc: Global) -> Result<Option<String>, AllocError> {
        let Some(name) = self.name else {
            return Ok(Some(show_all(alloc)?));
        };
        match stock_named(name) {
            Some(stock) => Ok(Some(show_one(alloc, stock)?)),
            None => Ok(None),
        }
    }
}

// Finds the stock program with this name, which may begin with `@`.
fn stock_named(name: &str) -> Option<Stock> {
    match read_word(name.as_bytes()) {
        ProgramWord::Stock(stock) => Some(stock),
        ProgramWord::Unknown => None,
        ProgramWord::File => Stock::named(name.as_bytes()),
    }
}

/// Declares the subcommand `programs` for `clap`.
///
/// # Errors
/// `AllocError` if allocation fails.
pub fn programs_command<'a>(alloc: Global) -> Result<Command<'a>, AllocError>
    ensures { IfOk result (IsSubcommand spec.programs) }
{
    let help = "The stock program to describe; without it, all are listed";
    let args = vec![in alloc; Arg::new(alloc, "NAME").help(help)]?;
    let about = "List the stock programs, or describe one";
    let notes =
        "Write @NAME for a stock program wherever a command takes the FILE of a program. Its behavior is proved.\n\n\
         Example: dbm programs lease";
    subcommand(alloc, "programs", about, notes, args)
}
