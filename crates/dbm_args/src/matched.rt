//! Reads the values of shared arguments and options from what `clap` matched.
ghost use Rattle.std.specs.Prelude.{◌≡◌, option_map};
ghost use Rattle.clap.specs.Words.{first_of, found_of, rows_of};
ghost use Rattle.dbm_args.specs.Given.{IsAccessOf, IsForm, IsNotation, is_given};

use crate::options::{Access, Form, NotationOptions};
use clap::ArgMatches;

/// Returns the value of `id`, or `None` if it was not given.
pub fn word<'a>(matches: &ArgMatches<'a>, id: &str) -> Option<&'a str>
    ensures { option_map (λ text. text.now) result ≡ first_of id.now (rows_of (found_of matches.now)) }
{
    matches.get_str(id)
}

/// Returns `true` if the flag was given.
pub fn has_flag(matches: &ArgMatches<'_>, id: &str) -> bool
    ensures { result ≡ is_given id.now (rows_of (found_of matches.now)) }
{
    match word(matches, id) {
        Some(text) => text == "true",
        None => false,
    }
}

/// Reads the options for the format of the database's files.
pub fn form(matches: &ArgMatches<'_>) -> Form
    ensures { IsForm (rows_of (found_of matches.now)) result }
{
    Form {
        unsigned: has_flag(matches, "unsigned"),
        wide: has_flag(matches, "wide"),
    }
}

/// Reads the options for the notation of bytes in arguments and lines.
pub fn notation<'a>(matches: &ArgMatches<'a>) -> NotationOptions<'a>
    ensures { IsNotation (rows_of (found_of matches.now)) result }
{
    NotationOptions {
        text: has_flag(matches, "text"),
        layout: word(matches, "as"),
    }
}

/// Reads the options for opening the database's files.
pub fn access<'a>(matches: &ArgMatches<'a>) -> Access<'a>
    ensures { IsAccessOf (rows_of (found_of matches.now)) result }
{
    Access {
        timeout: word(matches, "timeout"),
        must_exist: has_flag(matches, "must-exist"),
        quick: has_flag(matches, "quick"),
        verbose: has_flag(matches, "verbose"),
        insist: has_flag(matches, "insist"),
    }
}
