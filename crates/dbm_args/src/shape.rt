//! Declares a subcommand for `clap`.
ghost use Rattle.std.specs.Prelude.{◌≡◌, IfOk, true, map};
ghost use Rattle.std.specs.List.{list_all};
ghost use Rattle.clap.specs.Words.{rule_of};
ghost use Rattle.dbm_args.specs.CommandLine.{IsSubcommand};
ghost use Rattle.dbm_args.specs.CommandLine as spec;

use clap::{Arg, Command};
use std::alloc::{AllocError, Global};

/// Declares a subcommand. `about` describes it. `notes`, at the end of its help, describe its output and give an example.
///
/// # Errors
/// `AllocError` if allocation fails.
pub fn subcommand<'a>(
    alloc: Global,
    name: &'a str,
    about: &'a str,
    notes: &'a str,
    args: Vec<Arg<'a>>,
) -> Result<Command<'a>, AllocError>
    requires { list_all (λ rule. rule.is_simple) (map rule_of args.items) ≡ true }
    ensures { IfOk result (IsSubcommand (spec.subcommand name.entry.now (map rule_of args.entry.items))) }
{
    Command::new(alloc, name)
        .about(about)
        .after_help(notes)
        .args(args)
}

/// Declares a subcommand with an alias.
///
/// # Errors
/// `AllocError` if allocation fails.
pub fn aliased_subcommand<'a>(
    alloc: Global,
    name: &'a str,
    alias: &'a str,
    about: &'a str,
    notes: &'a str,
    args: Vec<Arg<'a>>,
) -> Result<Command<'a>, AllocError>
    requires { list_all (λ rule. rule.is_simple) (map rule_of args.items) ≡ true }
    ensures { IfOk result (IsSubcommand (spec.with_alias alias.entry.now (spec.subcommand name.entry.now (map rule_of args.entry.items)))) }
{
    subcommand(alloc, name, about, notes, args)?.visible_alias(alias)
}
