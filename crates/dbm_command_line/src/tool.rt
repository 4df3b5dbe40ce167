//! The program's definition for `clap`, with all its subcommands.
ghost use Rattle.std.specs.Prelude.{IfOk};
ghost use Rattle.clap.specs.Words.{App, Shape};
ghost use Rattle.clap.specs.Words as rules;
ghost use Rattle.dbm_args.specs.CommandLine.{IsCommand, IsSubcommand};
ghost use Rattle.dbm_command_line.specs.Tool.{tool};
ghost use Rattle.dbm_command_line.specs.Tool as spec;

use clap::Command;
use dbm_databases::{
    check_command, count_command, keys_command, list_command, script_command, stats_command,
    widen_command,
};
use dbm_dump::{backup_command, compact_command, dump_command, load_command};
use dbm_programs::{asm_command, disasm_command, programs_command, verify_command};
use dbm_records::{
    batch_command, delete_command, each_command, fetch_command, incr_command, rename_command,
    run_command, store_command,
};
use dbm_session::session_command;
use std::alloc::{AllocError, Global};

/// Declares the program with all its subcommands. Fails only if allocation fails.
pub fn tool_command<'a>(alloc: Global) -> Result<Command<'a>, AllocError>
    ensures { IfOk result (IsCommand tool) }
{
    let command = bare_command(alloc);
    let command = with_subcommand(command, fetch_command(alloc));
    let command = with_subcommand(command, store_command(alloc));
    let command = with_subcommand(command, delete_command(alloc));
    let command = with_subcommand(command, rename_command(alloc));
    let command = with_subcommand(command, incr_command(alloc));
    let command = with_subcommand(command, list_command(alloc));
    let command = with_subcommand(command, keys_command(alloc));
    let command = with_subcommand(command, count_command(alloc));
    let command = with_subcommand(command, check_command(alloc));
    let command = with_subcommand(command, stats_command(alloc));
    let command = with_subcommand(command, script_command(alloc));
    let command = with_subcommand(command, session_command(alloc));
    let command = with_subcommand(command, widen_command(alloc));
    let command = with_subcommand(command, compact_command(alloc));
    let command = with_subcommand(command, backup_command(alloc));
    let command = with_subcommand(command, dump_command(alloc));
    let command = with_subcommand(command, load_command(alloc));
    let command = with_subcommand(command, asm_command(alloc));
    let command = with_subcommand(command, disasm_command(alloc));
    let command = with_subcommand(command, verify_command(alloc));
    let command = with_subcommand(command, programs_command(alloc));
    let command = with_subcommand(command, run_command(alloc));
    let command = with_subcommand(command, each_command(alloc));
    with_subcommand(command, batch_command(alloc))
}

// Adds a subcommand to a command. Fails if either declaration failed, or if allocation fails.
fn with_subcommand<'a>(
    command: Result<Command<'a>, AllocError>,
    more: Result<Command<'a>, AllocError>,
) -> Result<Command<'a>, AllocError>
    ensures { (app : App) → (shape : Shape) → IfOk command.entry (IsCommand app) → IfOk more.entry (IsSubcommand shape) → IfOk result (IsCommand (rules.with_subcommand app shape)) }
{
    command?.subcommand(more?)
}

// Declares the program's name, version and help.
fn titled_command<'a>(alloc: Global) -> Command<'a>
    ensures { IsSubcommand spec.titled result }
{
    Command::new(alloc, "dbm")
        .version("2.0.0")
        .about("A key-value store in the files of an sdbm database")
        .after_help(
            "Keys and values are in hex, two digits a byte; with --text, or DBM_TEXT=1, they are text. . is no bytes.\n\
             Exit status:\n\
             0  success, and every other answer\n\
             1  one command answered missing, exists, crowded or refused, run --expect got another code, or incr met a bound or a short value\n\
             2  a fault, which is printed on standard error\n\
             3  run --expect answered missing, crowded or refused, or incr answered crowded or refused\n\n\
             Example: dbm store users ab xyz --text\n\
             stores the value xyz of the key ab in users.dir and users.pag.",
        )
}

// Declares the program without its subcommands.
fn bare_command<'a>(alloc: Global) -> Result<Command<'a>, AllocError>
    ensures { IfOk result (IsSubcommand spec.bare_shape) }
{
    titled_command(alloc)
        .no_binary_name(true)
        .subcommand_required(true)
        .arg_required_else_help(true)
        .bin_name("dbm")
}
