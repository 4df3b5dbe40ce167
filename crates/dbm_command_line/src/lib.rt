//! The command line as a whole: the list of subcommands, and the requests that the arguments make.
#![tactic(auto)]

ghost use Rattle.std.specs.Prelude.{◌≡◌, IfOk, IfErr, IsErrOf, true, false, [], map};
ghost use Rattle.clap.specs.Words.{fault_of, subcommand_of};
ghost use Rattle.dbm_command_line.specs.Tool.{tool};
ghost use Rattle.dbm_command_line.specs.Wishes.{IsAccessGiven, IsRequestAsked, IsRefusedFor, lacks_word};

mod fault;
mod matched;
mod tool;
mod wish;

pub use crate::fault::ToolFault;
use crate::matched::asked;
use crate::tool::tool_command;
pub use crate::wish::{Ask, Request, Wish};
use dbm_args::access;
use std::alloc::Global;

/// Reads the arguments after the program's name: the request, and how to access its database.
///
/// # Errors
/// `Refused` if `clap` refuses the arguments, or if they request help or the version; its error has the text for the user. `NoWord` only if
/// a required argument of the subcommand is missing. `NoMemory` if allocation fails.
pub fn read_words<'a>(alloc: Global, words: &'a [&'a str]) -> Result<Request<'a>, ToolFault>
    ensures wish { IfOk result (λ request. IsRequestAsked (subcommand_of tool (map (λ word. word.now) words.now)) request.ask) }
    ensures access { IfOk result (λ request. IsAccessGiven (subcommand_of tool (map (λ word. word.now) words.now)) request.access) }
    ensures accepted { IfOk result (λ _. fault_of tool (map (λ word. word.now) words.now) ≡ []) }
    ensures refused { IfErr result (IsRefusedFor (fault_of tool (map (λ word. word.now) words.now))) }
    ensures no_word { IsErrOf result ToolFault.NoWord → lacks_word (subcommand_of tool (map (λ word. word.now) words.now)) ≡ true }
{
    let command = tool_command(alloc)?;
    let matches = command.try_get_matches_from(words)?;
    let Some((name, inner)) = matches.subcommand() else {
        return Err(ToolFault::NoWord);
    };
    match asked(name, inner) {
        Some(ask) => Ok(Request {
            ask,
            access: access(inner),
        }),
        None => Err(ToolFault::NoWord),
    }
}
