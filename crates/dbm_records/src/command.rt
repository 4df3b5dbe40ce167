//! Reads one command and opens its database.
ghost use Rattle.std.specs.Prelude.{◌≡◌, ◌∷◌, map, IfOk, IfErr, None, Some};
ghost use Rattle.dbm_script.specs.Commands.{command_of_words};
ghost use Rattle.dbm_args.specs.declared.options.Form.{Form};
ghost use Rattle.dbm_reports.specs.Causes.{IsCaused};
ghost use Rattle.dbm_reports.specs.Databases.{IsOpened};
ghost use Rattle.dbm_reports.specs.declared.databases.Given.{Given};
ghost use Rattle.dbm_records.specs.Commands.{command_causes, value_in};

use dbm_args::{Form, Named};
use dbm_reports::{Given, ReportFault, bad_words, open};
use dbm_script::{Answer, Notation, read_command};
use sdbm_addr::Bytes;
use sdbm_files::Image;
use std::alloc::Global;
use store_cmd::{Command, Entry, Reply};

/// Reads the command that a name and its arguments describe, then opens the database in the files.
///
/// # Errors
/// `BadHex` (or in a text notation `BadText`) if a word is invalid, and the errors of `open`.
pub fn command_on(
    alloc: Global,
    notation: &Notation<Global>,
    given: &Given,
    form: Form,
    name: &[u8],
    args: &[&[u8]],
) -> Result<(Image<Global>, Command<Global>), ReportFault>
    ensures ok { IfOk result (λ r. IsOpened form given.now r.0 × (command_of_words notation.now (name.now ∷ map (λ x. x.now) args.now) ≡ Some r.1)) }
    ensures fault { IfErr result (IsCaused (command_causes notation.now form given.now (name.now ∷ map (λ x. x.now) args.now))) }
{
    let command = command_in(alloc, notation, name, args)?;
    let image = open(alloc, given, form)?;
    Ok((image, command))
}

/// Reads the command that a name and its arguments describe.
///
/// # Errors
/// `BadHex` (or in a text notation `BadText`) if a word is invalid, and `NoMemory` if allocation fails.
pub fn command_in(
    alloc: Global,
    notation: &Notation<Global>,
    name: &[u8],
    args: &[&[u8]],
) -> Result<Command<Global>, ReportFault>
    ensures ok { IfOk result (λ command. command_of_words notation.now (name.now ∷ map (λ x. x.now) args.now) ≡ Some command) }
    ensures fault { (form : Form) → (given : Given) → IfErr result (IsCaused (command_causes notation.now form given (name.now ∷ map (λ x. x.now) args.now))) }
{
    let Some(command) = read_command(alloc, notation, name, args)? else {
        return Err(bad_words(notation));
    };
    Ok(command)
}

/// Returns the value in an answer. Fails with the answer itself if it has no value.
pub fn value_of(answer: Answer<Global>) -> Result<Bytes<Global>, Answer<Global>>
    ensures ok { IfOk result (λ value. value_in answer ≡ Some value) }
    ensures err { IfErr result (λ other. (other ≡ answer) × (value_in answer ≡ None)) }
{
    let Answer::Replied(entry) = answer else {
        return Err(answer);
    };
    let Entry {
        session,
        command,
        reply,
    } = entry;
    match reply {
        Reply::Found(value) => Ok(value),
        reply => Err(Answer::Replied(Entry {
            session,
            command,
            reply,
        })),
    }
}

/// Returns the argument of a key for messages. Returns `None` for a raw key, which is always valid.
pub fn named_key<'a>(word: &'a str, raw: bool) -> Option<Named<'a>> {
    if raw {
        return None;
    }
    let name = "KEY";
    Some(Named { name, word })
}
