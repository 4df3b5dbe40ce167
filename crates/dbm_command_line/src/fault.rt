//! The reasons why a command line is refused.
ghost use Rattle.std.specs.Prelude.{◌≡◌, ◌↔◌, IsTrue};
ghost use Rattle.dbm_command_line.specs.Wishes.{IsAnswer, IsFaultOf};
ghost use Rattle.dbm_command_line.specs.declared.fault.ToolFault.TheVariants.{NoMemory};

use clap::error::ErrorKind;
use dbm_args::Printed;
use std::alloc::AllocError;
use std::io;
use std::rt::Runtime;
use thiserror::Error;

/// The reason why a command line is refused. It prints as the text for the user.
#[derive(Debug, Drop, Error)]
pub enum ToolFault {
    /// `clap` refuses the arguments, or they request help or the version. The error has the text for the user.
    #[error("{0}")]
    Refused(clap::Error),
    /// Out of memory.
    #[error("NoMemory")]
    NoMemory,
    /// A required argument of the subcommand is missing.
    #[error("NoWord")]
    NoWord,
}

impl ToolFault {
    /// Returns `true` if the arguments request help or the version. That text goes to standard output, with status 0. Every other fault
    /// goes to standard error, with status 2.
    pub fn is_answer(&self) -> bool
        ensures { IsTrue result ↔ IsAnswer self.now }
    {
        match self {
            ToolFault::Refused(error) => !error.use_stderr(),
            _ => false,
        }
    }

    /// Prints the text for the user: help and the version to standard output, everything else to standard error. Messages of `clap` begin
    /// with `error: `, and those of this program with `dbm: `. Control characters in refused arguments print as escapes.
    ///
    /// # Errors
    /// The error of the stream, or `OutOfMemory`.
    pub fn print<R: Runtime + AllocGlobal>(&self, rt: &R) -> io::Result<()> {
        match self {
            ToolFault::Refused(error) if error.use_stderr() => {
                let text = format!(in rt.alloc(); "{error}")?;
                eprint!(rt; "{}", Printed(text.as_str()))
            }
            ToolFault::Refused(error) => error.print(rt),
            ToolFault::NoMemory | ToolFault::NoWord => eprintln!(rt; "dbm: {self}"),
        }
    }
}

impl From<AllocError> for ToolFault {
    ghost from_gives = { λ _ fault. fault ≡ NoMemory };

    fn from(_error: AllocError) -> ToolFault {
        ToolFault::NoMemory
    }
}

impl From<clap::Error> for ToolFault {
    ghost from_gives = { IsFaultOf };

    fn from(error: clap::Error) -> ToolFault {
        if error.kind() == ErrorKind::OutOfMemory {
            ToolFault::NoMemory
        } else {
            ToolFault::Refused(error)
        }
    }
}
