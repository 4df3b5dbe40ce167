//! The parts of the command line that subcommands share: arguments declared for `clap`, the values that `clap` matched, and arguments as
//! messages print them.
#![tactic(auto)]

pub mod arguments;
mod matched;
mod options;
mod printed;
mod shape;
mod shown;

pub use matched::{access, form, has_flag, notation, word};
pub use options::{Access, Form, Head, NotationOptions, TimeUnit};
pub use printed::{Printed, is_plain};
pub use shape::{aliased_subcommand, subcommand};
pub use shown::{Named, Numbers, Subject, Words};
