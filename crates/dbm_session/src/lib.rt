//! Sessions: scripts that stay open. Each line is answered before the next is read, and the database is saved between lines. This crate
//! also has the arguments of the subcommand `session`, the rule for its automatic saves, and the lines that scripts do not have.
#![tactic(auto)]

mod every;
mod fault;
mod host;
mod lines;
mod own;
mod running;
mod session;

pub use every::{Every, read_every};
pub use fault::SessionFault;
pub use host::{Host, Own};
pub use own::{OwnLine, program_line, read_own, show_own};
pub use running::{SessionEnd, run_session};
pub use session::{Session, session_command};
