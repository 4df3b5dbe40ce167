//! Dumps: texts with all pairs of a database, in our own format, in gdbm's or as commands for Redis. The first two formats can be loaded.
//! The crate has the subcommands `backup`, `compact`, `dump` and `load`.
#![tactic(auto)]

mod backup;
mod compact;
mod copy_fault;
mod dump;
mod fault;
mod format;
mod key_head;
mod load;
mod loading;
mod marks;
mod stage;
mod symbols;
mod writing;

pub use backup::{Backup, backup_command};
pub use compact::{Compact, compact_command};
pub use copy_fault::CopyFault;
pub use dump::{Dump, dump_command};
pub use fault::DumpFault;
pub use format::{Format, format_of, start_of};
pub use key_head::KeyHead;
pub use load::{Load, load_command};
pub use loading::{Loaded, load_pairs};
pub use stage::Stage;
pub use writing::dump_pairs;
