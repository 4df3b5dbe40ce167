//! The subcommands of a whole database: `list`, `keys`, `count`, `check`, `stats`, `script` and `widen`.
#![tactic(auto)]

mod check;
mod chosen;
mod count;
mod keys;
mod list;
mod playing;
mod rows;
mod script;
mod shown;
mod stats;
mod streamed;
mod strict;
mod widen;

pub use check::{Check, check_command};
pub use count::{Count, count_command};
pub use keys::{Keys, keys_command};
pub use list::{List, list_command};
pub use script::{Script, script_command};
pub use shown::{ListingRequest, show_listing};
pub use stats::{Stats, stats_command};
pub use widen::{Widen, widen_command};
