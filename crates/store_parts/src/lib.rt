//! Opens only the page of one key as a database. A command about that key has the same reply as on the whole database, and the
//! plan of its save is right for the whole files.
#![tactic(auto)]

mod law;
mod part;
mod place;

pub use law::same_on_whole;
pub use part::{open_next_part, open_part, plan_after};
pub use place::{has_own_pairs, page_of};
