//! The objects of the library for C: a handle owns an open database, a ticket owns a run, and a reading owns the pages read
//! from a `.pag`. Each is a single pointer in C. The calls for C are in `boddurci_c`. Stores, runs and other changes of the
//! database behind a handle mark the pages whose pairs change (`store_marks`), so a save reads and writes only these pages.
//! `may_grow` checks that a change fits within the limit of `.pag`.
#![tactic(auto)]

mod growth;
mod handle;
mod job;
mod loose;
mod opened;
mod pieces;
mod reading;
mod status;
mod ticket;

pub use growth::{has_pairs, lends_pairs, may_grow, most_pages};
pub use handle::Handle;
pub use job::Job;
pub use opened::Db;
pub use pieces::{Pieces, read_piece};
pub use reading::Reading;
pub use status::Status;
pub use ticket::Ticket;
