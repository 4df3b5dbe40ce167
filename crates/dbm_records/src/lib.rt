//! The subcommands of records: `fetch`, `store`, `delete`, `rename`, `run`, `incr` and `each`, and the arguments of `batch`.
//! `answer_on_page` serves a fetch, a store, a delete or a run from the page of its key, without the whole `.pag`.
#![tactic(auto)]

mod batch;
mod command;
mod delete;
mod each;
mod each_run;
mod fetch;
mod incr;
mod page_request;
mod page_result;
mod rename;
mod renaming;
mod run;
mod running;
mod store;
mod tally;

pub use batch::{Batch, EACH_CORE, batch_command};
pub use command::command_in;
pub use delete::{Delete, delete_command};
pub use each::{Each, each_command};
pub use fetch::{Fetch, fetch_command, look_as};
pub use incr::{Incr, incr_command};
pub use page_request::{PageRequest, delete_request, fetch_request, run_request, store_request};
pub use page_result::{PageResult, answer_on_page};
pub use rename::{Rename, rename_command};
pub use run::{Run, run_command, run_words};
pub use running::{database_and_image, run_image};
pub use store::{Store, store_command, store_name, takes_input};
