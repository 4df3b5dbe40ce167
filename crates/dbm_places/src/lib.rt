//! The files of a database: their names, symbolic links to them, the files next to them, the locks that keep runs apart, and the reasons
//! why files cannot be read, locked or written (`FilesFault`).
#![tactic(auto)]

mod absent;
mod fault;
mod holder;
mod links;
mod lock;
mod names;
mod place;
mod side;

pub use absent::{has_no_files, is_absent, is_special};
pub use fault::{FilesFault, MovedFile};
pub use holder::locker_of;
pub use links::resolve;
pub use lock::{WriteLocks, has_writer, lock_to_read, lock_to_write};
pub use names::{
    DIR_LIMIT, FileBytes, Names, PROGRAM_LIMIT, RunPlace, Source, SourceKind, folder_of, names_of,
    sources,
};
pub use place::{DataFiles, FileId, Place, SeenFiles, has_bytes, length_of};
pub use side::{
    Side, SideFault, Standing, doubt_of, is_like_pages, make, make_directory, make_redo,
    open_beside, side_fault, takes_lock, takes_redo,
};
