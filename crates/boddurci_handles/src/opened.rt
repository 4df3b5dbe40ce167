//! An open database with its programs.
ghost use Rattle.store_marks.specs.Marks.{DifferOn, DifferOn-prop};

use prog_registry::Registry;
use sdbm_files::Image;
use std::alloc::Global;
use store_marks::{Base, Marks};

/// An open database with its programs, the maximum number of pages of its `.pag`, and the numbers of the pages that may differ
/// from its base: the database that was opened, or from which the last plan was made.
#[derive(Drop)]
pub struct Db {
    pub image: Image<Global>,
    pub registry: Registry<Global>,
    pub marks: Marks,
    pub limit: usize,
    pub base: Base,
    pub ghost differ: { DifferOn marks base.database image } by { DifferOn-prop marks base.database image },
}
