//! Plans of saves. A plan lists the changes of the data files, each with its old and new bytes. `Disk` specifies the images that a crash
//! may leave. The crate `sdbm_log` commits plans in a log (a redo log: Gray and Reuter, Transaction Processing 1993, chapter 9).
#![tactic(auto)]

mod blocks;
mod call_log;
mod counting;
mod disk;
mod drafting;
mod ghost_image;
mod known;
mod marked;
mod overlay;
mod part;
mod plan;
mod planning;
mod reading;
mod recorded;
mod spans;

pub use call_log::CallLog;
pub use disk::{Disk, DiskError, DiskFile};
pub use drafting::spelled;
pub use ghost_image::GhostImage;
pub use known::{Contents, byte_at, was_of};
pub use marked::{Marked, plan_marked};
pub use overlay::{lay_in, lay_over, write_in};
pub use part::{Part, plan_part};
pub use plan::{file_of, is_plan, number, plan_in, rest_of};
pub use planning::SavePlanFault;
pub use reading::{ReadFiles, plan_kept, plan_nothing, plan_read};
pub use recorded::{Before, Found, FoundPart, FoundRead, Host, Past, Recorded, Unknown};
