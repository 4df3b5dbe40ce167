//! Statistics of a database: its pairs and their bytes, how full its pages are, and how deep its directory is. The statistics are printed
//! as text or as a JSON object. Other crates use the JSON strings and fields too.
#![tactic(auto)]

mod bar_lines;
mod bars;
mod depths;
mod figures;
mod fullest;
mod json;
mod object;
mod rows;
mod shapes;
mod splits;
mod stats;
mod totals;

pub use depths::Depths;
pub use figures::figures_text;
pub use fullest::PageRoom;
pub use json::{show_count_object, show_string};
pub use object::figures_object;
pub use stats::{Stats, stats_of};
pub use totals::PairTotals;
