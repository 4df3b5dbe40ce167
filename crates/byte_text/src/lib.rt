//! Prints bytes as a text of one word (without spaces): literal characters, escapes, typed numbers, and hex. Reading a printed text returns
//! the same bytes. The crate also prints values as JSON and as plain text, and `write_all` writes a text to a writer.
#![tactic(auto)]

mod bare;
mod escapes;
mod json_values;
mod layouts;
mod numbers;
mod parts;
mod text;
mod writing;

pub use bare::show_bare;
pub use escapes::DIGITS;
pub use json_values::{write_text, write_value};
pub use layouts::{Kind, Layout, Number, read_layout, show_by};
pub use numbers::{put_number, read_number, read_signed};
pub use text::{read_text, show_text};
pub use writing::{CutShort, write_all};
