//! Facts known about a number without running a program: its least and greatest value and some of
//! its bits. Operations, joins and tests compute with these facts.
//!
//! `Range` has only the ends, `Bits` the bits, `Known` both; `Kind` is the kind of a register's
//! value. `transfer` computes the result of an operation, `refine` narrows the operands of a
//! conditional jump, and `join` joins the facts of two edges. Each result contains all possible
//! numbers, and often more. No function allocates memory.
#![tactic(auto)]

mod arithmetic;
mod bits;
mod comparing;
mod filling;
mod joining;
mod kinds;
mod known;
mod refining;
mod shifts;
mod signed;
mod transferring;
mod values;
mod widths;

pub use joining::{hull, join};
pub use kinds::Kind;
pub use known::Known;
pub use refining::{refine, refine_range};
pub use transferring::{transfer, transfer_range};
pub use values::{Bits, Range};
