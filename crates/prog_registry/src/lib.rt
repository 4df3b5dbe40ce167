//! Accepted programs by number, and the most recent verdicts on refused images.
//!
//! `Registry::submit` takes an image, decodes and verifies it once, and returns its number. An image with the same bytes
//! gets its number again. The last 64 images that the verifier refused are stored with their faults, and are not verified
//! again.
#![tactic(auto)]

mod fault;
mod judging;
mod programs;
mod registry;
mod verdicts;

pub use fault::RegFault;
pub use programs::PROGRAM_LIMIT;
pub use registry::{ProgId, Registry};
pub use verdicts::VERDICT_LIMIT;
