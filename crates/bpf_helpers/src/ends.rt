//! The ends of runs.

/// The end of a run: EXIT was reached with a number in R0.
#[derive(Clone, Copy, Debug, PartialEq, Eq)]
pub struct Ended {
    /// The number in R0.
    pub code: u64,
    /// The reply word.
    pub word: u64,
    /// The number of executed instructions, counting EXIT.
    pub steps: usize,
}
