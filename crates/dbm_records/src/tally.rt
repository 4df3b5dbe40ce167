//! Counts the answers to runs by their code.

use dbm_script::Answer;
use std::alloc::{AllocError, Global};
use store_cmd::Reply;

/// The number of runs, the number that ended with each code, and the number without a code (`others`).
#[derive(Drop)]
pub struct Tally {
    codes: Vec<CodeCount>,
    runs: u64,
    others: u64,
}

// The number of runs that ended with a code.
#[derive(Clone, Copy)]
struct CodeCount {
    code: u64,
    runs: u64,
}

impl Tally {
    /// Returns a tally without runs.
    pub fn new(alloc: Global) -> Tally {
        Tally {
            codes: Vec::new(alloc),
            runs: 0,
            others: 0,
        }
    }

    /// Counts one answer.
    ///
    /// # Errors
    /// `AllocError` if allocation fails. The answer is then counted as a run, but not for its code.
    pub fn add(&mut self, answer: &Answer<Global>) -> Result<(), AllocError> {
        self.runs = self.runs.saturating_add(1);
        let Some(code) = code_in(answer) else {
            self.others = self.others.saturating_add(1);
            return Ok(());
        };
        for count in self.codes.iter_mut() {
            if count.code == code {
                count.runs = count.runs.saturating_add(1);
                return Ok(());
            }
        }
        self.codes.push(CodeCount { code, runs: 1 })?;
        Ok(())
    }

    /// Returns a line with the number of runs, a line for each code in the order of first occurrence, and a line for runs without a code.
    ///
    /// # Errors
    /// `AllocError` if allocation fails.
    pub fn text(&self, alloc: Global) -> Result<Vec<u8>, AllocError> {
        let mut text = String::new(alloc);
        write!(text, "{} runs\n", self.runs)?;
        for count in self.codes.iter() {
            write!(text, "{} ended with {}\n", count.runs, count.code)?;
        }
        if self.others > 0 {
            write!(text, "{} did not run\n", self.others)?;
        }
        Ok(text.into_bytes())
    }
}

// Returns the code in the answer to a run, or `None` if it has no code.
fn code_in(answer: &Answer<Global>) -> Option<u64> {
    match answer {
        Answer::Replied(entry) => match entry.reply {
            Reply::Ran { code, .. } => Some(code),
            _ => None,
        },
        Answer::Refused(_) => None,
    }
}
