//! Tests of the crates for programs that lines cannot express: codes and texts up to their limits, and memory that runs out.
#![tactic(auto)]

#[cfg(test)]
mod decoding;
#[cfg(test)]
mod submitting;
#[cfg(test)]
mod texts;
#[cfg(test)]
mod texts_in_heaps;
#[cfg(test)]
mod verifying;
