//! The stock programs: their codes, and a theorem on the meaning of each.
//!
//! `..._code` makes the code of the text in `examples/`. `..._means` states the effect of every run. The instructions and the relations are
//! in `specs/`. Laws about the history of a key are in `stock_histories`.
#![tactic(auto)]

mod codes;
mod meanings;

pub use codes::{
    bounded_add_code, bounded_counter_code, compare_and_set_code, counter_code, fenced_lease_code,
    lease_code, rate_limit_code, semaphore_code, sequence_code, token_bucket_code,
};
pub use meanings::{
    bounded_add_means, bounded_counter_means, compare_and_set_means, counter_means,
    fenced_lease_means, lease_means, rate_limit_means, semaphore_means, sequence_means,
    token_bucket_means,
};
