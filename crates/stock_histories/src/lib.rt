//! Laws about the history of a key that only runs of one stock program change.
//!
//! The programs and the theorem on each are in `stock_programs`.
#![tactic(auto)]

mod laws;
mod premises;

pub use laws::{
    bounded_counters_stay_between, bounded_sums_stay_below, counters_lose_no_run,
    leases_never_overlap, rate_limits_hold, semaphores_hold, sequences_take_numbers_once,
    token_buckets_hold, tokens_rise,
};
pub use premises::{has_premises, is_alone, never_falls, opens_with_record};
