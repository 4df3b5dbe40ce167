//! The laws. Each holds in every legal history that changes a key only by runs of one program; the premises are in `specs/`.
ghost use Rattle.stock_histories.specs.BoundsLaw.{StaysBelow, StaysBetween};
ghost use Rattle.stock_histories.specs.BucketLaw.{PoursAtMost};
ghost use Rattle.stock_histories.specs.CounterLaw.{LosesNoRun};
ghost use Rattle.stock_histories.specs.FencingLaw.{TokensRise};
ghost use Rattle.stock_histories.specs.LeaseLaw.{NeverOverlap};
ghost use Rattle.stock_histories.specs.LimitLaw.{AdmitsAtMost};
ghost use Rattle.stock_histories.specs.SemaphoreLaw.{NeverMore};
ghost use Rattle.stock_histories.specs.SequenceLaw.{TakesOnce};

use std::alloc::Allocator;

/// A counter loses no run: the number at the end is the number at the start plus the number of runs with code 1, modulo 2^64. A missing record
/// counts as 0.
pub fn counters_lose_no_run<A: Allocator>()
    ensures { LosesNoRun A }
{}

/// Two owners never hold a lease at the same time.
pub fn leases_never_overlap<A: Allocator>()
    ensures { NeverOverlap A }
{}

/// No fencing token is lower than an earlier one, and each new owner has a greater one.
pub fn tokens_rise<A: Allocator>()
    ensures { TokensRise A }
{}

/// A bounded counter stays within bounds that hold its start and every run's floor and ceiling.
pub fn bounded_counters_stay_between<A: Allocator>()
    ensures { StaysBetween A }
{}

/// A bounded add stays within a bound if it starts within it and no run names a higher bound.
pub fn bounded_sums_stay_below<A: Allocator>()
    ensures { StaysBelow A }
{}

/// A sequence takes each number once, and in rising order.
pub fn sequences_take_numbers_once<A: Allocator>()
    ensures { TakesOnce A }
{}

/// A semaphore never has more holders than permits.
pub fn semaphores_hold<A: Allocator>()
    ensures { NeverMore A }
{}

/// The costs taken from a token bucket are at most its capacity plus the inflow.
pub fn token_buckets_hold<A: Allocator>()
    ensures { PoursAtMost A }
{}

/// A window of a rate limit admits at most the named number of runs.
pub fn rate_limits_hold<A: Allocator>()
    ensures { AdmitsAtMost A }
{}
