//! The theorem on each program: every run ends and obeys the program's relation in `specs/`.
ghost use Rattle.stock_programs.specs.Meaning.{Means};
ghost use Rattle.stock_programs.specs.Counter.{counter, Counts};
ghost use Rattle.stock_programs.specs.BoundedAdd.{bounded_add, AddsBounded};
ghost use Rattle.stock_programs.specs.BoundedCounter.{bounded_counter, CountsWithin};
ghost use Rattle.stock_programs.specs.CompareAndSet.{compare_and_set, ComparesAndSets};
ghost use Rattle.stock_programs.specs.Sequence.{sequence, Sequences};
ghost use Rattle.stock_programs.specs.Lease.{lease, Leases};
ghost use Rattle.stock_programs.specs.FencedLease.{fenced_lease, LeasesFenced};
ghost use Rattle.stock_programs.specs.RateLimit.{rate_limit, Limits};
ghost use Rattle.stock_programs.specs.Semaphore.{semaphore, Permits};
ghost use Rattle.stock_programs.specs.TokenBucket.{token_bucket, Pours};

/// The theorem on the counter.
pub fn counter_means()
    ensures { Means counter Counts }
{}

/// The theorem on bounded add.
pub fn bounded_add_means()
    ensures { Means bounded_add AddsBounded }
{}

/// The theorem on the bounded counter.
pub fn bounded_counter_means()
    ensures { Means bounded_counter CountsWithin }
{}

/// The theorem on compare and set.
pub fn compare_and_set_means()
    ensures { Means compare_and_set ComparesAndSets }
{}

/// The theorem on the sequence.
pub fn sequence_means()
    ensures { Means sequence Sequences }
{}

/// The theorem on the lease.
pub fn lease_means()
    ensures { Means lease Leases }
{}

/// The theorem on the lease with a fencing token.
pub fn fenced_lease_means()
    ensures { Means fenced_lease LeasesFenced }
{}

/// The theorem on the rate limit.
pub fn rate_limit_means()
    ensures { Means rate_limit Limits }
{}

/// The theorem on the semaphore.
pub fn semaphore_means()
    ensures { Means semaphore Permits }
{}

/// The theorem on the token bucket.
pub fn token_bucket_means()
    ensures { Means token_bucket Pours }
{}
