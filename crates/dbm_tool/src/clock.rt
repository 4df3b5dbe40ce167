//! Reads the time of day, for a run and for lines that use the clock.
ghost use Rattle.std.specs.Prelude.{◌≡◌, ◌/◌, IfOk, IfSome, decimal, string_bytes};
ghost use Rattle.std.specs.Duration.{as_nanos};
ghost use Rattle.dbm_tool.specs.Clocks.{nanos_in};
ghost use Rattle.dbm_args.specs.declared.options.TimeUnit.TheVariants.{Seconds, Milliseconds};

use dbm_args::TimeUnit;
use dbm_messages::ServeFault;
use dbm_script::TimeOfDay;
use std::alloc::{AllocError, Global};
use std::time::{Clock, Duration, SystemTime, UNIX_EPOCH};

/// Returns the number of units since the beginning of 1970 in UTC, in decimal.
///
/// # Errors
/// `ReadClock` if the system does not report the time, and `NoMemory` if allocation fails.
pub fn read_clock<C: Clock>(
    clock: &C,
    alloc: Global,
    unit: TimeUnit,
) -> Result<String, ServeFault> {
    let since = since_beginning(clock)?;
    Ok(time_text(alloc, since, unit)?)
}

/// Returns the time of day in both units.
///
/// # Errors
/// `ReadClock` if the system does not report the time.
pub fn read_time<C: Clock>(clock: &C) -> Result<TimeOfDay, ServeFault> {
    let since = since_beginning(clock)?;
    match time_of_day(since) {
        Some(time) => Ok(time),
        None => Err(ServeFault::ReadClock),
    }
}

// Returns the time since the beginning of 1970 in UTC. Fails with `ReadClock` if the system does not report it.
fn since_beginning<C: Clock>(clock: &C) -> Result<Duration, ServeFault> {
    let Ok(now) = SystemTime::now(clock) else {
        return Err(ServeFault::ReadClock);
    };
    match now.duration_since(UNIX_EPOCH) {
        Ok(since) => Ok(since),
        Err(_) => Err(ServeFault::ReadClock),
    }
}

// Converts a time to both units, rounded down. Returns `None` if the milliseconds do not fit into 64 bits.
fn time_of_day(since: Duration) -> Option<TimeOfDay>
    ensures { IfSome result (λ time. (time.seconds ≡ as_nanos since / nanos_in Seconds) × (time.millis ≡ as_nanos since / nanos_in Milliseconds)) }
{
    let Ok(millis) = u64::try_from(since.as_millis()) else {
        return None;
    };
    Some(TimeOfDay {
        seconds: since.as_secs(),
        millis,
    })
}

// Returns the number of whole units in a time, in decimal.
fn time_text(alloc: Global, since: Duration, unit: TimeUnit) -> Result<String, AllocError>
    ensures { IfOk result (λ text. string_bytes text ≡ decimal (as_nanos since / nanos_in unit)) }
{
    match unit {
        TimeUnit::Seconds => format!(in alloc; "{}", since.as_secs()),
        TimeUnit::Milliseconds => format!(in alloc; "{}", since.as_millis()),
    }
}
