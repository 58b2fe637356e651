//! **Trusted by reading**: a clock has no model, so no clause says that a reading is its time.

use crate::watch::reading_of;
use std::time::Clock;

/// A reading of the monotonic clock in milliseconds, or `last` if it cannot be read.
pub(crate) fn read_clock<C: Clock>(clock: &C, last: u64) -> u64 {
    reading_of(clock.monotonic(), last)
}

/// The time of the monotonic clock in microseconds, if it can be read.
pub(crate) fn micros<C: Clock>(clock: &C) -> Option<u64> {
    match clock.monotonic() {
        Ok(time) => u64::try_from(time.as_micros()).ok(),
        Err(_) => None,
    }
}

/// The time of the wall clock in milliseconds since 1970 began in UTC, if it can be read. It may jump,
/// and no deadline is of it.
pub(crate) fn utc_millis<C: Clock>(clock: &C) -> Option<u64> {
    match clock.since_1970() {
        Ok(time) => u64::try_from(time.as_millis()).ok(),
        Err(_) => None,
    }
}
