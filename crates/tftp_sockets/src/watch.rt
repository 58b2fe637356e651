//! A program's own time in milliseconds, and the deadlines of transfers.

ghost use Rattle.std.specs.Prelude.{◌≡◌, ◌≤◌, ◌+◌, ◌↔◌, IsTrue, max};
ghost use Rattle.std.specs.Duration.{as_nanos};
ghost use Rattle.tftp_sockets.specs.Watch.{deadline_of, later_by, later_within, reading_of};
ghost use Rattle.tftp_sockets.specs.Watch.{whole_millis};
ghost use Rattle.tftp_sockets.specs.declared.watch.TheConstants.{LONGEST_WAIT};

use std::io;
use std::time::Duration;

const MILLIS_PER_SECOND: u64 = 1_000;

/// The longest single wait, in milliseconds.
pub const LONGEST_WAIT: u64 = 1_000;

const _: () = prove!(LONGEST_WAIT == 1_000);

/// The time of a program in milliseconds, from readings of a clock.
///
/// Between two readings it advances as much as the clock, at most by [`LONGEST_WAIT`]. So a clock
/// that jumps ahead, as after a suspension, ages a transfer by at most one wait. A clock that goes
/// back does not move it.
#[derive(Clone, Copy)]
pub struct Watch {
    /// The time since the watch was started.
    pub now: u64,
    /// The newest reading of the clock.
    pub reading: u64,
}

impl Watch {
    /// A watch that starts at this reading.
    pub fn new(reading: u64) -> Watch
        ensures { result ≡ record { now = 0; reading = reading } }
    {
        Watch { now: 0, reading }
    }

    /// Advances to a new reading, and returns the time.
    pub fn advance(&mut self, reading: u64) -> u64
        ensures time { result ≡ later_by self.old reading }
        ensures kept { self.new ≡ record { now = result; reading = reading } }
        ensures forward { self.old.now ≤ result }
        ensures soon { result ≤ self.old.now + LONGEST_WAIT }
    {
        let passed = reading.saturating_sub(self.reading).min(LONGEST_WAIT);
        self.now = self.now.saturating_add(passed);
        self.reading = reading;
        self.now
    }

    /// Advances to a new reading, to `limit` at most, and returns the time.
    pub fn advance_within(&mut self, reading: u64, limit: u64) -> u64
        ensures kept { self.new ≡ record { now = result; reading = reading } }
        ensures time { result ≡ later_within self.old reading limit }
        ensures forward { self.old.now ≤ result }
        ensures soon { result ≤ max self.old.now limit }
    {
        let passed = reading.saturating_sub(self.reading);
        let latest = limit.max(self.now);
        self.now = self.now.saturating_add(passed).min(latest);
        self.reading = reading;
        self.now
    }
}

/// The deadline, in milliseconds, of a transfer whose newest opening, progress or timeout is at
/// `now`: `seconds` later (RFC 2349, "Timeout Interval Option Specification").
pub fn deadline(now: u64, seconds: u16) -> u64
    ensures value { result ≡ deadline_of now seconds }
    ensures later { now ≤ result }
{
    now.saturating_add(u64::from(seconds) * MILLIS_PER_SECOND)
}

/// Whether a deadline is reached.
pub fn is_due(now: u64, deadline: u64) -> bool
    ensures { IsTrue result ↔ (deadline ≤ now) }
{
    deadline <= now
}

/// A time of the clock in milliseconds, or `last` if it could not be read.
pub(crate) fn reading_of(time: io::Result<Duration>, last: u64) -> u64
    ensures { result ≡ reading_of time last }
{
    match time {
        Ok(time) => millis_of(time),
        Err(_) => last,
    }
}

/// A time in whole milliseconds.
fn millis_of(time: Duration) -> u64
    ensures { result ≡ whole_millis (as_nanos time) }
{
    u64::try_from(time.as_millis()).unwrap_or(u64::MAX)
}
