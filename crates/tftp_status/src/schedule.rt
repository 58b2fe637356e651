//! When the next text of a status file is due.

ghost use Rattle.std.specs.Prelude.{◌≡◌};
ghost use Rattle.tftp_status.specs.Schedule.{at_start, changed, first_failure, is_due, lacks};
ghost use Rattle.tftp_status.specs.Schedule.{later, tried_at, waiting_at};

use tftp_lines::Reason;

/// The time between two texts, in milliseconds.
const PERIOD: u64 = 1_000;

/// The age at which a text is written again though nothing has changed, in milliseconds: whoever reads
/// it can tell a server that hangs from one that is idle.
const LONGEST_AGE: u64 = 60_000;

/// When the next text is due. Times are of the watch, in milliseconds.
#[derive(Clone, Copy)]
pub(crate) struct Schedule {
    /// The earliest time of the next text.
    due: u64,
    /// The latest time of the next text.
    stale: u64,
    /// Whether the newest text lacks what was counted since, or was not written.
    is_changed: bool,
    /// Whether a text could not be written.
    has_failed: bool,
}

impl Schedule {
    /// Of a server that has done nothing yet. The first text is due at once.
    pub(crate) fn new() -> Schedule
        ensures { result ≡ at_start }
    {
        Schedule {
            due: 0,
            stale: 0,
            is_changed: true,
            has_failed: false,
        }
    }

    /// Whether a text is to be written at this time: the newest one lacks something and is a second
    /// old, or it is a minute old.
    pub(crate) fn is_due(self, now: u64) -> bool
        ensures { result ≡ is_due now self }
    {
        now >= self.due && self.lacks(now)
    }

    /// Whether the newest text lacks something, or is too old.
    pub(crate) fn lacks(self, now: u64) -> bool
        ensures { result ≡ lacks now self }
    {
        self.is_changed || now >= self.stale
    }

    /// Something was counted.
    pub(crate) fn change(&mut self)
        ensures { self.new ≡ changed self.old }
    {
        self.is_changed = true;
    }

    /// At this time a text was written, or could not be.
    pub(crate) fn note_text(&mut self, now: u64, written: Result<(), Reason>)
        ensures { self.new ≡ tried_at now written self.old }
    {
        self.stale = later(now, LONGEST_AGE);
        self.is_changed = written.is_err();
        self.has_failed = self.has_failed || written.is_err();
    }

    /// The failure of a text, if none has failed before.
    pub(crate) fn first_failure(self, written: Result<(), Reason>) -> Option<Reason>
        ensures { result ≡ first_failure written self }
    {
        match written {
            Ok(()) => None,
            Err(reason) => if self.has_failed { None } else { Some(reason) },
        }
    }

    /// The next text is due a second after this time at the earliest.
    pub(crate) fn wait(&mut self, now: u64)
        ensures { self.new ≡ waiting_at now self.old }
    {
        self.due = later(now, PERIOD);
    }
}

/// The time so much later, up to the last time of the watch.
fn later(now: u64, millis: u64) -> u64
    ensures { result ≡ later now millis }
{
    now.saturating_add(millis)
}
