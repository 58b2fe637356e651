//! The progress line of a client's transfer, and when one is due.

ghost use Rattle.std.specs.Prelude.{◌≡◌, ◌↔◌, IsTrue, if◌then◌else◌, Some};
ghost use Rattle.tftp_lines.specs.ProgressLine.{IsLineDue, kilo_tenths_of, percent_of, seconds_left};
ghost use Rattle.tftp_lines.specs.ProgressLine.{tenths_of};

use std::fmt;

/// The least time between two lines, in milliseconds.
const LINE_INTERVAL: u64 = 100;

/// The longest time that is shown as what is left, in seconds: 100 hours.
const LONGEST_LEFT: u128 = 360_000;

/// When the newest line was written.
#[derive(Clone, Copy, Debug, Default, PartialEq, Eq)]
pub struct LineClock {
    /// The time of the newest line, in milliseconds, once there is one.
    pub written_at: Option<u64>,
}

impl LineClock {
    /// Whether a line is due at this time, in milliseconds: none was written yet, or the newest one
    /// at least a tenth of a second ago. A due line counts as written.
    pub fn take_due(&mut self, now: u64) -> bool
        ensures due { IsTrue result ↔ IsLineDue self.old.written_at now }
        ensures taken { self.new.written_at ≡ (if result then Some now else self.old.written_at) }
    {
        let is_due = self.written_at.is_none_or(|written_at| now.saturating_sub(written_at)
            >= LINE_INTERVAL);
        if is_due {
            self.written_at = Some(now);
        }
        is_due
    }
}

/// The progress of a transfer. `{}` writes its bytes, the speed, and, if the length of the file is
/// known, their share of it and how long the rest takes at this speed.
#[derive(Clone, Copy, Debug, PartialEq, Eq)]
pub struct ProgressLine {
    /// The number of bytes transferred.
    pub bytes: u64,
    /// The length of the file in bytes, if known.
    pub total: Option<u64>,
    /// The time since the start, in milliseconds.
    pub millis: u64,
}

impl ProgressLine {
    /// The share of the file in percent, at most 100.
    fn percent(self, total: u64) -> u64
        ensures { result ≡ percent_of self.bytes total }
    {
        if self.bytes >= total {
            return 100;
        }
        let share = u128::from(self.bytes) * 100 / u128::from(total);
        share as u64
    }

    /// The speed in tenths of a megabyte (100,000 bytes) a second.
    fn tenths(self) -> u64
        ensures { result ≡ tenths_of self.bytes self.millis }
    {
        self.bytes / 100 / self.millis.max(1)
    }

    /// The speed in tenths of a kilobyte (100 bytes) a second.
    fn kilo_tenths(self) -> u128
        ensures { result ≡ kilo_tenths_of self.bytes self.millis }
    {
        u128::from(self.bytes) * 10 / u128::from(self.millis.max(1))
    }

    /// How long the rest takes at this speed, in seconds, rounded up; nothing at the end, before the
    /// first byte, and if it is longer than what is shown.
    fn seconds_left(self, total: u64) -> Option<u128>
        ensures { result ≡ seconds_left self.bytes total self.millis }
    {
        if self.bytes == 0 || self.bytes >= total {
            return None;
        }
        let rest = u128::from(total - self.bytes) * u128::from(self.millis);
        let left = rest.saturating_sub(1) / u128::from(self.bytes) / 1000 + 1;
        if left <= LONGEST_LEFT {
            Some(left)
        } else {
            None
        }
    }
}

/// The speed of a transfer: in kilobytes a second below a megabyte.
#[derive(Clone, Copy)]
struct Speed(ProgressLine);

impl fmt::Display for Speed {
    ghost use Rattle.std.specs.Prelude.{Some};
    ghost use Rattle.tftp_lines.specs.ProgressLine.{speed_text};

    ghost output = { λ speed. Some (speed_text speed.0.bytes speed.0.millis) };

    fn fmt<W: fmt::Write>(&self, f: &mut fmt::Formatter<W>) -> fmt::Result {
        let tenths = self.0.tenths();
        if tenths < 10 {
            let tenths = self.0.kilo_tenths();
            let (whole, tenth) = (tenths / 10, tenths % 10);
            return write!(f, "{whole}.{tenth} KB/s");
        }
        let (whole, tenth) = (tenths / 10, tenths % 10);
        write!(f, "{whole}.{tenth} MB/s")
    }
}

/// The end of a line: how long the rest takes, if known.
#[derive(Clone, Copy)]
struct Left(Option<u128>);

impl fmt::Display for Left {
    ghost use Rattle.std.specs.Prelude.{Some};
    ghost use Rattle.tftp_lines.specs.ProgressLine.{left_text};

    ghost output = { λ left. Some (left_text left.0) };

    fn fmt<W: fmt::Write>(&self, f: &mut fmt::Formatter<W>) -> fmt::Result {
        match self.0 {
            Some(seconds) => write!(f, ", {seconds} s left"),
            None => Ok(()),
        }
    }
}

impl fmt::Display for ProgressLine {
    ghost use Rattle.std.specs.Prelude.{Some};
    ghost use Rattle.tftp_lines.specs.ProgressLine.{progress_line_text};

    ghost output = { λ line. Some (progress_line_text line) };

    fn fmt<W: fmt::Write>(&self, f: &mut fmt::Formatter<W>) -> fmt::Result {
        let bytes = self.bytes;
        let speed = Speed(*self);
        match self.total {
            Some(total) => {
                let percent = self.percent(total);
                let left = Left(self.seconds_left(total));
                write!(f, "{bytes} bytes, {percent}%, {speed}{left}")
            }
            None => write!(f, "{bytes} bytes, {speed}"),
        }
    }
}
