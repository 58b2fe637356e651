//! How long an end waits for its peer.

ghost use Rattle.std.specs.Prelude.{◌≡◌, ◌≤◌, ◌*◌, ◌^◌, min};
ghost use Rattle.tftp_ends.specs.Backoff.{wait_of};

/// How long an end waits for its peer after timeouts without progress.
#[derive(Clone, Copy, Debug, PartialEq, Eq)]
pub enum Backoff {
    /// Each wait is the timeout interval.
    Constant,
    /// Each further wait is twice as long as the one before, up to eight times the interval (RFC
    /// 1123, section 4.2.3.2). Progress begins again at one interval.
    Doubling,
}

/// How many times longer than the interval the wait is after so many timeouts.
fn doubled(timeouts: u8) -> u16
    ensures doubled { result ≡ 2 ^ min timeouts 3 }
    ensures least { 1 ≤ result }
    ensures most { result ≤ 8 }
{
    match timeouts {
        0 => 1,
        1 => 2,
        2 => 4,
        _ => 8,
    }
}

impl Backoff {
    /// The wait in seconds of an end with this interval (in seconds) after `timeouts` timeouts
    /// since its opening or its last progress: at least the interval, and at most eight times as
    /// long.
    pub fn wait(self, interval: u8, timeouts: u8) -> u16
        ensures wait { result ≡ wait_of self interval timeouts }
        ensures least { interval ≤ result }
        ensures most { result ≤ 8 * interval }
    {
        match self {
            Backoff::Constant => u16::from(interval),
            Backoff::Doubling => u16::from(interval) * doubled(timeouts),
        }
    }
}
