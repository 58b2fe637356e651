//! When a datagram was seen, and how long after another.

ghost use Rattle.std.specs.Prelude.{◌≡◌, ◌-◌, max, nat_lt};
ghost use Rattle.tftp_flow.specs.CapturedTransfer.{micros_of, micros_in, second_of};

use std::fmt;

/// The digits of a fraction of a second that count.
const DIGITS: usize = 6;

/// The microseconds of a second.
const SECOND: u64 = 1_000_000;

/// A moment of a capture, in microseconds: since 1970, or since the capture began.
#[derive(Clone, Copy)]
pub struct Moment(u64);

/// How long something lasted, in microseconds.
#[derive(Clone, Copy)]
pub struct Span(u64);

impl Moment {
    /// The moment that a text of seconds spells, as `1764142345.123456789`. Digits after the sixth
    /// of the fraction are dropped.
    pub(crate) fn parse(text: &str) -> Option<Moment> {
        let (seconds, fraction) = text.split_once('.').unwrap_or((text, ""));
        let Ok(seconds) = seconds.parse::<u64>() else {
            return None;
        };
        let micros = micros_of(fraction.as_bytes())?;
        match seconds.checked_mul(SECOND)?.checked_add(micros) {
            Some(micros) => Some(Moment(micros)),
            None => None,
        }
    }

    /// The moment of so many microseconds.
    pub fn of_micros(micros: u64) -> Moment
        ensures { micros_of result ≡ micros }
    {
        Moment(micros)
    }

    /// The second that it is in.
    pub(crate) fn second(self) -> u64
        ensures { result ≡ second_of self }
    {
        self.0 / SECOND
    }

    /// The later of two.
    pub(crate) fn later(self, other: Moment) -> Moment
        ensures { micros_of result ≡ max (micros_of self) (micros_of other) }
    {
        Moment(self.0.max(other.0))
    }

    /// How long after an earlier moment this is; nothing, if it is before.
    pub(crate) fn since(self, earlier: Moment) -> Span
        ensures { micros_in result ≡ micros_of self - micros_of earlier }
    {
        Span(self.0.saturating_sub(earlier.0))
    }
}

impl Span {
    /// So many seconds.
    pub(crate) fn of_seconds(seconds: u64) -> Span {
        Span(seconds.saturating_mul(SECOND))
    }

    /// Whether it is longer than another.
    pub(crate) fn exceeds(self, other: Span) -> bool
        ensures { result ≡ nat_lt (micros_in other) (micros_in self) }
    {
        self.0 > other.0
    }
}

/// The microseconds that a fraction's digits spell.
fn micros_of(digits: &[u8]) -> Option<u64> {
    if !digits.iter().all(u8::is_ascii_digit) {
        return None;
    }
    let mut micros = 0u64;
    for index in 0..DIGITS {
        let digit = digits.get(index).copied().unwrap_or(b'0');
        micros = micros
            .saturating_mul(10)
            .saturating_add(u64::from(digit.saturating_sub(b'0')));
    }
    Some(micros)
}

/// In seconds, with six digits of their fraction.
impl fmt::Display for Span {
    fn fmt<W: fmt::Write>(&self, f: &mut fmt::Formatter<W>) -> fmt::Result {
        write_seconds(self.0, f)
    }
}

/// In seconds, with six digits of their fraction.
impl fmt::Display for Moment {
    fn fmt<W: fmt::Write>(&self, f: &mut fmt::Formatter<W>) -> fmt::Result {
        write_seconds(self.0, f)
    }
}

fn write_seconds<W: fmt::Write>(micros: u64, f: &mut fmt::Formatter<W>) -> fmt::Result {
    let (seconds, micros) = (micros / SECOND, micros % SECOND);
    write!(f, "{seconds}.{micros:06}")
}
