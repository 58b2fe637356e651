//! A time of the wall clock, as lines of a log have it.

ghost use Rattle.std.specs.Prelude.{◌≡◌, ◌≤◌, ◌*ℤ◌, pos, IfSome, IsSome};
ghost use Rattle.tftp_lines.specs.StampedLine.{IsUtcText, LAST_MILLIS};

use arrayvec::ArrayString;
use jiff::Timestamp;
use jiff::fmt::temporal::DateTimePrinter;
use std::fmt;

/// The places of a fraction of a second.
const PLACES: u8 = 3;

/// An instant in UTC to the millisecond, as `2026-11-28T18:10:11.123Z` (RFC 3339).
#[derive(Clone, Copy)]
pub struct UtcTime {
    text: ArrayString<33>,
}

impl UtcTime {
    /// The instant so many milliseconds after 1970 began, unless it is behind the year 9999.
    pub fn at(millis: u64) -> Option<UtcTime>
        ensures text { IfSome result (λ time. IsUtcText millis time.text.bytes) }
        ensures found { millis ≤ LAST_MILLIS → IsSome result }
    {
        match instant_at(millis) {
            Some(instant) => Some(UtcTime {
                text: text_of(millis, instant),
            }),
            None => None,
        }
    }
}

/// The instant so many milliseconds after 1970 began, if `jiff` has it.
fn instant_at(millis: u64) -> Option<Timestamp>
    ensures value { IfSome result (λ instant. instant.nanosecond ≡ pos millis *ℤ pos 1_000_000) }
    ensures found { millis ≤ LAST_MILLIS → IsSome result }
{
    Timestamp::from_millisecond(i64::try_from(millis).ok()?).ok()
}

/// The text of an instant, which is so many milliseconds after 1970 began.
fn text_of(_millis: u64, instant: Timestamp) -> ArrayString<33>
    requires { instant.nanosecond ≡ pos _millis *ℤ pos 1_000_000 }
    ensures { IsUtcText _millis result.bytes }
{
    let printer = DateTimePrinter::new().precision(Some(PLACES));
    printer.timestamp_text(instant.to_plain())
}

impl fmt::Display for UtcTime {
    ghost use Rattle.std.specs.Prelude.{Some};

    ghost output = { λ time. Some time.text.bytes };

    fn fmt<W: fmt::Write>(&self, f: &mut fmt::Formatter<W>) -> fmt::Result {
        f.write_str(self.text.as_str())
    }
}
