//! What stands before the words of a server's lines on standard error.

ghost use Rattle.std.specs.Prelude.{◌≡◌, ◌≤◌, ◌++◌, ◌↔◌, true, false, None};
ghost use Rattle.std.specs.Prelude.{IfSome, IsSome, IsSomeAnd, IsTrue};
ghost use Rattle.tftp_lines.specs.StampedLine.{IsUtcText, LAST_MILLIS, priority_text};

use tftp_lines::{StampedLine, UtcTime};

/// What stands before the words of a line.
#[derive(Clone, Copy)]
pub struct LineStamp {
    /// Which server the line is of, counted from 1, if it is one of several.
    pub server: Option<u8>,
    /// Whether the time of the wall clock stands there, where it can be read.
    pub has_time: bool,
}

impl LineStamp {
    /// Whether nothing stands there.
    pub fn is_empty(self) -> bool
        ensures { IsTrue result ↔ ((self.server ≡ None) × (self.has_time ≡ false)) }
    {
        self.server.is_none() && !self.has_time
    }

    /// The line of these words at this time, in milliseconds since 1970 began in UTC, if it is known.
    pub fn line<'a>(self, words: &'a str, millis: Option<u64>) -> StampedLine<'a>
        // The words stay as they are, and before them stands the server.
        ensures words { words.now ≡ priority_text result.has_priority ++ result.words.now }
        ensures server { result.server ≡ self.server }
        // The time stands there only if lines have times, and then if its year has four digits.
        ensures untimed { self.has_time ≡ false → result.time ≡ None }
        ensures time { IfSome result.time (λ time. IsSomeAnd millis
            (λ millis. IsUtcText millis time.text.bytes)) }
        ensures timed { self.has_time ≡ true
            → IfSome millis (λ millis. millis ≤ LAST_MILLIS → IsSome result.time) }
    {
        StampedLine::of(words, self.time(millis), self.server)
    }

    /// The time of a line, if lines have times.
    fn time(self, millis: Option<u64>) -> Option<UtcTime>
        ensures untimed { self.has_time ≡ false → result ≡ None }
        ensures time { IfSome result (λ time. IsSomeAnd millis
            (λ millis. IsUtcText millis time.text.bytes)) }
        ensures timed { self.has_time ≡ true
            → IfSome millis (λ millis. millis ≤ LAST_MILLIS → IsSome result) }
    {
        if self.has_time {
            UtcTime::at(millis?)
        } else {
            None
        }
    }
}
