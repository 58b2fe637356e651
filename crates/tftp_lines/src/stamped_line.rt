//! A line of a log with what is put before its words.

ghost use Rattle.std.specs.Prelude.{◌≡◌, ◌++◌};
ghost use Rattle.tftp_lines.specs.StampedLine.{priority_text};

use crate::utc_time::UtcTime;
use std::fmt;

/// The priority of a warning, for a standard error that is systemd's journal.
const WARNING: &str = "<4>";

/// A line of a log with the time at which it is written, and which of several servers it is of.
#[derive(Clone, Copy)]
pub struct StampedLine<'a> {
    /// Whether it begins with the priority of a warning, which stays before all else.
    has_priority: bool,
    time: Option<UtcTime>,
    server: Option<u8>,
    words: &'a str,
}

impl<'a> StampedLine<'a> {
    /// A line, which may begin with a priority, of this time and this server, if they are to be said.
    pub fn of(line: &'a str, time: Option<UtcTime>, server: Option<u8>) -> StampedLine<'a>
        ensures words { line.now ≡ priority_text result.has_priority ++ result.words.now }
        ensures time { result.time ≡ time }
        ensures server { result.server ≡ server }
    {
        match line.strip_prefix(WARNING) {
            Some(words) => StampedLine {
                has_priority: true,
                time,
                server,
                words,
            },
            None => StampedLine {
                has_priority: false,
                time,
                server,
                words: line,
            },
        }
    }
}

impl fmt::Display for StampedLine<'_> {
    ghost use Rattle.std.specs.Prelude.{Some};
    ghost use Rattle.tftp_lines.specs.StampedLine.{stamped_text};

    ghost output = { λ line. Some (stamped_text line) };

    fn fmt<W: fmt::Write>(&self, f: &mut fmt::Formatter<W>) -> fmt::Result {
        let priority = Priority(self.has_priority);
        let (time, server) = (TimeMark(self.time), ServerMark(self.server));
        let words = self.words;
        write!(f, "{priority}{time}{server}{words}")
    }
}

/// The priority of a warning, if the line is one.
#[derive(Clone, Copy)]
struct Priority(bool);

impl fmt::Display for Priority {
    ghost use Rattle.std.specs.Prelude.{Some};
    ghost use Rattle.tftp_lines.specs.StampedLine.{priority_text};

    ghost output = { λ priority. Some (priority_text priority.0) };

    fn fmt<W: fmt::Write>(&self, f: &mut fmt::Formatter<W>) -> fmt::Result {
        if self.0 { f.write_str(WARNING) } else { Ok(()) }
    }
}

/// The time, if it is to be said.
#[derive(Clone, Copy)]
struct TimeMark(Option<UtcTime>);

impl fmt::Display for TimeMark {
    ghost use Rattle.std.specs.Prelude.{Some};
    ghost use Rattle.tftp_lines.specs.StampedLine.{time_text};

    ghost output = { λ mark. Some (time_text mark.0) };

    fn fmt<W: fmt::Write>(&self, f: &mut fmt::Formatter<W>) -> fmt::Result {
        match self.0 {
            Some(time) => write!(f, "{time} "),
            None => Ok(()),
        }
    }
}

/// The server, if it is one of several.
#[derive(Clone, Copy)]
struct ServerMark(Option<u8>);

impl fmt::Display for ServerMark {
    ghost use Rattle.std.specs.Prelude.{Some};
    ghost use Rattle.tftp_lines.specs.StampedLine.{server_text};

    ghost output = { λ mark. Some (server_text mark.0) };

    fn fmt<W: fmt::Write>(&self, f: &mut fmt::Formatter<W>) -> fmt::Result {
        match self.0 {
            Some(server) => write!(f, "server {server}: "),
            None => Ok(()),
        }
    }
}
