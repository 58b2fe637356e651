//! The lines of `tftpd --log`.

ghost use Rattle.std.specs.Prelude.{◌≡◌};
ghost use Rattle.tftp_lines.specs.LogLine.{is_failure, is_warning};

use crate::hint::Hint;
use crate::reason::Reason;
use std::fmt;
use tftp_ends::{Endpoint, Outcome};

/// What a lost request lacked.
#[derive(Clone, Copy, Debug, PartialEq, Eq)]
pub enum Lost {
    /// A port: none can be bound, for this reason, if known.
    Port(Option<Reason>),
    /// Memory.
    Memory,
    /// A slot for its client, whose address has so many transfers open, the most of one.
    Client(u8),
}

impl fmt::Display for Lost {
    ghost use Rattle.std.specs.Prelude.{Some};
    ghost use Rattle.tftp_lines.specs.LogLine.{lost_text};

    ghost output = { λ lost. Some (lost_text lost) };

    fn fmt<W: fmt::Write>(&self, f: &mut fmt::Formatter<W>) -> fmt::Result {
        match *self {
            Lost::Port(reason) => {
                let because = Because(reason);
                write!(f, "no port{because}")
            }
            Lost::Memory => f.write_str("out of memory"),
            Lost::Client(most) => write!(f, "{most} transfers of this client"),
        }
    }
}

/// A datagram to the request port, as a part of a line.
#[derive(Clone, Copy, Debug)]
pub struct RequestLine<'a> {
    /// The sender.
    pub peer: Endpoint,
    /// The line of its packet, or its first fault.
    pub line: &'a str,
}

impl fmt::Display for RequestLine<'_> {
    ghost use Rattle.std.specs.Prelude.{Some};
    ghost use Rattle.tftp_lines.specs.LogLine.{request_text};

    ghost output = { λ request. Some (request_text request) };

    fn fmt<W: fmt::Write>(&self, f: &mut fmt::Formatter<W>) -> fmt::Result {
        let (peer, line) = (self.peer, self.line);
        write!(f, "{peer} {line}")
    }
}

/// A line of the log of `tftpd`. `answer` is the line of a packet.
#[derive(Clone, Copy, Debug)]
pub enum LogLine<'a> {
    /// A request opened the transfer at this port; `answer` is its first datagram.
    Opened {
        port: u16,
        request: RequestLine<'a>,
        answer: &'a str,
    },
    /// A datagram to the request port opened no transfer and was answered; the reason, if its name
    /// is not allowed or a call on a file was refused.
    Refused {
        request: RequestLine<'a>,
        answer: &'a str,
        reason: Option<Reason>,
    },
    /// A datagram to the request port opened no transfer and was not answered.
    Ignored {
        request: RequestLine<'a>,
    },
    /// A request that might have opened a transfer is lost.
    Lost {
        request: RequestLine<'a>,
        lost: Lost,
    },
    /// The system refused to send a datagram, from this port, to the peer that made the request.
    /// It is lost like one that the network loses.
    Unsent {
        port: u16,
        request: RequestLine<'a>,
        reason: Reason,
    },
    /// A transfer closed, after `bytes` bytes of DATA and `millis` milliseconds, and after `again`
    /// datagrams that were sent again; why, if more is known than its outcome; and what an operator
    /// may have to set. `answer` is its first datagram, which has the agreed options.
    Closed {
        port: u16,
        request: RequestLine<'a>,
        answer: &'a str,
        bytes: u64,
        millis: u64,
        again: u64,
        outcome: Outcome,
        why: Option<Why<'a>>,
        hint: Option<Hint>,
    },
}

/// Why a transfer closed, behind its outcome.
#[derive(Clone, Copy, Debug)]
pub enum Why<'a> {
    /// A call on its file was refused.
    Refused(Reason),
    /// The peer sent this ERROR: the line of its packet.
    Error(&'a str),
}

impl LogLine<'_> {
    /// Whether the line is about something that an operator may have to change: a request that was
    /// lost or refused for a reason of this host, a datagram that was not sent, or a transfer that
    /// failed and that its peer did not end.
    pub fn is_warning(&self) -> bool
        ensures { result ≡ is_warning self.now }
    {
        match *self {
            LogLine::Opened { .. } => false,
            LogLine::Refused { reason, .. } => reason.is_some(),
            LogLine::Ignored { .. } => false,
            LogLine::Lost { .. } => true,
            LogLine::Unsent { .. } => true,
            LogLine::Closed { outcome, .. } => is_failure(outcome),
        }
    }
}

/// Whether a transfer failed, and its peer did not end it.
fn is_failure(outcome: Outcome) -> bool
    ensures { result ≡ is_failure outcome }
{
    match outcome {
        Outcome::Complete => false,
        Outcome::PeerError(_) => false,
        Outcome::TimedOut
        | Outcome::Illegal
        | Outcome::Refused(_)
        | Outcome::TooLarge
        | Outcome::StoreFault
        | Outcome::SourceFault
        | Outcome::NotNetascii => true,
    }
}

/// A line of the log as it is written.
#[derive(Clone, Copy)]
pub struct Logged<'a> {
    pub line: LogLine<'a>,
    /// Whether a warning begins with its priority, `<4>`, which systemd's journal takes off
    /// (sd-daemon(3)).
    pub has_priority: bool,
}

impl fmt::Display for Logged<'_> {
    ghost use Rattle.std.specs.Prelude.{Some};
    ghost use Rattle.tftp_lines.specs.LogLine.{logged_text};

    ghost output = { λ logged. Some (logged_text logged) };

    fn fmt<W: fmt::Write>(&self, f: &mut fmt::Formatter<W>) -> fmt::Result {
        let line = self.line;
        if self.has_priority && line.is_warning() {
            write!(f, "<4>{line}")
        } else {
            write!(f, "{line}")
        }
    }
}

/// What a transfer took.
#[derive(Clone, Copy)]
struct Amounts {
    /// The bytes of DATA, each block once.
    bytes: u64,
    /// The time, in milliseconds.
    millis: u64,
    /// The number of datagrams that were sent again.
    again: u64,
}

impl fmt::Display for Amounts {
    ghost use Rattle.std.specs.Prelude.{Some};
    ghost use Rattle.tftp_lines.specs.LogLine.{amounts_text};

    ghost output = { λ amounts. Some (amounts_text amounts.bytes amounts.millis amounts.again) };

    fn fmt<W: fmt::Write>(&self, f: &mut fmt::Formatter<W>) -> fmt::Result {
        let (bytes, millis, again) = (self.bytes, self.millis, self.again);
        write!(f, "{bytes} bytes, {millis} ms, {again} sent again")
    }
}

/// The end of a line: the reason, if known.
#[derive(Clone, Copy)]
struct Because(Option<Reason>);

impl fmt::Display for Because {
    ghost use Rattle.std.specs.Prelude.{Some};
    ghost use Rattle.tftp_lines.specs.LogLine.{because_text};

    ghost output = { λ because. Some (because_text because.0) };

    fn fmt<W: fmt::Write>(&self, f: &mut fmt::Formatter<W>) -> fmt::Result {
        match self.0 {
            Some(reason) => write!(f, ", {reason}"),
            None => Ok(()),
        }
    }
}

/// The end of the line of a close.
#[derive(Clone, Copy)]
struct Ending<'a>(Option<Why<'a>>);

impl fmt::Display for Ending<'_> {
    ghost use Rattle.std.specs.Prelude.{Some};
    ghost use Rattle.tftp_lines.specs.LogLine.{why_text};

    ghost output = { λ ending. Some (why_text ending.0) };

    fn fmt<W: fmt::Write>(&self, f: &mut fmt::Formatter<W>) -> fmt::Result {
        match self.0 {
            Some(Why::Refused(reason)) => write!(f, ", {reason}"),
            Some(Why::Error(line)) => write!(f, ", {line}"),
            None => Ok(()),
        }
    }
}

/// The hint behind it, if there is one.
#[derive(Clone, Copy)]
struct Hinted(Option<Hint>);

impl fmt::Display for Hinted {
    ghost use Rattle.std.specs.Prelude.{Some};
    ghost use Rattle.tftp_lines.specs.Hint.{hinted_text};

    ghost output = { λ hinted. Some (hinted_text hinted.0) };

    fn fmt<W: fmt::Write>(&self, f: &mut fmt::Formatter<W>) -> fmt::Result {
        match self.0 {
            Some(hint) => write!(f, ", {hint}"),
            None => Ok(()),
        }
    }
}

impl fmt::Display for LogLine<'_> {
    ghost use Rattle.std.specs.Prelude.{Some};
    ghost use Rattle.tftp_lines.specs.LogLine.{log_text};

    ghost output = { λ line. Some (log_text line) };

    fn fmt<W: fmt::Write>(&self, f: &mut fmt::Formatter<W>) -> fmt::Result {
        match *self {
            LogLine::Opened {
                port,
                request,
                answer,
            } => write!(f, "opened {port} {request}: {answer}"),
            LogLine::Refused {
                request,
                answer,
                reason,
            } => {
                let because = Because(reason);
                write!(f, "refused {request}: {answer}{because}")
            }
            LogLine::Ignored { request } => write!(f, "ignored {request}"),
            LogLine::Lost { request, lost } => write!(f, "lost {request}: {lost}"),
            LogLine::Unsent {
                port,
                request,
                reason,
            } => write!(f, "unsent {port} {request}: {reason}"),
            LogLine::Closed {
                port,
                request,
                answer,
                bytes,
                millis,
                again,
                outcome,
                why,
                hint,
            } => {
                let amounts = Amounts {
                    bytes,
                    millis,
                    again,
                };
                let (ending, hinted) = (Ending(why), Hinted(hint));
                write!(
                    f,
                    "closed {port} {request}: {answer}, {amounts}, {outcome}{ending}{hinted}"
                )
            }
        }
    }
}
