//! What an operator may have to set, at the end of the line of a close.

ghost use Rattle.std.specs.Prelude.{◌≡◌};
ghost use Rattle.tftp_lines.specs.Hint.{hint_of, is_unknown_tid};

use std::fmt;
use tftp_ends::Outcome;

/// The code of an ERROR for a transfer that its sender does not know (RFC 1350, appendix I).
const UNKNOWN_TID: u16 = 5;

/// What an operator may have to set.
#[derive(Clone, Copy, Debug, PartialEq, Eq)]
pub enum Hint {
    /// The address of the requests: the answer may have left from another one than was asked.
    Listen,
}

impl Hint {
    /// The hint for a transfer that has closed so, of a server at this address or at each
    /// (`is_anywhere`): a client answers a datagram of another address than it asked by ERROR 5 (RFC
    /// 1350, section 4), and that is before any progress.
    pub fn of(is_anywhere: bool, has_progressed: bool, outcome: Outcome) -> Option<Hint>
        ensures { result ≡ hint_of is_anywhere has_progressed outcome }
    {
        if is_anywhere && !has_progressed && is_unknown_tid(outcome) {
            Some(Hint::Listen)
        } else {
            None
        }
    }
}

/// Whether the peer ended the transfer since it does not know it.
fn is_unknown_tid(outcome: Outcome) -> bool
    ensures { result ≡ is_unknown_tid outcome }
{
    match outcome {
        Outcome::PeerError(code) => code == UNKNOWN_TID,
        Outcome::Complete
        | Outcome::TimedOut
        | Outcome::Illegal
        | Outcome::Refused(_)
        | Outcome::TooLarge
        | Outcome::StoreFault
        | Outcome::SourceFault
        | Outcome::NotNetascii => false,
    }
}

impl fmt::Display for Hint {
    ghost use Rattle.std.specs.Prelude.{Some};
    ghost use Rattle.tftp_lines.specs.Hint.{hint_text};

    ghost output = { λ hint. Some (hint_text hint) };

    fn fmt<W: fmt::Write>(&self, f: &mut fmt::Formatter<W>) -> fmt::Result {
        match *self {
            Hint::Listen => f.write_str("answered from another address? --listen"),
        }
    }
}
