//! How a transfer ended.

ghost use Rattle.std.specs.Prelude.{◌≡◌};
ghost use Rattle.tftp_ends.specs.Outcome.{number_of_outcome};

use std::fmt;
use tftp_negotiate::Refusal;

/// How an end closed. `{}` writes the words that the programs print.
#[derive(Clone, Copy, Debug, PartialEq, Eq)]
pub enum Outcome {
    /// The whole file was sent and acknowledged, or stored, committed and acknowledged.
    Complete,
    /// The peer did not answer, and no retry is left. This is never success.
    TimedOut,
    /// The peer ended the transfer by an ERROR with this code.
    PeerError(u16),
    /// The peer sent a packet that the protocol does not allow in this state.
    Illegal,
    /// The server's OACK does not match the requested options.
    Refused(Refusal),
    /// The file has more blocks than can be numbered, or exceeds the size limit.
    TooLarge,
    /// The local store refused the bytes or the commit.
    StoreFault,
    /// The local file could not be read to its measured length.
    SourceFault,
    /// The peer's text is not valid netascii.
    NotNetascii,
}

impl Outcome {
    /// The number of the outcome, 1 to 9.
    pub fn number(self) -> u8
        ensures { result ≡ number_of_outcome self }
    {
        match self {
            Outcome::Complete => 1,
            Outcome::TimedOut => 2,
            Outcome::PeerError(_) => 3,
            Outcome::Illegal => 4,
            Outcome::Refused(_) => 5,
            Outcome::TooLarge => 6,
            Outcome::StoreFault => 7,
            Outcome::SourceFault => 8,
            Outcome::NotNetascii => 9,
        }
    }
}

impl fmt::Display for Outcome {
    ghost use Rattle.std.specs.Prelude.{Some};
    ghost use Rattle.tftp_ends.specs.Outcome.{outcome_text};

    ghost output = { λ outcome. Some (outcome_text outcome) };

    fn fmt<W: fmt::Write>(&self, f: &mut fmt::Formatter<W>) -> fmt::Result {
        let text = match *self {
            Outcome::PeerError(code) => return write!(f, "PeerError({code})"),
            Outcome::Refused(Refusal::Repeated) => "Refused(Repeated)",
            Outcome::Refused(Refusal::TooLarge) => "Refused(TooLarge)",
            Outcome::Refused(Refusal::NotAsked) => "Refused(NotAsked)",
            Outcome::Refused(Refusal::BadValue) => "Refused(BadValue)",
            Outcome::Complete => "Complete",
            Outcome::TimedOut => "TimedOut",
            Outcome::Illegal => "Illegal",
            Outcome::TooLarge => "TooLarge",
            Outcome::StoreFault => "StoreFault",
            Outcome::SourceFault => "SourceFault",
            Outcome::NotNetascii => "NotNetascii",
        };
        f.write_str(text)
    }
}
