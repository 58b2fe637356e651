//! The refusals of a negotiation.

ghost use Rattle.std.specs.Prelude.{◌≡◌};
ghost use Rattle.tftp_negotiate.specs.Refusal.{refusal_number};

use thiserror::Error;

/// The reason to refuse a request or an OACK.
#[derive(Clone, Copy, Debug, PartialEq, Eq, Error)]
pub enum Refusal {
    /// A known option is repeated (RFC 2347: "an option may only be specified once").
    #[error("a known option stands twice")]
    Repeated = 1,
    /// The file is longer than this end accepts.
    #[error("the file is too large")]
    TooLarge = 2,
    /// An OACK has an option that was not requested.
    #[error("an option was not asked")]
    NotAsked = 3,
    /// An OACK has a value that the request does not allow.
    #[error("an option has a value that was not asked")]
    BadValue = 4,
}

impl Refusal {
    /// The number of the refusal, 1 to 4.
    pub fn number(self) -> u8
        ensures { result ≡ refusal_number self }
    {
        self as u8
    }
}
