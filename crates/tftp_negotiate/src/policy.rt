//! The rules of each side for an option.

ghost use Rattle.std.specs.Prelude.{◌≡◌};
ghost use Rattle.tftp_wire.specs.Borrowed.{owned_option};
ghost use Rattle.tftp_negotiate.specs.Policy.{judged};

use crate::answer::answered;
use crate::asked::Asked;
use crate::known::{Kind, Known};
use crate::limits::Limits;
use crate::oack::taken;
use crate::refusal::Refusal;
use tftp_wire::{Mode, OptionRef};

/// The rules of one side of a negotiation, with their parameters.
#[derive(Clone, Copy)]
pub(crate) enum Policy {
    /// The server, which answers a request. `length` is the length of the file to read, in bytes of
    /// wire text.
    Server {
        kind: Kind,
        mode: Mode,
        length: u64,
        limits: Limits,
    },
    /// The client, which checks an OACK. `limit` is the maximum length of a file that it reads, in
    /// bytes of wire text.
    Client {
        asked: Asked,
        kind: Kind,
        mode: Mode,
        limit: u64,
    },
}

impl Policy {
    /// Judges an option: it is agreed with a value, ignored or refused.
    #[inline(never)]
    pub(crate) fn judge(&self, option: OptionRef<'_>) -> Result<Option<Known>, Refusal>
        ensures { result ≡ judged self.now (owned_option option.entry) }
    {
        match self {
            Policy::Server {
                kind,
                mode,
                length,
                limits,
            } => answered(*kind, *mode, *length, limits, option),
            Policy::Client {
                asked,
                kind,
                mode,
                limit,
            } => taken(asked, *kind, *mode, *limit, option),
        }
    }
}
