//! The colours of a diagram.

use crate::diagram::{Host, MarkKind};

/// A colour, named for what it marks.
#[derive(Clone, Copy)]
pub(crate) enum Ink {
    /// The clients' host.
    Client,
    /// The server's host.
    Server,
    /// Any other host.
    Stranger,
    /// A success.
    Complete,
    /// A loss or a failure.
    Lost,
    /// A timeout, and what is left open.
    Timeout,
    /// An explanation.
    Quiet,
}

impl Ink {
    /// The colour of a host.
    pub(crate) fn of_host(host: Host) -> Ink {
        match host {
            Host::Client => Ink::Client,
            Host::Server => Ink::Server,
            Host::Stranger => Ink::Stranger,
        }
    }

    /// The colour of a mark.
    pub(crate) fn of_mark(kind: MarkKind) -> Ink {
        match kind {
            MarkKind::Timeout | MarkKind::Refusal => Ink::Timeout,
            MarkKind::Completed => Ink::Complete,
            MarkKind::Failed => Ink::Lost,
        }
    }

    /// The name of its class in the style of the picture.
    pub(crate) fn class(self) -> &'static str {
        match self {
            Ink::Client => "client",
            Ink::Server => "server",
            Ink::Stranger => "stranger",
            Ink::Complete => "complete",
            Ink::Lost => "lost",
            Ink::Timeout => "timeout",
            Ink::Quiet => "quiet",
        }
    }
}
