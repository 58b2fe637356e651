//! The events of a trace, as values of the code.

use super::trace::ProcessEvents;
use std::io;
use std::process::ExitStatus;
use tftp_trace::Kind;

/// An event to be noted, with the bytes that it borrows.
#[derive(Clone, Copy)]
pub(super) enum EventRef<'a> {
    /// A server was started by this command line.
    Started(&'a [String]),
    /// A read of this server's output gave these bytes.
    Gave(u8, &'a [u8]),
    /// The output of this server is closed.
    Closed(u8),
    /// This server was ended, with this answer.
    Ended(u8, io::Result<ExitStatus>),
    /// These bytes are printed.
    Printed(&'a [u8]),
}

impl<'a> Kind<EventRef<'a>> for ProcessEvents {
    ghost use Rattle.std.specs.Prelude.{◌∷◌};
    ghost use Rattle.tftp_supervisor.specs.EventRef.{process_event};

    ghost after = { λ event events. process_event event ∷ events };
}
