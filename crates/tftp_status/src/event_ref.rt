//! The events of a status file, as values of the code.

use crate::datagrams::Way;
use crate::trace::StatusEvents;
use tftp_sockets::Entry;
use tftp_trace::Kind;

/// An event to be noted, with the text that it borrows.
#[derive(Clone, Copy)]
pub(crate) enum EventRef<'a> {
    /// The server noted this entry.
    Told(Entry),
    /// A datagram went this way.
    Moved(Way),
    /// This text was written to the file.
    Handed(&'a str),
}

impl<'a> Kind<EventRef<'a>> for StatusEvents {
    ghost use Rattle.std.specs.Prelude.{◌∷◌};
    ghost use Rattle.tftp_status.specs.EventRef.{status_event};

    ghost after = { λ event events. status_event event ∷ events };
}
