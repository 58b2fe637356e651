//! The events of a trace, as values of the code.

use crate::trace::SocketEvents;
use crate::watch::Watch;
use tftp_ends::Endpoint;
use tftp_lines::{ClientOutcome, Printed};
use tftp_trace::Kind;

/// An event to be noted, with the bytes and the ports that it borrows.
#[derive(Clone, Copy)]
pub(crate) enum EventRef<'a> {
    /// A datagram was received: the port, its sender and its bytes.
    Received(u16, Endpoint, &'a [u8]),
    /// A datagram is sent: the port, its destination and its bytes.
    Sent(u16, Endpoint, &'a [u8]),
    /// The clock was read: the watch since then.
    Watched(Watch),
    /// A timeout is delivered to the transfer at the port, at this time of the watch, in
    /// milliseconds.
    Elapsed(u16, u64),
    /// The last line of `tftp`.
    End(ClientOutcome),
    /// The system refused that line.
    Refused,
    /// A line of `tftpd`.
    Line(Printed),
    /// A receive at the port found nothing.
    Empty(u16),
    /// A receive at the port failed.
    Failed(u16),
    /// A wait of at most so many milliseconds begins.
    Slept(u64),
    /// A wait ended, and reported these ports.
    Woke(&'a [u16]),
    /// No socket could be bound to the port.
    NoSocket(u16),
    /// A new socket is bound to the port.
    NewSocket(u16),
    /// Memory was refused.
    OutOfMemory,
    /// Nobody reads any more what the program prints.
    NoReader,
    /// The signal to drain was given.
    DrainSignalled,
}

impl<'a> Kind<EventRef<'a>> for SocketEvents {
    ghost use Rattle.std.specs.Prelude.{◌∷◌};
    ghost use Rattle.tftp_sockets.specs.EventRef.{event_of};

    ghost after = { λ event events. event_of event ∷ events };
}
