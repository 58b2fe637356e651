//! What a device did, as only clauses read it.

use std::marker::Model;

/// What a device did, the newest event first.
pub(crate) type Trace = tftp_trace::Trace<SocketEvents>;

/// The events of a device. Its one value is that of none.
pub(crate) struct SocketEvents;

impl Model for SocketEvents {
    ghost use Rattle.std.specs.Prelude.{List, []};
    ghost use Rattle.tftp_sockets.specs.Trace.{SocketEvent};

    ghost Value = { List SocketEvent };

    ghost view = { λ _. [] };
}
