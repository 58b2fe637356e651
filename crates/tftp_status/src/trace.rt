//! What was noted for a status file, and what was written to it, as only clauses read it.

use std::marker::Model;

/// What was noted for a status file, and what was written to it, the newest event first.
pub(crate) type Trace = tftp_trace::Trace<StatusEvents>;

/// The events of a status file. Its one value is that of none.
pub(crate) struct StatusEvents;

impl Model for StatusEvents {
    ghost use Rattle.std.specs.Prelude.{List, []};
    ghost use Rattle.tftp_status.specs.StatusEvent.{StatusEvent};

    ghost Value = { List StatusEvent };

    ghost view = { λ _. [] };
}
