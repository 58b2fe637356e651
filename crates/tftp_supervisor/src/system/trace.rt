//! What was done with the processes of servers, and what was printed, as only clauses read it.

use std::marker::Model;

/// What was done, the newest event first.
pub(super) type Trace = tftp_trace::Trace<ProcessEvents>;

/// The events of the processes. Its one value is that of none.
pub(super) struct ProcessEvents;

impl Model for ProcessEvents {
    ghost use Rattle.std.specs.Prelude.{List, []};
    ghost use Rattle.tftp_supervisor.specs.ProcessEvent.{ProcessEvent};

    ghost Value = { List ProcessEvent };

    ghost view = { λ _. [] };
}
