//! The trace of a disk, of a view, or of an open file. No other crate can make one, or note in one.

use std::marker::Model;
use tftp_trace::Trace;

/// What was asked of a disk or of one open file, and what was answered, the newest event first.
pub type DiskTrace = Trace<DiskEvents>;

/// The events of such a trace. Its one value is that of no event, and no other crate can make it.
pub struct DiskEvents {
    none: (),
}

impl Model for DiskEvents {
    ghost use Rattle.std.specs.Prelude.{List, []};
    ghost use Rattle.tftp_disk.specs.DiskTrace.{DiskEvent};

    ghost Value = { List DiskEvent };

    ghost view = { λ _. [] };
}

impl DiskEvents {
    /// No event.
    pub(crate) const NONE: DiskEvents = DiskEvents { none: () };
}
