//! The name of an event, as a script spells it, beside the `-` of an event that sends nothing.

use std::fmt;
use tftp_player::Event;

/// Whether events are printed beside their `-`.
#[derive(Clone, Copy)]
pub(crate) enum EventNames {
    /// As the specification has it: `-` alone.
    Hidden,
    /// The event after it.
    Shown,
}

/// The name of an event, which outlives it.
#[derive(Clone, Copy)]
pub(crate) enum EventName {
    /// A client opened.
    Opening,
    /// The datagram at this index arrived.
    Deliver(usize),
    /// A timeout of the end at this port.
    Timeout(u16),
    /// The receiver at this port is set to refuse.
    Refuse(u16),
    /// A datagram of neither host arrived.
    Stray,
}

impl EventName {
    /// The name of an event, before it happens.
    pub(crate) fn of(event: &Event) -> EventName {
        match event {
            Event::Get { .. } | Event::Put { .. } => EventName::Opening,
            Event::Deliver(index) => EventName::Deliver(*index),
            Event::Timeout(port) => EventName::Timeout(*port),
            Event::RefuseStore(port) => EventName::Refuse(*port),
            Event::Stray(..) => EventName::Stray,
        }
    }
}

impl fmt::Display for EventName {
    fn fmt<W: fmt::Write>(&self, f: &mut fmt::Formatter<W>) -> fmt::Result {
        match self {
            EventName::Opening => f.write_str("open"),
            EventName::Deliver(index) => write!(f, "deliver {index}"),
            EventName::Timeout(port) => write!(f, "timeout {port}"),
            EventName::Refuse(port) => write!(f, "refuse {port}"),
            EventName::Stray => f.write_str("stray"),
        }
    }
}
