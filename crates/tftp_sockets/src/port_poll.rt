//! The poll of a server's sockets, and what a wait reports.

ghost use Rattle.std.specs.Prelude.{◌≡◌, ◌≢◌, [], true, false, IfOk};
ghost use Rattle.tftp_sockets.specs.Trace.{polled};

use crate::event_ref::EventRef;
use crate::trace::Trace;
use mio::{Events, Poll};
use std::alloc::{AllocError, Global};

/// The number of polls before a wait: some 25 microseconds.
pub(crate) const POLLS: u32 = 64;

/// A poll of non-blocking sockets.
#[derive(Drop)]
pub struct PortPoll {
    pub(crate) poll: Poll,
}

/// The ports that a wait reports: datagrams may be there.
#[derive(Drop)]
pub struct Reports {
    pub(crate) events: Events,
    pub(crate) ports: Vec<u16>,
    /// Whether they are of a poll without a wait that is not noted yet.
    pub(crate) is_unnoted: bool,
    /// Whether a poll has reported that nobody reads standard output any more: it does so once.
    pub(crate) has_lost_reader: bool,
}

impl Reports {
    /// Room for so many ports a wait. Others are reported by the next.
    pub fn new(alloc: Global, most: usize) -> Result<Reports, AllocError>
        ensures { IfOk result (λ reports. reports.ports.items ≡ []) }
    {
        Ok(Reports {
            events: Events::with_capacity(alloc, most)?,
            ports: Vec::with_capacity(alloc, most)?,
            is_unnoted: false,
            has_lost_reader: false,
        })
    }

    /// The ports that the newest wait reported.
    pub fn ports(&self) -> &[u16]
        ensures { result.now ≡ self.now.ports.items }
    {
        self.ports.as_slice()
    }

    /// Whether the newest wait reported a port.
    pub(crate) fn has_port(&self) -> bool
        ensures { result ≡ true → self.now.ports.items ≢ [] }
    {
        !self.ports.is_empty()
    }

    /// Whether a poll by now has reported that nobody reads standard output any more.
    pub(crate) fn has_lost_reader(&self) -> bool {
        self.has_lost_reader
    }

    /// Notes a poll that took no time and reported these ports, once.
    pub(crate) fn note_poll(&mut self, trace: &mut Trace)
        ensures noted { trace.new.events ≡ polled self.old.is_unnoted self.old.ports.items
            trace.old.events }
        ensures once { self.new ≡ record self.old { is_unnoted = false } }
    {
        if self.is_unnoted {
            trace.note(&EventRef::Slept(0));
            trace.note(&EventRef::Woke(self.ports()));
        }
        self.is_unnoted = false;
    }
}
