//! The log entry of a transfer.

ghost use Rattle.std.specs.Prelude.{◌≡◌, ◌||◌, ◌-◌, false};
ghost use Rattle.tftp_lines.specs.Hint.{hint_of};
ghost use Rattle.tftp_loop.specs.Hinted.{hint_in};
ghost use Rattle.tftp_loop.specs.Told.{data_length};

use crate::datagram::Datagram;
use crate::log::Log;
use crate::report::direction_asked;
use std::alloc::Global;
use std::cell::Cell;
use tftp_ends::{Endpoint, Outcome, Step};
use tftp_lines::{Hint, LogLine, Reason, RequestLine, Why};
use tftp_negotiate::stated_tsize;
use tftp_sockets::{Direction, OpenTransfer};
use tftp_wire::{HEADER, PacketRef, decode_ref, show_datagram};

/// The content of a transfer's log lines, and what is counted of it.
#[derive(Drop)]
pub(crate) struct LogEntry {
    pub(crate) log: Log,
    peer: Endpoint,
    direction: Direction,
    request: String,
    /// The line of the answer; empty without a log.
    answer: String,
    /// The length of the file in bytes, if the answer stated it.
    length: Option<u64>,
    /// The reading of the clock at the opening, in milliseconds.
    opened_at: u64,
    /// Whether a datagram made progress: the first one of the transfer has been answered so.
    has_progressed: bool,
    /// The number of DATA bytes sent or received, without repetitions.
    bytes: u64,
    /// The number of datagrams that were sent again.
    again: Cell<u64>,
    /// The line of the peer's ERROR, once it ended the transfer by one.
    error: String,
    /// Why the system refused to send a datagram, until it is taken.
    unsent: Cell<Option<Reason>>,
}

impl LogEntry {
    /// The entry of a transfer that a request opened, with its answer, at this reading of the
    /// clock.
    pub(crate) fn new(log: Log, request: Datagram<'_>, answer: &[u8], opened_at: u64) -> LogEntry
        ensures log { result.log ≡ log }
        ensures first { result.has_progressed ≡ false }
    {
        LogEntry {
            log,
            peer: request.from,
            direction: direction_asked(request.bytes),
            request: shown(log.alloc, request.bytes),
            answer: answer_shown(log, answer),
            length: length_stated(answer),
            opened_at,
            has_progressed: false,
            bytes: data_length(answer),
            again: Cell::new(0),
            error: String::new(log.alloc),
            unsent: Cell::new(None),
        }
    }

    /// Adds a datagram that was received, its step and its answer.
    pub(crate) fn add(&mut self, received: &[u8], step: &Step, answer: &[u8])
        ensures log { self.new.log ≡ self.old.log }
        ensures progress { self.new.has_progressed
            ≡ (self.old.has_progressed || step.now.progress) }
    {
        if step.progress {
            self.has_progressed = true;
            self.count(answer);
            self.count(received);
        } else if step.to == Some(self.peer) {
            self.count_again(step);
        }
        if let Some(Outcome::PeerError(_)) = step.closed {
            // Empty when out of memory.
            let _ = show_datagram(received, &mut self.error);
        }
    }

    /// Adds the datagram of a step that sends the newest one again, unless the transfer closes by
    /// it.
    pub(crate) fn count_again(&self, step: &Step) {
        if step.to.is_some() && step.closed.is_none() {
            self.again.set(self.again.get().saturating_add(1));
        }
    }

    /// Adds the DATA bytes of a datagram.
    fn count(&mut self, datagram: &[u8])
        ensures { self.new ≡ record self.old { bytes = self.new.bytes } }
    {
        self.bytes = self.bytes.saturating_add(data_length(datagram));
    }

    /// Stores why the system refused to send a datagram, if it did.
    pub(crate) fn keep_unsent(&self, sent: Result<(), Reason>) {
        if let Err(reason) = sent {
            self.unsent.set(Some(reason));
        }
    }

    /// The request that opened the transfer.
    fn request_line(&self) -> RequestLine<'_> {
        RequestLine {
            peer: self.peer,
            line: self.request.as_str(),
        }
    }

    /// The line of a datagram that the system refused to send since the last call, if it did.
    pub(crate) fn take_unsent(&self, port: u16) -> Option<LogLine<'_>> {
        match self.unsent.replace(None) {
            Some(reason) => Some(LogLine::Unsent {
                port,
                request: self.request_line(),
                reason,
            }),
            None => None,
        }
    }

    /// The line of the opening.
    pub(crate) fn opened(&self, port: u16) -> LogLine<'_> {
        LogLine::Opened {
            port,
            request: self.request_line(),
            answer: self.answer.as_str(),
        }
    }

    /// The line of the close at this reading of the clock. `reason` is why the last file call was
    /// refused.
    pub(crate) fn closed(
        &self,
        port: u16,
        reading: u64,
        outcome: Outcome,
        reason: Option<Reason>,
    ) -> LogLine<'_>
        ensures { hint_in result
            ≡ hint_of self.now.log.is_anywhere self.now.has_progressed outcome }
    {
        LogLine::Closed {
            port,
            request: self.request_line(),
            answer: self.answer.as_str(),
            bytes: self.bytes,
            millis: reading.saturating_sub(self.opened_at),
            again: self.again.get(),
            outcome,
            why: self.why(outcome, reason),
            hint: Hint::of(self.log.is_anywhere, self.has_progressed, outcome),
        }
    }

    /// The number of DATA bytes sent or received, without repetitions.
    pub(crate) fn bytes(&self) -> u64
        ensures { result ≡ self.now.bytes }
    {
        self.bytes
    }

    /// The number of datagrams that were sent again.
    pub(crate) fn again(&self) -> u64 {
        self.again.get()
    }

    /// The open transfer at this port, at this reading of the clock.
    pub(crate) fn open_transfer(&self, port: u16, reading: u64) -> OpenTransfer<'_>
        // Which transfer it is.
        ensures port { result.port ≡ port }
        ensures peer { result.peer ≡ self.now.peer }
        ensures direction { result.direction ≡ self.now.direction }
        // How far it is.
        ensures bytes { result.bytes ≡ self.now.bytes }
        ensures length { result.length ≡ self.now.length }
        ensures millis { result.millis ≡ reading - self.now.opened_at }
    {
        OpenTransfer {
            port,
            peer: self.peer,
            direction: self.direction,
            request: self.request.as_str(),
            bytes: self.bytes,
            length: self.length,
            millis: reading.saturating_sub(self.opened_at),
            again: self.again.get(),
        }
    }

    /// Why the transfer closed, if more is known than its outcome.
    fn why(&self, outcome: Outcome, reason: Option<Reason>) -> Option<Why<'_>> {
        match outcome {
            Outcome::SourceFault | Outcome::StoreFault => Some(Why::Refused(reason?)),
            Outcome::PeerError(_) if !self.error.is_empty() => {
                Some(Why::Error(self.error.as_str()))
            }
            _ => None,
        }
    }
}

/// A datagram as the line of its packet, or as its first fault. Truncated when out of memory.
pub(crate) fn shown(alloc: Global, bytes: &[u8]) -> String {
    let mut line = String::new(alloc);
    let _ = show_datagram(bytes, &mut line);
    line
}

/// The line of an answer, if there is a log.
fn answer_shown(log: Log, answer: &[u8]) -> String {
    if log.is_written {
        shown(log.alloc, answer)
    } else {
        String::new(log.alloc)
    }
}

/// The length of the file in bytes that an answer states, if it does.
fn length_stated(answer: &[u8]) -> Option<u64> {
    match decode_ref(answer) {
        Ok(PacketRef::Oack(options)) => stated_tsize(&options),
        _ => None,
    }
}

/// The number of bytes behind the header of a datagram that begins as a DATA: of a packet, its DATA
/// bytes.
fn data_length(datagram: &[u8]) -> u64
    ensures { result ≡ data_length datagram.now }
{
    match datagram {
        [0, 3, ..] => (datagram.len() as u64).saturating_sub(HEADER as u64),
        _ => 0,
    }
}

/// Why a request was refused without asking the store, if more is known than its answer: an access
/// violation is of a name that is no path, a full disk of a file whose announced length is more than
/// the server takes.
pub(crate) fn reason_unasked(answer: &[u8]) -> Option<Reason> {
    match decode_ref(answer) {
        Ok(PacketRef::Error { code: 2, .. }) => Some(Reason::NameNotAllowed),
        Ok(PacketRef::Error { code: 3, .. }) => Some(Reason::LongerThanMaxFile),
        _ => None,
    }
}
