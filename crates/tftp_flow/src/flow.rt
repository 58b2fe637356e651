//! The transfers of a capture that are not over, and what belongs to none.

ghost use Rattle.std.specs.Prelude.{◌≡◌, ◌≤◌, true, false, max, IfOk, OnErr, vec_len};
ghost use Rattle.tftp_flow.specs.Flow.{Adds, IsSameLines, is_whole, lines_in};
ghost use Rattle.tftp_flow.specs.CapturedTransfer.{is_due, is_silent, micros_of};

mod candidate;
mod captured_transfer;
mod choice;
mod data_line;
mod index;
mod json;
mod line;
mod moment;
mod payload;
mod picture;
mod recent;
mod report;
mod seen;
mod transfer_datagram;

use crate::flow::candidate::{Candidate, Candidates};
use crate::flow::index::Index;
use crate::flow::line::read_fields;
use crate::flow::recent::{Recent, index_of};
pub use captured_transfer::{Aside, CapturedTransfer, Ending, Why};
pub use data_line::DataLine;
pub use json::Json;
pub use line::LineFault;
pub use moment::{Moment, Span};
pub use payload::Payload;
pub use report::{Ended, Opened};
pub use seen::{Seen, Spot};
use std::alloc::{AllocError, Global};
use std::net::SocketAddrV4;
pub use transfer_datagram::{Party, TransferDatagram, What};

/// The most transfers of one client's endpoint that a datagram is looked for in.
const MOST_OF_PORT: usize = 16;

/// The transfers of a capture that are not over.
#[derive(Drop)]
pub struct Flow {
    alloc: Global,
    /// The transfers, in the order of their requests.
    pub transfers: Vec<CapturedTransfer>,
    /// The datagrams that are of no transfer.
    pub strays: Vec<Stray>,
    /// The lines that are no datagrams.
    pub unread: Vec<Unread>,
    index: Index,
    recent: Recent,
    /// The port of requests; `None` if all that is read is TFTP.
    port: Option<u16>,
    /// The requests so far.
    begun: u64,
    /// The newest moment.
    newest: Moment,
    /// The second in which transfers that are over were looked for.
    looked: u64,
    /// Whether each datagram and each line was of a transfer, or ignored.
    whole: bool,
}

/// A datagram of no transfer.
#[derive(Drop)]
pub struct Stray {
    /// Where it stands.
    pub spot: Spot,
    /// Its source.
    pub from: SocketAddrV4,
    /// Its destination.
    pub to: SocketAddrV4,
    /// Its line, as `ACK 1` or `fault Opcode 0`.
    pub text: String,
}

/// A line of a capture that is not read.
#[derive(Clone, Copy)]
pub struct Unread {
    /// The line of the capture, counted from 1.
    pub line: u64,
    /// Why.
    pub fault: LineFault,
}

/// Where a datagram was put.
#[derive(Clone, Copy)]
pub enum Assigned {
    /// It begins a transfer, the last of all.
    Begun,
    /// It was given to the transfer of this index.
    Given(usize),
    /// It is of no transfer.
    Stray,
    /// It is a line that is not read.
    Unread,
    /// It is not of TFTP.
    Ignored,
}

impl Flow {
    /// A capture of which nothing was read. With a port a request is one to this port, and what is
    /// neither of a transfer nor from or to this port is ignored; with none all is TFTP.
    pub fn new(alloc: Global, port: Option<u16>) -> Flow
        ensures lines { lines_in result ≡ 0 }
        ensures whole { is_whole result ≡ true }
    {
        Flow {
            alloc,
            transfers: Vec::new(alloc),
            strays: Vec::new(alloc),
            unread: Vec::new(alloc),
            index: Index::new(alloc),
            recent: Recent::new(alloc),
            port,
            begun: 0,
            newest: Moment::of_micros(0),
            looked: 0,
            whole: true,
        }
    }

    /// Adds a line of a capture, without its line end, as [`Flow::add_seen`] does; or the line is
    /// not read.
    ///
    /// It fails only when out of memory, and the line is then in none of these.
    pub fn add_line(&mut self, number: u64, text: &[u8]) -> Result<Assigned, AllocError>
        ensures ok { IfOk result (λ assigned. Adds self.old self.new assigned) }
        ensures err { OnErr result (IsSameLines self.old self.new) }
    {
        match read_fields(self.alloc, text)? {
            Ok(line) => self.add_seen(&Seen {
                spot: Spot::Line(number),
                at: line.at,
                from: line.from,
                to: line.to,
                payload: Payload::new(line.bytes.as_slice(), line.bytes.len()),
            }),
            Err(fault) => self.add_unread(number, fault),
        }
    }

    /// Adds a datagram: it begins a transfer, or is given to one, or is of none, or is ignored.
    ///
    /// It fails only when out of memory, and the datagram is then in none of these.
    pub fn add_seen(&mut self, seen: &Seen<'_>) -> Result<Assigned, AllocError>
        ensures ok { IfOk result (λ assigned. Adds self.old self.new assigned) }
        ensures err { OnErr result (IsSameLines self.old self.new) }
        ensures newest { micros_of self.new.newest
            ≡ max (micros_of self.old.newest) (micros_of seen.now.at) }
    {
        let newest = self.newest.later(seen.at);
        let assigned = self.put(seen);
        self.newest = newest;
        assigned
    }

    /// Puts a datagram where it belongs.
    fn put(&mut self, seen: &Seen<'_>) -> Result<Assigned, AllocError>
        ensures ok { IfOk result (λ assigned. Adds self.old self.new assigned) }
        ensures err { OnErr result (IsSameLines self.old self.new) }
    {
        match self.candidate_of(seen) {
            Some(candidate) => self.give(candidate, seen),
            None if seen.payload.what.is_request() && self.is_at_port(seen.to) => self.begin(seen),
            None if self.is_at_port(seen.to) || self.is_at_port(seen.from) => self.add_stray(seen),
            None => Ok(Assigned::Ignored),
        }
    }

    /// Whether each datagram and each line so far was of a transfer, or ignored: none was a stray,
    /// or was not read, even if the lists of these were emptied since.
    pub fn is_whole(&self) -> bool
        ensures { result ≡ is_whole self.now }
    {
        self.whole
    }

    /// Whether a second has passed since transfers that are over were dropped.
    pub fn is_due(&self) -> bool
        ensures { result ≡ is_due self.now }
    {
        self.looked < self.newest.second()
    }

    /// Whether a transfer is over: it has been silent for its timeouts.
    pub fn is_over(&self, transfer: &CapturedTransfer) -> bool
        ensures { result ≡ is_silent self.now.newest transfer.now }
    {
        transfer.is_silent(self.newest)
    }

    /// Drops the transfers that are over.
    pub fn drop_over(&mut self)
        ensures fewer { vec_len self.new.transfers ≤ vec_len self.old.transfers }
        ensures strays { self.new.strays ≡ self.old.strays }
        ensures unread { self.new.unread ≡ self.old.unread }
        ensures whole { is_whole self.new ≡ is_whole self.old }
        ensures due { is_due self.new ≡ false }
    {
        let now = self.newest;
        self.looked = now.second();
        self.recent.forget_all();
        self.index.remove_silent(self.transfers.as_mut_slice(), now);
        self.transfers.retain(|transfer| !transfer.is_silent(now));
    }

    /// Whether an endpoint has the port of requests.
    fn is_at_port(&self, at: SocketAddrV4) -> bool {
        match self.port {
            Some(port) => at.port() == port,
            None => true,
        }
    }

    /// The transfer that a datagram belongs to.
    fn candidate_of(&mut self, seen: &Seen<'_>) -> Option<Candidate>
        ensures { IsSameLines self.old self.new }
    {
        let transfers = self.transfers.as_slice();
        let at_hand = self.recent.candidate_of(seen, &self.index, transfers);
        if at_hand.is_some() {
            return at_hand;
        }
        let index = &self.index;
        let mut candidates = Candidates::new();
        candidates.look(transfers, index.of_client(seen.from), MOST_OF_PORT, seen);
        candidates.look(transfers, index.of_client(seen.to), MOST_OF_PORT, seen);
        candidates.look(transfers, index.of_server(seen.from), 1, seen);
        candidates.look(transfers, index.of_server(seen.to), 1, seen);
        candidates.chosen()
    }

    /// Gives a datagram to a transfer.
    fn give(&mut self, candidate: Candidate, seen: &Seen<'_>) -> Result<Assigned, AllocError>
        ensures ok { IfOk result (λ assigned. Adds self.old self.new assigned) }
        ensures err { OnErr result (IsSameLines self.old self.new) }
    {
        let Candidate { index, part } = candidate;
        let Some(transfer) = self.transfers.get_mut(index) else {
            return self.add_stray(seen);
        };
        self.index.add_source(part, seen.from, transfer.number)?;
        transfer.add(seen, part)?;
        Ok(Assigned::Given(index))
    }

    fn begin(&mut self, seen: &Seen<'_>) -> Result<Assigned, AllocError>
        ensures ok { IfOk result (λ assigned. Adds self.old self.new assigned) }
        ensures err { OnErr result (IsSameLines self.old self.new) }
    {
        let number = self.begun.saturating_add(1);
        self.recent.open()?;
        self.recent.forget(seen.from);
        let before = self.index.add_client(seen.from, number)?;
        let transfer = CapturedTransfer::new(self.alloc, number, before, seen)?;
        self.transfers.push(transfer)?;
        self.link(before, number);
        self.begun = number;
        Ok(Assigned::Begun)
    }

    /// Notes which transfer comes after one from its client's endpoint.
    fn link(&mut self, before: Option<u64>, after: u64)
        ensures { IsSameLines self.old self.new }
    {
        let Some(before) = before else {
            return;
        };
        let Some(index) = index_of(self.transfers.as_slice(), before) else {
            return;
        };
        if let Some(transfer) = self.transfers.get_mut(index) {
            transfer.after = Some(after);
        }
    }

    fn add_stray(&mut self, seen: &Seen<'_>) -> Result<Assigned, AllocError>
        ensures ok { IfOk result (λ assigned. Adds self.old self.new assigned) }
        ensures err { OnErr result (IsSameLines self.old self.new) }
    {
        let text = seen.payload.line(self.alloc)?;
        self.strays.push(Stray {
            spot: seen.spot,
            from: seen.from,
            to: seen.to,
            text,
        })?;
        self.whole = false;
        Ok(Assigned::Stray)
    }

    fn add_unread(&mut self, line: u64, fault: LineFault) -> Result<Assigned, AllocError>
        ensures ok { IfOk result (λ assigned. Adds self.old self.new assigned) }
        ensures err { OnErr result (IsSameLines self.old self.new) }
    {
        self.unread.push(Unread { line, fault })?;
        self.whole = false;
        Ok(Assigned::Unread)
    }
}
