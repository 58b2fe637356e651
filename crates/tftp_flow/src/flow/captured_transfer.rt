//! A transfer of a capture: its request, and the datagrams between its two transfer identifiers.

ghost use Rattle.std.specs.Prelude.{◌≡◌, ◌+◌, ◌-◌, IfOk, OnErr, OnOk, Some, is_some};
ghost use Rattle.tftp_flow.specs.Flow.{given_to};
ghost use Rattle.tftp_flow.specs.CapturedTransfer.{is_open, is_silent, reported};

use crate::flow::moment::{Moment, Span};
use crate::flow::payload::Payload;
use crate::flow::seen::{Seen, Spot, is_same_endpoint};
use crate::flow::transfer_datagram::{Party, TransferDatagram, What, newest_same};
use std::alloc::{AllocError, Global};
use std::fmt;
use std::net::SocketAddrV4;
use tftp_diagram::Count;

/// The block size where none is agreed (RFC 1350, section 2).
const DEFAULT_BLOCK: usize = 512;

/// The seconds of silence after which a transfer is over.
const SILENCE: u64 = 30;

/// How often an end that waits is taken to send again, each time after the agreed timeout.
const TIMEOUTS: u64 = 6;

/// The most datagrams in which a repeat is looked for.
const LOOK_BACK: usize = 1000;

/// A datagram of a transfer's ports that is not of the transfer.
#[derive(Drop)]
pub struct Aside {
    /// Where it stands.
    pub spot: Spot,
    /// When it was seen.
    pub at: Moment,
    /// Its source.
    pub from: SocketAddrV4,
    /// Its destination.
    pub to: SocketAddrV4,
    /// Its line, as `DATA 1 512`.
    pub text: String,
    /// Why it is not of the transfer.
    pub why: Why,
}

/// Why a datagram is not of the transfer whose port it has.
#[derive(Clone, Copy)]
pub enum Why {
    /// It comes from another port of the server's host than the first answer.
    SecondPort,
    /// It comes from a third endpoint.
    Stranger,
    /// It goes to a third endpoint.
    ToAnother,
}

impl fmt::Display for Why {
    fn fmt<W: fmt::Write>(&self, f: &mut fmt::Formatter<W>) -> fmt::Result {
        f.write_str(match self {
            Why::SecondPort => "an answer from a second port",
            Why::Stranger => "a stranger",
            Why::ToAnother => "to a stranger",
        })
    }
}

/// How a datagram belongs to a transfer.
#[derive(Clone, Copy)]
pub(crate) enum Part {
    /// It was sent by one end to the other.
    Own(Party),
    /// It is the first answer, whose source is the server's end.
    Answer,
    /// It has a port of the transfer, and is not of it.
    Beside(Why),
}

/// How a transfer ended.
#[derive(Drop)]
pub enum Ending {
    /// It did not end within the capture.
    Open,
    /// The last block was acknowledged.
    Complete,
    /// An ERROR, with its line, as `ERROR 1 (file not found)`.
    Error { by: Party, text: String },
}

/// A transfer of a capture.
#[derive(Drop)]
pub struct CapturedTransfer {
    pub(crate) alloc: Global,
    /// Its number, by the order of the requests, counted from 1.
    pub number: u64,
    /// The number of the last transfer before it from the client's endpoint.
    pub(crate) before: Option<u64>,
    /// The number of the first transfer after it from there.
    pub(crate) after: Option<u64>,
    /// The client's transfer identifier.
    pub client: SocketAddrV4,
    /// Where the request was sent.
    pub asked_at: SocketAddrV4,
    /// The server's transfer identifier: the source of its first answer.
    pub server: Option<SocketAddrV4>,
    /// The line of the request, as `RRQ boot.img octet blksize=1428`.
    pub request: String,
    request_bytes: Vec<u8>,
    is_read: bool,
    pub(crate) began: Moment,
    newest: Moment,
    silence: Span,
    /// The line of the first OACK.
    pub agreed: Option<String>,
    block_size: usize,
    /// The datagrams that were sent by one end to the other, in order.
    pub datagrams: Vec<TransferDatagram>,
    /// The datagrams that have a port of the transfer and are not of it.
    pub asides: Vec<Aside>,
    /// The number of its datagrams that were sent again.
    pub(crate) again: usize,
    /// The number of its datagrams of which the beginning alone was seen.
    pub(crate) cut: usize,
    newest_data: Option<u16>,
    newest_ack: Option<u16>,
    /// The last block, once a short one was seen.
    last_block: Option<u16>,
    /// The number of blocks, each counted once.
    pub blocks: u64,
    /// The bytes of these blocks.
    pub bytes: u64,
    /// How it ended.
    pub ending: Ending,
    /// How many datagrams it had when it was reported.
    told: Option<usize>,
}

impl CapturedTransfer {
    /// The transfer that a request begins; `before` is the last one from the client's endpoint.
    pub(crate) fn new(
        alloc: Global,
        number: u64,
        before: Option<u64>,
        seen: &Seen<'_>,
    ) -> Result<CapturedTransfer, AllocError>
        ensures { IfOk result (λ transfer. given_to transfer ≡ 1) }
    {
        let request = seen.payload.line(alloc)?;
        let request_bytes = Vec::from_slice(alloc, seen.payload.bytes)?;
        let mut transfer = CapturedTransfer {
            alloc,
            number,
            before,
            after: None,
            client: seen.from,
            asked_at: seen.to,
            server: None,
            request,
            request_bytes,
            is_read: seen.payload.what == What::Read,
            began: seen.at,
            newest: seen.at,
            silence: Span::of_seconds(SILENCE),
            agreed: None,
            block_size: DEFAULT_BLOCK,
            datagrams: Vec::new(alloc),
            asides: Vec::new(alloc),
            again: 0,
            cut: 0,
            newest_data: None,
            newest_ack: None,
            last_block: None,
            blocks: 0,
            bytes: 0,
            ending: Ending::Open,
            told: None,
        };
        match transfer.add_own(seen, Party::Client) {
            Ok(()) => Ok(transfer),
            Err(fault) => Err(fault),
        }
    }

    /// How a datagram belongs to it, if at all (RFC 1350, section 4): it is known by its two
    /// transfer identifiers, and the first answer to the client from the host that was asked has
    /// the server's. A request belongs to it only as a repeat of its own.
    pub(crate) fn part_of(&self, seen: &Seen<'_>) -> Option<Part> {
        if seen.payload.what.is_request() {
            return self.part_of_request(seen);
        }
        match self.server {
            Some(server) => self.part_of_bound(server, seen.from, seen.to),
            None => self.part_of_answer(seen.from, seen.to),
        }
    }

    fn part_of_request(&self, seen: &Seen<'_>) -> Option<Part> {
        let is_repeat = is_same_endpoint(seen.from, self.client)
            && is_same_endpoint(seen.to, self.asked_at)
            && seen.payload.bytes == self.request_bytes.as_slice();
        if is_repeat {
            Some(Part::Own(Party::Client))
        } else {
            None
        }
    }

    fn part_of_bound(
        &self,
        server: SocketAddrV4,
        from: SocketAddrV4,
        to: SocketAddrV4,
    ) -> Option<Part> {
        let is_from_server = is_same_endpoint(from, server);
        if is_same_endpoint(to, self.client) {
            return Some(if is_from_server {
                Part::Own(Party::Server)
            } else if from.ip() == server.ip() {
                Part::Beside(Why::SecondPort)
            } else {
                Part::Beside(Why::Stranger)
            });
        }
        let is_from_client = is_same_endpoint(from, self.client);
        if is_same_endpoint(to, server) {
            return Some(if is_from_client {
                Part::Own(Party::Client)
            } else {
                Part::Beside(Why::Stranger)
            });
        }
        if is_from_client || is_from_server {
            Some(Part::Beside(Why::ToAnother))
        } else {
            None
        }
    }

    fn part_of_answer(&self, from: SocketAddrV4, to: SocketAddrV4) -> Option<Part> {
        let is_to_client = is_same_endpoint(to, self.client);
        if is_to_client && from.ip() == self.asked_at.ip() {
            Some(Part::Answer)
        } else if is_to_client {
            Some(Part::Beside(Why::Stranger))
        } else if is_same_endpoint(from, self.client) {
            Some(Part::Beside(Why::ToAnother))
        } else {
            None
        }
    }

    /// Adds a datagram that belongs to it so.
    pub(crate) fn add(&mut self, seen: &Seen<'_>, part: Part) -> Result<(), AllocError>
        ensures ok { OnOk result (given_to self.new ≡ given_to self.old + 1) }
        ensures err { OnErr result (given_to self.new ≡ given_to self.old) }
    {
        match part {
            Part::Own(by) => self.add_own(seen, by),
            Part::Answer => self.add_own(seen, Party::Server),
            Part::Beside(why) => self.add_aside(seen, why),
        }
    }

    /// Adds a datagram that one end sent.
    fn add_own(&mut self, seen: &Seen<'_>, by: Party) -> Result<(), AllocError>
        ensures ok { OnOk result (given_to self.new ≡ given_to self.old + 1) }
        ensures err { OnErr result (given_to self.new ≡ given_to self.old) }
    {
        let what = seen.payload.what;
        let datagram = TransferDatagram {
            spot: seen.spot,
            at: seen.at,
            by,
            what,
            gap: self.gap_of(seen.at, what, by),
            is_cut: seen.payload.is_cut(),
        };
        self.learn_text(&seen.payload, by)?;
        self.datagrams.push(datagram)?;
        self.newest = self.newest.later(seen.at);
        if by == Party::Server && self.server.is_none() {
            self.server = Some(seen.from);
        }
        self.again = self
            .again
            .saturating_add(usize::from(datagram.gap.is_some()));
        self.cut = self.cut.saturating_add(usize::from(datagram.is_cut));
        self.learn(what, by, datagram.gap);
        Ok(())
    }

    /// Adds a datagram that has one of its ports and is not of it.
    fn add_aside(&mut self, seen: &Seen<'_>, why: Why) -> Result<(), AllocError>
        ensures ok { OnOk result (given_to self.new ≡ given_to self.old + 1) }
        ensures err { OnErr result (given_to self.new ≡ given_to self.old) }
    {
        let text = seen.payload.line(self.alloc)?;
        self.asides.push(Aside {
            spot: seen.spot,
            at: seen.at,
            from: seen.from,
            to: seen.to,
            text,
            why,
        })?;
        Ok(())
    }

    /// If the same end sent the same before: how long ago. What is ahead of all that it sent is
    /// new, since the numbers of blocks begin again after 65535.
    fn gap_of(&self, at: Moment, what: What, by: Party) -> Option<Span> {
        let is_new = match what {
            What::Data { block, .. } => is_ahead(self.newest_data, block),
            What::Ack { block } => is_ahead(self.newest_ack, block),
            _ => false,
        };
        if is_new {
            return None;
        }
        let all = self.datagrams.as_slice();
        let (_, newest) = all.split_at(all.len().saturating_sub(LOOK_BACK));
        match newest_same(newest, by, what) {
            Some((_, before)) => Some(at.since(before.at)),
            None => None,
        }
    }

    /// Keeps the texts of the options that were agreed on and of the ERROR.
    fn learn_text(&mut self, payload: &Payload<'_>, by: Party) -> Result<(), AllocError>
        ensures { given_to self.new ≡ given_to self.old }
    {
        match payload.what {
            What::Options if self.agreed.is_none() => {
                self.agreed = Some(payload.line(self.alloc)?);
                self.block_size = block_size_of(payload);
                self.silence = silence_of(payload);
            }
            What::Error { .. } if self.is_open() => {
                let text = payload.line(self.alloc)?;
                self.ending = Ending::Error { by, text };
            }
            _ => {}
        }
        Ok(())
    }

    /// Counts a block that was not sent before, and ends with the acknowledgement of the last one.
    fn learn(&mut self, what: What, by: Party, gap: Option<Span>)
        ensures { given_to self.new ≡ given_to self.old }
    {
        match what {
            What::Data { block, length } if by == self.sender() && gap.is_none() => {
                self.newest_data = Some(block);
                self.blocks = self.blocks.saturating_add(1);
                self.bytes = self.bytes.saturating_add(length as u64);
                if length < self.block_size {
                    self.last_block = Some(block);
                }
            }
            What::Ack { block } if by != self.sender() && gap.is_none() => {
                self.newest_ack = Some(block);
                if self.last_block == Some(block) && self.is_open() {
                    self.ending = Ending::Complete;
                }
            }
            _ => {}
        }
    }

    /// The end that sends the file.
    pub(crate) fn sender(&self) -> Party {
        if self.is_read {
            Party::Server
        } else {
            Party::Client
        }
    }

    /// The number of its blocks.
    pub(crate) fn block_count(&self) -> Count {
        Count {
            number: self.blocks,
            name: "block",
        }
    }

    /// The number of the bytes of its blocks.
    pub(crate) fn byte_count(&self) -> Count {
        Count {
            number: self.bytes,
            name: "byte",
        }
    }

    /// The block size that was agreed on.
    pub(crate) fn block_size(&self) -> Count {
        Count {
            number: self.block_size as u64,
            name: "byte",
        }
    }

    /// Whether it did not end.
    pub fn is_open(&self) -> bool
        ensures { result ≡ is_open self.now.ending }
    {
        matches!(self.ending, Ending::Open)
    }

    /// Notes that it is reported.
    pub fn tell(&mut self)
        ensures datagrams { given_to self.new ≡ given_to self.old }
        ensures told { self.new.told ≡ Some (given_to self.old) }
    {
        self.told = Some(self.len());
    }

    /// Whether it was reported.
    pub fn is_told(&self) -> bool
        ensures { result ≡ is_some self.now.told }
    {
        self.told.is_some()
    }

    /// The datagrams since it was reported.
    pub fn untold(&self) -> usize
        ensures { result ≡ given_to self.now - reported self.now.told }
    {
        self.len().saturating_sub(self.told.unwrap_or(0))
    }

    /// The datagrams of it and beside it.
    pub(crate) fn len(&self) -> usize
        ensures { result ≡ given_to self.now }
    {
        self.datagrams.len().saturating_add(self.asides.len())
    }

    /// Whether it is over at a moment: it was silent for its timeouts.
    pub(crate) fn is_silent(&self, at: Moment) -> bool
        ensures { result ≡ is_silent at self.now }
    {
        at.since(self.newest).exceeds(self.silence)
    }

    /// How long after its request its last datagram was seen.
    pub(crate) fn lasted(&self) -> Span {
        match self.datagrams.last() {
            Some(last) => self.time_of(last.at),
            None => self.time_of(self.began),
        }
    }

    /// How long after its request a moment is.
    pub(crate) fn time_of(&self, at: Moment) -> Span {
        at.since(self.began)
    }
}

/// Whether a block follows the newest, by at most half of all numbers, which begin again after
/// 65535.
fn is_ahead(newest: Option<u16>, block: u16) -> bool {
    match newest {
        None => true,
        Some(newest) => (1..=0x7fff).contains(&block.wrapping_sub(newest)),
    }
}

/// The block size that an OACK agrees on (RFC 2348), or the default.
fn block_size_of(payload: &Payload<'_>) -> usize {
    match stated(payload, b"blksize") {
        Some(size) => size as usize,
        None => DEFAULT_BLOCK,
    }
}

/// The silence after which a transfer is over that agrees on a timeout (RFC 2349).
fn silence_of(payload: &Payload<'_>) -> Span {
    let timeout = stated(payload, b"timeout").unwrap_or(0);
    Span::of_seconds(timeout.saturating_mul(TIMEOUTS).max(SILENCE))
}

/// The number that an OACK states for an option.
fn stated(payload: &Payload<'_>, name: &[u8]) -> Option<u64> {
    for option in payload.agreed()?.iter() {
        if option.name.eq_ignore_ascii_case(name) {
            return number_of(option.value);
        }
    }
    None
}

/// The number that a value spells, if it has 32 bits.
fn number_of(value: &[u8]) -> Option<u64> {
    let Ok(text) = str::from_utf8(value) else {
        return None;
    };
    match text.parse::<u32>() {
        Ok(number) => Some(u64::from(number)),
        Err(_) => None,
    }
}
