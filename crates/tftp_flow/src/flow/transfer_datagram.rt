//! A datagram of a transfer: who sent it, what it is, and whether it repeats an earlier one.

use crate::flow::data_line::DataLine;
use crate::flow::moment::{Moment, Span};
use crate::flow::seen::Spot;
use std::fmt;
use tftp_wire::{HEADER, PacketFault, PacketFaultKind, PacketRef, has_error_opcode};

/// One of the two ends of a transfer.
#[derive(Clone, Copy, PartialEq, Eq)]
pub enum Party {
    /// The end that sent the request.
    Client,
    /// The end that answers it.
    Server,
}

impl Party {
    /// The other end.
    pub(crate) fn other(self) -> Party {
        match self {
            Party::Client => Party::Server,
            Party::Server => Party::Client,
        }
    }

    /// Its name.
    pub(crate) fn name(self) -> &'static str {
        match self {
            Party::Client => "client",
            Party::Server => "server",
        }
    }
}

impl fmt::Display for Party {
    fn fmt<W: fmt::Write>(&self, f: &mut fmt::Formatter<W>) -> fmt::Result {
        f.write_str(self.name())
    }
}

/// What a datagram is, without its texts and bytes.
#[derive(Clone, Copy, PartialEq, Eq)]
pub enum What {
    /// RRQ.
    Read,
    /// WRQ.
    Write,
    /// DATA, with the length of its block in bytes.
    Data { block: u16, length: usize },
    /// ACK.
    Ack { block: u16 },
    /// ERROR, which ends a transfer even where it is malformed.
    Error { code: u16 },
    /// OACK.
    Options,
    /// No packet.
    Fault { kind: PacketFaultKind },
}

impl What {
    /// What a payload of this length is, of which these bytes were seen, which spell a packet or have
    /// a fault.
    pub(crate) fn of(
        packet: &Result<PacketRef<'_>, PacketFault>,
        bytes: &[u8],
        length: usize,
    ) -> What {
        match packet {
            Ok(packet) => What::of_packet(packet, length.saturating_sub(HEADER)),
            Err(_) if has_error_opcode(bytes) => What::Error {
                code: error_code(bytes),
            },
            // no block of RFC 1350 has the number 0, but many programs send it after 65535
            Err(fault) if fault.kind == PacketFaultKind::BlockZero => What::Data {
                block: 0,
                length: length.saturating_sub(HEADER),
            },
            Err(fault) => What::Fault { kind: fault.kind },
        }
    }

    /// Whether it asks for a transfer.
    pub(crate) fn is_request(self) -> bool {
        match self {
            What::Read | What::Write => true,
            _ => false,
        }
    }

    /// What a packet is; `length` is that of the block of a DATA.
    fn of_packet(packet: &PacketRef<'_>, length: usize) -> What {
        match packet {
            PacketRef::Read(_) => What::Read,
            PacketRef::Write(_) => What::Write,
            PacketRef::Data { block, bytes: _ } => What::Data {
                block: *block,
                length,
            },
            PacketRef::Ack { block } => What::Ack { block: *block },
            PacketRef::Error { code, text: _ } => What::Error { code: *code },
            PacketRef::Oack(_) => What::Options,
        }
    }
}

/// The code of a malformed ERROR; 0 where it is too short.
fn error_code(bytes: &[u8]) -> u16 {
    match bytes {
        [_, _, high, low, ..] => u16::from_be_bytes([*high, *low]),
        _ => 0,
    }
}

impl fmt::Display for What {
    fn fmt<W: fmt::Write>(&self, f: &mut fmt::Formatter<W>) -> fmt::Result {
        let (name, number) = match *self {
            What::Read => return f.write_str("RRQ"),
            What::Write => return f.write_str("WRQ"),
            What::Data { block, length } => return DataLine { block, length }.fmt(f),
            What::Ack { block } => ("ACK", block),
            What::Error { code } => ("ERROR", code),
            What::Options => return f.write_str("OACK"),
            What::Fault { kind } => {
                let name = kind.name();
                return write!(f, "fault {name}");
            }
        };
        write!(f, "{name} {number}")
    }
}

/// A datagram of a transfer.
#[derive(Clone, Copy)]
pub struct TransferDatagram {
    /// Where it stands.
    pub spot: Spot,
    /// When it was seen.
    pub at: Moment,
    /// Who sent it.
    pub by: Party,
    /// What it is.
    pub what: What,
    /// If it was sent before: how long ago.
    pub gap: Option<Span>,
    /// Whether only the beginning of its payload was seen.
    pub is_cut: bool,
}

/// Where it stands, what it is, and who sent it.
impl fmt::Display for TransferDatagram {
    fn fmt<W: fmt::Write>(&self, f: &mut fmt::Formatter<W>) -> fmt::Result {
        let (spot, by, what) = (self.spot, self.by, self.what);
        write!(f, "{spot}: {what} of the {by}")
    }
}

/// The newest of these datagrams that this end sent and that is the same, and its index.
pub(crate) fn newest_same(
    datagrams: &[TransferDatagram],
    by: Party,
    what: What,
) -> Option<(usize, TransferDatagram)> {
    for index in (0..datagrams.len()).rev() {
        let Some(datagram) = datagrams.get(index) else {
            return None;
        };
        if datagram.by == by && datagram.what == what {
            return Some((index, *datagram));
        }
    }
    None
}
