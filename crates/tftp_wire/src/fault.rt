//! The faults of bytes that are not a packet.

ghost use Rattle.std.specs.Prelude.{◌≡◌};
ghost use Rattle.tftp_wire.specs.Faults.{kind_name, kind_number, out_of_memory};

use std::alloc::AllocError;
use std::fmt;
use thiserror::Error;

/// A fault of a datagram, or out of memory.
#[derive(Clone, Copy, Debug, PartialEq, Eq, Error)]
pub enum PacketFaultKind {
    /// The datagram ends before its opcode or its number does.
    Short = 1,
    /// The opcode is not 1 to 6.
    Opcode = 2,
    /// A text has no zero byte after it.
    Unterminated = 3,
    /// The file name is empty.
    EmptyName = 4,
    /// The mode is neither `netascii` nor `octet`.
    Mode = 5,
    /// The datagram ends after an option's name.
    NoValue = 6,
    /// An option's name is empty.
    EmptyOption = 7,
    /// Bytes follow the packet.
    Trailing = 8,
    /// The datagram is longer than the maximum of its kind.
    TooLong = 9,
    /// A DATA has the block number 0.
    BlockZero = 10,
    /// An OACK holds no option.
    EmptyOack = 11,
    /// Out of memory; the bytes are not at fault.
    Memory = 12,
}

impl PacketFaultKind {
    /// The number of the kind, 1 to 12.
    pub fn number(self) -> u8
        ensures { result ≡ kind_number self }
    {
        self as u8
    }

    /// The name of the kind: the identifier of its variant.
    pub fn name(self) -> &'static str
        ensures { result.now ≡ kind_name self }
    {
        match self {
            PacketFaultKind::Short => "Short",
            PacketFaultKind::Opcode => "Opcode",
            PacketFaultKind::Unterminated => "Unterminated",
            PacketFaultKind::EmptyName => "EmptyName",
            PacketFaultKind::Mode => "Mode",
            PacketFaultKind::NoValue => "NoValue",
            PacketFaultKind::EmptyOption => "EmptyOption",
            PacketFaultKind::Trailing => "Trailing",
            PacketFaultKind::TooLong => "TooLong",
            PacketFaultKind::BlockZero => "BlockZero",
            PacketFaultKind::EmptyOack => "EmptyOack",
            PacketFaultKind::Memory => "Memory",
        }
    }
}

impl fmt::Display for PacketFaultKind {
    ghost use Rattle.std.specs.Prelude.{Some};
    ghost use Rattle.tftp_wire.specs.Faults.{kind_text};

    ghost output = { λ kind. Some (kind_text kind) };

    // One call for all kinds: a message on each variant would be a call of its own.
    fn fmt<W: fmt::Write>(&self, f: &mut fmt::Formatter<W>) -> fmt::Result {
        f.write_str(match self {
            PacketFaultKind::Short => "the datagram is too short",
            PacketFaultKind::Opcode => "the opcode is unknown",
            PacketFaultKind::Unterminated => "a text has no zero byte after it",
            PacketFaultKind::EmptyName => "the file name is empty",
            PacketFaultKind::Mode => "the mode is neither netascii nor octet",
            PacketFaultKind::NoValue => "an option has no value",
            PacketFaultKind::EmptyOption => "an option has no name",
            PacketFaultKind::Trailing => "bytes stand after the packet",
            PacketFaultKind::TooLong => "the datagram is too long",
            PacketFaultKind::BlockZero => "a DATA has the number 0",
            PacketFaultKind::EmptyOack => "an OACK holds no option",
            PacketFaultKind::Memory => "out of memory",
        })
    }
}

/// The first fault of a datagram, and its offset.
#[derive(Clone, Copy, Debug, PartialEq, Eq, Error)]
#[error("{kind}, at byte {at}")]
pub struct PacketFault {
    /// The kind of the fault.
    pub kind: PacketFaultKind,
    /// The offset in the datagram, in bytes from 0. It is 0 for `Memory`.
    pub at: usize,
}

impl From<AllocError> for PacketFault {
    ghost from_gives = { λ _ fault. fault ≡ out_of_memory };

    fn from(_: AllocError) -> PacketFault {
        PacketFault {
            kind: PacketFaultKind::Memory,
            at: 0,
        }
    }
}
