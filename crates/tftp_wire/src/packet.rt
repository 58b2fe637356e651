//! The six packets, owned and borrowed.
//!
//! A number has two bytes, the high byte first. A text has no zero byte, and a zero byte ends it.

use crate::bytes::Bytes;
use crate::mode::Mode;
use crate::options::{OptionsRef, RawOptions};

/// A read or write request (RFC 1350, section 5; options: RFC 2347, "Packet Formats").
///
/// ```text
///  2 bytes   text  1  text  1  text  1  text   1
/// +--------+------+-+------+-+------+-+-------+-+
/// | opcode | name |0| mode |0| name |0| value |0| ..
/// +--------+------+-+------+-+------+-+-------+-+
///                             \_ an option _/
/// ```
#[derive(Debug, Drop)]
pub struct Request {
    /// The file name, not empty.
    pub name: Bytes,
    /// The transfer mode.
    pub mode: Mode,
    /// The options, in the order in which they were sent.
    pub options: RawOptions,
}

/// A packet of TFTP (RFC 1350, section 5; RFC 2347, "Packet Formats").
#[derive(Debug, Drop)]
pub enum Packet {
    /// RRQ, opcode 1: requests a file (RFC 1350, section 5).
    ///
    /// ```text
    /// | 00 01 | name | 00 | mode | 00 | options .. |
    /// ```
    Read(Request),
    /// WRQ, opcode 2: requests to store a file (RFC 1350, section 5).
    ///
    /// ```text
    /// | 00 02 | name | 00 | mode | 00 | options .. |
    /// ```
    Write(Request),
    /// DATA, opcode 3: a block of the file (RFC 1350, section 5).
    ///
    /// ```text
    ///  2 bytes 2 bytes  0 to 65,464 bytes
    /// +-------+-------+--------------------+
    /// | 00 03 | block | bytes              |
    /// +-------+-------+--------------------+
    /// ```
    Data {
        /// The number of the block, from 1.
        block: u16,
        /// The bytes of the block; fewer than the block size if it is the last.
        bytes: Bytes,
    },
    /// ACK, opcode 4: acknowledges a block, or, with 0, a write request or an OACK (RFC 1350,
    /// section 5).
    ///
    /// ```text
    ///  2 bytes 2 bytes
    /// +-------+-------+
    /// | 00 04 | block |
    /// +-------+-------+
    /// ```
    Ack {
        /// The number of the block that is acknowledged.
        block: u16,
    },
    /// ERROR, opcode 5: ends the transfer (RFC 1350, section 5).
    ///
    /// ```text
    ///  2 bytes 2 bytes   text  1
    /// +-------+-------+------+----+
    /// | 00 05 | code  | text | 00 |
    /// +-------+-------+------+----+
    /// ```
    Error {
        /// The error code (RFC 1350, appendix; 8: RFC 2347).
        code: u16,
        /// The human-readable message, which may be empty.
        text: Bytes,
    },
    /// OACK, opcode 6: the options that the server agrees to, at least one (RFC 2347, "Packet
    /// Formats").
    ///
    /// ```text
    ///  2 bytes   text   1    text   1
    /// +-------+------+----+-------+----+
    /// | 00 06 | name | 00 | value | 00 | ..
    /// +-------+------+----+-------+----+
    /// ```
    Oack(RawOptions),
}

/// A request of a datagram, borrowed from it. Its layout is that of [`Request`].
#[derive(Debug, Drop)]
pub struct RequestRef<'a> {
    /// The file name, not empty.
    pub name: &'a [u8],
    /// The transfer mode.
    pub mode: Mode,
    /// The options, in the order in which they were sent.
    pub options: OptionsRef<'a>,
}

/// A packet that borrows its bytes from the datagram. The layouts are those of [`Packet`].
#[derive(Debug, Drop)]
pub enum PacketRef<'a> {
    /// RRQ: requests a file.
    Read(RequestRef<'a>),
    /// WRQ: requests to store a file.
    Write(RequestRef<'a>),
    /// DATA: a block of the file.
    Data {
        /// The number of the block, from 1.
        block: u16,
        /// The bytes of the block; fewer than the block size if it is the last.
        bytes: &'a [u8],
    },
    /// ACK: acknowledges a block, or, with 0, a write request or an OACK.
    Ack {
        /// The number of the block that is acknowledged.
        block: u16,
    },
    /// ERROR: ends the transfer.
    Error {
        /// The error code.
        code: u16,
        /// The human-readable message, which may be empty.
        text: &'a [u8],
    },
    /// OACK: the options that the server agrees to, at least one.
    Oack(OptionsRef<'a>),
}
