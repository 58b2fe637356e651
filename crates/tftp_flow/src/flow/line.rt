//! A line of a capture: six fields between tabs, as tshark writes them.

use crate::flow::moment::Moment;
use hex::FromHexError;
use std::alloc::{AllocError, Global};
use std::fmt;
use std::net::{Ipv4Addr, SocketAddrV4};

/// What a line says of a datagram.
#[derive(Drop)]
pub(crate) struct Line {
    pub(crate) at: Moment,
    pub(crate) from: SocketAddrV4,
    pub(crate) to: SocketAddrV4,
    pub(crate) bytes: Vec<u8>,
}

/// Why a line of a capture is not read.
#[derive(Clone, Copy)]
pub enum LineFault {
    /// It has not six fields of text.
    Fields,
    /// The first field is no time in seconds.
    Time,
    /// An address is not an IPv4 address, or there are several.
    Address,
    /// A port is no number up to 65535.
    Port,
    /// The payload is no even count of hexadecimal digits.
    Payload,
}

impl fmt::Display for LineFault {
    fn fmt<W: fmt::Write>(&self, f: &mut fmt::Formatter<W>) -> fmt::Result {
        f.write_str(match self {
            LineFault::Fields => "not six fields: time, address, port, address, port, payload",
            LineFault::Time => "not a time in seconds",
            LineFault::Address => "not one IPv4 address each",
            LineFault::Port => "not one port each",
            LineFault::Payload => "not a payload in hexadecimal digits",
        })
    }
}

/// The six fields of a line.
#[derive(Clone, Copy)]
struct Fields<'a> {
    at: &'a str,
    from_ip: &'a str,
    from_port: &'a str,
    to_ip: &'a str,
    to_port: &'a str,
    digits: &'a str,
}

/// When a datagram was seen, and between which endpoints.
#[derive(Clone, Copy)]
struct Heading {
    at: Moment,
    from: SocketAddrV4,
    to: SocketAddrV4,
}

/// The datagram that a line spells, or why it is not read. It fails only when out of memory.
pub(crate) fn read_fields(
    alloc: Global,
    text: &[u8],
) -> Result<Result<Line, LineFault>, AllocError> {
    let Some(fields) = Fields::of(text) else {
        return Ok(Err(LineFault::Fields));
    };
    let Heading { at, from, to } = match heading_of(fields) {
        Ok(heading) => heading,
        Err(fault) => return Ok(Err(fault)),
    };
    match hex::decode(alloc, fields.digits) {
        Ok(bytes) => Ok(Ok(Line {
            at,
            from,
            to,
            bytes,
        })),
        Err(FromHexError::OutOfMemory) => Err(AllocError),
        Err(_) => Ok(Err(LineFault::Payload)),
    }
}

impl<'a> Fields<'a> {
    /// The fields of a line of text, if it has six.
    fn of(text: &'a [u8]) -> Option<Fields<'a>> {
        let Ok(text) = str::from_utf8(text) else {
            return None;
        };
        let mut six = [""; 6];
        let mut count = 0usize;
        for field in text.split('\t') {
            if count >= six.len() {
                return None;
            }
            six[count] = field;
            count += 1;
        }
        if count < six.len() {
            return None;
        }
        let [at, from_ip, from_port, to_ip, to_port, digits] = six;
        Some(Fields {
            at,
            from_ip,
            from_port,
            to_ip,
            to_port,
            digits,
        })
    }
}

fn heading_of(fields: Fields<'_>) -> Result<Heading, LineFault> {
    let Some(at) = Moment::parse(fields.at) else {
        return Err(LineFault::Time);
    };
    Ok(Heading {
        at,
        from: endpoint_of(fields.from_ip, fields.from_port)?,
        to: endpoint_of(fields.to_ip, fields.to_port)?,
    })
}

fn endpoint_of(ip: &str, port: &str) -> Result<SocketAddrV4, LineFault> {
    let Ok(ip) = ip.parse::<Ipv4Addr>() else {
        return Err(LineFault::Address);
    };
    let Ok(port) = port.parse::<u16>() else {
        return Err(LineFault::Port);
    };
    Ok(SocketAddrV4::new(ip, port))
}
