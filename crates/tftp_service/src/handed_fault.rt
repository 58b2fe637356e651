//! Why standard input is no request port.

ghost use Rattle.std.specs.Prelude.{◌≡◌};
ghost use Rattle.std.specs.IoError.{raw_os_error};
ghost use Rattle.tftp_service.specs.HandedFault.{fault_of, fault_of_number};

use std::{fmt, io};
use tftp_lines::{Reason, reason_of};

/// Why standard input is no bound UDP socket over IPv4 that receives from every client.
#[derive(Clone, Copy)]
pub enum HandedFault {
    /// It is closed.
    Closed,
    /// It is a file, a terminal or a pipe.
    NotSocket,
    /// It is a socket of another family than IPv4 and IPv6.
    NotInternet,
    /// It is a socket over IPv6.
    Ipv6,
    /// It is the socket of a stream.
    Stream,
    /// It is connected: it receives from one peer alone.
    Connected,
    /// It is bound to no port.
    NoPort,
    /// The system refused a call.
    System(Reason),
}

impl HandedFault {
    /// The fault of a call on standard input that the system refused, or of an address that is none
    /// of the internet.
    pub(crate) fn of(error: &io::Error) -> HandedFault
        ensures { result ≡ fault_of (raw_os_error error.now) }
    {
        match error.raw_os_error() {
            Some(code) => fault_of_number(code.unsigned_abs(), reason_of(error)),
            None => HandedFault::NotInternet,
        }
    }
}

/// The fault of an error number of Linux, which has this reason.
fn fault_of_number(number: u32, reason: Reason) -> HandedFault
    ensures { result ≡ fault_of_number number reason }
{
    match number {
        9 => HandedFault::Closed,
        88 => HandedFault::NotSocket,
        _ => HandedFault::System(reason),
    }
}

impl fmt::Display for HandedFault {
    ghost use Rattle.std.specs.Prelude.{Some};
    ghost use Rattle.tftp_service.specs.HandedFault.{fault_text};

    ghost output = { λ fault. Some (fault_text fault) };

    fn fmt<W: fmt::Write>(&self, f: &mut fmt::Formatter<W>) -> fmt::Result {
        match *self {
            HandedFault::Closed => f.write_str("closed"),
            HandedFault::NotSocket => f.write_str("not a socket"),
            HandedFault::NotInternet => f.write_str("not a socket of the internet"),
            HandedFault::Ipv6 => f.write_str("a socket over IPv6"),
            HandedFault::Stream => f.write_str("a socket for streams"),
            HandedFault::Connected => f.write_str("a connected socket"),
            HandedFault::NoPort => f.write_str("a socket without a port"),
            HandedFault::System(reason) => write!(f, "{reason}"),
        }
    }
}
