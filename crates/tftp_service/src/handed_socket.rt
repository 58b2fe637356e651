//! The socket that a process was started with as its standard input: what `descriptor.rt` finds, if it
//! is a request port.

ghost use Rattle.std.specs.Prelude.{◌≡◌, ◌≢◌, Err, IfErr, IfOk, OnOk};

use crate::handed_fault::HandedFault;
use crate::handed_input::{Input, of_descriptor};
use std::net::UdpSocket;
use tftp_ends::Endpoint;

/// A UDP socket over IPv4 that another program bound to a port.
#[derive(Drop)]
pub struct HandedSocket {
    pub(crate) udp: UdpSocket,
    /// Where it is bound, as the system reports it.
    pub(crate) endpoint: Endpoint,
}

impl HandedSocket {
    /// The socket that is standard input. Each reason why it is no request port is a fault of its
    /// own; a raw socket is not told apart.
    pub fn new(input: Input) -> Result<HandedSocket, HandedFault>
        ensures port { IfOk result (λ socket. socket.endpoint.port ≢ 0) }
        ensures fault { IfErr input.fd (λ fault. result ≡ Err fault) }
    {
        match input.fd {
            Ok(fd) => of_descriptor(fd),
            Err(fault) => Err(fault),
        }
    }

    /// Where the socket is bound.
    pub fn endpoint(&self) -> Endpoint
        ensures { result ≡ self.now.endpoint }
    {
        self.endpoint
    }
}

/// A socket that is not bound has port 0.
pub(crate) fn has_port(endpoint: Endpoint) -> Result<(), HandedFault>
    ensures { OnOk result (endpoint.port ≢ 0) }
{
    if endpoint.port == 0 {
        Err(HandedFault::NoPort)
    } else {
        Ok(())
    }
}
