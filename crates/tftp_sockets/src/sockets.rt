//! The sockets of a server and of a client. They receive and send by the calls of a device alone:
//! [`ServerUdp`] and [`ClientUdp`].
//!
//! [`ServerUdp`]: crate::ServerUdp
//! [`ClientUdp`]: crate::ClientUdp

ghost use Rattle.std.specs.Prelude.{◌≡◌};

use mio::net::UdpSocket as ReadySocket;
use std::net::UdpSocket;
use tftp_ends::Endpoint;

/// A non-blocking socket of a server.
#[derive(Drop)]
pub struct ServerSocket {
    /// The address that the socket is bound to.
    pub(crate) ip: [u8; 4],
    /// The port that the socket is bound to, as the system reports it.
    pub(crate) port: u16,
    /// Whether a poll was asked to report the port.
    pub(crate) is_registered: bool,
    pub(crate) udp: ReadySocket,
}

impl ServerSocket {
    /// The endpoint that the socket is bound to.
    pub fn endpoint(&self) -> Endpoint
        ensures { result ≡ record { ip = self.now.ip; port = self.now.port } }
    {
        Endpoint {
            ip: self.ip,
            port: self.port,
        }
    }

    /// The port that the socket is bound to.
    pub fn port(&self) -> u16
        ensures { result ≡ self.now.port }
    {
        self.port
    }
}

/// A blocking socket of a client. It is not connected, since any port of the server may answer the
/// request (RFC 1350, section 4).
#[derive(Drop)]
pub struct ClientSocket {
    /// The address that the socket is bound to.
    pub(crate) ip: [u8; 4],
    /// The port that the socket is bound to, as the system reports it.
    pub(crate) port: u16,
    pub(crate) udp: UdpSocket,
    /// The read timeout of the socket, in milliseconds.
    pub(crate) wait: u64,
}

impl ClientSocket {
    /// The port that the socket is bound to.
    pub fn port(&self) -> u16
        ensures { result ≡ self.now.port }
    {
        self.port
    }
}
