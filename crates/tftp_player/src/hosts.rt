//! The endpoints of the ends of a world.

ghost use Rattle.std.specs.Prelude.{◌≡◌};
ghost use Rattle.tftp_player.specs.Clients.{client_at, server_at};

use tftp_ends::Endpoint;
use tftp_rules::{CLIENT_IP, SERVER_IP};

/// The server's request port (RFC 1350, section 4).
pub(crate) const REQUEST_PORT: Endpoint = Endpoint {
    ip: SERVER_IP,
    port: 69,
};

/// The endpoint of a client's end at this port.
pub(crate) fn client_at(port: u16) -> Endpoint
    ensures { result ≡ client_at port }
{
    Endpoint {
        ip: CLIENT_IP,
        port,
    }
}

/// The endpoint of the server's end at this port.
pub(crate) fn server_at(port: u16) -> Endpoint
    ensures { result ≡ server_at port }
{
    Endpoint {
        ip: SERVER_IP,
        port,
    }
}
