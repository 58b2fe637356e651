//! A network of two hosts, between which transfers run.

ghost use Rattle.std.specs.Prelude.{IsTrue, ◌≡◌, ◌↔◌};
ghost use Rattle.tftp_rules.specs.Hosts.{host_of, server_ip, client_ip};
ghost use Rattle.tftp_rules.specs.Machine.{Elsewhere, is_same_ip};

use tftp_ends::Endpoint;

/// The server's address.
pub const SERVER_IP: [u8; 4] = [10, 0, 0, 1];

/// The address of every client.
pub const CLIENT_IP: [u8; 4] = [10, 0, 0, 2];

/// Whether an endpoint is at neither host.
pub fn is_foreign(endpoint: &Endpoint) -> bool
    ensures { IsTrue result ↔ (host_of endpoint.now ≡ Elsewhere) }
{
    !is_server(endpoint) && !is_client(endpoint)
}

/// Whether an endpoint is at the server.
fn is_server(endpoint: &Endpoint) -> bool
    ensures { result ≡ is_same_ip endpoint.now.ip server_ip }
{
    endpoint.ip == SERVER_IP
}

/// Whether an endpoint is at the clients' host.
fn is_client(endpoint: &Endpoint) -> bool
    ensures { result ≡ is_same_ip endpoint.now.ip client_ip }
{
    endpoint.ip == CLIENT_IP
}
