//! Which port a bound socket may have.

ghost use Rattle.std.specs.Prelude.{◌≡◌, ◌≢◌, IsTrue};

use tftp_ends::Endpoint;

/// Whether the system may report this port for a socket that was to be bound to the endpoint.
pub(crate) fn is_port_for(at: Endpoint, port: u16) -> bool
    ensures { IsTrue result → (at.port ≢ 0 → port ≡ at.port) × (port ≢ 0) }
{
    if port == 0 {
        return false;
    }
    at.port == 0 || port == at.port
}
