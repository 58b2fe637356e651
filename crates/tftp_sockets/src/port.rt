//! The ports of a server's transfers, and how long to wait for them.

ghost use Rattle.std.specs.Prelude.{◌≡◌, ◌==◌, ◌≤◌, ◌-◌, map, position, All};
ghost use Rattle.tftp_sockets.specs.Watch.{wait_of};
ghost use Rattle.tftp_sockets.specs.declared.watch.TheConstants.{LONGEST_WAIT};

use crate::watch::LONGEST_WAIT;

/// The port of a transfer, with its socket.
#[derive(Drop)]
pub struct Port<S> {
    /// The identifier of the transfer: the number of its UDP port.
    pub tid: u16,
    /// The deadline of the transfer's next timeout, in milliseconds.
    pub look_at: u64,
    /// Whether a datagram may have arrived that is not yet received.
    pub is_ready: bool,
    /// The socket that is bound to the port.
    pub socket: S,
}

/// How long to wait, in milliseconds: until the nearest deadline, at most a second.
pub fn wait_for<S>(now: u64, ports: &[Port<S>]) -> u64
    ensures value { result ≡ wait_of now (map (λ port. port.look_at) ports.now) }
    ensures longest { result ≤ LONGEST_WAIT }
    ensures nearest { All (λ port. result ≤ port.look_at - now) ports.now }
{
    match ports {
        [] => LONGEST_WAIT,
        [first, others @ ..] => first.look_at.saturating_sub(now).min(wait_for(now, others)),
    }
}

/// The index of the port with this identifier.
pub fn index_of<S>(tid: u16, ports: &[Port<S>]) -> Option<usize>
    ensures { result ≡ position (λ port. port.tid == tid) ports.now }
{
    ports.iter().position(|port| port.tid == tid)
}
