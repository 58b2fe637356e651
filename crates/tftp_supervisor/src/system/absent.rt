//! Servers whose addresses this host does not have yet.
//!
//! Nothing is noted here: this file has no trace, and starts no process.

use std::net::{SocketAddr, UdpSocket};
use std::os::fd::OwnedFd;
use std::time::Duration;

/// The time between two tries of an address, in seconds.
const PAUSE: u64 = 1;

/// The address that was tried last, and its socket, if it is there.
#[derive(Drop)]
pub(super) struct Tried {
    at: Option<SocketAddr>,
    socket: Option<OwnedFd>,
}

impl Tried {
    /// None was tried.
    pub(super) fn new() -> Tried {
        Tried {
            at: None,
            socket: None,
        }
    }

    /// The socket at this address, if it is there. An address is tried once, for all of its servers.
    pub(super) fn socket_at(&mut self, rt: &HostRuntime, at: SocketAddr) -> Option<&OwnedFd> {
        if self.at != Some(at) {
            self.at = Some(at);
            self.socket = match UdpSocket::bind(rt, at) {
                Ok(socket) => Some(OwnedFd::from(socket)),
                Err(_) => None,
            };
        }
        self.socket.as_ref()
    }
}

/// The longest wait for outputs: until the next try, if there are servers whose addresses are absent.
pub(super) fn limit(absent: usize) -> Option<Duration> {
    if absent == 0 {
        None
    } else {
        Some(Duration::from_secs(PAUSE))
    }
}
