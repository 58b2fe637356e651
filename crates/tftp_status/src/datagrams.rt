//! How many datagrams a server received and sent.

ghost use Rattle.std.specs.Prelude.{◌≡◌, []};
ghost use Rattle.tftp_status.specs.Datagrams.{datagrams_in, moved};

/// Which way a datagram went.
#[derive(Clone, Copy)]
pub enum Way {
    /// The server received it.
    Received,
    /// The server sent it, and the system took it.
    Sent,
}

/// The datagrams of a server, those of its requests among them. A count stays at 2^64 - 1 once it is
/// there.
#[derive(Clone, Copy)]
pub struct Datagrams {
    pub received: u64,
    /// Those that the system took.
    pub sent: u64,
}

impl Datagrams {
    /// No datagram.
    pub fn new() -> Datagrams
        ensures { result ≡ datagrams_in [] }
    {
        Datagrams {
            received: 0,
            sent: 0,
        }
    }

    /// Counts a datagram.
    pub fn add(&mut self, way: Way)
        ensures { self.new ≡ moved way self.old }
    {
        match way {
            Way::Received => self.received = self.received.saturating_add(1),
            Way::Sent => self.sent = self.sent.saturating_add(1),
        }
    }
}
