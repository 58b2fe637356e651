//! The four kinds of ends: client or server, sender or receiver.

ghost use Rattle.std.specs.Prelude.{◌≡◌};
ghost use Rattle.tftp_ends.specs.End.{is_sender, is_client};

/// The kind of an end.
#[derive(Clone, Copy, Debug, PartialEq, Eq)]
pub enum Side {
    /// The client of a read: it receives.
    ClientRead,
    /// The client of a write: it sends.
    ClientWrite,
    /// The server's end of a read: it sends.
    ServerRead,
    /// The server's end of a write: it receives.
    ServerWrite,
}

impl Side {
    /// Whether the end sends DATA.
    pub fn is_sender(self) -> bool
        ensures { result ≡ is_sender self }
    {
        matches!(self, Side::ClientWrite | Side::ServerRead)
    }

    /// Whether the end is a client's.
    pub fn is_client(self) -> bool
        ensures { result ≡ is_client self }
    {
        matches!(self, Side::ClientRead | Side::ClientWrite)
    }
}
