//! What the request port decides for a datagram before it asks its store.

ghost use Rattle.std.specs.Prelude.{◌≡◌};
ghost use Rattle.tftp_negotiate.specs.Answer.{answer};
ghost use Rattle.tftp_negotiate.specs.Ranges.{IsBlockSize};
ghost use Rattle.tftp_server.specs.Port.{agreed_size, asks_store};

use std::marker::Model;
use tftp_ends::{Endpoint, ErrorReply};
use tftp_file::Path;
use tftp_negotiate::{Agreed, Kind, Limits, Refusal, accept_ref};
use tftp_wire::{Mode, OptionsRef};

/// The transfers that a request finds: what its port tests of them.
#[derive(Clone, Copy, Debug, PartialEq, Eq)]
pub struct Occupancy {
    /// How many transfers are held.
    pub count: usize,
    /// Whether the request repeats that of an open one.
    pub is_repeated: bool,
}

/// A datagram to the request port, and its sender.
#[derive(Clone, Copy)]
pub(crate) struct Incoming<'a> {
    pub(crate) from: Endpoint,
    pub(crate) bytes: &'a [u8],
}

/// A read whose file the store is to open.
#[derive(Drop)]
pub(crate) struct ReadRequest<'a> {
    pub(crate) path: Path,
    pub(crate) mode: Mode,
    /// Its options, which are answered when the file's length is known.
    pub(crate) options: OptionsRef<'a>,
}

/// A write for which the store is to begin a draft.
#[derive(Drop)]
pub(crate) struct WriteRequest {
    pub(crate) path: Path,
    pub(crate) mode: Mode,
    /// The answer to its options.
    pub(crate) agreed: Agreed,
}

/// What the request port does before it asks its store.
#[derive(Drop)]
pub(crate) enum PortAction<'a> {
    /// It ignores the datagram.
    Nothing,
    /// It sends an ERROR.
    Refuse(ErrorReply),
    /// It asks its store to open a file.
    Read(ReadRequest<'a>),
    /// It asks its store to begin a draft.
    Write(WriteRequest),
}

/// A datagram to the request port, and what the tests that ask no store decided for it: to ignore
/// it, to send an ERROR, or to ask the store.
///
/// [`Server::admit`] returns it, and [`Server::open`] carries it out. It depends on the state of
/// the server: make no other call that changes the server in between. The caller binds the port of
/// the transfer between the two.
///
/// [`Server::admit`]: crate::Server::admit
/// [`Server::open`]: crate::Server::open
#[derive(Drop)]
pub struct Admission<'a> {
    pub(crate) incoming: Incoming<'a>,
    pub(crate) action: PortAction<'a>,
}

impl<'a> Model for Admission<'a> {
    ghost use Rattle.tftp_server.specs.Request.{AdmissionState, ask_of};

    ghost Value = { AdmissionState };

    ghost view = { λ a. record {
      from = a.incoming.from;
      bytes = a.incoming.bytes.now;
      ask = ask_of a.action;
    } };
}

impl<'a> Admission<'a> {
    /// Whether the store is to be asked, so that a transfer may open. Otherwise none opens,
    /// whatever the identifier.
    pub fn may_open(&self) -> bool
        ensures { result ≡ asks_store self.now.ask }
    {
        match &self.action {
            PortAction::Nothing => false,
            PortAction::Refuse(_) => false,
            PortAction::Read(_) => true,
            PortAction::Write(_) => true,
        }
    }
}

impl<'a> ReadRequest<'a> {
    /// The answer to its options, for a file of this length.
    pub(crate) fn agree(&self, length: u64, limits: &Limits) -> Result<Agreed, Refusal>
        requires { IsBlockSize limits.now.max_block }
        ensures { result ≡ answer self.now.options Kind.Read self.now.mode length limits.now }
    {
        accept_ref(&self.options, Kind::Read, self.mode, length, limits)
    }

    /// The block size in bytes of a transfer that it opens, for a file of any length, unless its
    /// options are refused.
    pub(crate) fn block_size(&self, limits: &Limits) -> Option<u16>
        requires { IsBlockSize limits.now.max_block }
        ensures { result ≡ agreed_size (answer self.now.options Kind.Read self.now.mode 0
            limits.now) }
    {
        match self.agree(0, limits) {
            Ok(agreed) => Some(agreed.block_size()),
            Err(_) => None,
        }
    }
}
