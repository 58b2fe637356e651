//! How a client handles the first answer to its request.

ghost use Rattle.std.specs.Prelude.{◌≡◌, ◌<◌, ◌*◌, ◌↔◌, ℕ, IsTrue, option_map};
ghost use Rattle.tftp_wire.specs.Borrowed.{owned};
ghost use Rattle.tftp_negotiate.specs.Asked.{IsAskable};
ghost use Rattle.tftp_ends.specs.Fits.{FitsSender, FitsReceiver};
ghost use Rattle.tftp_ends.specs.Waiting.{default_terms, agreed_terms, no_answer, refusal_action};
ghost use Rattle.tftp_ends.specs.Waiting.{begin_action, reader_action, writer_action};

use crate::action::{Action, Response};
use crate::endpoint::Endpoint;
use crate::error_reply::ErrorReply;
use crate::outcome::Outcome;
use crate::phase::Terms;
use crate::receiver::receiver_action;
use crate::sender::peer_error;
use crate::side::Side;
use tftp_file::NetDecoder;
use tftp_negotiate::{Agreed, Asked, DEFAULT_BLOCK, Kind, Refusal, check_oack_ref};
use tftp_wire::{Mode, PacketRef};

/// Whether the blocks of a file of this length can be numbered in two bytes (RFC 1350, section 5).
pub(crate) fn can_be_numbered(length: u64, size: u16) -> bool
    ensures { IsTrue result ↔ (length < 65535 * size) }
{
    length < 65_535 * u64::from(size)
}

/// The terms after DATA 1 or ACK 0 as first answer.
pub(crate) fn default_terms(peer: Endpoint) -> Terms
    ensures { result ≡ default_terms peer }
{
    Terms {
        peer,
        size: DEFAULT_BLOCK,
        timeout: None,
        by_oack: false,
    }
}

/// The terms after an OACK of these options.
pub(crate) fn agreed_terms(peer: Endpoint, agreed: &Agreed) -> Terms
    ensures terms { result ≡ agreed_terms peer agreed.now }
    ensures positive { 0 < result.size }
{
    Terms {
        peer,
        size: agreed.block_size(),
        timeout: agreed.timeout(),
        by_oack: true,
    }
}

fn no_answer() -> Action
    ensures { result ≡ no_answer }
{
    Action::Respond(Response::Refuse {
        terms: None,
        reply: ErrorReply::IllegalOperation,
        outcome: Outcome::Illegal,
    })
}

fn refusal_action(refusal: Refusal) -> Action
    ensures action { result ≡ refusal_action refusal }
    ensures sender { (length : ℕ) → FitsSender length result }
    ensures receiver { FitsReceiver result }
{
    let (reply, outcome) = match refusal {
        Refusal::TooLarge => (ErrorReply::DiskFull, Outcome::TooLarge),
        refusal => (ErrorReply::OptionRefused, Outcome::Refused(refusal)),
    };
    Action::Respond(Response::Refuse {
        terms: None,
        reply,
        outcome,
    })
}

/// A client that writes sends DATA 1, if the file's blocks can be numbered.
fn begin_action(length: u64, terms: Terms) -> Action
    requires { 0 < terms.size }
    ensures action { result ≡ begin_action length terms }
    ensures fits { FitsSender length result }
{
    if can_be_numbered(length, terms.size) {
        Action::Send { terms, number: 1 }
    } else {
        Action::Respond(Response::Refuse {
            terms: None,
            reply: ErrorReply::FileTooLarge,
            outcome: Outcome::TooLarge,
        })
    }
}

/// How a client that reads handles a packet from the server's address.
pub(crate) fn reader_action(
    mode: Mode,
    asked: &Asked,
    limit: u64,
    from: Endpoint,
    decoded: &Option<PacketRef<'_>>,
) -> Action
    requires { IsAskable asked.now }
    ensures action { result ≡ reader_action mode asked.now limit from (option_map owned
        decoded.now) }
    ensures fits { FitsReceiver result }
{
    match decoded {
        Some(PacketRef::Data { block: 1, bytes }) if bytes.len() <= usize::from(DEFAULT_BLOCK) => {
            let decoder = NetDecoder::new();
            receiver_action(
                Side::ClientRead,
                mode,
                decoder,
                default_terms(from),
                0,
                decoded,
            )
        }
        Some(PacketRef::Oack(options)) => {
            match check_oack_ref(asked, Kind::Read, mode, options, limit) {
                Ok(agreed) => Action::Respond(Response::Accept {
                    terms: agreed_terms(from, &agreed),
                }),
                Err(refusal) => refusal_action(refusal),
            }
        }
        Some(PacketRef::Error { code, .. }) => peer_error(*code),
        _ => no_answer(),
    }
}

/// How a client that writes a file of this length handles a packet from the server's address.
pub(crate) fn writer_action(
    mode: Mode,
    asked: &Asked,
    limit: u64,
    length: u64,
    from: Endpoint,
    decoded: &Option<PacketRef<'_>>,
) -> Action
    requires { IsAskable asked.now }
    ensures action { result ≡ writer_action mode asked.now limit length from (option_map owned
        decoded.now) }
    ensures fits { FitsSender length result }
{
    match decoded {
        Some(PacketRef::Ack { block: 0 }) => begin_action(length, default_terms(from)),
        Some(PacketRef::Oack(options)) => {
            match check_oack_ref(asked, Kind::Write, mode, options, limit) {
                Ok(agreed) => begin_action(length, agreed_terms(from, &agreed)),
                Err(refusal) => refusal_action(refusal),
            }
        }
        Some(PacketRef::Error { code, .. }) => peer_error(*code),
        _ => no_answer(),
    }
}
