//! How a sender handles a packet from its peer, whether it is a client's or the server's.

ghost use Rattle.std.specs.Prelude.{◌≡◌, ◌*◌, ◌<◌, true, option_map};
ghost use Rattle.tftp_wire.specs.Borrowed.{owned};
ghost use Rattle.tftp_wire.specs.Spelling.{Spells};
ghost use Rattle.tftp_wire.specs.declared.packet.Packet.TheVariants.{Ack};
ghost use Rattle.tftp_ends.specs.End.{is_client};
ghost use Rattle.tftp_ends.specs.Fits.{FitsSender};
ghost use Rattle.tftp_ends.specs.Next.{IsBy};
ghost use Rattle.tftp_ends.specs.Sender.{illegal_action, peer_error, acked_action, sender_action};

use crate::action::{Action, Response};
use crate::error_reply::ErrorReply;
use crate::outcome::Outcome;
use crate::phase::Terms;
use crate::side::Side;
use tftp_wire::PacketRef;

/// A packet that is not valid in this state closes the transfer.
pub(crate) fn illegal_action(terms: Terms) -> Action
    ensures { result ≡ illegal_action terms }
{
    Action::Respond(Response::Refuse {
        terms: Some(terms),
        reply: ErrorReply::IllegalOperation,
        outcome: Outcome::Illegal,
    })
}

/// An ERROR from the peer closes the transfer.
pub(crate) fn peer_error(code: u16) -> Action
    ensures { result ≡ peer_error code }
{
    Action::Respond(Response::Close {
        outcome: Outcome::PeerError(code),
    })
}

/// Whether a datagram is the ACK of this block (RFC 1350, section 5).
#[inline(always)]
pub(crate) fn acknowledges(bytes: &[u8], block: u16) -> bool
    ensures { result ≡ true → Spells (Ack block) bytes.now }
{
    match bytes {
        [0, 4, high, low] => u16::from_be_bytes([*high, *low]) == block,
        _ => false,
    }
}

/// An ACK of the newest block requests the next one, or ends the transfer. An older ACK is ignored:
/// to answer it by DATA would double every later datagram (RFC 1123, section 4.2.3.1).
#[inline(always)]
pub(crate) fn acked_action(length: u64, terms: Terms, number: u16, acked: u16) -> Action
    requires size { 0 < terms.size }
    requires fits { length < 65535 * terms.size }
    ensures action { result ≡ acked_action length terms number acked }
    ensures fits { FitsSender length result }
    ensures agreed { IsBy terms result }
{
    if acked > number {
        return illegal_action(terms);
    }
    if acked < number {
        return Action::Respond(Response::Ignore);
    }
    if u64::from(number) < length / u64::from(terms.size) + 1 {
        Action::Send {
            terms,
            number: number + 1,
        }
    } else {
        Action::Respond(Response::Complete)
    }
}

/// How a sender of a file of this length handles a packet. `number` is that of its newest DATA.
pub(crate) fn sender_action(
    side: Side,
    length: u64,
    terms: Terms,
    number: u16,
    decoded: &Option<PacketRef<'_>>,
) -> Action
    requires size { 0 < terms.size }
    requires fits { length < 65535 * terms.size }
    ensures fits { FitsSender length result }
    ensures action { result
        ≡ sender_action (is_client side) length terms number (option_map owned decoded.now) }
{
    match decoded {
        Some(PacketRef::Ack { block }) => acked_action(length, terms, number, *block),
        Some(PacketRef::Error { code, .. }) => peer_error(*code),
        Some(PacketRef::Oack(_)) if side.is_client() && terms.by_oack => {
            Action::Respond(Response::Ignore)
        }
        _ => illegal_action(terms),
    }
}
