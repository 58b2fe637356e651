//! How a receiver handles a packet from its peer, whether it is a client's or the server's.

ghost use Rattle.std.specs.Prelude.{◌≡◌, nat_lt, length, option_map};
ghost use Rattle.tftp_wire.specs.Borrowed.{owned};
ghost use Rattle.tftp_ends.specs.End.{is_client};
ghost use Rattle.tftp_ends.specs.Fits.{FitsReceiver, IsReceivers};
ghost use Rattle.tftp_ends.specs.Next.{IsBy};
ghost use Rattle.tftp_ends.specs.Text.{is_readable};
ghost use Rattle.tftp_ends.specs.Receiver.{data_action, receiver_action};
ghost use Rattle.tftp_ends.specs.Receiver.{dally_response};

use crate::action::{Action, Response};
use crate::error_reply::ErrorReply;
use crate::outcome::Outcome;
use crate::phase::Terms;
use crate::sender::{illegal_action, peer_error};
use crate::side::Side;
use tftp_file::NetDecoder;
use tftp_wire::{Mode, PacketRef};

/// Whether a piece continues the text so far. A piece shorter than a block ends the text.
#[inline(always)]
fn is_readable(mode: Mode, decoder: NetDecoder, piece: &[u8], size: u16) -> bool
    ensures { result ≡ is_readable mode decoder piece.now (nat_lt (length piece.now) size) }
{
    match mode {
        Mode::Octet => true,
        Mode::Netascii => match decoder.after(piece) {
            Ok(after) => {
                if piece.len() >= usize::from(size) {
                    return true;
                }
                after.finish().is_ok()
            }
            Err(_) => false,
        },
    }
}

/// The newest block is acknowledged again, an older one is ignored, and none may be skipped. The next
/// block is stored, if it is a block of this transfer.
#[inline(always)]
pub(crate) fn data_action(
    mode: Mode,
    decoder: NetDecoder,
    terms: Terms,
    stored: u16,
    number: u16,
    bytes: &[u8],
) -> Action
    ensures action { result ≡ data_action mode decoder terms stored number bytes.now }
    ensures fits { FitsReceiver result }
    ensures agreed { IsBy terms result }
{
    if number == stored {
        return Action::Respond(Response::ResendReply);
    }
    if number < stored {
        return Action::Respond(Response::Ignore);
    }
    let size = usize::from(terms.size);
    if number - stored > 1 || bytes.len() > size {
        return illegal_action(terms);
    }
    if number == u16::MAX && bytes.len() == size {
        return Action::Respond(Response::Refuse {
            terms: Some(terms),
            reply: ErrorReply::FileTooLarge,
            outcome: Outcome::TooLarge,
        });
    }
    if !is_readable(mode, decoder, bytes, terms.size) {
        return Action::Respond(Response::Refuse {
            terms: Some(terms),
            reply: ErrorReply::NotNetascii,
            outcome: Outcome::NotNetascii,
        });
    }
    Action::Store { terms, number }
}

/// How a receiver that has stored `stored` blocks handles a packet.
#[inline(always)]
pub(crate) fn receiver_action(
    side: Side,
    mode: Mode,
    decoder: NetDecoder,
    terms: Terms,
    stored: u16,
    decoded: &Option<PacketRef<'_>>,
) -> Action
    ensures action { result
        ≡ receiver_action (is_client side) mode decoder terms stored (option_map owned
        decoded.now) }
    ensures fits { FitsReceiver result }
{
    match decoded {
        Some(PacketRef::Data { block, bytes }) => {
            data_action(mode, decoder, terms, stored, *block, bytes)
        }
        Some(PacketRef::Error { code, .. }) => peer_error(*code),
        Some(PacketRef::Oack(_)) if side.is_client() && terms.by_oack => {
            Action::Respond(if stored == 0 {
                Response::ResendReply
            } else {
                Response::Ignore
            })
        }
        _ => illegal_action(terms),
    }
}

/// How a dallying receiver handles a packet: the last block is acknowledged again.
pub(crate) fn dally_response(stored: u16, decoded: &Option<PacketRef<'_>>) -> Response
    ensures response { result ≡ dally_response stored (option_map owned decoded.now) }
    ensures fits { IsReceivers result }
{
    match decoded {
        Some(PacketRef::Data { block, .. }) if *block == stored => Response::ResendReply,
        _ => Response::Ignore,
    }
}
