//! A server's answer to the options of a request.

ghost use Rattle.std.specs.Prelude.{◌≡◌, IfOk};
ghost use Rattle.tftp_wire.specs.Borrowed.{owned_option};
ghost use Rattle.tftp_negotiate.specs.Agreed.{IsAgreement};
ghost use Rattle.tftp_negotiate.specs.Answer.{answer, answered_option, answered_tsize};
ghost use Rattle.tftp_negotiate.specs.Ranges.{IsBlockSize};

use crate::agreed::Agreed;
use crate::known::{Kind, Known};
use crate::limits::{Limits, is_block_size, is_timeout};
use crate::name::Name;
use crate::negotiation::{negotiate, negotiate_slice};
use crate::number::number_of;
use crate::policy::Policy;
use crate::refusal::Refusal;
use tftp_wire::{Mode, OptionRef, OptionsRef, RawOption};

/// A server's answer to the options of a request, in their order (RFC 2347, "Negotiation
/// Protocol"). `length` is the length of the file to read, in bytes of wire text; a write ignores
/// it.
///
/// It fails with `Repeated` if a known option is repeated, whatever its values, and with
/// `TooLarge` if the file of a write is longer than the limits allow.
pub fn accept(
    options: &[RawOption],
    kind: Kind,
    mode: Mode,
    length: u64,
    limits: &Limits,
) -> Result<Agreed, Refusal>
    requires { IsBlockSize limits.now.max_block }
    ensures answers { result ≡ answer options.now kind mode length limits.now }
    ensures rule { IfOk result IsAgreement }
{
    negotiate_slice(
        options,
        &Policy::Server {
            kind,
            mode,
            length,
            limits: *limits,
        },
    )
}

/// As [`accept`], for the options of a datagram.
pub fn accept_ref(
    options: &OptionsRef<'_>,
    kind: Kind,
    mode: Mode,
    length: u64,
    limits: &Limits,
) -> Result<Agreed, Refusal>
    requires { IsBlockSize limits.now.max_block }
    ensures answers { result ≡ answer options.now kind mode length limits.now }
    ensures rule { IfOk result IsAgreement }
{
    negotiate(
        options.iter(),
        &Policy::Server {
            kind,
            mode,
            length,
            limits: *limits,
        },
    )
}

/// The answer to an option, or `None` if it is ignored.
#[tactic(auto, unfolding(crate::specs::Answer::answered_option))]
pub(crate) fn answered(
    kind: Kind,
    mode: Mode,
    length: u64,
    limits: &Limits,
    option: OptionRef<'_>,
) -> Result<Option<Known>, Refusal>
    ensures { result ≡ answered_option kind mode length limits.now (owned_option option.entry) }
{
    let Some(name) = Name::of(option.name) else {
        return Ok(None);
    };
    let Some(number) = number_of(option.value) else {
        return Ok(None);
    };
    match name {
        // The requested block size, but at most the server's maximum (RFC 2348).
        Name::Blksize if is_block_size(number) => {
            Ok(Some(Known::Blksize(limits.max_block.min(number as u16))))
        }
        Name::Blksize => Ok(None),
        // The requested seconds (RFC 2349).
        Name::Timeout if is_timeout(number) => Ok(Some(Known::Timeout(number as u8))),
        Name::Timeout => Ok(None),
        Name::Tsize => answered_tsize(mode, kind, length, limits.max_file, number),
    }
}

/// The length of the file for a read that requests 0, and the requested length for a write
/// (RFC 2349, "Transfer Size Option Specification").
fn answered_tsize(
    mode: Mode,
    kind: Kind,
    length: u64,
    max_file: u64,
    asked: u64,
) -> Result<Option<Known>, Refusal>
    ensures { result ≡ answered_tsize mode kind length max_file asked }
{
    match (mode, kind) {
        (Mode::Netascii, _) => Ok(None),
        (Mode::Octet, Kind::Read) if asked == 0 => Ok(Some(Known::Tsize(length))),
        (Mode::Octet, Kind::Read) => Ok(None),
        (Mode::Octet, Kind::Write) if asked <= max_file => Ok(Some(Known::Tsize(asked))),
        (Mode::Octet, Kind::Write) => Err(Refusal::TooLarge),
    }
}
