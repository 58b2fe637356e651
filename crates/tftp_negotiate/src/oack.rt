//! A client's check of the options of an OACK.

ghost use Rattle.std.specs.Prelude.{◌≡◌, IfOk};
ghost use Rattle.tftp_wire.specs.Borrowed.{owned_option};
ghost use Rattle.tftp_negotiate.specs.Agreed.{IsAgreement};
ghost use Rattle.tftp_negotiate.specs.Agreement.{agreement, taken_option, taken_blksize};
ghost use Rattle.tftp_negotiate.specs.Agreement.{taken_timeout, taken_tsize, stated_tsize};
ghost use Rattle.tftp_negotiate.specs.Asked.{IsAskable};

use crate::agreed::Agreed;
use crate::asked::Asked;
use crate::known::{Kind, Known};
use crate::limits::MIN_BLOCK;
use crate::name::Name;
use crate::negotiation::{negotiate, negotiate_slice};
use crate::number::number_of;
use crate::policy::Policy;
use crate::refusal::Refusal;
use tftp_wire::{Mode, OptionRef, OptionsRef, RawOption};

/// The agreement of a client that requested this, on an OACK (RFC 2347, "Negotiation Protocol").
/// `limit` is the maximum length of a file to read, in bytes of wire text; a write ignores it.
///
/// It fails with `Repeated` if a known option is repeated, whatever its values. Otherwise the first
/// wrong option from the left decides: `NotAsked` if it was not requested or is unknown, `TooLarge`
/// if it is the length of a file above the limit, `BadValue` if it has any other value that the
/// request does not allow.
pub fn check_oack(
    asked: &Asked,
    kind: Kind,
    mode: Mode,
    options: &[RawOption],
    limit: u64,
) -> Result<Agreed, Refusal>
    requires { IsAskable asked.now }
    ensures agrees { result ≡ agreement asked.now kind mode options.now limit }
    ensures rule { IfOk result IsAgreement }
{
    negotiate_slice(
        options,
        &Policy::Client {
            asked: *asked,
            kind,
            mode,
            limit,
        },
    )
}

/// As [`check_oack`], for the options of a datagram.
pub fn check_oack_ref(
    asked: &Asked,
    kind: Kind,
    mode: Mode,
    options: &OptionsRef<'_>,
    limit: u64,
) -> Result<Agreed, Refusal>
    requires { IsAskable asked.now }
    ensures agrees { result ≡ agreement asked.now kind mode options.now limit }
    ensures rule { IfOk result IsAgreement }
{
    negotiate(
        options.iter(),
        &Policy::Client {
            asked: *asked,
            kind,
            mode,
            limit,
        },
    )
}

/// The length of the file that an OACK states, in bytes of wire text, if it states one
/// (RFC 2349, "Transfer Size Option Specification"). It does not check the OACK as
/// [`check_oack_ref`] does.
#[inline(never)]
pub fn stated_tsize(options: &OptionsRef<'_>) -> Option<u64>
    ensures { result ≡ stated_tsize options.now }
{
    for option in options {
        if Name::of(option.name) == Some(Name::Tsize) {
            return number_of(option.value);
        }
    }
    None
}

/// The agreed option, or its refusal.
#[tactic(auto, unfolding(crate::specs::Agreement::taken_option))]
pub(crate) fn taken(
    asked: &Asked,
    kind: Kind,
    mode: Mode,
    limit: u64,
    option: OptionRef<'_>,
) -> Result<Option<Known>, Refusal>
    ensures { result ≡ taken_option asked.now kind mode limit (owned_option option.entry) }
{
    let number = number_of(option.value);
    match Name::of(option.name) {
        None => Err(Refusal::NotAsked),
        Some(Name::Blksize) => taken_blksize(asked.blksize, number),
        Some(Name::Timeout) => taken_timeout(asked.timeout, number),
        Some(Name::Tsize) => taken_tsize(asked.tsize_in(mode), kind, limit, number),
    }
}

/// A block size from 8 to the requested one (RFC 2348).
fn taken_blksize(asked: Option<u16>, number: Option<u64>) -> Result<Option<Known>, Refusal>
    ensures { result ≡ taken_blksize asked number }
{
    let Some(most) = asked else {
        return Err(Refusal::NotAsked);
    };
    match number {
        Some(n) if u64::from(MIN_BLOCK) <= n && n <= u64::from(most) => {
            Ok(Some(Known::Blksize(n as u16)))
        }
        _ => Err(Refusal::BadValue),
    }
}

/// The requested seconds (RFC 2349).
fn taken_timeout(asked: Option<u8>, number: Option<u64>) -> Result<Option<Known>, Refusal>
    ensures { result ≡ taken_timeout asked number }
{
    let Some(seconds) = asked else {
        return Err(Refusal::NotAsked);
    };
    match number {
        Some(n) if n == u64::from(seconds) => Ok(Some(Known::Timeout(seconds))),
        _ => Err(Refusal::BadValue),
    }
}

/// The length of the file to read, up to the limit, or the requested length of the file to write
/// (RFC 2349, "Transfer Size Option Specification").
fn taken_tsize(
    asked: Option<u64>,
    kind: Kind,
    limit: u64,
    number: Option<u64>,
) -> Result<Option<Known>, Refusal>
    ensures { result ≡ taken_tsize asked kind limit number }
{
    let Some(length) = asked else {
        return Err(Refusal::NotAsked);
    };
    let Some(number) = number else {
        return Err(Refusal::BadValue);
    };
    match kind {
        Kind::Read if number <= limit => Ok(Some(Known::Tsize(number))),
        Kind::Read => Err(Refusal::TooLarge),
        Kind::Write if number == length => Ok(Some(Known::Tsize(number))),
        Kind::Write => Err(Refusal::BadValue),
    }
}
