//! The parsers of single words of a script.

ghost use Rattle.std.specs.Prelude.{◌≡◌, ◌≤◌, ◌*◌, true, codes, IfOk, vec_len};
ghost use Rattle.tftp_negotiate.specs.Asked.{IsAskable};
ghost use Rattle.tftp_wire.specs.Modes.{mode_word};

use crate::script::flaw::{Flaw, Word};
use crate::script::line::LineFault;
use hex::FromHexError;
use std::alloc::Global;
use std::net::Ipv4Addr;
use std::str::FromStr;
use tftp_ends::Endpoint;
use tftp_file::{Path, PathFault, path_of};
use tftp_negotiate::Asked;
use tftp_wire::{Bytes, Mode};

/// The most bytes of a file.
const MAX_CONTENT: usize = 100_000_000;

/// A decimal number without leading zeros that fits its type.
pub(crate) fn number<N: FromStr>(word: &Word<'_>) -> Result<N, LineFault>
where
    N::Err: Drop,
    ensures { IfOk result (λ number. N.from_str_gives word.now.bytes.now (Ok number)) }
{
    match word.bytes {
        [b'0'] | [b'1'..=b'9', ..] => match word.text()?.parse() {
            Ok(number) => Ok(number),
            Err(_) => Err(word.fault(Flaw::Number)),
        },
        _ => Err(word.fault(Flaw::Number)),
    }
}

/// The path that a name spells.
pub(crate) fn path(alloc: Global, word: &Word<'_>) -> Result<Path, LineFault> {
    match path_of(alloc, word.bytes) {
        Ok(path) => Ok(path),
        Err(PathFault::Memory) => Err(LineFault::Memory),
        Err(_) => Err(word.fault(Flaw::Path)),
    }
}

/// The mode of a transfer.
pub(crate) fn mode(word: &Word<'_>) -> Result<Mode, LineFault>
    ensures { IfOk result (λ mode. word.now.bytes.now ≡ mode_word mode) }
{
    match word.bytes {
        b"octet" => Ok(Mode::Octet),
        b"netascii" => Ok(Mode::Netascii),
        _ => Err(word.fault(Flaw::Mode)),
    }
}

/// The options of a request: `blksize=N`, `timeout=N` and `tsize`, each at most once and in its
/// range; the value of `tsize` is this length, in bytes.
pub(crate) fn asked(options: &[Word<'_>], length: u64) -> Result<Asked, LineFault>
    ensures { IfOk result IsAskable }
{
    let mut asked = Asked::default();
    for word in options {
        let option = word.text()?;
        match option.split_once('=') {
            Some(("blksize", size)) if asked.blksize.is_none() => {
                asked.blksize = Some(number(&word.part(size.as_bytes()))?);
            }
            Some(("timeout", seconds)) if asked.timeout.is_none() => {
                asked.timeout = Some(number(&word.part(seconds.as_bytes()))?);
            }
            None if option == "tsize" && asked.tsize.is_none() => asked.tsize = Some(length),
            _ => return Err(word.fault(Flaw::Option)),
        }
    }
    if asked.is_askable() {
        Ok(asked)
    } else {
        Err(LineFault::Faulty(Flaw::Range, None))
    }
}

/// The bytes of a file: `-` for none, hexadecimal digits, or `HEX*K` for K times the same.
pub(crate) fn content(
    alloc: Global,
    word: &Word<'_>,
    left: &mut usize,
) -> Result<Vec<u8>, LineFault>
    ensures { IfOk result (λ bytes. vec_len bytes ≤ MAX_CONTENT) }
{
    let text = word.text()?;
    if text == "-" {
        return Ok(Vec::new(alloc));
    }
    match text.split_once('*') {
        Some((digits, count)) => {
            let count = number(&word.part(count.as_bytes()))?;
            repeated(alloc, &word.part(digits.as_bytes()), count, left)
        }
        None => repeated(alloc, word, 1, left),
    }
}

/// The bytes of the digits, this many times: at least one byte.
fn repeated(
    alloc: Global,
    digits: &Word<'_>,
    count: usize,
    left: &mut usize,
) -> Result<Vec<u8>, LineFault>
    ensures { IfOk result (λ bytes. vec_len bytes ≤ MAX_CONTENT) }
{
    let mut bytes = decoded(alloc, digits, Flaw::Content)?;
    let length = match length_of(digits, bytes.len(), count, left) {
        Ok(length) => length,
        Err(fault) => return Err(fault),
    };
    match bytes.as_slice() {
        // `resize` fills a file of one byte faster.
        [byte] => {
            let byte = *byte;
            bytes.resize(length, byte)?;
            Ok(bytes)
        }
        _ => Ok(bytes.as_slice().repeat(alloc, count)?),
    }
}

/// The length of these digits' bytes, this many times, in bytes. It is counted among the contents.
fn length_of(
    digits: &Word<'_>,
    once: usize,
    count: usize,
    left: &mut usize,
) -> Result<usize, LineFault>
    ensures length { IfOk result (λ length. length ≡ once * count) }
    ensures bound { IfOk result (λ length. length ≤ MAX_CONTENT) }
{
    let Some(length) = once.checked_mul(count) else {
        return Err(digits.fault(Flaw::Content));
    };
    if length == 0 || length > MAX_CONTENT {
        return Err(digits.fault(Flaw::Content));
    }
    let Some(rest) = left.checked_sub(length) else {
        return Err(digits.fault(Flaw::Total));
    };
    *left = rest;
    Ok(length)
}

/// The bytes of hexadecimal digits.
pub(crate) fn bytes(alloc: Global, word: &Word<'_>) -> Result<Bytes, LineFault> {
    Ok(Bytes::from(decoded(alloc, word, Flaw::Digits)?))
}

/// The bytes of hexadecimal digits; a word of anything else has this flaw.
fn decoded(alloc: Global, word: &Word<'_>, flaw: Flaw) -> Result<Vec<u8>, LineFault> {
    match hex::decode(alloc, word.bytes) {
        Ok(bytes) => Ok(bytes),
        Err(FromHexError::OutOfMemory) => Err(LineFault::Memory),
        Err(_) => Err(word.fault(flaw)),
    }
}

/// An IPv4 address and a UDP port, `A.B.C.D:PORT`.
pub(crate) fn endpoint(word: &Word<'_>) -> Result<Endpoint, LineFault> {
    let Some((address, port)) = word.text()?.split_once(':') else {
        return Err(word.fault(Flaw::Endpoint));
    };
    let Ok(address) = address.parse::<Ipv4Addr>() else {
        return Err(word.fault(Flaw::Endpoint));
    };
    Ok(Endpoint {
        ip: address.octets(),
        port: number(&word.part(port.as_bytes()))?,
    })
}

/// The word `yes`, which turns a setting on.
pub(crate) fn yes(word: &Word<'_>) -> Result<bool, LineFault>
    ensures { IfOk result (λ on. (on ≡ true) × (word.now.bytes.now ≡ codes "yes")) }
{
    match word.text()? {
        "yes" => Ok(true),
        _ => Err(word.fault(Flaw::Yes)),
    }
}
