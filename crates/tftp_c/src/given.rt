//! The options that C gives: the bytes of its struct, which says how many they are.

ghost use Rattle.std.specs.Prelude.{◌≡◌, ◌↔◌, ◌≤◌, IfOk, IfErr, IsTrue, OnOk};
ghost use Rattle.tftp_c.specs.Options.{byte_at, flag_at, half_at, options_in, word_at};
ghost use Rattle.tftp_c.specs.Options.{HasSize, SizeRefused};

use crate::event::{self, TftpOptions};

/// The size of `struct tftp_options` in its first version, in bytes.
const FIRST_SIZE: usize = 24;

/// Its size today.
pub(crate) const OPTIONS_SIZE: usize = 32;

/// The byte at an offset, or 0 if the struct ends before it.
fn byte_at(bytes: &[u8], at: usize) -> u8
    ensures { result ≡ byte_at bytes.now at }
{
    match bytes.get(at) {
        Some(byte) => *byte,
        None => 0,
    }
}

fn flag_at(bytes: &[u8], at: usize) -> bool
    ensures { result ≡ flag_at bytes.now at }
{
    byte_at(bytes, at) != 0
}

/// A number of two bytes, the lower one first.
fn half_at(bytes: &[u8], at: usize) -> u16
    requires { at ≤ 64 }
    ensures { result ≡ half_at bytes.now at }
{
    u16::from(byte_at(bytes, at)) + 256 * u16::from(byte_at(bytes, at + 1))
}

/// A number of eight bytes, the lowest one first.
fn word_at(bytes: &[u8], at: usize) -> u64
    requires { at ≤ 64 }
    ensures { result ≡ word_at bytes.now at }
{
    u64::from_le_bytes([
        byte_at(bytes, at),
        byte_at(bytes, at + 1),
        byte_at(bytes, at + 2),
        byte_at(bytes, at + 3),
        byte_at(bytes, at + 4),
        byte_at(bytes, at + 5),
        byte_at(bytes, at + 6),
        byte_at(bytes, at + 7),
    ])
}

/// Whether the caller has set the size, and knows these fields or the first of them.
fn has_size(bytes: &[u8]) -> bool
    ensures { IsTrue result ↔ HasSize bytes.now }
{
    let size = bytes.len();
    FIRST_SIZE <= size && size <= OPTIONS_SIZE && word_at(bytes, 0) == size as u64
}

/// The fields of the struct; one that it is too short for is 0.
fn fields(bytes: &[u8]) -> TftpOptions
    ensures { result ≡ options_in bytes.now }
{
    TftpOptions {
        max_file: word_at(bytes, 8),
        blksize: half_at(bytes, 16),
        timeout: byte_at(bytes, 18),
        retries: byte_at(bytes, 19),
        asks_tsize: flag_at(bytes, 20),
        is_netascii: flag_at(bytes, 21),
        backoff: flag_at(bytes, 24),
        max_timeout: byte_at(bytes, 25),
    }
}

/// The options, or the number of the fault of a struct that has no size, or a larger one.
pub(crate) fn options(bytes: &[u8]) -> Result<TftpOptions, u8>
    ensures ok { IfOk result (λ options. options ≡ options_in bytes.now) }
    ensures allowed { OnOk result (HasSize bytes.now) }
    ensures err { IfErr result (SizeRefused bytes.now) }
{
    if bytes.len() > OPTIONS_SIZE {
        return Err(event::LATER_STRUCT);
    }
    if !has_size(bytes) {
        return Err(event::BAD_OPTIONS);
    }
    Ok(fields(bytes))
}
