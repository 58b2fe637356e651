//! Encodes host bytes as a given number of wire bytes, even if that splits a pair.

ghost use Rattle.std.specs.Prelude.{◌≡◌, ◌+◌, ◌≤◌, ◌++◌, ◌∷◌, length, drop, min, option_to_list};
ghost use Rattle.std.specs.Prelude.{Some, vec_len, vec_capacity, IfNone, []};
ghost use Rattle.tftp_file.specs.Netascii.{wire_byte};
ghost use Rattle.tftp_file.specs.Encoding.{netascii_left};
ghost use Rattle.tftp_file.specs.Source.{Moved};

use crate::lines::{CR, LF, NUL};
use tftp_wire::Mode;

/// The encoding of a source, with the byte of a split pair that it holds back.
#[derive(Clone, Copy, Debug)]
pub enum Encoding {
    /// Each byte is sent unchanged.
    Octet,
    /// Netascii, with the second byte of a pair whose first byte was appended.
    Netascii {
        /// That byte.
        held: Option<u8>,
    },
}

/// The result of encoding a piece in netascii.
#[derive(Drop)]
pub struct Encoded {
    /// The number of wire bytes appended.
    pub count: usize,
    /// The number of host bytes consumed.
    pub taken: usize,
    /// The second byte of a pair that was split.
    pub held: Option<u8>,
}

impl From<Mode> for Encoding {
    ghost use Rattle.std.specs.Prelude.{◌≡◌};
    ghost use Rattle.tftp_file.specs.Encoding.{encoding_of};

    ghost from_gives = { λ mode encoding. encoding ≡ encoding_of mode };

    fn from(mode: Mode) -> Encoding {
        match mode {
            Mode::Octet => Encoding::Octet,
            Mode::Netascii => Encoding::Netascii { held: None },
        }
    }
}

fn wire_pair(byte: u8) -> (u8, Option<u8>)
    ensures { wire_byte byte ≡ result.0 ∷ option_to_list result.1 }
{
    match byte {
        LF => (CR, Some(LF)),
        CR => (CR, Some(NUL)),
        _ => (byte, None),
    }
}

fn next_wire_byte(bytes: &[u8], at: &mut usize, held: &mut Option<u8>) -> Option<u8>
    requires { at.old ≤ length bytes.now }
    ensures within { at.new ≤ length bytes.now }
    ensures moves { netascii_left held.old (drop at.old bytes.now)
        ≡ option_to_list result ++ netascii_left held.new (drop at.new bytes.now) }
    ensures end { IfNone result (netascii_left held.old (drop at.old bytes.now) ≡ []) }
{
    if let Some(byte) = held.take() {
        return Some(byte);
    }
    if *at == bytes.len() {
        return None;
    }
    let (first, second) = wire_pair(bytes[*at]);
    *held = second;
    *at += 1;
    Some(first)
}

/// Appends the next `want` wire bytes, or as many as there are, within the capacity of `out`.
pub fn encode(bytes: &[u8], held: Option<u8>, want: usize, out: &mut Vec<u8>) -> Encoded
    requires { vec_len out.old + min want (length (netascii_left held bytes.now))
        ≤ vec_capacity out.old }
    ensures within { result.taken ≤ length bytes.now }
    ensures moves { Moved (netascii_left held bytes.now)
        (Some (netascii_left result.held (drop result.taken bytes.now)))
        want out.old.items out.new.items result.count }
    ensures capacity { vec_capacity out.new ≡ vec_capacity out.old }
{
    let (mut count, mut taken, mut held) = (0, 0, held);
    while count < want {
        match next_wire_byte(bytes, &mut taken, &mut held) {
            Some(byte) => out.push_reserved(byte),
            None => break,
        }
        count += 1;
    }
    Encoded { count, taken, held }
}
