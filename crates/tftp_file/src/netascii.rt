//! Encodes and decodes netascii: a line end as CR LF, a CR as CR NUL (RFC 764).

ghost use Rattle.std.specs.Prelude.{◌≡◌, ◌≢◌, ◌≤◌, ◌+◌, ◌++◌, ◌↔◌, ◌∷◌, [], ℕ, List, length};
ghost use Rattle.std.specs.Prelude.{option_to_list, vec_len, vec_capacity, IsOk, IfOk, IfErr};
ghost use Rattle.std.specs.Prelude.{IsErrOf, OnErr, OnOk, MatchOption};
ghost use Rattle.tftp_file.specs.Decoding.{net_fault_number, held_bytes, IsHeldBack, DecodesPiece};
ghost use Rattle.tftp_file.specs.Decoding.{Refuses, BeginsWireText, IsWrong};
ghost use Rattle.tftp_file.specs.Netascii.{netascii_text, wire_byte};
ghost use Rattle.tftp_file.specs.Lines.{EndsAtLine};
ghost use Rattle.tftp_file.specs.declared.netascii.NetFault.TheVariants.{LoneCr, EndsInCr, Memory};

use crate::lines::{CR, LF, NUL, line_byte_count, split_run};
use std::alloc::AllocError;
use std::marker::Model;
use tftp_wire::append_reserved;
use thiserror::Error;

/// A fault of bytes that are not netascii (RFC 764), or out of memory.
#[derive(Clone, Copy, Debug, PartialEq, Eq, Error)]
pub enum NetFault {
    /// A CR precedes a byte other than LF and NUL.
    #[error("a CR stands before a byte other than LF and NUL")]
    LoneCr = 1,
    /// An LF has no CR before it.
    #[error("an LF has no CR before it")]
    LoneLf = 2,
    /// The text ends in a CR.
    #[error("the text ends in a CR")]
    EndsInCr = 3,
    /// Out of memory; the text is not at fault.
    #[error("out of memory")]
    Memory = 4,
}

impl NetFault {
    /// The number of the fault, 1 to 4.
    pub fn number(self) -> u8
        ensures { result ≡ net_fault_number self }
    {
        self as u8
    }
}

impl From<AllocError> for NetFault {
    ghost use Rattle.std.specs.Prelude.{◌≡◌};
    ghost use Rattle.tftp_file.specs.declared.netascii.NetFault.TheVariants.{Memory};

    ghost from_gives = { λ _ fault. fault ≡ Memory };

    fn from(_error: AllocError) -> NetFault {
        NetFault::Memory
    }
}

/// Encodes host bytes as wire text, piece by piece. It keeps no state between pieces.
#[derive(Debug, Drop)]
pub struct NetEncoder {}

impl NetEncoder {
    /// An encoder at the beginning of a text.
    pub fn new() -> NetEncoder {
        NetEncoder {}
    }

    /// Appends the wire text of the piece to `out`. It fails only with `Memory`, and then `out` is
    /// unchanged.
    pub fn push(&mut self, piece: &[u8], out: &mut Vec<u8>) -> Result<(), NetFault>
        ensures ok { OnOk result (out.new.items ≡ out.old.items ++ netascii_text piece.now) }
        ensures memory { IfErr result (λ fault. fault ≡ Memory) }
        ensures err { OnErr result (out.new.items ≡ out.old.items) }
    {
        let Some(room) = piece.len().checked_add(line_byte_count(piece)) else {
            return Err(NetFault::Memory);
        };
        out.reserve(room)?;
        append_wire(piece, out);
        Ok(())
    }

    /// Ends the text. It never fails.
    pub fn finish(&self) -> Result<(), NetFault>
        ensures { IsOk result }
    {
        Ok(())
    }
}

/// The state of a decoder between two pieces.
#[derive(Clone, Copy, Debug)]
enum HeldText {
    /// Nothing: the text so far ends after a whole byte or pair.
    Nothing,
    /// The CR that begins a pair.
    CarriageReturn,
}

/// DecodesPiece wire text to host bytes, piece by piece, wherever the text is cut.
///
/// Its model is the wire bytes that it holds back: none, or the CR of a pair whose second byte is
/// in a later piece.
#[derive(Clone, Copy, Debug)]
pub struct NetDecoder {
    held: HeldText,
}

impl Model for NetDecoder {
    ghost use Rattle.std.specs.Prelude.{List, ℕ};

    ghost Value = { List ℕ };

    ghost use Rattle.tftp_file.specs.Decoding.{held_bytes, held_of, held_again};

    ghost view = { λ decoder. held_bytes decoder.held };

    ghost inverse = { λ bytes. record { held = held_of bytes } };

    ghost inverse_ok = { λ decoder _ i. record { held = held_again decoder.held i } };
}

impl NetDecoder {
    /// A decoder at the beginning of a text.
    pub fn new() -> NetDecoder
        ensures { result ≡ [] }
    {
        NetDecoder {
            held: HeldText::Nothing,
        }
    }

    /// The number of wire bytes that are held back, 0 or 1.
    pub fn held(&self) -> usize
        ensures count { result ≡ length self.now }
        ensures held { IsHeldBack self.now }
    {
        match self.held {
            HeldText::Nothing => 0,
            HeldText::CarriageReturn => 1,
        }
    }

    /// Appends to `out` the host bytes that the piece completes.
    ///
    /// It fails at the first wrong byte: `LoneCr` if a byte other than LF and NUL follows a CR,
    /// `LoneLf` if an LF has no CR before it (RFC 764). It fails with `Memory` only if no byte is
    /// wrong. After a fault the decoder and `out` are unchanged.
    pub fn push(&mut self, piece: &[u8], out: &mut Vec<u8>) -> Result<(), NetFault>
        ensures ok { OnOk result ((bytes : List ℕ) × DecodesPiece self.old piece.now bytes self.new
            × (out.new.items ≡ out.old.items ++ bytes)) }
        ensures refused { IfErr result (λ fault. Refuses (self.old ++ piece.now) fault) }
        ensures err { OnErr result ((self.new ≡ self.old) × (out.new.items ≡ out.old.items)) }
    {
        let before = self.held;
        if piece.is_empty() {
            return Ok(());
        }
        let (first, rest) = complete_pair(before, piece)?;
        let held = check(rest)?;
        out.reserve(piece.len())?;
        if let Some(byte) = first {
            out.push_reserved(byte);
        }
        append_host(rest, out);
        self.held = held;
        Ok(())
    }

    /// The decoder after the piece. Allocates no memory, so a piece can be checked before capacity
    /// for its bytes is reserved.
    ///
    /// It fails if a push fails for a wrong byte of the piece.
    pub fn after(&self, piece: &[u8]) -> Result<NetDecoder, NetFault>
        ensures ok { IfOk result (λ decoder. (bytes : List ℕ)
            × DecodesPiece self.now piece.now bytes decoder) }
        ensures refused { IfErr result (λ fault. IsWrong (self.now ++ piece.now) fault) }
    {
        if piece.is_empty() {
            return Ok(*self);
        }
        let (_, text) = complete_pair(self.held, piece)?;
        let held = check(text)?;
        Ok(NetDecoder { held })
    }

    /// Ends the text: `EndsInCr` exactly if a CR is held back.
    pub fn finish(&self) -> Result<(), NetFault>
        ensures ok { IsOk result ↔ (self.now ≡ []) }
        ensures ends_in_cr { IsErrOf result EndsInCr ↔ (self.now ≡ 13 ∷ []) }
    {
        match self.held {
            HeldText::Nothing => Ok(()),
            HeldText::CarriageReturn => Err(NetFault::EndsInCr),
        }
    }
}

fn append_wire(bytes: &[u8], out: &mut Vec<u8>)
    requires { vec_len out.old + length (netascii_text bytes.now) ≤ vec_capacity out.old }
    ensures { out.new.items ≡ out.old.items ++ netascii_text bytes.now }
{
    let mut left = bytes;
    while !left.is_empty() {
        let (run, rest) = split_run(left);
        append_reserved(out, run);
        left = match rest {
            [byte, remaining @ ..] => {
                out.push_reserved(CR);
                out.push_reserved(if *byte == LF { LF } else { NUL });
                remaining
            }
            [] => rest,
        };
    }
}

/// The host byte of the pair of a CR and this second byte.
fn pair_byte(second: u8) -> Option<u8>
    ensures { MatchOption result ((second ≢ 10) × (second ≢ 0))
        (λ byte. wire_byte byte ≡ 13 ∷ second ∷ []) }
{
    match second {
        LF => Some(LF),
        NUL => Some(CR),
        _ => None,
    }
}

/// The host byte of the pair of a held CR and the piece's first byte, if a CR is held, and the rest
/// of the piece.
#[tactic(auto, using(crate::proofs::DecodingLemmas::wrong_pair))]
fn complete_pair(held: HeldText, piece: &[u8]) -> Result<(Option<u8>, &[u8]), NetFault>
    requires { 1 ≤ length piece.now }
    ensures ok { IfOk result (λ parts. held_bytes held ++ piece.now
        ≡ netascii_text (option_to_list parts.0) ++ parts.1.now) }
    ensures room { IfOk result (λ parts. length (option_to_list parts.0) + length parts.1.now
        ≤ length piece.now) }
    ensures wrong { IfErr result (λ fault. IsWrong (held_bytes held ++ piece.now) fault) }
{
    match (held, piece) {
        (HeldText::CarriageReturn, [second, rest @ ..]) => match pair_byte(*second) {
            Some(byte) => Ok((Some(byte), rest)),
            None => Err(NetFault::LoneCr),
        },
        _ => Ok((None, piece)),
    }
}

/// The host byte of the pair at the start, and the rest; `None` at the end of a text, where a CR
/// may be left.
#[tactic(auto, using(crate::proofs::DecodingLemmas::wrong_front))]
fn split_pair(text: &[u8]) -> Result<Option<(u8, &[u8])>, NetFault>
    requires { EndsAtLine text.now }
    ensures ok { IfOk result (λ pair. MatchOption pair (IsHeldBack text.now)
        (λ parts. (text.now ≡ wire_byte parts.0 ++ parts.1.now)
        × (length parts.1.now + 2 ≤ length text.now))) }
    ensures wrong { IfErr result (λ fault. IsWrong text.now fault) }
{
    if let [LF, ..] = text {
        return Err(NetFault::LoneLf);
    }
    let [_, second, rest @ ..] = text else {
        return Ok(None);
    };
    match pair_byte(*second) {
        Some(byte) => Ok(Some((byte, rest))),
        None => Err(NetFault::LoneCr),
    }
}

/// The state at the end of a text that begins a wire text, or else its first fault.
fn check(text: &[u8]) -> Result<HeldText, NetFault>
    ensures ok { IfOk result (λ held. (bytes : List ℕ)
        × DecodesPiece [] text.now bytes (held_bytes held)) }
    ensures wrong { IfErr result (λ fault. IsWrong text.now fault) }
{
    let mut left = text;
    loop {
        let (_, rest) = split_run(left);
        match split_pair(rest)? {
            Some((_, remaining)) => left = remaining,
            None if rest.is_empty() => return Ok(HeldText::Nothing),
            None => return Ok(HeldText::CarriageReturn),
        }
    }
}

/// Appends the host bytes of a text that begins a wire text.
fn append_host(text: &[u8], out: &mut Vec<u8>)
    requires begins { BeginsWireText text.now }
    requires room { vec_len out.old + length text.now ≤ vec_capacity out.old }
    ensures { (bytes : List ℕ) × (after : List ℕ) × DecodesPiece [] text.now bytes after
        × (out.new.items ≡ out.old.items ++ bytes) }
{
    let mut left = text;
    loop {
        let (run, rest) = split_run(left);
        append_reserved(out, run);
        let Ok(Some((byte, remaining))) = split_pair(rest) else {
            return;
        };
        out.push_reserved(byte);
        left = remaining;
    }
}
