//! A CR, a line feed and a letter, encoded to wire text and decoded in three pieces (RFC 764).

use crate::printed::{announce, append_bytes, has_returned, was_refused};
use anyhow::Result;
use std::alloc::Global;
use tftp_file::{NetDecoder, NetEncoder, NetFault};

/// The wire text, cut inside both of its pairs.
const PIECES: [&[u8]; 3] = [b"\r", b"\0\r", b"\nA"];

/// The bytes that are encoded.
const HOST: &[u8] = b"\r\nA";

/// Runs the scene.
pub(crate) fn play(rt: &HostRuntime) -> Result<()> {
    println!(rt; "netascii in pieces")?;
    encodes(rt)?;
    let mut decoder = NetDecoder::new();
    for piece in &PIECES {
        decodes(rt, &mut decoder, piece)?;
    }
    println!(rt; "finish: {:?}", decoder.finish())?;
    Ok(())
}

/// The bytes appended, and how many bytes are held back.
fn seen(alloc: Global, out: &[u8], held: usize) -> Result<String> {
    let mut text = String::new(alloc);
    append_bytes(&mut text, out)?;
    write!(text, " held {held}")?;
    Ok(text)
}

/// Reports that a call was out of memory, before which no byte was appended, and so many were held
/// back.
fn was_kept(rt: &HostRuntime, before: usize, out: &[u8], held: usize) -> Result<()> {
    let alloc = rt.alloc();
    let before = seen(alloc, b"", before)?;
    was_refused(rt, &before, &seen(alloc, out, held)?)
}

/// Prints what a call returned, the bytes appended, and how many are held back.
fn prints(rt: &HostRuntime, answer: Result<(), NetFault>, out: &[u8], held: usize) -> Result<()> {
    let text = seen(rt.alloc(), out, held)?;
    println!(rt; "{answer:?} {text}")?;
    Ok(())
}

/// Encodes the host bytes.
fn encodes(rt: &HostRuntime) -> Result<()> {
    let mut out = Vec::new(rt.alloc());
    let done = encodes_into(rt, &mut out);
    drop(out);
    done
}

fn encodes_into(rt: &HostRuntime, out: &mut Vec<u8>) -> Result<()> {
    let mut encoder = NetEncoder::new();
    announce(rt, "encode 0d0a41")?;
    let mut answer = encoder.push(HOST, out);
    has_returned(rt)?;
    if answer == Err(NetFault::Memory) {
        was_kept(rt, 0, out, 0)?;
        answer = encoder.push(HOST, out);
    }
    prints(rt, answer, out, 0)
}

/// Decodes a piece.
fn decodes(rt: &HostRuntime, decoder: &mut NetDecoder, piece: &[u8]) -> Result<()> {
    is_announced(rt, piece)?;
    let mut out = Vec::new(rt.alloc());
    let done = decodes_into(rt, decoder, piece, &mut out);
    drop(out);
    done
}

/// Announces that a piece is decoded.
fn is_announced(rt: &HostRuntime, piece: &[u8]) -> Result<()> {
    let mut call = String::from_str(rt.alloc(), "decode ")?;
    append_bytes(&mut call, piece)?;
    announce(rt, &call)
}

fn decodes_into(
    rt: &HostRuntime,
    decoder: &mut NetDecoder,
    piece: &[u8],
    out: &mut Vec<u8>,
) -> Result<()> {
    let before = decoder.held();
    let mut answer = decoder.push(piece, out);
    has_returned(rt)?;
    if answer == Err(NetFault::Memory) {
        was_kept(rt, before, out, decoder.held())?;
        answer = decoder.push(piece, out);
    }
    prints(rt, answer, out, decoder.held())
}
