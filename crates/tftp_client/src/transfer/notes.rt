//! What a client notes of a step for the lines that it prints.

use crate::cause::Cause;
use std::alloc::Global;
use tftp_ends::{Outcome, Step, decode_packet};
use tftp_lines::{LineClock, Reason};
use tftp_negotiate::stated_tsize;
use tftp_wire::{MAX_REQUEST, PacketRef, has_error_opcode, show_ref};

/// Stores why the system refused to send the datagram of a step, if it did; nothing if the step has
/// none.
pub(super) fn note_sent(unsent: &mut Option<Reason>, step: &Step, sent: Result<(), Reason>) {
    if step.to.is_some() {
        *unsent = sent.err();
    }
}

/// Stores what the ERROR says by which the peer ended the transfer, if it did in this step.
pub(super) fn note_error(said: &mut Option<Cause>, alloc: Global, step: &Step, bytes: &[u8]) {
    match step.closed {
        Some(Outcome::PeerError(code)) => {
            if let Some(words) = error_words(alloc, code, bytes) {
                *said = Some(Cause::Server(words));
            }
        }
        Some(Outcome::Illegal) => {
            if let Some(line) = broken_error(alloc, bytes) {
                *said = Some(Cause::NoPacket(line));
            }
        }
        _ => {}
    }
}

/// Stores the length of the file that the peer states, if progress is shown.
pub(super) fn note_total(
    total: &mut Option<u64>,
    lines: &Option<LineClock>,
    step: &Step,
    bytes: &[u8],
) {
    if step.progress && lines.is_some() && total.is_none() {
        *total = stated_length(bytes);
    }
}

/// The words of an ERROR of this code, which its line has in parentheses; without any, those of
/// the code. `None` when out of memory.
fn error_words(alloc: Global, code: u16, bytes: &[u8]) -> Option<String> {
    let packet = decode_packet(bytes)?;
    let mut line = String::new(alloc);
    show_ref(&packet, &mut line).ok()?;
    let (_, text) = line.as_str().split_once('(')?;
    let words = match text.strip_suffix(')')? {
        "" => code_words(code),
        words => words,
    };
    String::from_str(alloc, words).ok()
}

/// The line of an ERROR that is no packet, as one without the zero byte at its end: its code, and
/// its text to a zero byte or to the end of the longest ERROR. `None` for another datagram, without
/// a code and when out of memory.
fn broken_error(alloc: Global, bytes: &[u8]) -> Option<String> {
    if !has_error_opcode(bytes) || decode_packet(bytes).is_some() {
        return None;
    }
    let [_, _, high, low, rest @ ..] = bytes else {
        return None;
    };
    let packet = PacketRef::Error {
        code: u16::from_be_bytes([*high, *low]),
        text: text_in(rest),
    };
    let mut line = String::new(alloc);
    show_ref(&packet, &mut line).ok()?;
    Some(line)
}

/// The first bytes, up to a zero byte and at most as many as the longest ERROR has.
fn text_in(bytes: &[u8]) -> &[u8] {
    let longest = &bytes[..bytes.len().min(MAX_REQUEST)];
    match longest.iter().position(|byte| *byte == 0) {
        Some(end) => &longest[..end],
        None => longest,
    }
}

/// The words for the code of an ERROR (RFC 1350, appendix I; RFC 2347).
fn code_words(code: u16) -> &'static str {
    match code {
        1 => "file not found",
        2 => "access violation",
        3 => "disk full",
        4 => "illegal operation",
        5 => "unknown transfer id",
        6 => "file exists",
        7 => "no such user",
        8 => "option refused",
        _ => "an error that it does not name",
    }
}

/// The length of the file in bytes, if the datagram is an OACK that states it.
fn stated_length(bytes: &[u8]) -> Option<u64> {
    match decode_packet(bytes) {
        Some(PacketRef::Oack(options)) => stated_tsize(&options),
        _ => None,
    }
}
