//! A datagram at the request port of a server for C: what its caller is asked.

ghost use Rattle.std.specs.Prelude.{◌≡◌, ◌≤◌, length, IfSome};
ghost use Rattle.tftp_ends.specs.Step.{error_bytes};
ghost use Rattle.tftp_server.specs.CallersFiles.{asked_mode};
ghost use Rattle.tftp_c.specs.Modes.{mode_or_none};
ghost use Rattle.tftp_c.specs.HeldServer.{Asks, AsksOf, Named, Refused};

use crate::elsewhere::Elsewhere;
use crate::event::{self, TftpEndpoint, TftpQuestion};
use crate::packet::mode_number;
use crate::report::{endpoint, write};
use crate::slice_sink::write_at;
use std::alloc::Global;
use tftp_ends::ErrorReply;
use tftp_server::{Admission, Server};

/// The number of the mode of a request that may be served, or 0.
fn mode_of(admission: &Admission<'_>) -> u8
    ensures { result ≡ mode_or_none (asked_mode admission.now.ask) }
{
    match admission.mode() {
        Some(mode) => mode_number(mode),
        None => 0,
    }
}

/// Asks for the file at a path, which is written to the start of `name`, if it fits, with a zero byte
/// behind it, if that fits.
fn about(wants: u8, mode: u8, path: &[u8], name: &mut [u8]) -> TftpQuestion
    ensures wants { result.wants ≡ wants }
    ensures mode { result.mode ≡ mode }
    ensures none { result.send_len ≡ 0 }
    ensures path { Named path.now name.new result.name_len }
{
    if let Some(end) = write_at(name, 0, path) {
        write_at(name, end, &[0]);
    }
    TftpQuestion {
        send_len: 0,
        name_len: path.len(),
        wants,
        mode,
        reserved: [0; 6],
    }
}

/// Asks nothing, and has an ERROR of this length to be sent, or 0.
fn answered(send_len: usize) -> TftpQuestion
    ensures len { result.send_len ≡ send_len }
    ensures nothing { (result.wants ≡ 0) × (result.mode ≡ 0) × (result.name_len ≡ 0) }
{
    TftpQuestion {
        send_len,
        name_len: 0,
        wants: 0,
        mode: 0,
        reserved: [0; 6],
    }
}

/// Writes an ERROR to `reply`, and returns its length, or 0 if it does not fit; `None` out of memory.
fn refuse(alloc: Global, error: ErrorReply, reply: &mut [u8]) -> Option<usize>
    ensures refused { IfSome result (Refused (error_bytes error) reply.new) }
    ensures fits { IfSome result (λ len. len ≤ length reply.old) }
{
    let mut out = Vec::new(alloc);
    match error.append_to(&mut out) {
        Ok(()) => Some(write(out.as_slice(), reply).len),
        Err(_) => None,
    }
}

/// What is asked of the caller for an admission, or `None` out of memory.
fn question_of(
    alloc: Global,
    admission: &Admission<'_>,
    name: &mut [u8],
    reply: &mut [u8],
) -> Option<TftpQuestion>
    ensures asks { IfSome result (Asks admission.now.ask name.new reply.new) }
    ensures fits { IfSome result (λ question. question.send_len ≤ length reply.old) }
{
    let mode = mode_of(admission);
    if let Some(path) = admission.read_path() {
        return Some(about(event::WANTS_OPEN, mode, path.as_bytes(), name));
    }
    if let Some(path) = admission.write_path() {
        return Some(about(event::WANTS_BEGIN, mode, path.as_bytes(), name));
    }
    match admission.refusal() {
        Some(error) => match refuse(alloc, error, reply) {
            Some(len) => Some(answered(len)),
            None => None,
        },
        None => Some(answered(0)),
    }
}

/// Reads a datagram at the request port. The server is unchanged. One from port 0 is ignored, since no
/// answer can come to it.
pub(crate) fn request(
    alloc: Global,
    server: &Server<Elsewhere>,
    from: &TftpEndpoint,
    datagram: &[u8],
    name: &mut [u8],
    reply: &mut [u8],
    question: &mut TftpQuestion,
) -> u8
    ensures ok { result ≡ 0
        → AsksOf server.now from.now datagram.now name.new reply.new question.new }
    ensures fits { result ≡ 0 → question.new.send_len ≤ length reply.old }
    ensures unmoved { (result ≡ 0 → ⊥) → question.new ≡ question.old }
{
    if from.port == 0 {
        *question = answered(0);
        return 0;
    }
    let Ok(admission) = server.admit(endpoint(from), datagram) else {
        return event::MEMORY;
    };
    match question_of(alloc, &admission, name, reply) {
        Some(asked) => {
            *question = asked;
            0
        }
        None => event::MEMORY,
    }
}
