//! The result of an event, before it is recorded in the world.

ghost use Rattle.std.specs.Prelude.{◌≡◌, ◌<◌, ◌++◌, vec_len, vec_capacity};
ghost use Rattle.tftp_player.specs.Effect.{no_effect, said_by, report_by};
ghost use Rattle.tftp_player.specs.World.{closed_at};

use crate::datagram::Datagram;
use crate::report::Report;
use std::alloc::Global;
use tftp_ends::{Endpoint, Outcome, Step};
use tftp_wire::Bytes;

/// The result of an event: a datagram to send, and an end that closed.
#[derive(Drop)]
pub(crate) struct Effect {
    /// The sender; the end that closed is there.
    pub(crate) from: Endpoint,
    /// The destination of the datagram; none if nothing is sent.
    pub(crate) to: Option<Endpoint>,
    pub(crate) bytes: Bytes,
    /// How the end closed.
    pub(crate) closed: Option<Outcome>,
}

/// The result of a step of the end there, which appended these bytes.
pub(crate) fn effect_of(from: Endpoint, step: Step, out: Vec<u8>) -> Effect
    ensures { result ≡ record {
      from = from;
      to = step.to;
      bytes = out.items;
      closed = step.closed;
    } }
{
    Effect {
        from,
        to: step.to,
        bytes: Bytes::from(out),
        closed: step.closed,
    }
}

/// Nothing is sent, and no end closes.
pub(crate) fn no_effect(alloc: Global, from: Endpoint) -> Effect
    ensures { result ≡ no_effect from }
{
    Effect {
        from,
        to: None,
        bytes: Bytes::from(Vec::new(alloc)),
        closed: None,
    }
}

/// The port, and how its end closed.
fn closed_at(at: Endpoint, closed: Option<Outcome>) -> Option<(u16, Outcome)>
    ensures { result ≡ closed_at at closed }
{
    match closed {
        None => None,
        Some(outcome) => Some((at.port, outcome)),
    }
}

/// Appends the datagram to all that was sent before, and reports it.
pub(crate) fn write_down(sent: &mut Vec<Datagram>, effect: Effect) -> Report
    requires { vec_len sent.old < vec_capacity sent.old }
    ensures sent { sent.new.items ≡ sent.old.items ++ said_by effect.from effect.to effect.bytes }
    ensures report { result ≡ report_by sent.old.items effect }
{
    let Effect {
        from,
        to,
        bytes,
        closed,
    } = effect;
    let closed = closed_at(from, closed);
    match to {
        None => Report {
            added: None,
            closed,
        },
        Some(to) => {
            let index = sent.len();
            sent.push_reserved(Datagram { from, to, bytes });
            Report {
                added: Some(index),
                closed,
            }
        }
    }
}
