//! A transfer that its caller ends by an ERROR.

ghost use Rattle.std.specs.Prelude.{◌≡◌, ◌⊎◌, ◌≤◌, IfErr, None, OnErr, OnOk, length};
ghost use Rattle.tftp_c.specs.Aborted.{AbortFails, AbortRefused, AbortsOpen, OnRecord};
ghost use Rattle.tftp_c.specs.Aborted.{abort_number};

use crate::error::{error_packet, may_tell};
use crate::event::{self, TftpEvent};
use crate::handle::TftpEnd;
use crate::report::{report_apart, state_of};
use std::alloc::Global;
use tftp_ends::{Record, Step};

/// Why a transfer is not aborted.
#[derive(Clone, Copy)]
pub(crate) enum AbortFault {
    /// It is over.
    Over,
    /// No ERROR has this text.
    BadText,
    Memory,
}

/// The number that a call returns for this fault; `over` is that for a transfer which is over.
pub(crate) fn abort_number(fault: AbortFault, over: u8) -> u8
    ensures { result ≡ abort_number over fault }
{
    match fault {
        AbortFault::Over => over,
        AbortFault::BadText => event::BAD_REQUEST,
        AbortFault::Memory => event::MEMORY,
    }
}

/// Aborts an open transfer, of which this is the record: it reports the end, and copies the ERROR for
/// the peer, if there is one yet.
pub(crate) fn abort(
    alloc: Global,
    state: &Record,
    code: u16,
    text: &[u8],
    reply: &mut [u8],
    event: &mut TftpEvent,
) -> Result<(), AbortFault>
    ensures ok { OnOk result (AbortsOpen state.now code text.now reply.new event.new) }
    ensures fits { OnOk result (event.new.send_len ≤ length reply.old) }
    ensures err { IfErr result (AbortFails state.now text.now) }
    ensures unmoved { OnErr result ((event.new ≡ event.old) × (reply.new ≡ reply.old)) }
{
    if state.outcome.is_some() {
        return Err(AbortFault::Over);
    }
    if !may_tell(text) {
        return Err(AbortFault::BadText);
    }
    match error_packet(alloc, code, text) {
        Some(error) => {
            let step = Step {
                to: state.peer,
                progress: false,
                closed: None,
            };
            let wait = u16::from(state.interval());
            report_apart(state, wait, step, error.as_slice(), reply, 0, event);
            event.complete = false;
            event.outcome = event::ABORTED;
            Ok(())
        }
        None => Err(AbortFault::Memory),
    }
}

/// Ends the transfer by an ERROR, which is written to `reply` for the peer, and closes the end.
///
/// It is for a caller that cannot go on, as one that could not store a block, and so has not sent the
/// ACK of it. A client that has no answer yet has no peer, and no ERROR to send.
#[unsafe(no_mangle)]
pub extern "C" fn tftp_abort(
    alloc: Global,
    end: &mut TftpEnd,
    code: u16,
    text: &[u8],
    reply: &mut [u8],
    event: &mut TftpEvent,
) -> u8
    ensures ok { result ≡ 0 → OnRecord end.old.slot.value
        (λ r. AbortsOpen r code text.now reply.new event.new) }
    ensures closed { result ≡ 0 → end.new.slot.value ≡ None }
    ensures fits { result ≡ 0 → event.new.send_len ≤ length reply.old }
    ensures fault { (result ≡ 0 → ⊥) → (end.old.slot.value ≡ None)
        ⊎ OnRecord end.old.slot.value (λ r. AbortRefused 4 r text.now result) }
    ensures err { (result ≡ 0 → ⊥) → end.new.slot.value ≡ end.old.slot.value }
    ensures unmoved { (result ≡ 0 → ⊥) → (event.new ≡ event.old) × (reply.new ≡ reply.old) }
    ensures none { end.old.slot.value ≡ None → result ≡ 1 }
{
    if !end.is_open() {
        return event::NOT_OPEN;
    }
    let state = state_of(&end.slot.client().end);
    match abort(alloc, &state, code, text, reply, event) {
        Ok(()) => {
            end.close(alloc);
            0
        }
        Err(fault) => abort_number(fault, event::CLOSED),
    }
}
