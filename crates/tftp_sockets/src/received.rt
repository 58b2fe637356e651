//! What the system returned of a receive, a send, a bind, a print or a look.

ghost use Rattle.std.specs.Prelude.{◌≡◌, ◌≤◌, ◌∷◌, ◌↔◌, length, IfOk, IsTrue, OnErr};
ghost use Rattle.std.specs.IoError.{error_kind};
ghost use Rattle.tftp_sockets.specs.Receipt.{FindsNothing, Fits, receive_event};
ghost use Rattle.tftp_lines.specs.ClientOutcome.{end_text};
ghost use Rattle.tftp_sockets.specs.EventRef.{event_of};
ghost use Rattle.tftp_sockets.specs.Output.{line_taken};
ghost use Rattle.tftp_sockets.specs.Trace.{QuietEvent, looked};
ghost use Rattle.tftp_sockets.specs.Trace.SocketEvent.{Printed, Quiet};
ghost use Rattle.tftp_sockets.specs.Trace.QuietEvent.{New_socket, No_socket};

use crate::address::endpoint_of;
use crate::event_ref::EventRef;
use crate::receipt::Receipt;
use crate::sockets::ServerSocket;
use crate::trace::Trace;
use std::io::{self, ErrorKind};
use std::net::SocketAddr;
use tftp_lines::{ClientOutcome, Reason, reason_of};

/// Notes the result of a receive at the port.
pub(crate) fn note_receipt(
    trace: &mut Trace,
    port: u16,
    answer: io::Result<(usize, SocketAddr)>,
    buffer: &[u8],
) -> Receipt
    requires { IfOk answer (λ datagram. datagram.0 ≤ length buffer.now) }
    ensures noted { trace.new.events ≡ receive_event port buffer.now result
        ∷ trace.old.events }
    ensures fits { Fits buffer.now result }
{
    match answer {
        Ok((count, address)) => match endpoint_of(address) {
            Some(from) => {
                trace.note(&EventRef::Received(port, from, &buffer[..count]));
                Receipt::Datagram(from, count)
            }
            None => {
                trace.note(&EventRef::Failed(port));
                Receipt::Failed
            }
        },
        Err(error) => note_error(trace, port, &error, buffer),
    }
}

/// Notes a receive at the port that returned an error.
fn note_error(trace: &mut Trace, port: u16, error: &io::Error, buffer: &[u8]) -> Receipt
    ensures noted { trace.new.events ≡ receive_event port buffer.now result
        ∷ trace.old.events }
    ensures fits { Fits buffer.now result }
    ensures nothing { result ≡ Receipt.Nothing ↔ FindsNothing (error_kind error.now) }
{
    if finds_nothing(error) {
        trace.note(&EventRef::Empty(port));
        Receipt::Nothing
    } else {
        trace.note(&EventRef::Failed(port));
        Receipt::Failed
    }
}

/// Whether an error means that no datagram has arrived.
fn finds_nothing(error: &io::Error) -> bool
    ensures { IsTrue result ↔ FindsNothing (error_kind error.now) }
{
    let kind = error.kind();
    kind == ErrorKind::WouldBlock || kind == ErrorKind::TimedOut
}

/// That a datagram was sent, or why the system refused it.
pub(crate) fn sent(answer: io::Result<usize>) -> Result<(), Reason> {
    match answer {
        Ok(_) => Ok(()),
        Err(error) => Err(reason_of(&error)),
    }
}

/// Notes the result of a bind to this port, or to any for 0.
pub(crate) fn note_bound(
    trace: &mut Trace,
    port: u16,
    bound: io::Result<ServerSocket>,
) -> io::Result<ServerSocket>
    ensures same { result ≡ bound }
    ensures ok { IfOk result (λ socket. trace.new.events ≡ Quiet (New_socket socket.port)
        ∷ trace.old.events) }
    ensures err { OnErr result (trace.new.events ≡ Quiet (No_socket port) ∷ trace.old.events) }
{
    match bound {
        Ok(socket) => {
            trace.note(&EventRef::NewSocket(socket.port));
            Ok(socket)
        }
        Err(error) => {
            trace.note(&EventRef::NoSocket(port));
            Err(error)
        }
    }
}

/// Notes how `tftp` ended, on standard output: an empty line if the system refused that.
pub(crate) fn note_end(
    trace: &mut Trace,
    end: ClientOutcome,
    printed: io::Result<()>,
) -> io::Result<()>
    ensures same { result ≡ printed }
    ensures noted { trace.new.events ≡ Printed (line_taken printed (end_text end))
        ∷ trace.old.events }
{
    match printed {
        Ok(()) => {
            trace.note(&EventRef::End(end));
            Ok(())
        }
        Err(error) => {
            trace.note(&EventRef::Refused);
            Err(error)
        }
    }
}

/// Notes the event of a look, if it found what that is of. Returns whether it did.
pub(crate) fn note_look(trace: &mut Trace, is_found: bool, event: &EventRef<'_>) -> bool
    ensures same { result ≡ is_found }
    ensures noted { (quiet : QuietEvent) → event_of event.now ≡ Quiet quiet
        → trace.new.events ≡ looked result quiet trace.old.events }
{
    if is_found {
        trace.note(event);
    }
    is_found
}
