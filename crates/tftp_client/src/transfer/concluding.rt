//! The end of a complete transfer: its line, and its dally.

ghost use Rattle.std.specs.Prelude.{◌≡◌, ◌≤◌, ◌+◌, ◌⊎◌, ◌∷◌, true};
ghost use Rattle.tftp_ends.specs.End.{is_complete};
ghost use Rattle.tftp_ends.specs.Files.{AreFilesOf};
ghost use Rattle.tftp_sockets.specs.Trace.SocketEvent.{Printed as Line};
ghost use Rattle.tftp_sockets.specs.Quiet.{waits as waits_in};
ghost use Rattle.tftp_client.specs.Conversation.{IsReady, state_of};
ghost use Rattle.tftp_client.specs.Runs.{DalliesTo, line_by, printed};

use crate::transfer::Job;
use crate::transfer::conversation::Conversation;
use std::io;
use tftp_file::{Files, Sink, Source};
use tftp_lines::{ClientOutcome, reason_of};
use tftp_sockets::ClientUdp;

/// Prints that a transfer of so many bytes is complete: the file is sent and acknowledged, or
/// stored, named and acknowledged. Then dallies if that was ordered, at most for so many waits, and
/// returns the status. The end of a receiver may have to send its last acknowledgement again.
pub(super) fn conclude<E: Eprint, N: ClientUdp, S: Source, K: Sink>(
    rt: &E,
    net: &mut N,
    mut conversation: Conversation,
    files: &mut Files<S, K>,
    count: u64,
    job: &Job<'_>,
    waits: u32,
) -> u8
    requires complete { is_complete conversation.end.position.phase ≡ true }
    requires files { AreFilesOf conversation.end.role.side files.old }
    requires ready { IsReady conversation }
    ensures ends { (result ≡ 0) ⊎ (result ≡ 2) }
    ensures goes { DalliesTo S.meaning K.meaning job.now.dallies
        (waits + waits_in (N.log net.old)) conversation.socket.port
        (printed (line_by result count) (state_of conversation (N.log net.old))) files.old
        (N.log net.new) files.new }
    ensures waits { waits_in (N.log net.new) ≤ waits + waits_in (N.log net.old) }
{
    let status = print_complete(rt, net, count);
    if !job.dallies {
        return status;
    }
    conversation.dally(net, files, waits);
    status
}

/// Prints that a transfer is complete, and returns the status: 2 if the system refuses the line.
fn print_complete<E: Eprint, N: ClientUdp>(rt: &E, net: &mut N, count: u64) -> u8
    ensures ends { (result ≡ 0) ⊎ (result ≡ 2) }
    ensures noted { N.log net.new ≡ Line (line_by result count) ∷ N.log net.old }
{
    match net.print_end(ClientOutcome::Complete(count)) {
        Ok(()) => 0,
        Err(error) => report_output(rt, &error),
    }
}

/// Reports that standard output cannot be written, and why. Returns the status.
fn report_output<E: Eprint>(rt: &E, error: &io::Error) -> u8
    ensures { result ≡ 2 }
{
    let reason = reason_of(error);
    let _ = rt.eprintln("tftp: output fault");
    let _ = eprintln!(rt; "tftp: standard output: {reason}");
    2
}
