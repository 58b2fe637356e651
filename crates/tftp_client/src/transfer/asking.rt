//! The request of a transfer, by which its end opens.

ghost use Rattle.std.specs.Prelude.{ℕ, ◌≡◌, ◌≤◌, IfOk, IfErr, OnOk};
ghost use Rattle.tftp_negotiate.specs.declared.known.Kind.TheVariants.{Read, Write};
ghost use Rattle.tftp_lines.specs.ClientOutcome.{status_of};
ghost use Rattle.tftp_client.specs.Conversation.{any_address, state_of};
ghost use Rattle.tftp_client.specs.Runs.{MayOpen, begun, measured, opens, sent_from};

use crate::transfer::conversation::Conversation;
use crate::transfer::{Failure, Job};
use std::alloc::Global;
use tftp_ends::End;
use tftp_file::MAX_WIRE;
use tftp_negotiate::Asked;
use tftp_sockets::{ClientSocket, ClientUdp};

/// Sends the read request.
pub(super) fn ask_to_get<N: ClientUdp>(
    net: &mut N,
    alloc: Global,
    job: &Job<'_>,
) -> Result<Conversation, Failure>
    ensures begins { IfOk result (λ conversation. state_of conversation (N.log net.new)
        ≡ begun job.now.backoff conversation.socket.port conversation.watch.reading
        (opens Read job.now 0)
        (N.log net.old)) }
    ensures may { OnOk result (MayOpen Read job.now 0) }
    ensures err { IfErr result (λ failure. (status_of failure.end ≡ 2)
        × (N.log net.new ≡ N.log net.old)) }
{
    let socket = bind_socket(net)?;
    let mut out = Vec::new(alloc);
    let opened = End::get(
        alloc,
        job.server,
        job.name.as_bytes(),
        job.mode,
        &job.asked,
        &job.config(),
        &mut out,
    );
    match opened {
        Ok((end, _)) => {
            let request = out.as_slice();
            let opened = Opened {
                socket,
                end,
                request,
                total: None,
            };
            begin(net, alloc, job, opened)
        }
        Err(fault) => Err(Failure::of_opening(fault, job.kind)),
    }
}

/// Sends the write request for a file of `length` bytes on the wire.
pub(super) fn ask_to_put<N: ClientUdp>(
    net: &mut N,
    alloc: Global,
    job: &Job<'_>,
    length: u64,
) -> Result<Conversation, Failure>
    ensures begins { IfOk result (λ conversation. state_of conversation (N.log net.new)
        ≡ begun job.now.backoff conversation.socket.port conversation.watch.reading
        (opens Write job.now length)
        (N.log net.old)) }
    ensures fits { OnOk result (length ≤ MAX_WIRE) }
    ensures may { OnOk result (MayOpen Write job.now length) }
    ensures err { IfErr result (λ failure. (status_of failure.end ≡ 2)
        × (N.log net.new ≡ N.log net.old)) }
{
    let socket = bind_socket(net)?;
    let asked = measured(&job.asked, length);
    let mut out = Vec::new(alloc);
    let opened = End::put(
        alloc,
        job.server,
        job.name.as_bytes(),
        job.mode,
        &asked,
        length,
        &job.config(),
        &mut out,
    );
    match opened {
        Ok((end, _)) => {
            let request = out.as_slice();
            let opened = Opened {
                socket,
                end,
                request,
                total: Some(length),
            };
            begin(net, alloc, job, opened)
        }
        Err(fault) => Err(Failure::of_opening(fault, job.kind)),
    }
}

/// The requested options, with `length` as the value of a requested `tsize`.
fn measured(asked: &Asked, length: u64) -> Asked
    ensures { result ≡ measured asked.now length }
{
    Asked {
        tsize: asked.tsize.map(|_| length),
        ..*asked
    }
}

/// Binds the socket of a transfer, to every address of this host and a port chosen by the system.
fn bind_socket<N: ClientUdp>(net: &N) -> Result<ClientSocket, Failure>
    ensures ip { IfOk result (λ socket. socket.ip ≡ any_address) }
    ensures err { IfErr result (λ failure. status_of failure.end ≡ 2) }
{
    match net.bind([0, 0, 0, 0]) {
        Ok(socket) => Ok(socket),
        Err(error) => Err(Failure::of_socket(error)),
    }
}

/// An end that opened, before its request is sent.
#[derive(Drop)]
struct Opened<'a> {
    socket: ClientSocket,
    end: End,
    request: &'a [u8],
    /// The length of the file in bytes, if known.
    total: Option<u64>,
}

/// Sends the request of an end, and returns the conversation.
fn begin<N: ClientUdp>(
    net: &mut N,
    alloc: Global,
    job: &Job<'_>,
    opened: Opened<'_>,
) -> Result<Conversation, Failure>
    ensures begins { IfOk result (λ conversation. state_of conversation (N.log net.new)
        ≡ sent_from job.now.backoff conversation.socket.port conversation.watch.reading
        opened.entry.end job.now.server opened.entry.request.now (N.log net.old)) }
    ensures err { IfErr result (λ failure. (status_of failure.end ≡ 2)
        × (N.log net.new ≡ N.log net.old)) }
{
    let Opened {
        socket,
        end,
        request,
        total,
    } = opened;
    match Conversation::new(net, alloc, socket, end, job, total) {
        Ok(mut conversation) => {
            let sent = net.send(&conversation.socket, job.server, request);
            conversation.unsent = sent.err();
            Ok(conversation)
        }
        Err(_) => Err(Failure::memory()),
    }
}
