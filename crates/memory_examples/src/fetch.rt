//! A get in memory: a client's end and a server hand each other their datagrams, without a socket and
//! without a clock. It is a proved loop over an end.

ghost use Rattle.std.specs.Prelude.{◌≡◌, true, false, OnOk};
ghost use Rattle.tftp_ends.specs.End.{is_complete, is_sender};

use crate::{Fault, server_of};
use std::alloc::Global;
use tftp_ends::{End, EndConfig, Endpoint};
use tftp_file::MemSink;
use tftp_negotiate::{Asked, Limits};
use tftp_server::Server;
use tftp_store::MemStore;
use tftp_wire::Mode;

/// The name of the file, and its text: four blocks of 16 bytes, the last of them short.
const NAME: &[u8] = b"greeting";

const TEXT: &str = "This text was sent in four blocks of sixteen bytes.\n";

/// The request port, and the identifier of the transfer, which is its port (RFC 1350, section 4).
const REQUESTS: Endpoint = Endpoint {
    ip: [127, 0, 0, 1],
    port: 69,
};

const TRANSFER: Endpoint = Endpoint {
    ip: [127, 0, 0, 1],
    port: 1024,
};

const CLIENT: Endpoint = Endpoint {
    ip: [127, 0, 0, 1],
    port: 5000,
};

/// The most datagrams that each side sends. A get without loss takes one a block and one for its
/// options.
const MOST: usize = 16;

/// Gets the text, and prints it.
pub(crate) fn run(rt: &HostRuntime) -> Result<(), Fault> {
    let mut server = server_of(rt.alloc(), NAME, TEXT.as_bytes())?;
    let mut sink = MemSink::new(rt.alloc(), 1_000, false);
    fetch(rt.alloc(), &mut server, &mut sink)?;
    let Ok(text) = std::str::from_utf8(sink.as_bytes()) else {
        return Err(Fault::Incomplete);
    };
    let _ = rt.print(text);
    Ok(())
}

/// Asks the server for the file in blocks of 16 bytes, and stores it in the sink.
fn fetch(alloc: Global, server: &mut Server<MemStore>, sink: &mut MemSink) -> Result<(), Fault> {
    let asked = Asked {
        blksize: Some(16),
        timeout: None,
        tsize: None,
    };
    let config = EndConfig {
        limits: Limits {
            max_block: 512,
            max_file: 1_000,
        },
        retries: 0,
    };
    let mut sent = Vec::new(alloc);
    let Ok((mut end, _)) = End::get(
        alloc,
        REQUESTS,
        NAME,
        Mode::Octet,
        &asked,
        &config,
        &mut sent,
    ) else {
        return Err(Fault::Refused);
    };
    let mut answer = Vec::new(alloc);
    match server.on_request(CLIENT, TRANSFER.port, sent.as_slice(), &mut answer) {
        Ok(opened) if opened.tid.is_some() => {}
        _ => return Err(Fault::Refused),
    }
    converse(&mut end, sink, server, answer)
}

/// Hands the client's end what the server answers, and the server what the end sends, until the
/// client has stored and committed the whole file. The server appends its datagram to `answer`; the
/// end lends the one that it keeps.
///
/// A call over a receiver's file requires that the end receives, and ensures it again: that is the
/// loop's invariant.
fn converse(
    end: &mut End,
    sink: &mut MemSink,
    server: &mut Server<MemStore>,
    mut answer: Vec<u8>,
) -> Result<(), Fault>
    requires { is_sender end.old.role.side ≡ false }
    ensures complete { OnOk result (is_complete end.new.position.phase ≡ true) }
{
    for _ in 0..MOST {
        let Ok((_, outgoing)) = end.handle_datagram_as_receiver(sink, TRANSFER, answer.as_slice())
        else {
            return Err(Fault::Stopped);
        };
        if end.record().complete {
            return Ok(());
        }
        answer.clear();
        let sent = end.bytes_of(outgoing);
        if server
            .on_datagram(TRANSFER.port, CLIENT, sent, &mut answer)
            .is_err()
        {
            return Err(Fault::Stopped);
        }
    }
    Err(Fault::Incomplete)
}
