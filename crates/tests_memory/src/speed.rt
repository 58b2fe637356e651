//! Reads between two ends in memory, without a socket or a world.

ghost use Rattle.tftp_ends.specs.Files.{AreFilesOf};

use anyhow::{Result, anyhow};
use std::alloc::Global;
use std::io;
use tftp_ends::{End, EndConfig, Endpoint, Outgoing};
use tftp_file::{Files, MAX_WIRE, ReadSource, Sink, Source, WriteSink};
use tftp_negotiate::{Agreed, Asked, DEFAULT_BLOCK, Kind, Limits, MAX_BLOCK, accept_ref};
use tftp_wire::{Mode, PacketRef, decode_ref};

const CLIENT: Endpoint = Endpoint {
    ip: [10, 0, 0, 2],
    port: 1024,
};

const SERVER: Endpoint = Endpoint {
    ip: [10, 0, 0, 1],
    port: 69,
};

const CONFIG: EndConfig = EndConfig {
    limits: Limits {
        max_block: MAX_BLOCK,
        max_file: MAX_WIRE,
    },
    retries: 0,
};

/// A file in memory for the server, and a sink that stores nothing for the client.
type BenchFiles<'a> = Files<ReadSource<&'a [u8]>, WriteSink<io::Sink>>;

/// Plays reads of a file with this block size, and prints the number of blocks.
pub(crate) fn play(rt: &HostRuntime, size: u16, length: usize, rounds: usize) -> Result<()> {
    let file = Vec::from_elem(rt.alloc(), 0u8, length)?;
    let mut blocks: u64 = 0;
    for _ in 0..rounds {
        let count = read(rt.alloc(), size, file.as_slice())?;
        blocks = blocks.saturating_add(u64::from(count));
    }
    println!(rt; "{blocks} blocks")?;
    Ok(())
}

/// Runs a read of a file with this block size, and returns the number of blocks.
fn read(alloc: Global, size: u16, file: &[u8]) -> Result<u16> {
    let length = file.len() as u64;
    let asked = Asked {
        blksize: if size == DEFAULT_BLOCK {
            None
        } else {
            Some(size)
        },
        timeout: None,
        tsize: None,
    };
    let mut out = Vec::new(alloc);
    let (client, _) = End::get(
        alloc,
        SERVER,
        b"file",
        Mode::Octet,
        &asked,
        &CONFIG,
        &mut out,
    )?;
    let agreed = answer(out.as_slice(), length)?;
    let mut file: BenchFiles<'_> = Files::Source(ReadSource::new(file, Mode::Octet));
    let mut copy: BenchFiles<'_> = Files::Sink(WriteSink::new(io::sink()));
    let mut first = Vec::new(alloc);
    let (server, _) = End::serve_read(
        alloc,
        &mut file,
        CLIENT,
        Mode::Octet,
        &agreed,
        length,
        0,
        &mut first,
    )?;
    converse(server, &mut file, client, &mut copy)
}

/// The options agreed for a request, with a file of this length.
fn answer(request: &[u8], length: u64) -> Result<Agreed> {
    match decode_ref(request) {
        Ok(PacketRef::Read(request)) => Ok(accept_ref(
            &request.options,
            Kind::Read,
            request.mode,
            length,
            &CONFIG.limits,
        )?),
        _ => Err(anyhow!("no request")),
    }
}

/// Delivers to each end the datagram that the other lends, until the server's end is closed.
/// Returns the number of blocks.
fn converse<S: Source, K: Sink>(
    mut server: End,
    file: &mut Files<S, K>,
    mut client: End,
    copy: &mut Files<S, K>,
) -> Result<u16>
    requires server { AreFilesOf server.role.side file.old }
    requires client { AreFilesOf client.role.side copy.old }
{
    let mut outgoing = Outgoing::LastSent;
    for _ in 0..=65_535 {
        let (_, reply) = client.handle_datagram(copy, SERVER, server.bytes_of(outgoing))?;
        let (step, next) = server.handle_datagram(file, CLIENT, client.bytes_of(reply))?;
        if step.closed.is_some() {
            return Ok(server.record().number);
        }
        outgoing = next;
    }
    Err(anyhow!("no end"))
}
