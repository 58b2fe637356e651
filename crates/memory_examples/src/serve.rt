//! A TFTP server whose files are in memory: it serves one text, and what is written to it stays until
//! it ends. It is a whole server over the libraries.

use crate::{Fault, server_of};
use std::alloc::Global;
use tftp_ends::Backoff;
use tftp_loop::{Ending, LoopConfig, LoopFault, serve};
use tftp_server::Server;
use tftp_sockets::{NoSignal, ServerUdp, SystemUdp, endpoint_in};
use tftp_store::MemStore;

/// The name of the file that is served, and its text.
const NAME: &[u8] = b"greeting";

const TEXT: &[u8] = b"This file is in memory.\n";

/// Serves at the endpoint that a word names, until as many transfers have closed as the other says.
pub(crate) fn run(rt: &HostRuntime, listen: &str, transfers: &str) -> Result<(), Fault> {
    let Some(config) = config_of(listen, transfers) else {
        return Err(Fault::Usage);
    };
    let server = server_of(rt.alloc(), NAME, TEXT)?;
    match serve_files(&mut SystemUdp::new(rt), rt.alloc(), server, &config) {
        Ok(()) => Ok(()),
        Err(LoopFault::Socket(_)) => Err(Fault::Socket),
        Err(LoopFault::Output | LoopFault::NoReader) => Err(Fault::Output),
        Err(LoopFault::Memory) => Err(Fault::Memory),
    }
}

/// Where to serve, and after how many transfers to end; `None` for words that do not say so.
fn config_of(listen: &str, transfers: &str) -> Option<LoopConfig> {
    Some(LoopConfig {
        listen: endpoint_in(listen)?,
        ports: None,
        ending: Ending {
            transfers: transfers.parse::<u64>().ok()?,
            rounds: u64::MAX,
        },
        longest: None,
        backoff: Backoff::Constant,
        requests_only: false,
        per_client: None,
        drains: false,
        logs: false,
        has_priority: false,
    })
}

/// Serves the files: what the server does over UDP is stated by the clauses of [`serve`], and the law
/// of `tftp_promises` for files with models speaks of such a server and its clients.
fn serve_files<N: ServerUdp + Eprint>(
    net: &mut N,
    alloc: Global,
    server: Server<MemStore>,
    config: &LoopConfig,
) -> Result<(), LoopFault> {
    serve(net, alloc, server, config, &NoSignal)
}
