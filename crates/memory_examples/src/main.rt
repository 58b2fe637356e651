//! Two examples over files in memory, for readers who write their own: a server over UDP, and a loop
//! over the end of a transfer.
#![tactic(auto)]

mod fetch;
mod serve;

use std::alloc::{AllocError, Global};
use std::process::ExitCode;
use tftp_arguments::{WordsFault, own_words};
use tftp_file::{Path, StoreFault, path_of};
use tftp_server::{Config, Server};
use tftp_store::MemStore;

/// Why an example ended early.
#[derive(Clone, Copy)]
enum Fault {
    /// The words do not name an example.
    Usage,
    /// Out of memory.
    Memory,
    /// A call of a socket failed.
    Socket,
    /// A line could not be printed.
    Output,
    /// A request is not valid, or the server refuses it.
    Refused,
    /// An end has closed.
    Stopped,
    /// The transfer is not complete after the most datagrams that it can take.
    Incomplete,
}

impl Fault {
    fn text(self) -> &'static str {
        match self {
            Fault::Usage => "usage: memory_examples [ADDR:PORT TRANSFERS]",
            Fault::Memory => "memory_examples: out of memory",
            Fault::Socket => "memory_examples: socket fault",
            Fault::Output => "memory_examples: output fault",
            Fault::Refused => "memory_examples: refused",
            Fault::Stopped => "memory_examples: stopped",
            Fault::Incomplete => "memory_examples: not complete",
        }
    }
}

fn main(rt: HostRuntime) -> ExitCode {
    match run(&rt) {
        Ok(()) => ExitCode::SUCCESS,
        Err(fault) => {
            let _ = rt.eprintln(fault.text());
            ExitCode::from(2)
        }
    }
}

/// Runs the example that the program's words ask for: without words it gets a text in memory, and
/// else it serves one.
fn run(rt: &HostRuntime) -> Result<(), Fault> {
    let words = match own_words(rt) {
        Ok(words) => words,
        Err(WordsFault::NotText) => return Err(Fault::Usage),
        Err(WordsFault::Memory) => return Err(Fault::Memory),
    };
    match words.as_slice() {
        [_, listen, transfers] => serve::run(rt, listen.as_str(), transfers.as_str()),
        [_] => fetch::run(rt),
        _ => Err(Fault::Usage),
    }
}

/// A server of one file in memory.
fn server_of(alloc: Global, name: &[u8], bytes: &[u8]) -> Result<Server<MemStore>, Fault> {
    let Ok(store) = store_of(alloc, name, bytes) else {
        return Err(Fault::Memory);
    };
    match Server::new(alloc, Config::default(), store) {
        Ok(server) => Ok(server),
        Err(_) => Err(Fault::Memory),
    }
}

/// A store of one file in memory.
fn store_of(alloc: Global, name: &[u8], bytes: &[u8]) -> Result<MemStore, StoreFault> {
    let Ok(path) = path_of(alloc, name) else {
        return Err(StoreFault::Memory);
    };
    let mut files: Vec<(Path, Vec<u8>)> = Vec::new(alloc);
    files.push((path, Vec::from_slice(alloc, bytes)?))?;
    MemStore::new(alloc, files)
}
