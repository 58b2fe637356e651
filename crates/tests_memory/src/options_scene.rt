//! Reads with two options at a server: the OACK has them in the order of the request, with their
//! names in lower case (RFC 2347, "Negotiation Protocol").

use crate::printed::{announce, append_bytes, has_returned, was_refused};
use anyhow::{Result, anyhow};
use std::alloc::Global;
use tftp_ends::Endpoint;
use tftp_file::path_of;
use tftp_server::{Config, MemStore, Opened, Server, ServerFault};

const CLIENT: Endpoint = Endpoint {
    ip: [10, 0, 0, 2],
    port: 1024,
};

const BLOCK_FIRST: &[u8] = b"\0\x01boot.img\0octet\0BLKSIZE\01428\0timeout\03\0";

const TIMEOUT_FIRST: &[u8] = b"\0\x01boot.img\0octet\0timeout\03\0BLKSIZE\01428\0";

/// A server, and a buffer for the datagrams that it sends.
#[derive(Drop)]
struct Served {
    alloc: Global,
    server: Server<MemStore>,
    out: Vec<u8>,
}

/// Runs the scene.
pub(crate) fn play(rt: &HostRuntime) -> Result<()> {
    println!(rt; "two options")?;
    let mut served = served_in(rt.alloc())?;
    let done = served.plays(rt);
    drop(served);
    done
}

/// A server of the file `boot.img`.
fn served_in(alloc: Global) -> Result<Served> {
    let config = Config::default();
    if !config.is_valid() {
        return Err(anyhow!("no valid configuration"));
    }
    match Server::new(alloc, config, store_in(alloc)?) {
        Ok(server) => Ok(Served {
            alloc,
            server,
            out: Vec::new(alloc),
        }),
        Err(fault) => Err(fault.into()),
    }
}

/// A store of the file `boot.img`.
fn store_in(alloc: Global) -> Result<MemStore> {
    let path = path_of(alloc, b"boot.img")?;
    let files = vec![in alloc; (path, Vec::from_slice(alloc, b"ABC")?)]?;
    match MemStore::new(alloc, files) {
        Ok(store) => Ok(store),
        Err(fault) => Err(fault.into()),
    }
}

impl Served {
    /// Delivers both requests, and prints the state after them.
    fn plays(&mut self, rt: &HostRuntime) -> Result<()> {
        self.takes(rt, "request BLKSIZE=1428 timeout=3", 1025, BLOCK_FIRST)?;
        self.takes(rt, "request timeout=3 BLKSIZE=1428", 1026, TIMEOUT_FIRST)?;
        print!(rt; "{}", self.seen()?)?;
        Ok(())
    }

    /// The bytes sent, the record of each transfer, and the file.
    fn seen(&self) -> Result<String> {
        let mut text = String::new(self.alloc);
        match self.append_state(&mut text) {
            Ok(()) => Ok(text),
            Err(error) => Err(error),
        }
    }

    fn append_state(&self, text: &mut String) -> Result<()> {
        text.push_str("out ")?;
        append_bytes(text, &self.out)?;
        self.append_records(text)?;
        self.append_file(text)
    }

    fn append_records(&self, text: &mut String) -> Result<()> {
        let mut tids = Vec::new(self.alloc);
        self.server.tids(&mut tids)?;
        for tid in &tids {
            let record = self.server.record(*tid);
            write!(text, "\n{tid} {record:?}")?;
        }
        Ok(())
    }

    fn append_file(&self, text: &mut String) -> Result<()> {
        text.push_str("\nboot.img ")?;
        let path = path_of(self.alloc, b"boot.img")?;
        if let Some(file) = self.server.store().file(&path) {
            append_bytes(text, file)?;
        }
        text.push('\n')?;
        Ok(())
    }

    /// Delivers a request, for a transfer with this identifier, and again if it was out of memory.
    fn takes(&mut self, rt: &HostRuntime, call: &str, tid: u16, request: &[u8]) -> Result<()> {
        self.out = Vec::from_slice(self.alloc, b"old")?;
        let before = self.seen()?;
        let done = self.answers(rt, call, tid, request, &before);
        drop(before);
        done
    }

    /// Announces and delivers a request, before which the state was so.
    fn answers(
        &mut self,
        rt: &HostRuntime,
        call: &str,
        tid: u16,
        request: &[u8],
        before: &str,
    ) -> Result<()> {
        announce(rt, call)?;
        let answer = self.server.on_request(CLIENT, tid, request, &mut self.out);
        has_returned(rt)?;
        let opened = match answer {
            Err(ServerFault::Memory) => {
                was_refused(rt, before, &self.seen()?)?;
                self.server.on_request(CLIENT, tid, request, &mut self.out)?
            }
            answer => answer?,
        };
        self.prints(rt, opened)
    }

    /// Prints what a request opened, and the bytes sent.
    fn prints(&self, rt: &HostRuntime, opened: Opened) -> Result<()> {
        let mut text = String::new(self.alloc);
        append_bytes(&mut text, &self.out)?;
        println!(rt; "{:?} {text}", opened.tid)?;
        Ok(())
    }
}
