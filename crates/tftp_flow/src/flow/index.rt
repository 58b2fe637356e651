//! Which transfers an endpoint has, by their numbers.

use crate::flow::captured_transfer::{CapturedTransfer, Part};
use crate::flow::moment::Moment;
use crate::flow::recent::index_of;
use std::alloc::{AllocError, Global};
use std::collections::BTreeMap;
use std::net::SocketAddrV4;

/// The newest transfer of each endpoint: of clients, and of servers that answered.
#[derive(Drop)]
pub(crate) struct Index {
    clients: BTreeMap<SocketAddrV4, u64>,
    servers: BTreeMap<SocketAddrV4, u64>,
}

impl Index {
    pub(crate) fn new(alloc: Global) -> Index {
        Index {
            clients: BTreeMap::new(alloc),
            servers: BTreeMap::new(alloc),
        }
    }

    /// The newest transfer of a client's endpoint.
    pub(crate) fn of_client(&self, at: SocketAddrV4) -> Option<u64> {
        self.clients.get(&at).copied()
    }

    /// The newest transfer of a server's endpoint.
    pub(crate) fn of_server(&self, at: SocketAddrV4) -> Option<u64> {
        self.servers.get(&at).copied()
    }

    /// Notes the newest transfer of a client's endpoint, and returns the one before it.
    pub(crate) fn add_client(
        &mut self,
        at: SocketAddrV4,
        number: u64,
    ) -> Result<Option<u64>, AllocError> {
        Ok(self.clients.insert(at, number)?)
    }

    /// Notes the newest transfer of a server's endpoint: the source of the first answer.
    pub(crate) fn add_source(
        &mut self,
        part: Part,
        from: SocketAddrV4,
        number: u64,
    ) -> Result<(), AllocError> {
        if let Part::Answer = part {
            self.servers.insert(from, number)?;
        }
        Ok(())
    }

    /// Forgets the transfers that are over.
    pub(crate) fn remove_silent(&mut self, transfers: &mut [CapturedTransfer], now: Moment) {
        for index in 0..transfers.len() {
            if let Some(entry) = Entry::of_silent(transfers, index, now) {
                self.remove(entry);
                entry.unlink(transfers);
            }
        }
    }

    /// Forgets a transfer. The newest before it from its client's endpoint takes its place there.
    fn remove(&mut self, entry: Entry) {
        if self.of_client(entry.client) == Some(entry.number) {
            self.replace_client(entry.client, entry.before);
        }
        if let Some(server) = entry.server {
            if self.of_server(server) == Some(entry.number) {
                self.servers.remove(&server);
            }
        }
    }

    fn replace_client(&mut self, at: SocketAddrV4, before: Option<u64>) {
        let Some(before) = before else {
            self.clients.remove(&at);
            return;
        };
        if let Some(newest) = self.clients.get_mut(&at) {
            *newest = before;
        }
    }
}

/// What is known of a transfer by its endpoints.
#[derive(Clone, Copy)]
struct Entry {
    number: u64,
    client: SocketAddrV4,
    server: Option<SocketAddrV4>,
    /// The transfers before and after it from its client's endpoint.
    before: Option<u64>,
    after: Option<u64>,
}

impl Entry {
    /// The entry of the transfer at an index, if it is over.
    fn of_silent(transfers: &[CapturedTransfer], index: usize, now: Moment) -> Option<Entry> {
        let transfer = transfers.get(index)?;
        if !transfer.is_silent(now) {
            return None;
        }
        Some(Entry {
            number: transfer.number,
            client: transfer.client,
            server: transfer.server,
            before: transfer.before,
            after: transfer.after,
        })
    }

    /// Links the transfers before and after it with each other.
    fn unlink(self, transfers: &mut [CapturedTransfer]) {
        if let Some(before) = found(transfers, self.before) {
            before.after = self.after;
        }
        if let Some(after) = found(transfers, self.after) {
            after.before = self.before;
        }
    }
}

/// The transfer of a number.
fn found(transfers: &mut [CapturedTransfer], number: Option<u64>) -> Option<&mut CapturedTransfer> {
    let index = index_of(transfers, number?)?;
    transfers.get_mut(index)
}
