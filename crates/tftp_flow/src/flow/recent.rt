//! Who has the endpoints of the last datagrams, so that the next ones between them are assigned at
//! once.

use crate::flow::candidate::Candidate;
use crate::flow::captured_transfer::{CapturedTransfer, Part};
use crate::flow::index::Index;
use crate::flow::seen::{Seen, is_same_endpoint};
use std::alloc::{AllocError, Global};
use std::net::SocketAddrV4;

/// How many endpoints are remembered at most: 2 to this power.
const BITS: u32 = 10;

/// An endpoint, and whether a client has it.
#[derive(Clone, Copy)]
struct Known {
    at: SocketAddrV4,
    /// The index of the client's newest transfer from there; none if no client has the endpoint.
    newest: Option<usize>,
}

/// What is known of endpoints, each at the slot of its endpoint, where a later one replaces it.
#[derive(Drop)]
pub(crate) struct Recent {
    known: Vec<Option<Known>>,
}

impl Recent {
    pub(crate) fn new(alloc: Global) -> Recent {
        Recent {
            known: Vec::new(alloc),
        }
    }

    /// Remembers endpoints from now on.
    pub(crate) fn open(&mut self) -> Result<(), AllocError> {
        self.known.resize(1 << BITS, None)
    }

    /// The transfer that a datagram belongs to, where one end alone is a client's, and it is between
    /// the two ends of that one's newest transfer. No other transfer is chosen before this one: what
    /// has the same two ends is older, and so is what waits for an answer there.
    pub(crate) fn candidate_of(
        &mut self,
        seen: &Seen<'_>,
        index: &Index,
        transfers: &[CapturedTransfer],
    ) -> Option<Candidate> {
        if seen.payload.what.is_request() {
            return None;
        }
        let from = self.newest_of(seen.from, index, transfers);
        let to = self.newest_of(seen.to, index, transfers);
        let index = match (from, to) {
            (Some(index), None) => index,
            (None, Some(index)) => index,
            _ => return None,
        };
        let part = transfers.get(index)?.part_of(seen)?;
        match part {
            Part::Own(_) => Some(Candidate { index, part }),
            _ => None,
        }
    }

    /// The index of the newest transfer of the client that has an endpoint, by what is remembered or
    /// else by the index.
    fn newest_of(
        &mut self,
        at: SocketAddrV4,
        index: &Index,
        transfers: &[CapturedTransfer],
    ) -> Option<usize> {
        let slot = slot_of(at);
        if let Some(Some(known)) = self.known.get(slot) {
            if is_same_endpoint(known.at, at) {
                return known.newest;
            }
        }
        let newest = match index.of_client(at) {
            Some(number) => index_of(transfers, number),
            None => None,
        };
        if let Some(known) = self.known.get_mut(slot) {
            *known = Some(Known { at, newest });
        }
        newest
    }

    /// Forgets an endpoint, which has another newest transfer now.
    pub(crate) fn forget(&mut self, at: SocketAddrV4) {
        if let Some(known) = self.known.get_mut(slot_of(at)) {
            *known = None;
        }
    }

    /// Forgets all, since transfers have other indices now.
    pub(crate) fn forget_all(&mut self) {
        self.known.fill(None);
    }
}

/// The index of the transfer of a number, if it is there. They are in the order of their numbers.
pub(crate) fn index_of(transfers: &[CapturedTransfer], number: u64) -> Option<usize> {
    transfers
        .binary_search_by_key(&number, |transfer| transfer.number)
        .ok()
}

/// The slot of an endpoint: the highest bits of its product with 2^64 over the golden ratio, since
/// the endpoints of a capture have the same port, or addresses and ports in sequence.
fn slot_of(at: SocketAddrV4) -> usize {
    let number = u64::from(at.ip().to_bits()) * 0x1_0000 + u64::from(at.port());
    (number.wrapping_mul(0x9e37_79b9_7f4a_7c15) >> (u64::BITS - BITS)) as usize
}
