//! The room for the datagram that an event sends: it is reserved before the event changes anything.

ghost use Rattle.std.specs.Prelude.{◌≡◌, ◌≤◌, [], length, vec_capacity, IfOk, IfErr};
ghost use Rattle.tftp_player.specs.Room.{answer_room, block_within, largest_block};

use crate::fault::WorldFault;
use std::alloc::Global;
use tftp_ends::{Endpoint, MAX_ERROR, Record};
use tftp_negotiate::{Asked, DEFAULT_BLOCK};
use tftp_wire::HEADER;

/// The largest block size that a client with this request may agree to.
pub(crate) fn largest_block(asked: &Asked) -> u16
    ensures { result ≡ largest_block asked.now.blksize }
{
    match asked.blksize {
        None => DEFAULT_BLOCK,
        Some(size) => size.max(DEFAULT_BLOCK),
    }
}

/// The longest block of an end, in bytes: `max_block` while its peer is unknown.
fn block_within(max_block: u16, peer: Option<Endpoint>, size: u16) -> u16
    ensures { result ≡ block_within max_block peer size }
{
    match peer {
        None => max_block,
        Some(_) => size,
    }
}

/// The capacity to reserve before an end in this state handles a datagram, in bytes. A receiver
/// needs none for a block. `max_block` is the largest block size that it may agree to, if it has no
/// peer yet.
pub(crate) fn answer_room(max_block: u16, state: &Record) -> usize
    ensures { result ≡ answer_room max_block state.now }
{
    if !state.side.is_sender() {
        return MAX_ERROR;
    }
    let block = block_within(max_block, state.peer, state.size);
    MAX_ERROR.max(HEADER + usize::from(block))
}

/// An empty buffer for a datagram of at most this length.
pub(crate) fn reserved(alloc: Global, room: usize) -> Result<Vec<u8>, WorldFault>
    ensures empty { IfOk result (λ out. out.items ≡ []) }
    ensures room { IfOk result (λ out. room ≤ vec_capacity out) }
    ensures memory { IfErr result (λ fault. fault ≡ WorldFault.Memory) }
{
    match Vec::with_capacity(alloc, room) {
        Ok(out) => Ok(out),
        Err(_) => Err(WorldFault::Memory),
    }
}

/// The datagram, in the buffer that was reserved for it.
pub(crate) fn copied(mut out: Vec<u8>, datagram: &[u8]) -> Vec<u8>
    requires empty { out.items ≡ [] }
    requires room { length datagram.now ≤ vec_capacity out }
    ensures { result.items ≡ datagram.now }
{
    let Ok(()) = out.extend_from_slice(datagram) else {
        unreachable!()
    };
    out
}
