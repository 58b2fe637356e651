//! A sink over a buffer of the caller.

ghost use Rattle.std.specs.Prelude.{◌≡◌, ◌≤◌, ◌<◌, ◌+◌, ◌++◌, None, IfSome, length, take, drop};
ghost use Rattle.std.specs.Prelude.{min};

use tftp_file::{Sink, StoreFault};
use tftp_wire::HEADER;

/// Copies the bytes to the start of a buffer.
// Inlined, the loop of each call would be of some 300 bytes.
#[inline(never)]
pub(crate) fn copy_to(room: &mut [u8], bytes: &[u8])
    requires { length bytes.now ≤ length room.old }
    ensures { room.new ≡ bytes.now ++ drop (length bytes.now) room.old }
{
    room[..bytes.len()].copy_from_slice(bytes);
}

/// As [`copy_to`], of a datagram: an ACK is four bytes, which takes no call.
#[inline(always)]
pub(crate) fn copy_datagram(room: &mut [u8], bytes: &[u8])
    requires { length bytes.now ≤ length room.old }
    ensures { room.new ≡ bytes.now ++ drop (length bytes.now) room.old }
{
    if bytes.len() == HEADER {
        room[..bytes.len()].copy_from_slice(bytes);
    } else {
        copy_to(room, bytes);
    }
}

/// Writes the bytes at an offset of a buffer, and returns where they end, or `None` if they do not
/// fit. Then nothing has changed.
pub(crate) fn write_at(room: &mut [u8], at: usize, bytes: &[u8]) -> Option<usize>
    ensures written { IfSome result (λ end. take end room.new ≡ take at room.old ++ bytes.now) }
    ensures full { length room.old ≤ at → 0 < length bytes.now → result ≡ None }
    ensures none { result ≡ None
        → length room.old < min at (length room.old) + length bytes.now }
    ensures left { result ≡ None → room.new ≡ room.old }
{
    if bytes.is_empty() {
        return Some(at);
    }
    if bytes.len() > room.len().saturating_sub(at) {
        return None;
    }
    copy_to(&mut room[at..], bytes);
    Some(at + bytes.len())
}

/// A buffer of the caller, which is filled from its start. Its model is that of a sink in memory
/// with the buffer's length as its capacity.
#[derive(Drop)]
pub(crate) struct SliceSink<'a> {
    pub(crate) room: &'a mut [u8],
    /// How many bytes are stored.
    pub(crate) used: usize,
    pub(crate) is_committed: bool,
}

impl<'a> SliceSink<'a> {
    /// How many bytes are stored.
    pub(crate) fn count(&self) -> usize
        ensures { result ≡ self.now.used }
    {
        self.used
    }
}

impl<'a> Sink for SliceSink<'a> {
    ghost use Rattle.std.specs.Prelude.{◌≡◌, refl, length};
    ghost use Rattle.std.proofs.Common.{◌∙◌};
    ghost use Rattle.tftp_file.specs.Memory.{memory_sink};
    ghost use Rattle.tftp_file.specs.Sink.{sink_through};
    ghost use Rattle.tftp_c.specs.Slices.{stored};

    ghost meaning = { sink_through memory_sink (λ s. stored s.room.now s.used s.is_committed) };

    /// The same buffer.
    ghost is_same = { λ s t. (t.room.ghost_name ≡ s.room.ghost_name)
        × (length t.room.now ≡ length s.room.now) };

    ghost stays = { λ _. (refl, refl) };

    ghost joins = { λ _ _ _ p q. (q.0 ∙ p.0, q.1 ∙ p.1) };

    ghost unmoved = { λ _. tt };

    /// Appends the bytes, or none of them: `Full` if they do not fit.
    fn append(&mut self, bytes: &[u8]) -> Result<(), StoreFault> {
        match write_at(self.room, self.used, bytes) {
            Some(end) => {
                self.used = end;
                self.is_committed = false;
                Ok(())
            }
            None => Err(StoreFault::Full),
        }
    }

    fn commit(&mut self) -> Result<(), StoreFault> {
        self.is_committed = true;
        Ok(())
    }
}
