//! What a server's loop reserves before it serves.

ghost use Rattle.std.specs.Prelude.{◌≡◌, IfOk, OnOk};
ghost use Rattle.tftp_loop.specs.LoopStates.{AreLong, HasRoom};

use crate::server_loop::{Buffers, ServerLoop};
use std::alloc::AllocError;
use tftp_lines::Reason;
use tftp_store::ServedStore;

/// The length of the longest answer to a request, in bytes: DATA 1 without options (RFC 1350,
/// section 5).
pub(crate) const LONGEST_ANSWER: usize = 516;

impl<S: ServedStore<Reason> + Drop> ServerLoop<S> {
    /// Reserves room for the ports of as many transfers as the server may hold, and for the longest
    /// answer, so that no request is lost for want of it, and makes the buffers. It fails only when
    /// out of memory.
    pub(crate) fn reserve(&mut self) -> Result<Buffers, AllocError>
        ensures room { OnOk result (HasRoom self.new) }
        ensures long { IfOk result AreLong }
        ensures ports { self.new.ports.items ≡ self.old.ports.items }
        ensures rest { self.new
            ≡ record self.old { ports = self.new.ports; out = self.new.out } }
    {
        self.ports.try_reserve(usize::from(self.server.cap()))?;
        self.out.try_reserve(LONGEST_ANSWER)?;
        Buffers::new(self.alloc)
    }
}
