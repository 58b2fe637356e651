//! The sink of a client.

use std::alloc::Global;
use std::marker::Model;
use tftp_file::{MemSink, Sink, StoreFault};

/// A sink in memory without a limit, which refuses only if it is set to or is out of memory. Its
/// content has a model.
#[derive(Drop)]
pub(crate) struct ClientSink {
    sink: MemSink,
}

impl Model for ClientSink {
    ghost use Rattle.std.specs.Prelude.{◌≡◌, ◌-◌, ◌^◌, false};
    ghost use Rattle.tftp_file.specs.Sink.{Holding};

    ghost Value = { Holding };

    ghost view = { λ s. s.sink.holding };

    ghost invariant = { λ s. (s.sink.room ≡ 2 ^ 64 - 1) × (s.sink.refuses_commit ≡ false) };
}

impl ClientSink {
    ghost use Rattle.std.specs.Prelude.{◌≡◌, true, false, []};

    /// An empty one. It does not allocate.
    pub(crate) fn new(alloc: Global) -> ClientSink
        ensures { result ≡ record { bytes = []; committed = false; refuses = false } }
    {
        ClientSink {
            sink: MemSink::new(alloc, u64::MAX, false),
        }
    }

    pub(crate) fn as_bytes(&self) -> &[u8]
        ensures { result.now ≡ self.now.bytes }
    {
        self.sink.as_bytes()
    }

    pub(crate) fn is_committed(&self) -> bool
        ensures { result ≡ self.now.committed }
    {
        self.sink.is_committed()
    }

    /// Sets its next append or commit to be refused.
    pub(crate) fn refuse_next(&mut self)
        ensures { self.new ≡ record self.old { refuses = true } }
    {
        self.sink.refuse_next(true);
    }
}

impl Sink for ClientSink {
    ghost use Rattle.std.specs.Prelude.{None, true, ⊤};
    ghost use Rattle.tftp_player.specs.WorldSteps.{may_refuse_commit, world_sink};

    ghost meaning = { world_sink (may_refuse_commit true None) };

    ghost is_same = { λ _ _. ⊤ };

    ghost stays = { λ _. tt };

    ghost joins = { λ _ _ _ _ _. tt };

    ghost unmoved = { λ _. tt };

    fn append(&mut self, bytes: &[u8]) -> Result<(), StoreFault> {
        // For the proof alone: a read says that the length of what is held is in range.
        let _held = self.sink.as_bytes();
        self.sink.append(bytes)
    }

    fn commit(&mut self) -> Result<(), StoreFault> {
        self.sink.commit()
    }
}
