//! A source and a sink with their file in memory.

ghost use Rattle.std.specs.Prelude.{◌≡◌, ◌≤◌, length, IfErr, IfOk};
ghost use Rattle.tftp_file.specs.Netascii.{wire_text};
ghost use Rattle.tftp_file.specs.Memory.{new_mem_sink, with_armed};

use crate::encoding::{Encoding, encode};
use crate::{FileFault, Sink, Source, StoreFault};
use bytes::Bytes as SharedBytes;
use std::alloc::Global;
use std::marker::Model;
use std::mem;
use tftp_wire::Mode;

/// A source of bytes in memory, which each fill encodes. Its model is the wire text that is left.
#[derive(Debug, Drop)]
pub struct MemSource {
    bytes: SharedBytes,
    encoding: Encoding,
}

impl Model for MemSource {
    ghost use Rattle.std.specs.Prelude.{List, ℕ};
    ghost use Rattle.tftp_file.specs.Encoding.{text_left};

    ghost Value = { List ℕ };

    ghost view = { λ s. text_left s.encoding s.bytes };
}

impl MemSource {
    /// A source of the wire text of the bytes in the mode. It copies the bytes, and fails only with
    /// `Memory`.
    pub fn new(alloc: Global, bytes: &[u8], mode: Mode) -> Result<MemSource, FileFault>
        ensures ok { IfOk result (λ source. source ≡ wire_text mode bytes.now) }
        ensures memory { IfErr result (λ fault. fault ≡ FileFault.Memory) }
    {
        let bytes = SharedBytes::copy_from_slice(alloc, bytes)?;
        Ok(MemSource::of_shared(bytes, mode))
    }

    /// A source of the wire text of shared bytes in the mode. Allocates no memory.
    pub fn of_shared(bytes: SharedBytes, mode: Mode) -> MemSource
        ensures { result ≡ wire_text mode bytes }
    {
        MemSource {
            bytes,
            encoding: Encoding::from(mode),
        }
    }
}

impl Source for MemSource {
    ghost use Rattle.std.specs.Prelude.{⊤};
    ghost use Rattle.tftp_file.specs.Memory.{memory_source};

    ghost meaning = { memory_source };

    /// It holds no borrow: always true.
    ghost is_same = { λ _ _. ⊤ };

    ghost stays = { λ _. tt };

    ghost joins = { λ _ _ _ _ _. tt };

    ghost unmoved = { λ _. tt };

    fn fill(&mut self, want: usize, out: &mut Vec<u8>) -> Result<usize, FileFault> {
        match &mut self.encoding {
            Encoding::Octet => {
                let count = want.min(self.bytes.len());
                out.extend_from_slice(&self.bytes.as_slice()[..count])?;
                self.bytes.advance(count);
                Ok(count)
            }
            Encoding::Netascii { held } => {
                let most = self.bytes.len().saturating_mul(2).saturating_add(1);
                out.reserve(want.min(most))?;
                let encoded = encode(self.bytes.as_slice(), *held, want, out);
                self.bytes.advance(encoded.taken);
                *held = encoded.held;
                Ok(encoded.count)
            }
        }
    }
}

/// A sink that keeps its bytes in memory, up to a capacity.
///
/// Its model is its content, its capacity, and whether it is set to refuse each commit.
#[derive(Debug, Drop)]
pub struct MemSink {
    bytes: Vec<u8>,
    room: u64,
    is_committed: bool,
    refuses_next: bool,
    refuses_commit: bool,
}

impl Model for MemSink {
    ghost use Rattle.tftp_file.specs.Memory.{MemSinkState};

    ghost Value = { MemSinkState };

    ghost use Rattle.std.specs.Prelude.{vec_len, ◌≤◌};

    ghost view = { λ s. record {
      holding = record {
        bytes = s.bytes.items;
        committed = s.is_committed;
        refuses = s.refuses_next;
      };
      room = s.room;
      refuses_commit = s.refuses_commit;
    } };

    ghost invariant = { λ s. vec_len s.bytes ≤ s.room };
}

impl MemSink {
    /// An empty sink with a capacity of `room` bytes, which refuses each commit with `Full` if
    /// `refuse_commit` is set. Allocates no memory.
    pub fn new(alloc: Global, room: u64, refuse_commit: bool) -> MemSink
        ensures { result ≡ new_mem_sink room refuse_commit }
    {
        MemSink {
            bytes: Vec::new(alloc),
            room,
            is_committed: false,
            refuses_next: false,
            refuses_commit: refuse_commit,
        }
    }

    /// The bytes held, at most as many as its capacity.
    pub fn as_bytes(&self) -> &[u8]
        ensures bytes { result.now ≡ self.now.holding.bytes }
        ensures within { length result.now ≤ self.now.room }
    {
        self.bytes.as_slice()
    }

    /// Whether the bytes held are committed.
    pub fn is_committed(&self) -> bool
        ensures { result ≡ self.now.holding.committed }
    {
        self.is_committed
    }

    /// Sets whether the sink refuses its next append or commit with `Full`.
    pub fn refuse_next(&mut self, armed: bool)
        ensures { self.new ≡ with_armed self.old armed }
    {
        self.refuses_next = armed;
    }

    /// Whether the sink is set to refuse its next append or commit.
    pub fn refuses(&self) -> bool
        ensures { result ≡ self.now.holding.refuses }
    {
        self.refuses_next
    }
}

impl Sink for MemSink {
    ghost use Rattle.std.specs.Prelude.{Some};
    ghost use Rattle.std.specs.Prelude.{◌≡◌, ◌≢◌, ◌≤◌, ◌<◌, ◌+◌, ◌++◌, true, false, length, take};
    ghost use Rattle.std.specs.Prelude.{Err, IfErr, IsErr, refl};
    ghost use Rattle.std.proofs.Common.{◌∙◌};
    ghost use Rattle.tftp_file.specs.Sink.{Appends, Commits};
    ghost use Rattle.tftp_file.specs.Memory.{IsFull, MayRefuseAppend, MayRefuseCommit, memory_sink};
    ghost use Rattle.tftp_file.specs.Memory.{MustRefuseAppend, MustRefuseCommit};
    ghost use Rattle.std.specs.Result.{result_err};

    ghost meaning = { memory_sink };

    /// It holds no borrow: its capacity, and whether it refuses each commit, do not change.
    ghost is_same = { λ s t. (t.room ≡ s.room) × (t.refuses_commit ≡ s.refuses_commit) };

    ghost stays = { λ _. (refl, refl) };

    ghost joins = { λ _ _ _ p q. (q.0 ∙ p.0, q.1 ∙ p.1) };

    ghost unmoved = { λ _. tt };

    /// Appends the bytes that fit the capacity, and returns `Full` if some do not. If none fits, it
    /// allocates no memory.
    fn append(&mut self, bytes: &[u8]) -> Result<(), StoreFault>
        ensures appends { Appends (Some self.old.holding) (Some self.new.holding) bytes.now result }
        ensures refused { IfErr result (MayRefuseAppend self.old bytes.now) }
        ensures same { (self.new.room ≡ self.old.room)
            × (self.new.refuses_commit ≡ self.old.refuses_commit) }
        ensures over { self.old.room < length self.old.holding.bytes + length bytes.now
            → IsErr result }
        ensures filled { result ≡ Err StoreFault.Full → self.old.holding.refuses ≡ false
            → self.new.holding.bytes ≡ take self.old.room (self.old.holding.bytes ++ bytes.now) }
        ensures full { IsFull self.old → 0 < length bytes.now → result ≡ Err StoreFault.Full }
        ensures after { MustRefuseAppend self.old bytes.now
            → result_err result ≡ Some StoreFault.Full }
    {
        if self.refuses_next {
            self.refuses_next = false;
            return Err(StoreFault::Full);
        }
        let room = self.room as usize - self.bytes.len();
        let kept = room.min(bytes.len());
        self.bytes.extend_from_slice(&bytes[..kept])?;
        self.is_committed = false;
        if kept < bytes.len() {
            return Err(StoreFault::Full);
        }
        Ok(())
    }

    fn commit(&mut self) -> Result<(), StoreFault>
        ensures commits { Commits (Some self.old.holding) (Some self.new.holding) result }
        ensures refused { IfErr result (MayRefuseCommit self.old) }
        ensures not_memory { result ≢ Err StoreFault.Memory }
        ensures same { (self.new.room ≡ self.old.room)
            × (self.new.refuses_commit ≡ self.old.refuses_commit) }
        ensures refuses { self.old.refuses_commit ≡ true → result ≡ Err StoreFault.Full }
        ensures after { MustRefuseCommit self.old → result_err result ≡ Some StoreFault.Full }
    {
        if mem::replace(&mut self.refuses_next, false) {
            return Err(StoreFault::Full);
        }
        if self.refuses_commit {
            return Err(StoreFault::Full);
        }
        self.is_committed = true;
        Ok(())
    }
}
