//! The store of a server's loop.

ghost use Rattle.std.specs.Prelude.{ℕ, ◌≡◌};

use crate::memory::{MemDraft, MemStore};
use crate::store::Store;

/// A store that is set before each request is carried out, that keeps the reasons for what it
/// refuses, and that syncs drafts when its loop lets it. Why a call is refused is a `Reason`, which
/// only a log has.
pub trait ServedStore<Reason>: Store {
    /// All that a draft took is where it is kept, unless a call on that failed.
    ghost written_out: { Self.Draft → Type 0 };

    /// The longest length on the wire that can be sent is so many bytes.
    ghost is_bounded: { Self → ℕ → Type 0 };

    /// Sets the port of the next transfer, which names its draft. It leaves of the store what
    /// `write_behind` leaves.
    fn set_port(&mut self, port: u16)
        ensures set { Self.meaning.is_set_to self.new port }
        ensures same { Self.meaning.stored self.new ≡ Self.meaning.stored self.old }
        ensures behind { Self.meaning.after_write_behind self.old self.new };

    /// Sets the longest length on the wire that can be sent, in bytes. A file with more bytes is
    /// not read to measure it. It leaves of the store what `write_behind` leaves.
    fn set_longest(&mut self, bytes: u64)
        ensures longest { is_bounded self.new bytes }
        ensures set { (port : ℕ) → Self.meaning.is_set_to self.old port
            → Self.meaning.is_set_to self.new port }
        ensures same { Self.meaning.stored self.new ≡ Self.meaning.stored self.old }
        ensures behind { Self.meaning.after_write_behind self.old self.new };

    /// Takes the reason for refusing the last open, begin, append or commit, or the last fill of a
    /// source.
    fn take_reason(&self) -> Option<Reason>;

    /// Takes the port of a transfer whose draft is to be synced, if there is one since the last
    /// call.
    fn take_unsynced(&self) -> Option<u16>;

    /// Lets the next `write_behind` sync its draft.
    fn let_sync(&self);

    /// Writes what is still buffered of a draft that gets no name, without a sync: what was
    /// acknowledged of a failed transfer is in the file that it leaves. If a write fails, the rest
    /// of it is lost.
    fn write_out(&self, draft: &mut Self::Draft)
        ensures behind { Self.meaning.writes_behind draft.old draft.new }
        ensures out { written_out draft.new };
}

/// Files in memory need no port and no sync, and have no reasons.
impl<Reason> ServedStore<Reason> for MemStore {
    ghost use Rattle.std.specs.Prelude.{⊤};

    ghost written_out = { λ _. ⊤ };

    /// Always true: what is in memory is not bounded.
    ghost is_bounded = { λ _ _. ⊤ };

    fn set_port(&mut self, _port: u16) {}

    fn set_longest(&mut self, _bytes: u64) {}

    fn take_reason(&self) -> Option<Reason> {
        None
    }

    fn take_unsynced(&self) -> Option<u16> {
        None
    }

    fn let_sync(&self) {}

    fn write_out(&self, _draft: &mut MemDraft) {}
}
