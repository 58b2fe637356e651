//! A source in memory that ends early or fails, for fault injection.

ghost use Rattle.std.specs.Prelude.{◌≡◌, IfErr, IfOk};
ghost use Rattle.tftp_file.specs.Netascii.{wire_text};
ghost use Rattle.tftp_file.specs.FaultSource.{new_fault_source};

use crate::length::wire_length_within;
use crate::{FileFault, MemSource, Source};
use std::alloc::Global;
use std::marker::Model;
use tftp_wire::Mode;

/// A source of bytes in memory that ends before their wire text does, or fails there, as a
/// truncated file or an unreadable disk does.
///
/// Its model is the wire text that is left, and whether a fill that requests more fails.
#[derive(Debug, Drop)]
pub struct FaultSource {
    source: MemSource,
    left: u64,
    fails: bool,
}

impl Model for FaultSource {
    ghost use Rattle.std.specs.Prelude.{take, length, ◌≤◌};
    ghost use Rattle.tftp_file.specs.FaultSource.{FaultSourceState};

    ghost Value = { FaultSourceState };

    ghost view = { λ s. record { left = take s.left s.source; fails = s.fails } };

    ghost invariant = { λ s. s.left ≤ length s.source };
}

impl FaultSource {
    /// A source of the first `give` bytes of the wire text in the mode, or of all of it if it is
    /// shorter. Then it ends; if it is set to `fail`, a fill that requests more bytes than are left
    /// returns `Read`. It copies the bytes, and fails only with `Memory`.
    pub fn new(
        alloc: Global,
        bytes: &[u8],
        mode: Mode,
        give: u64,
        fail: bool,
    ) -> Result<FaultSource, FileFault>
        ensures ok { IfOk result (λ source.
            source ≡ new_fault_source (wire_text mode bytes.now) give fail) }
        ensures memory { IfErr result (λ fault. fault ≡ FileFault.Memory) }
    {
        Ok(FaultSource {
            source: MemSource::new(alloc, bytes, mode)?,
            left: wire_length_within(bytes, mode, give),
            fails: fail,
        })
    }
}

impl Source for FaultSource {
    ghost use Rattle.std.specs.Prelude.{◌≡◌, ◌≤◌, Some, Err, refl, vec_capacity, ⊤};
    ghost use Rattle.std.proofs.Common.{◌∙◌};
    ghost use Rattle.tftp_file.specs.Source.{Fills};
    ghost use Rattle.tftp_file.specs.FaultSource.{FailsAt};

    ghost meaning = { record {
      left = λ s. Some s.left;
      may_fail = FailsAt;
      fails = FailsAt;
      gives = λ _ _ _. ⊤;
      opens = λ _ _ _ _ _. ⊤;
    } };

    /// It holds no borrow: whether it is set to fail does not change.
    ghost is_same = { λ s t. t.fails ≡ s.fails };

    ghost stays = { λ _. refl };

    ghost joins = { λ _ _ _ p q. q ∙ p };

    ghost unmoved = { λ _. tt };

    /// If the source is set to fail, a fill that requests more than is left returns `Read`, and
    /// allocates no memory.
    fn fill(&mut self, want: usize, out: &mut Vec<u8>) -> Result<usize, FileFault>
        ensures fills { Fills (Some self.old.left) (Some self.new.left) want
            out.old.items out.new.items result }
        ensures read { result ≡ Err FileFault.Read → FailsAt self.old want }
        ensures capacity { vec_capacity out.old ≤ vec_capacity out.new }
        ensures same { self.new.fails ≡ self.old.fails }
        ensures fails { FailsAt self.old want → result ≡ Err FileFault.Read }
    {
        let count = want.min(self.left as usize);
        if self.fails && count < want {
            return Err(FileFault::Read);
        }
        let given = self.source.fill(count, out)?;
        self.left -= given as u64;
        Ok(given)
    }
}
