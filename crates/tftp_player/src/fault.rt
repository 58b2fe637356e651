//! Why an event is refused.

ghost use Rattle.std.specs.Prelude.{◌≡◌};
ghost use Rattle.tftp_player.specs.Fault.{world_fault_number};

use std::alloc::{AllocError, AllocFailed};
use thiserror::Error;

/// Why an event did not happen. Of the first four the least that applies is returned, before
/// `Memory`.
#[derive(Clone, Copy, Debug, PartialEq, Eq, Error)]
pub enum WorldFault {
    /// No datagram has this index.
    #[error("no such datagram")]
    NoSuchDatagram = 1,
    /// No end was opened at this port.
    #[error("no such end")]
    NoSuchEnd = 2,
    /// Every port has been used.
    #[error("no port is left")]
    NoPort = 3,
    /// The client refuses this request.
    #[error("bad request")]
    BadRequest = 4,
    /// Out of memory.
    #[error("out of memory")]
    Memory = 5,
}

impl WorldFault {
    /// The number of the fault, 1 to 5.
    pub fn number(self) -> u8
        ensures { result ≡ world_fault_number self }
    {
        self as u8
    }
}

impl From<AllocError> for WorldFault {
    ghost use Rattle.std.specs.Prelude.{◌≡◌};
    ghost use Rattle.tftp_player.specs.declared.fault.WorldFault.TheVariants.{Memory};

    ghost from_gives = { λ _ fault. fault ≡ Memory };

    fn from(_error: AllocError) -> WorldFault {
        WorldFault::Memory
    }
}

impl<T: Drop> From<AllocFailed<T>> for WorldFault {
    ghost use Rattle.std.specs.Prelude.{◌≡◌};
    ghost use Rattle.tftp_player.specs.declared.fault.WorldFault.TheVariants.{Memory};

    ghost from_gives = { λ _ fault. fault ≡ Memory };

    fn from(_error: AllocFailed<T>) -> WorldFault {
        WorldFault::Memory
    }
}
