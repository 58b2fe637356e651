//! The faults of the calls of an end.

ghost use Rattle.std.specs.Prelude.{◌≡◌};
ghost use Rattle.tftp_ends.specs.Fault.{open_fault_number, end_fault_number};
ghost use Rattle.tftp_ends.specs.declared.fault.EndFault.TheVariants.{Memory};
ghost use Rattle.tftp_ends.specs.declared.fault.OpenFault.TheVariants as opening;

use std::alloc::AllocError;
use thiserror::Error;

/// Why an end was not opened: of the first three, the first fault that applies.
#[derive(Clone, Copy, Debug, PartialEq, Eq, Error)]
pub enum OpenFault {
    /// The name is empty or holds a zero byte, the request would pass 512 bytes, or the options
    /// are not for this transfer.
    #[error("the request cannot be sent")]
    BadRequest = 1,
    /// The file has more blocks than can be numbered at the block size.
    #[error("the file is too large")]
    TooLarge = 2,
    /// The first block could not be read.
    #[error("the file could not be read")]
    SourceFault = 3,
    /// Out of memory.
    #[error("out of memory")]
    Memory = 4,
}

impl OpenFault {
    /// The number of the fault, 1 to 4.
    pub fn number(self) -> u8
        ensures { result ≡ open_fault_number self }
    {
        self as u8
    }
}

/// Why an event was not handled. Nothing has changed.
#[derive(Clone, Copy, Debug, PartialEq, Eq, Error)]
pub enum EndFault {
    /// The end is closed.
    #[error("the end is closed")]
    Closed = 1,
    /// Out of memory.
    #[error("out of memory")]
    Memory = 2,
}

impl EndFault {
    /// The number of the fault, 1 or 2.
    pub fn number(self) -> u8
        ensures { result ≡ end_fault_number self }
    {
        self as u8
    }
}

impl From<AllocError> for EndFault {
    ghost from_gives = { λ _ e. e ≡ Memory };

    fn from(_error: AllocError) -> EndFault {
        EndFault::Memory
    }
}

impl From<AllocError> for OpenFault {
    ghost from_gives = { λ _ e. e ≡ opening.Memory };

    fn from(_error: AllocError) -> OpenFault {
        OpenFault::Memory
    }
}
