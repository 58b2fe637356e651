//! The faults of reading and storing a file.

ghost use Rattle.std.specs.Prelude.{◌≡◌};
ghost use Rattle.tftp_file.specs.Fault.{file_fault_number, store_fault_number};

use std::alloc::{AllocError, AllocFailed};
use thiserror::Error;

/// A fault in reading a file.
#[derive(Clone, Copy, Debug, PartialEq, Eq, Error)]
pub enum FileFault {
    /// A read failed.
    #[error("the file could not be read")]
    Read = 1,
    /// Out of memory.
    #[error("out of memory")]
    Memory = 2,
}

impl FileFault {
    /// The number of the fault, 1 or 2.
    pub fn number(self) -> u8
        ensures { result ≡ file_fault_number self }
    {
        self as u8
    }
}

impl From<AllocError> for FileFault {
    ghost use Rattle.std.specs.Prelude.{◌≡◌};
    ghost use Rattle.tftp_file.specs.declared.fault.FileFault.TheVariants.{Memory};

    ghost from_gives = { λ _ fault. fault ≡ Memory };

    fn from(_error: AllocError) -> FileFault {
        FileFault::Memory
    }
}

impl<T: Drop> From<AllocFailed<T>> for FileFault {
    ghost use Rattle.std.specs.Prelude.{◌≡◌};
    ghost use Rattle.tftp_file.specs.declared.fault.FileFault.TheVariants.{Memory};

    ghost from_gives = { λ _ fault. fault ≡ Memory };

    fn from(_error: AllocFailed<T>) -> FileFault {
        FileFault::Memory
    }
}

/// A fault in storing a file.
#[derive(Clone, Copy, Debug, PartialEq, Eq, Error)]
pub enum StoreFault {
    /// No file of that name exists.
    #[error("no such file")]
    Missing = 1,
    /// A file of that name exists.
    #[error("the file exists")]
    Exists = 2,
    /// No space is left.
    #[error("no room is left")]
    Full = 3,
    /// A read, a write or a flush failed.
    #[error("the store failed")]
    Io = 4,
    /// Out of memory.
    #[error("out of memory")]
    Memory = 5,
}

impl StoreFault {
    /// The number of the fault, 1 to 5.
    pub fn number(self) -> u8
        ensures { result ≡ store_fault_number self }
    {
        self as u8
    }
}

impl From<AllocError> for StoreFault {
    ghost use Rattle.std.specs.Prelude.{◌≡◌};
    ghost use Rattle.tftp_file.specs.declared.fault.StoreFault.TheVariants.{Memory};

    ghost from_gives = { λ _ fault. fault ≡ Memory };

    fn from(_error: AllocError) -> StoreFault {
        StoreFault::Memory
    }
}

impl<T: Drop> From<AllocFailed<T>> for StoreFault {
    ghost use Rattle.std.specs.Prelude.{◌≡◌};
    ghost use Rattle.tftp_file.specs.declared.fault.StoreFault.TheVariants.{Memory};

    ghost from_gives = { λ _ fault. fault ≡ Memory };

    fn from(_error: AllocFailed<T>) -> StoreFault {
        StoreFault::Memory
    }
}
