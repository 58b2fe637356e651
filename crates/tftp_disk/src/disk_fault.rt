//! The faults of disk errors.

ghost use Rattle.std.specs.Prelude.{◌≡◌, ◌≢◌, ◌↔◌};
ghost use Rattle.tftp_file.specs.declared.fault.StoreFault.TheVariants.{Exists, Full, Memory, Missing};
ghost use Rattle.tftp_disk.specs.declared.existing.Existing.TheVariants.{Refused};
ghost use Rattle.std.specs.IoError.{error_kind};
ghost use Rattle.tftp_disk.specs.DiskFault.{IsNoSpace, IsNotThere, MayNotOpen, MayNotStore};
ghost use Rattle.tftp_disk.specs.DiskFault.{MayNotName, is_replaced};

use crate::existing::Existing;
use std::io::{self, ErrorKind};
use tftp_file::StoreFault;

/// The fault for an error at the opening of a file.
pub fn open_fault(error: &io::Error) -> StoreFault
    ensures opened { MayNotOpen result }
    ensures missing { result ≡ Missing ↔ IsNotThere (error_kind error.now) }
    ensures memory { result ≡ Memory ↔ (error_kind error.now ≡ ErrorKind.OutOfMemory) }
{
    match error.kind() {
        ErrorKind::NotFound | ErrorKind::NotADirectory => StoreFault::Missing,
        ErrorKind::OutOfMemory => StoreFault::Memory,
        _ => StoreFault::Io,
    }
}

/// The fault for an error at a write.
pub fn write_fault(error: &io::Error) -> StoreFault
    ensures stored { MayNotStore result }
    ensures not_memory { result ≢ Memory }
    ensures full { result ≡ Full ↔ IsNoSpace (error_kind error.now) }
{
    match error.kind() {
        ErrorKind::StorageFull
        | ErrorKind::QuotaExceeded
        | ErrorKind::FileTooLarge
        | ErrorKind::OutOfMemory => StoreFault::Full,
        _ => StoreFault::Io,
    }
}

/// The fault for an error at naming a draft; never `Exists` if a file may be replaced.
pub fn name_fault(error: &io::Error, existing: Existing) -> StoreFault
    ensures named { MayNotName (is_replaced existing) result }
    ensures not_memory { result ≢ Memory }
    ensures exists { result ≡ Exists ↔ (existing ≡ Refused)
        × (error_kind error.now ≡ ErrorKind.AlreadyExists) }
    ensures full { result ≡ Full ↔ IsNoSpace (error_kind error.now) }
{
    if existing == Existing::Refused && error.kind() == ErrorKind::AlreadyExists {
        return StoreFault::Exists;
    }
    write_fault(error)
}
