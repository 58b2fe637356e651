//! Why a file here cannot be used.

ghost use Rattle.std.specs.Prelude.{◌≡◌, ◌≢◌};
ghost use Rattle.tftp_file.specs.declared.fault.StoreFault.TheVariants.{Memory};

use std::alloc::AllocError;
use std::fmt;
use std::io::{self, ErrorKind};
use tftp_disk::{Existing, name_fault};
use tftp_file::StoreFault;
use tftp_lines::reason_of;

/// Why a local file cannot be read, written or named. `{}` writes it in words.
#[derive(Clone, Copy)]
pub(crate) enum LocalError {
    /// `LOCAL` is empty.
    EmptyPath,
    /// A file has the name `LOCAL`, and is not to be replaced.
    Exists,
    /// `LOCAL` is a folder, a link, a FIFO or a device.
    NotAFile,
    /// `LOCAL.part` is a folder.
    PartIsAFolder,
    /// Another file has the name `LOCAL.part` by now.
    PartReplaced,
    /// The file states a length of 0, and has a byte.
    LengthUnknown,
    /// The file cannot be read.
    Unreadable,
    /// The file is longer than can be counted.
    TooLong,
    /// The system refused a call.
    System(io::Error),
}

impl LocalError {
    /// The fault of a file that cannot be written or named.
    pub(crate) fn fault(&self) -> StoreFault
        ensures { result ≢ Memory }
    {
        match self {
            LocalError::Exists | LocalError::NotAFile => StoreFault::Exists,
            LocalError::TooLong => StoreFault::Full,
            LocalError::System(error) => name_fault(error, Existing::Refused),
            LocalError::EmptyPath
            | LocalError::PartIsAFolder
            | LocalError::PartReplaced
            | LocalError::LengthUnknown
            | LocalError::Unreadable => StoreFault::Io,
        }
    }
}

impl From<io::Error> for LocalError {
    ghost use Rattle.tftp_client.specs.declared.local_error.LocalError.TheVariants.{System};

    ghost from_gives = { λ error local. local ≡ System error };

    fn from(error: io::Error) -> LocalError {
        LocalError::System(error)
    }
}

impl From<AllocError> for LocalError {
    ghost use Rattle.tftp_client.specs.LocalError.{IsOutOfMemory};

    ghost from_gives = { λ _ local. IsOutOfMemory local };

    fn from(_error: AllocError) -> LocalError {
        LocalError::System(io::Error::from(ErrorKind::OutOfMemory))
    }
}

impl fmt::Display for LocalError {
    ghost use Rattle.std.specs.Prelude.{Some};
    ghost use Rattle.tftp_client.specs.LocalError.{local_error_text};

    ghost output = { λ error. Some (local_error_text error) };

    fn fmt<W: fmt::Write>(&self, f: &mut fmt::Formatter<W>) -> fmt::Result {
        let words = match self {
            LocalError::System(error) => {
                let reason = reason_of(error);
                return write!(f, "{reason}");
            }
            LocalError::EmptyPath => "the path is empty",
            LocalError::Exists => "exists (--replace replaces it)",
            LocalError::NotAFile => "not a file",
            LocalError::PartIsAFolder => "a folder has this name with .part",
            LocalError::PartReplaced => "another file has this name with .part",
            LocalError::LengthUnknown => "length unknown",
            LocalError::Unreadable => "cannot be read",
            LocalError::TooLong => "file too large",
        };
        f.write_str(words)
    }
}
