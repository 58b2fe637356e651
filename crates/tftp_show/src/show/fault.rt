//! Why an input is not shown to its end, and the message for it.

ghost use Rattle.std.specs.Prelude.{◌≡◌, ◌≢◌, IsTrue, ◌↔◌};
ghost use Rattle.std.specs.IoError.{error_kind};
ghost use Rattle.std.specs.declared.io.ErrorKind.TheVariants as error_kinds;
ghost use Rattle.tftp_show.specs.declared.show.fault.ShowFault.TheVariants.{Closed, Memory};
ghost use Rattle.tftp_show.specs.declared.show.fault.ShowFault.TheVariants.{Unreadable, Unwritable};

use std::alloc::AllocError;
use std::fmt;
use std::io::{self, ErrorKind, Write};
use thiserror::Error;

/// Why an input was not shown to its end.
#[derive(Clone, Copy, Debug, PartialEq, Eq, Error)]
pub enum ShowFault {
    /// Reading failed.
    Unreadable,
    /// Writing failed.
    Unwritable,
    /// The output is a pipe that nobody reads any more.
    Closed,
    /// An allocation failed.
    Memory,
    /// A line is longer than that of any datagram.
    Long,
    /// The picture could not be opened or written.
    Undrawn,
    /// The capture has no transfer of this number.
    NoTransfer,
}

impl fmt::Display for ShowFault {
    fn fmt<W: fmt::Write>(&self, f: &mut fmt::Formatter<W>) -> fmt::Result {
        f.write_str(match self {
            ShowFault::Unreadable => "input unreadable",
            ShowFault::Unwritable => "output unwritable",
            ShowFault::Closed => "output closed",
            ShowFault::Memory => "out of memory",
            ShowFault::Long => "a line is longer than a datagram",
            ShowFault::Undrawn => "svg unwritable",
            ShowFault::NoTransfer => "no such transfer",
        })
    }
}

impl ShowFault {
    /// The fault for this error of reading.
    pub(crate) fn of_reading(error: &io::Error) -> ShowFault
        ensures memory { error_kind error.now ≡ ErrorKind.OutOfMemory → result ≡ Memory }
        ensures unreadable { error_kind error.now ≢ ErrorKind.OutOfMemory → result ≡ Unreadable }
    {
        if is_of(error, ErrorKind::OutOfMemory) {
            ShowFault::Memory
        } else {
            ShowFault::Unreadable
        }
    }

    /// Writes the message of the fault, and returns the status of the program. A closed pipe has no
    /// message: whoever closed it wants no more, as `head` does after its last line.
    pub(crate) fn report<E: Write>(self, errors: &mut E) -> u8
        ensures { result ≡ 2 }
    {
        if self != ShowFault::Closed {
            let _ = writeln!(errors, "tftp-show: {self}");
        }
        2
    }
}

impl From<AllocError> for ShowFault {
    ghost from_gives = { λ _ fault. fault ≡ Memory };

    fn from(_error: AllocError) -> ShowFault {
        ShowFault::Memory
    }
}

/// The fault for this error of writing.
impl From<io::Error> for ShowFault {
    ghost from_gives = { λ error fault.
        (error_kind error ≡ error_kinds.OutOfMemory → fault ≡ Memory)
        × (error_kind error ≡ error_kinds.BrokenPipe → fault ≡ Closed)
        × (error_kind error ≢ error_kinds.OutOfMemory → error_kind error ≢ error_kinds.BrokenPipe
        → fault ≡ Unwritable) };

    fn from(error: io::Error) -> ShowFault {
        if is_of(&error, ErrorKind::OutOfMemory) {
            ShowFault::Memory
        } else if is_of(&error, ErrorKind::BrokenPipe) {
            ShowFault::Closed
        } else {
            ShowFault::Unwritable
        }
    }
}

fn is_of(error: &io::Error, kind: ErrorKind) -> bool
    ensures { IsTrue result ↔ (error_kind error.now ≡ kind) }
{
    error.kind() == kind
}
