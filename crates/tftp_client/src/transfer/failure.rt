//! The outcome and the cause of a client's failed transfer.

ghost use Rattle.std.specs.Prelude.{◌≡◌, ◌≤◌};
ghost use Rattle.tftp_lines.specs.ClientOutcome.{status_of};
ghost use Rattle.tftp_lines.specs.declared.client_outcome.ClientOutcome.TheVariants as ends;

use crate::cause::Cause;
use crate::local_error::LocalError;
use std::alloc::AllocError;
use std::io;
use tftp_ends::OpenFault;
use tftp_lines::{ClientOutcome, reason_of};
use tftp_negotiate::Kind;

/// A transfer that failed, or was not opened.
#[derive(Drop)]
pub(crate) struct Failure {
    /// How the program ends.
    pub(crate) end: ClientOutcome,
    /// Its cause, unless that is how it ends: out of memory.
    pub(crate) cause: Option<Cause>,
    ghost fails: { 1 ≤ status_of end },
}

impl Failure {
    /// Out of memory.
    pub(crate) fn memory() -> Failure
        ensures { result.end ≡ ends.Memory }
    {
        Failure {
            end: ClientOutcome::Memory,
            cause: None,
        }
    }

    /// The local file cannot be used.
    pub(crate) fn of_file(error: LocalError) -> Failure
        ensures { result.end ≡ ends.FileFault }
    {
        Failure {
            end: ClientOutcome::FileFault,
            cause: Some(Cause::File(error)),
        }
    }

    /// A socket cannot be opened.
    pub(crate) fn of_socket(error: io::Error) -> Failure
        ensures { result.end ≡ ends.SocketFault }
    {
        Failure {
            end: ClientOutcome::SocketFault,
            cause: Some(Cause::Socket(reason_of(&error))),
        }
    }

    /// The transfer was not opened.
    pub(crate) fn of_opening(fault: OpenFault, kind: Kind) -> Failure
        ensures { result.end ≡ ends.NotOpened fault }
    {
        Failure {
            end: ClientOutcome::NotOpened(fault),
            cause: match fault {
                OpenFault::BadRequest => Some(Cause::Request),
                OpenFault::TooLarge => Some(Cause::too_large(kind)),
                OpenFault::SourceFault => Some(Cause::Local("shorter than it was")),
                OpenFault::Memory => None,
            },
        }
    }
}

impl From<AllocError> for Failure {
    ghost from_gives = { λ _ failure. failure.end ≡ ends.Memory };

    fn from(_error: AllocError) -> Failure {
        Failure::memory()
    }
}
