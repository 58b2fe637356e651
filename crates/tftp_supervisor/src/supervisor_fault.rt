//! Why a supervisor ended.

ghost use Rattle.std.specs.Prelude.{◌≡◌, ◌≢◌};
ghost use Rattle.std.specs.IoError.{error_kind};
ghost use Rattle.tftp_supervisor.specs.declared.supervisor_fault.SupervisorFault.TheVariants as faults;

use std::alloc::AllocError;
use std::io::{self, ErrorKind};
use std::process::ExitStatus;

/// Why a supervisor ended. No server of it is left.
#[derive(Drop)]
pub enum SupervisorFault {
    /// A server ended, counted from 1: so.
    Ended(u8, ExitStatus),
    /// The system did not say which file the program is, by its link below `/proc`.
    Program(io::Error),
    /// The system refused to start a server, or to watch its output.
    System(io::Error),
    /// A line could not be printed.
    Output,
    /// Out of memory.
    Memory,
}

impl SupervisorFault {
    /// The fault of a system that does not say which file the program is.
    pub(crate) fn of_program(error: io::Error) -> SupervisorFault
        ensures memory { error_kind error ≡ ErrorKind.OutOfMemory → result ≡ faults.Memory }
        ensures program { error_kind error ≢ ErrorKind.OutOfMemory
            → result ≡ faults.Program error }
    {
        if error.kind() == ErrorKind::OutOfMemory {
            return SupervisorFault::Memory;
        }
        SupervisorFault::Program(error)
    }

    /// The fault of a call that the system refused.
    pub(crate) fn of(error: io::Error) -> SupervisorFault
        ensures memory { error_kind error ≡ ErrorKind.OutOfMemory → result ≡ faults.Memory }
        ensures system { error_kind error ≢ ErrorKind.OutOfMemory
            → result ≡ faults.System error }
    {
        if error.kind() == ErrorKind::OutOfMemory {
            return SupervisorFault::Memory;
        }
        SupervisorFault::System(error)
    }
}

impl From<AllocError> for SupervisorFault {
    ghost from_gives = { λ _ fault. fault ≡ faults.Memory };

    fn from(_: AllocError) -> SupervisorFault {
        SupervisorFault::Memory
    }
}
