//! Where the log of a server goes.

ghost use Rattle.std.specs.Prelude.{◌≡◌};
ghost use Rattle.tftp_loop.specs.Hinted.{is_anywhere};

use crate::serving::LoopConfig;
use std::alloc::Global;
use tftp_ends::Endpoint;
use tftp_lines::{LogLine, Logged};

/// The address of a server that is at each address of its host.
const EVERY_ADDRESS: [u8; 4] = [0, 0, 0, 0];

/// The log of a server, on standard error.
#[derive(Clone, Copy)]
pub(crate) struct Log {
    /// For the texts of its lines.
    pub(crate) alloc: Global,
    /// Whether there is one.
    pub(crate) is_written: bool,
    /// Whether a warning begins with its priority.
    pub(crate) has_priority: bool,
    /// Whether the server is at each address of its host: it answers from the one that the system
    /// chooses.
    pub(crate) is_anywhere: bool,
}

impl Log {
    /// The log of a server with its request port at this endpoint.
    pub(crate) fn new(alloc: Global, config: &LoopConfig, requests: Endpoint) -> Log
        ensures { result.is_anywhere ≡ is_anywhere requests }
    {
        Log {
            alloc,
            is_written: config.logs,
            has_priority: config.has_priority,
            is_anywhere: requests.ip == EVERY_ADDRESS,
        }
    }

    /// Writes a line. What cannot be written is lost.
    pub(crate) fn write<E: Eprint>(self, rt: &E, line: LogLine<'_>) {
        let logged = Logged {
            line,
            has_priority: self.has_priority,
        };
        let _ = eprintln!(rt; "{logged}");
    }
}
