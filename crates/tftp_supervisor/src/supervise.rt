//! The supervisor of a program's own servers.

ghost use Rattle.std.specs.Prelude.{◌≡◌, List, length, map, OnOk};
ghost use Rattle.std.specs.String.{string_bytes};
ghost use Rattle.tftp_supervisor.specs.PassedOn.{AlwaysPassedOn, PassedOn};
ghost use Rattle.tftp_supervisor.specs.ProcessEvent.{AllSucceeded, EachEnded, ProcessEvent};
ghost use Rattle.tftp_supervisor.specs.ProcessEvent.{StartsFirst, started_in};

use crate::supervisor_fault::SupervisorFault;
use std::io;
use std::net::SocketAddr;
use std::os::fd::OwnedFd;

/// Where the requests of a server arrive.
#[derive(Drop)]
pub enum Place {
    /// At this socket.
    Bound(OwnedFd),
    /// At this address, which the host does not have yet: it is tried to bind a socket there each second.
    Absent(SocketAddr),
}

/// Starts servers of its own program, and supervises them.
pub trait Supervise {
    /// What a supervisor did. Only clauses read it, and nothing but a supervisor makes one.
    type History: Drop;

    /// What was done with the servers, and what was printed, the newest first.
    ghost supervised: { Self.History → List ProcessEvent };

    /// A UDP socket that is bound there, to be passed to servers.
    fn bind_shared(&self, at: SocketAddr) -> io::Result<OwnedFd>;

    /// Starts a server for each of these command lines, whose first word is the program's name,
    /// with the socket of its place as its standard input, and prints what they print, each line with
    /// its server. The process of one whose address is absent begins once the host has that.
    ///
    /// It returns `Ok` once each of them has ended with the status 0, and an error once one of them
    /// ended otherwise or could not be started, or a line could not be printed: then it has ended
    /// all of them. So it is, too, once those alone are left whose address is absent. A 256th server
    /// is refused, as the system refuses one, and one without a place.
    fn supervise(
        &self,
        places: &[Place],
        servers: &[Vec<String>],
    ) -> (Result<(), SupervisorFault>, Self::History)
        // A server is started for each command line, in their order, as far as it comes.
        ensures started { StartsFirst (map (λ line. map string_bytes line.items) servers.now)
            (supervised result.1) }
        ensures all { OnOk result.0 (started_in (supervised result.1)
            ≡ map (λ line. map string_bytes line.items) servers.now) }
        // None is left behind, and on `Ok` each had the status 0.
        ensures ended { EachEnded (supervised result.1) }
        ensures succeeded { OnOk result.0 (AllSucceeded (length servers.now)
            (supervised result.1)) }
        // Whole lines are printed, each with its server, and none is left out or printed twice.
        ensures passed { OnOk result.0 (PassedOn (supervised result.1)) }
        ensures always { AlwaysPassedOn (supervised result.1) };
}
