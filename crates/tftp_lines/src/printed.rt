//! The lines that `tftpd` prints.

use std::fmt;
use tftp_ends::{Endpoint, Outcome};

/// A line that `tftpd` prints on standard output.
#[derive(Clone, Copy, Debug, PartialEq, Eq)]
pub enum Printed {
    /// The server waits for requests at this endpoint.
    Listening(Endpoint),
    /// A transfer closed: its port, its peer's port and its outcome.
    Closed {
        port: u16,
        peer: u16,
        outcome: Outcome,
    },
}

impl fmt::Display for Printed {
    ghost use Rattle.std.specs.Prelude.{Some};
    ghost use Rattle.tftp_lines.specs.Printed.{line_text};

    ghost output = { λ line. Some (line_text line) };

    fn fmt<W: fmt::Write>(&self, f: &mut fmt::Formatter<W>) -> fmt::Result {
        match self {
            Printed::Listening(endpoint) => write!(f, "listening {endpoint}"),
            Printed::Closed {
                port,
                peer,
                outcome,
            } => write!(f, "{port} {peer} {outcome}"),
        }
    }
}
