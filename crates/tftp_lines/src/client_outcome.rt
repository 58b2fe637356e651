//! How a run of `tftp` ended: its last line and its status.

ghost use Rattle.std.specs.Prelude.{◌≡◌};
ghost use Rattle.tftp_lines.specs.ClientOutcome.{open_fault_word, status_of};

use std::fmt;
use tftp_ends::{OpenFault, Outcome};

/// How a run of `tftp` ended. `{}` writes its last line, which goes to standard output for a
/// complete transfer and to standard error otherwise.
#[derive(Clone, Copy, Debug, PartialEq, Eq)]
pub enum ClientOutcome {
    /// The transfer is complete; the length of the local file, in bytes.
    Complete(u64),
    /// The transfer was opened, and is not complete.
    Failed(Outcome),
    /// The local file exists already, or cannot be opened.
    FileFault,
    /// A socket cannot be opened.
    SocketFault,
    /// The transfer was not opened.
    NotOpened(OpenFault),
    /// Out of memory.
    Memory,
}

impl ClientOutcome {
    /// The exit status of the program: 0 for a complete transfer, 1 for one that failed, 2 if none
    /// was opened.
    pub fn status(self) -> u8
        ensures { result ≡ status_of self }
    {
        match self {
            ClientOutcome::Complete(_) => 0,
            ClientOutcome::Failed(_) => 1,
            ClientOutcome::FileFault
            | ClientOutcome::SocketFault
            | ClientOutcome::NotOpened(_)
            | ClientOutcome::Memory => 2,
        }
    }
}

/// The word for the fault of an opening.
fn open_fault_word(fault: OpenFault) -> &'static str
    ensures { result.now ≡ open_fault_word fault }
{
    match fault {
        OpenFault::BadRequest => "BadRequest",
        OpenFault::TooLarge => "TooLarge",
        OpenFault::SourceFault => "SourceFault",
        OpenFault::Memory => "Memory",
    }
}

impl fmt::Display for ClientOutcome {
    ghost use Rattle.std.specs.Prelude.{Some};
    ghost use Rattle.tftp_lines.specs.ClientOutcome.{end_text};

    ghost output = { λ end. Some (end_text end) };

    fn fmt<W: fmt::Write>(&self, f: &mut fmt::Formatter<W>) -> fmt::Result {
        match *self {
            ClientOutcome::Complete(count) => write!(f, "complete {count}"),
            ClientOutcome::Failed(outcome) => write!(f, "tftp: {outcome}"),
            ClientOutcome::FileFault => f.write_str("tftp: file fault"),
            ClientOutcome::SocketFault => f.write_str("tftp: socket fault"),
            ClientOutcome::NotOpened(fault) => {
                let word = open_fault_word(fault);
                write!(f, "tftp: {word}")
            }
            ClientOutcome::Memory => f.write_str("tftp: out of memory"),
        }
    }
}
