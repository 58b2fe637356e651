//! **Trusted by reading**: lines on standard error, each of which is passed to the system whole.
//!
//! Review alone shows that a line is passed in one call: standard error has no model. The lines of
//! several servers at one standard error then do not mix: Linux writes so much to a file, a pipe or
//! the socket of a stream in one piece.

use std::fmt::Display;
use std::io::{self, ErrorKind};
use tftp_lines::WholeLine;

/// Standard error, to which a line can be passed whole.
pub trait ErrorLines: Eprint {
    /// Passes a line to the system, in one call.
    fn write_line(&self, line: &WholeLine) -> io::Result<()>;
}

impl ErrorLines for HostRuntime {
    fn write_line(&self, line: &WholeLine) -> io::Result<()> {
        Print::write_all(&self.stderr(), line.as_bytes())
    }
}

/// Standard error, to which each line is passed whole, whatever its text: the `eprintln` of a runtime
/// passes a long line in several calls.
#[derive(Drop)]
pub struct WholeLines<'a, E> {
    errors: &'a E,
}

impl<'a, E> WholeLines<'a, E> {
    /// Standard error of this runtime.
    pub fn new(errors: &'a E) -> WholeLines<'a, E> {
        WholeLines { errors }
    }
}

impl<E: ErrorLines> Eprint for WholeLines<'_, E> {
    fn eprint<D: Display + Drop>(&self, value: D) -> io::Result<()> {
        self.errors.eprint(value)
    }

    fn eprintln<D: Display + Drop>(&self, value: D) -> io::Result<()> {
        match WholeLine::of(value) {
            Ok(line) => self.errors.write_line(&line),
            Err(_) => Err(io::Error::from(ErrorKind::InvalidData)),
        }
    }
}
