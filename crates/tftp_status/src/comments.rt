//! The lines of the open transfers in a status file.

ghost use Rattle.std.specs.Prelude.{◌≡◌, ◌≢◌, [], All, IsTrue};
ghost use Rattle.std.specs.String.{string_bytes};
ghost use Rattle.tftp_status.specs.Comments.{AreComments, IsOneLine, IsOpenLine};

use crate::open_line::OpenLine;
use std::alloc::Global;
use std::marker::Model;
use tftp_sockets::OpenTransfer;

/// The lines of open transfers. Each is a comment, which Prometheus leaves out: no line is a sample.
/// Its model is the text.
#[derive(Drop)]
pub struct Comments {
    alloc: Global,
    text: String,
}

impl Model for Comments {
    ghost use Rattle.std.specs.Prelude.{ℕ, List};
    ghost use Rattle.std.specs.String.{string_bytes};
    ghost use Rattle.tftp_status.specs.Comments.{AreComments};

    ghost Value = { List ℕ };

    ghost view = { λ comments. string_bytes comments.text };

    ghost invariant = { λ comments. AreComments (string_bytes comments.text) };
}

impl Comments {
    /// No line.
    pub fn new(alloc: Global) -> Comments
        ensures { result ≡ [] }
    {
        Comments {
            alloc,
            text: String::new(alloc),
        }
    }

    /// Adds the line of an open transfer. Out of memory it is left out, as is one that would be more
    /// than one line.
    pub fn add(&mut self, transfer: OpenTransfer<'_>)
        ensures { AreComments self.new }
    {
        let line = OpenLine(transfer);
        if let Ok(text) = format!(in self.alloc; "{line}") {
            if is_one_line(text.as_bytes()) {
                push(&mut self.text, text.as_str());
            }
        }
    }

    /// Leaves out all lines.
    pub fn clear(&mut self)
        ensures { self.new ≡ [] }
    {
        self.text.clear();
    }

    /// The text of the lines.
    pub fn as_str(&self) -> &str
        ensures text { result.now ≡ self.now }
        ensures comments { AreComments result.now }
    {
        self.text.as_str()
    }
}

/// Adds the line of an open transfer. Out of memory it is left out.
fn push(text: &mut String, line: &str)
    requires text { AreComments (string_bytes text.old) }
    requires line { IsOpenLine line.now }
    ensures { AreComments (string_bytes text.new) }
{
    match text.push_str(line) {
        Ok(()) => {}
        Err(_) => {}
    }
}

/// Whether a text is one line, with its end.
fn is_one_line(text: &[u8]) -> bool
    ensures { IsTrue result → IsOneLine text.now }
{
    match text.split_last() {
        Some((last, body)) => *last == b'\n' && has_no_end(body),
        None => false,
    }
}

/// Whether no line ends in a text.
fn has_no_end(text: &[u8]) -> bool
    ensures { IsTrue result → All (λ byte. byte ≢ 10) text.now }
{
    text.iter().all(|byte| *byte != b'\n')
}
