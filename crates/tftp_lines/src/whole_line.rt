//! A line that is passed to the system in one call, whatever its text.

ghost use Rattle.std.specs.Prelude.{◌≡◌, [], IfOk, IfSome};
ghost use Rattle.tftp_lines.specs.WholeLine.{IsLineText, IsWholeLine, ended, line_of, on_line};
ghost use Rattle.tftp_lines.specs.WholeLine.{with_byte, with_bytes};

use arrayvec::ArrayVec;
use std::fmt;
use std::fmt::Write;
use std::marker::Model;

/// The most bytes of a line, with its end: as many as Linux passes through a pipe in one piece
/// (`PIPE_BUF` in pipe(7)).
pub const LONGEST_LINE: usize = 4096;

/// The most bytes of a line before its end.
const LONGEST_TEXT: usize = 4095;

/// A line with its end, which is the only one in it. Its model is its bytes.
#[derive(Drop)]
pub struct WholeLine {
    bytes: ArrayVec<u8, LONGEST_LINE>,
}

impl Model for WholeLine {
    ghost use Rattle.std.specs.Prelude.{List, ℕ};
    ghost use Rattle.tftp_lines.specs.WholeLine.{IsWholeLine};

    ghost Value = { List ℕ };

    ghost view = { λ line. line.bytes.items };

    ghost invariant = { λ line. IsWholeLine line.bytes.items };
}

impl WholeLine {
    /// The line of a value: its text, up to the longest that a line may have. An end of a line in it
    /// is a space. It fails only if the value does.
    pub fn of<D: fmt::Display + Drop>(value: D) -> Result<WholeLine, fmt::Error>
        ensures { IfOk result (λ line. IfSome (D.output value) (λ text. line ≡ line_of text)) }
    {
        let mut text = LineText::new();
        match text.write(value) {
            Ok(()) => Ok(text.into_line()),
            Err(error) => Err(error),
        }
    }

    /// The bytes, with the end.
    pub fn as_bytes(&self) -> &[u8]
        ensures value { result.now ≡ self.now }
        ensures line { IsWholeLine self.now }
    {
        self.bytes.as_slice()
    }
}

/// The text of a line that is being written. Its model is its bytes.
#[derive(Drop)]
struct LineText {
    bytes: ArrayVec<u8, LONGEST_LINE>,
}

impl Model for LineText {
    ghost use Rattle.std.specs.Prelude.{List, ℕ};
    ghost use Rattle.tftp_lines.specs.WholeLine.{IsLineText};

    ghost Value = { List ℕ };

    ghost view = { λ text. text.bytes.items };

    ghost invariant = { λ text. IsLineText text.bytes.items };
}

impl LineText {
    /// A text without a byte.
    fn new() -> LineText
        ensures { result ≡ [] }
    {
        LineText {
            bytes: ArrayVec::new(),
        }
    }

    /// Adds a byte, if there is room.
    fn push(&mut self, byte: u8)
        ensures { self.new ≡ with_byte self.old byte }
    {
        if self.bytes.len() < LONGEST_TEXT {
            self.bytes.push(on_line(byte));
        }
    }

    /// Adds bytes, as far as there is room.
    fn push_all(&mut self, bytes: &[u8])
        ensures { self.new ≡ with_bytes self.old bytes.now }
    {
        for byte in bytes {
            self.push(*byte);
        }
    }

    /// The text with its end.
    fn into_line(self) -> WholeLine
        ensures { result ≡ ended self }
    {
        let mut bytes = self.bytes;
        bytes.push(b'\n');
        WholeLine { bytes }
    }
}

/// A byte as a line has it.
fn on_line(byte: u8) -> u8
    ensures { result ≡ on_line byte }
{
    if byte == b'\n' { b' ' } else { byte }
}

impl fmt::Write for LineText {
    ghost write_str_gives = { λ old text new. new ≡ with_bytes old text };

    fn write_str(&mut self, s: &str) -> fmt::Result {
        self.push_all(s.as_bytes());
        Ok(())
    }
}
