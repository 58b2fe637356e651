//! Whole lines out of what a server prints.

ghost use Rattle.std.specs.Prelude.{◌≡◌, ◌++◌, ◌∷◌, [], codes, false, true, OnOk};
ghost use Rattle.std.specs.Fmt.{decimal};
ghost use Rattle.std.specs.List.{list_any};
ghost use Rattle.std.specs.Str.{bytes_eq};
ghost use Rattle.tftp_supervisor.specs.Lines.{HasNoEnd, ended, first_passed, line_passed};
ghost use Rattle.tftp_supervisor.specs.Lines.{with_first};
ghost use Rattle.tftp_supervisor.specs.Output.{PassesOn, Takes, lines_in};

use std::alloc::{AllocError, Global};
use std::mem;

/// What a server prints.
#[derive(Drop)]
pub(crate) struct Output {
    /// Which server it is, counted from 1.
    pub(crate) server: u8,
    /// Whether a line of it has ended.
    pub(crate) has_printed: bool,
    /// The start of a line whose end has not come.
    begun: Vec<u8>,
    alloc: Global,
}

impl Output {
    /// Of a server that has printed nothing.
    pub(crate) fn new(alloc: Global, server: u8) -> Output
        ensures server { result.server ≡ server }
        ensures begun { result.begun.items ≡ [] }
        ensures has_printed { result.has_printed ≡ false }
    {
        Output {
            server,
            has_printed: false,
            begun: Vec::new(alloc),
            alloc,
        }
    }

    /// Takes bytes of the server's output, and adds to `out` what is printed of the lines that end in
    /// them, if no line ended in what had begun: so it is at the start, and after each call. The first
    /// line of a server says where it listens: it is printed only if no server has `announced` the
    /// same, and then joins those lines.
    pub(crate) fn pass_on(
        &mut self,
        announced: &mut Vec<Vec<u8>>,
        bytes: &[u8],
        out: &mut Vec<u8>,
    ) -> Result<(), AllocError>
        requires empty { out.old.items ≡ [] }
        ensures { HasNoEnd self.old.begun.items
            → OnOk result (PassesOn (lines_in announced.old.items) (lines_in announced.new.items)
            bytes.now self.old self.new out.new.items) }
    {
        for byte in bytes {
            self.take(announced, *byte, out)?;
        }
        Ok(())
    }

    /// Takes a byte of the server's output.
    fn take(
        &mut self,
        announced: &mut Vec<Vec<u8>>,
        byte: u8,
        out: &mut Vec<u8>,
    ) -> Result<(), AllocError>
        ensures { OnOk result (Takes (lines_in announced.old.items) (lines_in announced.new.items)
            byte self.old self.new out.old.items out.new.items) }
    {
        if byte == b'\n' {
            self.end_line(announced, out)
        } else {
            self.begun.push(byte)?;
            Ok(())
        }
    }

    /// Adds the line that ends to `out`, as it is to be printed.
    fn end_line(
        &mut self,
        announced: &mut Vec<Vec<u8>>,
        out: &mut Vec<u8>,
    ) -> Result<(), AllocError>
        ensures begun { OnOk result (self.new.begun.items ≡ []) }
        ensures printed { OnOk result (self.new.has_printed ≡ true) }
        ensures server { OnOk result (self.new.server ≡ self.old.server) }
        ensures out { OnOk result (out.new.items ≡ out.old.items
            ++ line_passed (lines_in announced.old.items) self.old.has_printed self.old.server
            self.old.begun.items) }
        ensures announces { OnOk result (lines_in announced.new.items
            ≡ with_first (lines_in announced.old.items) self.old.has_printed
            (self.old.begun.items ∷ [])) }
    {
        if self.has_printed {
            add_mark(self.alloc, out, self.server)?;
            add_line(out, self.begun.as_slice())?;
            self.begun.clear();
            return Ok(());
        }
        add_first(announced.as_slice(), out, self.begun.as_slice())?;
        announced.push(mem::replace(&mut self.begun, Vec::new(self.alloc)))?;
        self.has_printed = true;
        Ok(())
    }
}

/// Adds the first line of a server, if no other's was the same.
fn add_first(announced: &[Vec<u8>], out: &mut Vec<u8>, line: &[u8]) -> Result<(), AllocError>
    ensures { OnOk result (out.new.items ≡ out.old.items
        ++ first_passed (lines_in announced.now) line.now) }
{
    if is_among(announced, line) {
        return Ok(());
    }
    add_line(out, line)
}

/// Whether one of these lines is this one.
fn is_among(lines: &[Vec<u8>], line: &[u8]) -> bool
    ensures { result ≡ list_any (λ said. bytes_eq said line.now) (lines_in lines.now) }
{
    lines.iter().any(|said| is_same(said.as_slice(), line))
}

/// Whether two lines are the same.
fn is_same(said: &[u8], line: &[u8]) -> bool
    ensures { result ≡ bytes_eq said.now line.now }
{
    said == line
}

/// Adds which server a line is of.
fn add_mark(alloc: Global, out: &mut Vec<u8>, server: u8) -> Result<(), AllocError>
    ensures { OnOk result (out.new.items
        ≡ out.old.items ++ (codes "server " ++ decimal server ++ codes ": ")) }
{
    let mark = format!(in alloc; "server {server}: ")?;
    out.extend_from_slice(mark.as_bytes())
}

/// Adds a line, and its end.
fn add_line(out: &mut Vec<u8>, line: &[u8]) -> Result<(), AllocError>
    ensures { OnOk result (out.new.items ≡ out.old.items ++ ended line.now) }
{
    out.extend_from_slice(line)?;
    out.push(b'\n')?;
    Ok(())
}
