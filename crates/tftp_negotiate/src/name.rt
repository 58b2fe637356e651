//! The names of the known options.

ghost use Rattle.std.specs.Prelude.{◌≡◌, not, false};
ghost use Rattle.tftp_negotiate.specs.Options.{means, name_of, name_text};
ghost use Rattle.tftp_negotiate.specs.Names.{has, has_name, with_name};

use std::mem;

/// The name of a known option.
#[derive(Clone, Copy, Debug, PartialEq, Eq)]
pub enum Name {
    /// `blksize` (RFC 2348).
    Blksize,
    /// `timeout` (RFC 2349).
    Timeout,
    /// `tsize` (RFC 2349).
    Tsize,
}

impl Name {
    /// The name in lower case, as it is sent.
    pub fn text(self) -> &'static str
        ensures { result.now ≡ name_text self }
    {
        match self {
            Name::Blksize => "blksize",
            Name::Timeout => "timeout",
            Name::Tsize => "tsize",
        }
    }

    /// The known option of this name, in any case (RFC 2347, "Packet Formats").
    #[inline(never)]
    pub fn of(text: &[u8]) -> Option<Name>
        ensures { result ≡ name_of text.now }
    {
        if means(text, Name::Blksize) {
            Some(Name::Blksize)
        } else if means(text, Name::Timeout) {
            Some(Name::Timeout)
        } else if means(text, Name::Tsize) {
            Some(Name::Tsize)
        } else {
            None
        }
    }
}

/// Whether the text is this name, in any case.
#[inline(never)]
fn means(text: &[u8], name: Name) -> bool
    ensures { result ≡ means text.now name }
{
    text.eq_ignore_ascii_case(name.text().as_bytes())
}

/// A set of known names.
#[derive(Clone, Copy)]
pub(crate) struct Names {
    blksize: bool,
    timeout: bool,
    tsize: bool,
}

impl Names {
    /// The empty set.
    pub(crate) fn new() -> Names
        ensures none { (name : Name) → has result name ≡ false }
    {
        Names {
            blksize: false,
            timeout: false,
            tsize: false,
        }
    }

    /// Adds a name, and returns whether the set did not have it. An unknown name is always new.
    pub(crate) fn insert(&mut self, name: Option<Name>) -> bool
        ensures new { result ≡ not (has_name self.old name) }
        ensures added { self.new ≡ with_name self.old name }
    {
        match name {
            None => true,
            Some(Name::Blksize) => !mem::replace(&mut self.blksize, true),
            Some(Name::Timeout) => !mem::replace(&mut self.timeout, true),
            Some(Name::Tsize) => !mem::replace(&mut self.tsize, true),
        }
    }
}
