//! What is wrong in a faulty line of a script, and in which of its words.

ghost use Rattle.std.specs.Prelude.{◌≡◌, IfOk, option_map};
ghost use Rattle.tftp_play.specs.Flaw.{flaw_text, piece_of, word_of};

use crate::script::line::LineFault;
use std::fmt;

/// What is wrong in a faulty line of a script.
#[derive(Clone, Copy, PartialEq, Eq)]
pub enum Flaw {
    /// No line feed ends the line.
    Unended,
    /// A space stands first, last, or after another.
    EmptyWord,
    /// The line has too few or too many words for its first one.
    WordCount,
    /// A word is not UTF-8.
    Text,
    /// No line begins with this word.
    Keyword,
    /// A setting or a file comes after the first event.
    Late,
    /// There is no setting of this name.
    Setting,
    /// It is not a number, or out of its range.
    Number,
    /// The only value of this setting is `yes`.
    Yes,
    /// The name spells no path.
    Path,
    /// Another file has the same path.
    Taken,
    /// There is no mode of this name.
    Mode,
    /// There is no such option, or it is there twice.
    Option,
    /// An option is out of its range.
    Range,
    /// The content is neither `-`, nor hexadecimal digits, nor digits with a count, or it is too long.
    Content,
    /// All contents together are too long.
    Total,
    /// They are no hexadecimal digits.
    Digits,
    /// It is no address with a port.
    Endpoint,
    /// A stray does not come from the host of the server or of the clients.
    OwnHost,
}

impl fmt::Display for Flaw {
    ghost use Rattle.std.specs.Prelude.{Some};
    ghost use Rattle.tftp_play.specs.Flaw.{flaw_text};

    ghost output = { λ flaw. Some (flaw_text flaw) };

    fn fmt<W: fmt::Write>(&self, f: &mut fmt::Formatter<W>) -> fmt::Result {
        f.write_str(self.name())
    }
}

impl Flaw {
    /// The words for it, before the word of the line that is at fault.
    fn name(self) -> &'static str
        ensures { result.now ≡ flaw_text self }
    {
        match self {
            Flaw::Unended => "no line feed at the end",
            Flaw::EmptyWord => "one space stands between two words, and no other",
            Flaw::WordCount => "too few or too many words",
            Flaw::Text => "not UTF-8",
            Flaw::Keyword => "no such line",
            Flaw::Late => "after the first event",
            Flaw::Setting => "no setting",
            Flaw::Number => "no number in range",
            Flaw::Yes => "not yes",
            Flaw::Path => "no name of a file",
            Flaw::Taken => "two files of this name",
            Flaw::Mode => "no mode",
            Flaw::Option => "no option, or there twice",
            Flaw::Range => "an option out of its range",
            Flaw::Content => "no content",
            Flaw::Total => "more than 400000000 bytes of content",
            Flaw::Digits => "no hexadecimal digits",
            Flaw::Endpoint => "no address with a port",
            Flaw::OwnHost => "no other host",
        }
    }
}

/// A faulty line of a script.
#[derive(Clone, Copy, PartialEq, Eq)]
pub struct FaultyLine {
    /// Its number, counted from 1.
    pub number: usize,
    /// What is wrong in it.
    pub flaw: Flaw,
    /// The place of the word that is at fault, counted from 0; none if it is the whole line.
    pub place: Option<usize>,
}

impl FaultyLine {
    /// The word of the script that is at fault, if it is one.
    pub fn word<'t>(&self, script: &'t [u8]) -> Option<&'t [u8]>
        ensures { option_map (λ word. word.now) result ≡ word_of self.now script.now }
    {
        let place = self.place?;
        let line = piece(script, b'\n', self.number.checked_sub(1)?)?;
        piece(line, b' ', place)
    }
}

/// The part of this index, counted from 0, of all that are between separators.
fn piece(bytes: &[u8], separator: u8, index: usize) -> Option<&[u8]>
    ensures { option_map (λ part. part.now) result ≡ piece_of separator index bytes.now }
{
    bytes.split(|byte| *byte == separator).nth(index)
}

/// A word of a line, and its place there, counted from 0.
#[derive(Clone, Copy)]
pub(crate) struct Word<'a> {
    pub(crate) bytes: &'a [u8],
    pub(crate) place: usize,
}

impl<'a> Word<'a> {
    /// The fault of a line in which this word has this flaw.
    pub(crate) fn fault(&self, flaw: Flaw) -> LineFault {
        LineFault::Faulty(flaw, Some(self.place))
    }

    /// A part of the word.
    pub(crate) fn part(&self, bytes: &'a [u8]) -> Word<'a> {
        Word {
            bytes,
            place: self.place,
        }
    }

    /// The word as text.
    pub(crate) fn text(&self) -> Result<&'a str, LineFault>
        ensures { IfOk result (λ text. text.now ≡ self.now.bytes.now) }
    {
        match str::from_utf8(self.bytes) {
            Ok(text) => Ok(text),
            Err(_) => Err(self.fault(Flaw::Text)),
        }
    }
}
