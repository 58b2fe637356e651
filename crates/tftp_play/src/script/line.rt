//! The parser of one line of a script.

ghost use Rattle.std.specs.Prelude.{◌≡◌, ◌≢◌, ◌++◌, ◌∷◌, [], true, is_some, IfErr, OnErr, OnOk};
ghost use Rattle.tftp_play.specs.declared.script.line.LineFault.TheVariants.{Memory};
ghost use Rattle.tftp_store.specs.Memory.{contents};
ghost use Rattle.tftp_store.specs.Store.{file_at};

use crate::script::Statement;
use crate::script::flaw::{Flaw, Word};
use crate::script::keyword::Keyword;
use crate::script::parser::Parser;
use crate::script::setting::Setting;
use crate::script::statement::statement_of;
use crate::script::word::{content, path};
use std::alloc::{AllocError, AllocFailed};
use tftp_file::Path;
use tftp_wire::Bytes;

/// Why a line is refused.
#[derive(Clone, Copy)]
pub(crate) enum LineFault {
    /// It is not a line of the language, or is not allowed here: what is wrong, and the place of the
    /// word, if it is one.
    Faulty(Flaw, Option<usize>),
    /// An allocation failed; the line is not at fault.
    Memory,
}

/// The fault of a line with too few or too many words.
pub(crate) const WORD_COUNT: LineFault = LineFault::Faulty(Flaw::WordCount, None);

impl Parser {
    /// Parses one line with its line feed, and adds its statement or setting.
    pub(crate) fn parse_line(&mut self, line: &[u8]) -> Result<(), LineFault> {
        match line {
            [b'\n'] => Ok(()),
            [b'#', text @ .., b'\n'] => self.push_comment(text),
            [line @ .., b'\n'] => {
                let words: Vec<Word<'_>> = line
                    .split(|byte| *byte == b' ')
                    .enumerate()
                    .map(|(place, bytes)| Word { bytes, place })
                    .collect(self.alloc)?;
                self.parse_words(words.as_slice())
            }
            _ => Err(LineFault::Faulty(Flaw::Unended, None)),
        }
    }

    /// Parses the words of a line, none of which may be empty.
    fn parse_words(&mut self, words: &[Word<'_>]) -> Result<(), LineFault> {
        let [first, arguments @ ..] = words else {
            return Err(WORD_COUNT);
        };
        for word in words {
            if word.bytes.is_empty() {
                return Err(LineFault::Faulty(Flaw::EmptyWord, None));
            }
        }
        match Keyword::of_word(first)? {
            Keyword::Set | Keyword::File if self.has_begun => Err(first.fault(Flaw::Late)),
            Keyword::Set => self.parse_setting(arguments),
            Keyword::File => self.parse_file(arguments),
            Keyword::Statement(kind) => {
                match statement_of(kind, self.alloc, arguments, &mut self.left) {
                    Ok(statement) => self.push(statement),
                    Err(fault) => Err(fault),
                }
            }
        }
    }

    /// `set NAME N`: sets a number of the configuration.
    fn parse_setting(&mut self, arguments: &[Word<'_>]) -> Result<(), LineFault>
        ensures err { OnErr result (self.new.config ≡ self.old.config) }
    {
        let [name, value] = arguments else {
            return Err(WORD_COUNT);
        };
        let config = Setting::of_word(name)?.set(self.config, value)?;
        if !config.is_valid() {
            return Err(value.fault(Flaw::Number));
        }
        self.config = config;
        Ok(())
    }

    /// `file NAME CONTENT`: adds a file of the server.
    fn parse_file(&mut self, arguments: &[Word<'_>]) -> Result<(), LineFault> {
        let [name, bytes] = arguments else {
            return Err(WORD_COUNT);
        };
        let path = path(self.alloc, name)?;
        let bytes = content(self.alloc, bytes, &mut self.left)?;
        self.add_file(name, path, bytes)
    }

    /// Adds a file of the server, at a path that no other file has.
    fn add_file(&mut self, name: &Word<'_>, path: Path, bytes: Vec<u8>) -> Result<(), LineFault>
        ensures ok { OnOk result (self.new.files.list.items
            ≡ self.old.files.list.items ++ (path, bytes) ∷ []) }
        ensures faulty { IfErr result (λ fault. fault ≢ Memory
            → is_some (file_at path (contents self.old.files.list.items)) ≡ true) }
        ensures err { OnErr result (self.new.files.list.items ≡ self.old.files.list.items) }
    {
        match self.files.add(path, bytes) {
            Ok(true) => Ok(()),
            Ok(false) => Err(name.fault(Flaw::Taken)),
            Err(_) => Err(LineFault::Memory),
        }
    }

    fn push(&mut self, statement: Statement) -> Result<(), LineFault>
        ensures { OnOk result (self.new.has_begun ≡ true) }
    {
        self.statements.push(statement)?;
        self.has_begun = true;
        Ok(())
    }

    /// Adds a comment, after which `set` and `file` are allowed as before.
    fn push_comment(&mut self, text: &[u8]) -> Result<(), LineFault>
        ensures begun { self.new.has_begun ≡ self.old.has_begun }
        ensures config { self.new.config ≡ self.old.config }
        ensures memory { IfErr result (λ fault. fault ≡ Memory) }
    {
        let comment = Statement::Comment(Bytes::from_slice(self.alloc, text)?);
        self.statements.push(comment)?;
        Ok(())
    }
}

impl From<AllocError> for LineFault {
    ghost from_gives = { λ _ fault. fault ≡ Memory };

    fn from(_error: AllocError) -> LineFault {
        LineFault::Memory
    }
}

impl<T: Drop> From<AllocFailed<T>> for LineFault {
    ghost from_gives = { λ _ fault. fault ≡ Memory };

    fn from(_error: AllocFailed<T>) -> LineFault {
        LineFault::Memory
    }
}
