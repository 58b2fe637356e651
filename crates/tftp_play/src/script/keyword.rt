//! The first words of a script's lines.

use crate::script::flaw::{Flaw, Word};
use crate::script::line::LineFault;

/// The first word of a line, which decides what its other words mean.
#[derive(Clone, Copy)]
pub(crate) enum Keyword {
    /// A number of the configuration.
    Set,
    /// A file of the server.
    File,
    /// A statement of this kind.
    Statement(StatementKind),
}

/// What a statement does.
#[derive(Clone, Copy)]
pub(crate) enum StatementKind {
    /// A client that reads a file.
    Get,
    /// A client that writes a file.
    Put,
    /// A datagram that arrives.
    Deliver,
    /// A timeout of an end.
    Timeout,
    /// A receiver that is set to refuse.
    Refuse,
    /// Datagrams that arrive one after another.
    Settle,
    /// Events that are drawn.
    Random,
    /// A datagram of neither host.
    Stray,
}

/// Each keyword, and how it is spelled.
static KEYWORDS: [(&str, Keyword); 10] = [
    ("set", Keyword::Set),
    ("file", Keyword::File),
    ("get", Keyword::Statement(StatementKind::Get)),
    ("put", Keyword::Statement(StatementKind::Put)),
    ("deliver", Keyword::Statement(StatementKind::Deliver)),
    ("timeout", Keyword::Statement(StatementKind::Timeout)),
    ("refuse", Keyword::Statement(StatementKind::Refuse)),
    ("settle", Keyword::Statement(StatementKind::Settle)),
    ("random", Keyword::Statement(StatementKind::Random)),
    ("stray", Keyword::Statement(StatementKind::Stray)),
];

impl Keyword {
    /// The keyword that the word spells.
    pub(crate) fn of_word(word: &Word<'_>) -> Result<Keyword, LineFault> {
        let text = word.text()?;
        for (spelling, keyword) in &KEYWORDS {
            if *spelling == text {
                return Ok(*keyword);
            }
        }
        Err(word.fault(Flaw::Keyword))
    }
}
