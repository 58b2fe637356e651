//! A script that is parsed line by line.

ghost use Rattle.tftp_server.specs.Config.{IsConfig};

use crate::script::files::Files;
use crate::script::{Script, Statement};
use std::alloc::Global;
use tftp_server::Config;

/// The most bytes of all contents of a script together: they are in memory at once.
const MAX_TOTAL: usize = 400_000_000;

/// What was parsed of a script.
#[derive(Drop)]
pub(crate) struct Parser {
    pub(crate) alloc: Global,
    pub(crate) config: Config,
    pub(crate) files: Files,
    pub(crate) statements: Vec<Statement>,
    /// Whether one of the statements is no comment.
    pub(crate) has_begun: bool,
    /// How many bytes of content may follow.
    pub(crate) left: usize,
    ghost valid: { IsConfig config },
}

impl Parser {
    /// Nothing was parsed.
    pub(crate) fn new(alloc: Global) -> Parser {
        Parser {
            alloc,
            config: Config::default(),
            files: Files::new(alloc),
            statements: Vec::new(alloc),
            has_begun: false,
            left: MAX_TOTAL,
        }
    }

    /// The script.
    pub(crate) fn finish(self) -> Script {
        Script {
            config: self.config,
            files: self.files.into_list(),
            statements: self.statements,
        }
    }
}
