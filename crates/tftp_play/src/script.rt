//! The script of `tftp-play`: its lines and their meaning.

ghost use Rattle.std.specs.Prelude.{◌≡◌, ◌≢◌, true, IfErr};
ghost use Rattle.tftp_play.specs.declared.script.ScriptFault.TheVariants.{Line};
ghost use Rattle.tftp_server.specs.Config.{IsConfig};
ghost use Rattle.tftp_store.specs.Memory.{contents, has_distinct_paths};

mod files;
mod flaw;
mod keyword;
mod line;
mod parser;
mod setting;
mod statement;
mod word;

pub use flaw::{FaultyLine, Flaw};
use line::LineFault;
use parser::Parser;
pub use statement::{PlayableEvent, Statement};
use std::alloc::Global;
use tftp_file::Path;
use tftp_server::Config;

/// A script: the configuration, the server's files, and the statements.
#[derive(Drop)]
pub struct Script {
    /// The configuration of the server and the clients.
    pub config: Config,
    /// The server's files, each with its bytes.
    pub files: Vec<(Path, Vec<u8>)>,
    /// The statements and the comments, in order.
    pub statements: Vec<Statement>,
    ghost valid: { IsConfig config },
    ghost distinct: { has_distinct_paths (contents files.items) ≡ true },
}

/// Why a script cannot be played.
#[derive(Clone, Copy)]
pub enum ScriptFault {
    /// The first faulty line.
    Line(FaultyLine),
    /// An allocation failed; no line is at fault.
    Memory,
}

impl Script {
    /// Parses a whole script: lines that end in LF, each of words that are separated by one space.
    /// Empty lines are ignored, and lines that begin with `#` are comments.
    ///
    /// `Line` names the first line that is not one of the language, or that no LF ends; what is wrong in
    /// it; and in which word.
    pub fn parse(alloc: Global, text: &[u8]) -> Result<Script, ScriptFault>
        ensures counted { IfErr result (λ fault. (line : FaultyLine) → fault ≡ Line line
            → line.number ≢ 0) }
    {
        let mut parser = Parser::new(alloc);
        match parse_lines(&mut parser, text) {
            Ok(()) => Ok(parser.finish()),
            Err(fault) => Err(fault),
        }
    }
}

/// Parses the lines of a script, up to the first that is faulty.
fn parse_lines(parser: &mut Parser, text: &[u8]) -> Result<(), ScriptFault>
    ensures counted { IfErr result (λ fault. (line : FaultyLine) → fault ≡ Line line
        → line.number ≢ 0) }
{
    for (index, line) in text.split_inclusive(|byte| *byte == b'\n').enumerate() {
        match parser.parse_line(line) {
            Ok(()) => {}
            Err(LineFault::Faulty(flaw, place)) => {
                return Err(ScriptFault::Line(FaultyLine {
                    number: index + 1,
                    flaw,
                    place,
                }));
            }
            Err(LineFault::Memory) => return Err(ScriptFault::Memory),
        }
    }
    Ok(())
}
