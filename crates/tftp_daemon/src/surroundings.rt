//! What a command line is read with beside its words.

ghost use Rattle.std.specs.Prelude.{◌≡◌, ◌≤◌, false};
ghost use Rattle.std.specs.List.{list_any};
ghost use Rattle.tftp_daemon.specs.Processors.{asks_for_processors};

use crate::error_output::ErrorOutput;
use crate::processors::processors;
use std::convert::AsStr;
use std::rt::Runtime;

/// What a command line is read with beside its words.
#[derive(Clone, Copy)]
pub struct Surroundings {
    /// What standard error writes to.
    pub errors: ErrorOutput,
    /// How many servers `--servers auto` starts at each address, as far as 64 allow.
    pub processors: u8,
}

impl Surroundings {
    /// Those of a process with these words. The processors are counted only if a word asks for them.
    pub(crate) fn of<R: Runtime + AllocGlobal, S: AsStr>(rt: &R, words: &[S]) -> Surroundings
        ensures least { 1 ≤ result.processors }
        ensures unasked { list_any (λ word. asks_for_processors (S.text word)) words.now ≡ false
            → result.processors ≡ 1 }
    {
        Surroundings {
            errors: ErrorOutput::of(rt),
            processors: if ask_for_processors(words) {
                processors(rt)
            } else {
                1
            },
        }
    }
}

/// Whether one of these words may ask for the number of processors.
fn ask_for_processors<S: AsStr>(words: &[S]) -> bool
    ensures { result ≡ list_any (λ word. asks_for_processors (S.text word)) words.now }
{
    words.iter().any(|word| asks_for_processors(word.as_str()))
}

/// Whether a word may ask for the number of processors.
fn asks_for_processors(word: &str) -> bool
    ensures { result ≡ asks_for_processors word.now }
{
    word == "auto" || word == "--servers=auto"
}
