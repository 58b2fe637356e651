//! The words of a command line, and the messages for faulty ones.

ghost use Rattle.std.specs.Prelude.{◌≡◌, ◌⊎◌, is_ok};
ghost use Rattle.clap.specs.Values.{kind_of};
ghost use Rattle.tftp_arguments.specs.Fault.{HasStatus, IsZeroForText, usage_status};
ghost use Rattle.tftp_arguments.specs.Read.{IsFlag, value_text};
ghost use Rattle.tftp_arguments.specs.Rules.{HasRule, flag_rule, number_rule, word_rule};

use clap::builder::ValueParser;
use clap::{Arg, ArgAction, ArgMatches};
use std::alloc::Global;
use std::env;
use std::io::{self, ErrorKind};
use std::rt::Runtime;

/// The text that `--version` prints after a program's name: the version, and the logic of the
/// toolchain that proves it, as `rt version` prints that.
pub const VERSION: &str = "0.1.0 (logic dac8208d650f15bf)";

/// What is printed of a command line with a word that is not UTF-8, as `clap` prints its faults.
const NOT_TEXT: &str = "\
error: a word of the command line is not UTF-8

For more information, try '--help'.";

/// Why a program's own command line was not read.
#[derive(Clone, Copy, Debug, PartialEq, Eq)]
pub enum WordsFault {
    /// A word is not UTF-8.
    NotText,
    /// Out of memory.
    Memory,
}

/// The words of the program's own command line.
pub fn own_words<R: Runtime + AllocGlobal>(rt: &R) -> Result<Vec<String>, WordsFault> {
    let args = match env::args(rt) {
        Ok(args) => args,
        Err(error) => return Err(words_fault(&error)),
    };
    let mut words = Vec::new(rt.alloc());
    for word in args {
        if words.push(word).is_err() {
            return Err(WordsFault::Memory);
        }
    }
    Ok(words)
}

/// The fault for an error at the reading of the words.
fn words_fault(error: &io::Error) -> WordsFault {
    if error.kind() == ErrorKind::InvalidData {
        WordsFault::NotText
    } else {
        WordsFault::Memory
    }
}

/// Reports on standard error why a program's own command line was not read, and returns the status
/// for it. A word that is not UTF-8 is a usage fault.
pub fn print_words_fault<R: Eprint>(rt: &R, program: &str, fault: WordsFault) -> u8
    ensures { result ≡ 2 }
{
    match fault {
        WordsFault::NotText => {
            let _ = rt.eprintln(NOT_TEXT);
            2
        }
        WordsFault::Memory => print_no_memory(rt, program),
    }
}

/// Prints the help, the version or the fault of a command line, and returns the status for it: 0
/// for a help or a version that was printed, and else 2.
pub fn print_usage<R: Print + Eprint>(rt: &R, error: &clap::Error) -> u8
    ensures ends { (result ≡ 0) ⊎ (result ≡ 2) }
    ensures fault { HasStatus (kind_of error.now) result }
    ensures text { IsZeroForText error.now result }
{
    usage_status(error, error.print(rt))
}

/// The status for an error by whether its text was printed.
fn usage_status(error: &clap::Error, printed: io::Result<()>) -> u8
    ensures { result ≡ usage_status (kind_of error.now) (is_ok printed) }
{
    if error.use_stderr() || printed.is_err() {
        2
    } else {
        0
    }
}

/// Reports on standard error that the program is out of memory, and returns the status for it.
pub fn print_no_memory<R: Eprint>(rt: &R, program: &str) -> u8
    ensures { result ≡ 2 }
{
    let _ = eprintln!(rt; "{program}: out of memory");
    2
}

/// A required positional word.
pub fn word<'a>(alloc: Global, name: &'a str, help: &'a str) -> Arg<'a>
    ensures { HasRule (word_rule name.now) result }
{
    Arg::new(alloc, name).required(true).help(help)
}

/// An option `--name N` with a number. Its range is shown as its value, so that the help and each
/// fault name it.
pub fn number<'a>(
    alloc: Global,
    name: &'a str,
    range: &'a str,
    parser: ValueParser<'a>,
    help: &'a str,
) -> Arg<'a>
    ensures { HasRule (number_rule name.now parser.entry) result }
{
    Arg::new(alloc, name)
        .long(name)
        .value_name(range)
        .value_parser(parser)
        .help(help)
}

/// An option `--name` without a value.
pub fn flag<'a>(alloc: Global, name: &'a str, help: &'a str) -> Arg<'a>
    ensures { HasRule (flag_rule name.now) result }
{
    Arg::new(alloc, name)
        .long(name)
        .action(ArgAction::SetTrue)
        .help(help)
}

/// Whether an option without a value is set.
pub fn is_set(matches: &ArgMatches<'_>, name: &str) -> bool
    ensures { IsFlag (value_text matches.now name.now) result }
{
    matches.get_flag(name)
}
