//! Why a script is not played to its end, and the message for it.

ghost use Rattle.std.specs.Prelude.{◌≡◌, ◌≢◌, ◌⊎◌, IsTrue, ◌↔◌, true};
ghost use Rattle.std.specs.IoError.{error_kind};
ghost use Rattle.std.specs.declared.io.ErrorKind.TheVariants as error_kinds;
ghost use Rattle.tftp_play.specs.declared.play.fault.PlayFault.TheVariants.{Closed, Memory};
ghost use Rattle.tftp_play.specs.declared.play.fault.PlayFault.TheVariants.{Undrawn, Unreadable};
ghost use Rattle.tftp_play.specs.declared.play.fault.PlayFault.TheVariants.{Unwritable};
ghost use Rattle.tftp_play.specs.Play.{is_undrawn, is_unreadable, play_fault_of};

use crate::script::{FaultyLine, ScriptFault};
use std::fmt;
use std::io::{self, ErrorKind, Write};

/// What messages call the files of a run.
#[derive(Clone, Copy)]
pub(crate) struct Playing<'a> {
    pub(crate) script: &'a str,
    pub(crate) picture: &'a str,
}

/// The most bytes of a faulty word that a message shows.
const MOST_SHOWN: usize = 100;

/// Why a script was not played to its end.
#[derive(Clone, Copy)]
pub(crate) enum PlayFault {
    /// The script could not be opened or read, for an error of this kind.
    Unreadable(ErrorKind),
    /// The first faulty line of the script.
    Line(FaultyLine),
    /// Writing failed.
    Unwritable,
    /// The output is a pipe that nobody reads any more.
    Closed,
    /// The picture could not be opened or written, for an error of this kind.
    Undrawn(ErrorKind),
    /// An allocation failed.
    Memory,
}

impl PlayFault {
    /// The fault for this error of opening or reading a script.
    pub(crate) fn of_reading(error: &io::Error) -> PlayFault
        ensures memory { error_kind error.now ≡ ErrorKind.OutOfMemory → result ≡ Memory }
        ensures unreadable { error_kind error.now ≢ ErrorKind.OutOfMemory
            → result ≡ Unreadable (error_kind error.now) }
        ensures either { (result ≡ Memory) ⊎ (is_unreadable result ≡ true) }
    {
        if is_of(error, ErrorKind::OutOfMemory) {
            PlayFault::Memory
        } else {
            PlayFault::Unreadable(error.kind())
        }
    }

    /// The fault for this error of opening or writing a picture.
    pub(crate) fn of_drawing(error: &io::Error) -> PlayFault
        ensures memory { error_kind error.now ≡ ErrorKind.OutOfMemory → result ≡ Memory }
        ensures undrawn { error_kind error.now ≢ ErrorKind.OutOfMemory
            → result ≡ Undrawn (error_kind error.now) }
        ensures either { (result ≡ Memory) ⊎ (is_undrawn result ≡ true) }
    {
        if is_of(error, ErrorKind::OutOfMemory) {
            PlayFault::Memory
        } else {
            PlayFault::Undrawn(error.kind())
        }
    }

    /// Writes the message of the fault and, on a line of its own, its cause, and returns the status
    /// of the program. There is none for a closed pipe: whoever closed it wants no more, as `head`
    /// does after its last line. `script` is the text of the script, as far as it was read.
    pub(crate) fn report<E: Write>(self, how: Playing<'_>, script: &[u8], errors: &mut E) -> u8
        ensures { result ≡ 2 }
    {
        if let PlayFault::Closed = self {
            return 2;
        }
        let _ = writeln!(errors, "{self}");
        let _ = match self {
            PlayFault::Unreadable(kind) => write_error(how.script, kind, errors),
            PlayFault::Undrawn(kind) => write_error(how.picture, kind, errors),
            PlayFault::Line(line) => write_flaw(line, script, errors),
            PlayFault::Unwritable | PlayFault::Closed | PlayFault::Memory => Ok(()),
        };
        2
    }
}

/// Writes which error a file had.
fn write_error<E: Write>(name: &str, kind: ErrorKind, errors: &mut E) -> io::Result<()> {
    match error_words(kind) {
        Some(words) => writeln!(errors, "tftp-play: {name}: {words}"),
        None => writeln!(errors, "tftp-play: {name}: {kind}"),
    }
}

/// The words of the system for the commonest errors of a file.
fn error_words(kind: ErrorKind) -> Option<&'static str> {
    if kind == ErrorKind::NotFound {
        return Some("no such file or directory");
    }
    if kind == ErrorKind::PermissionDenied {
        return Some("permission denied");
    }
    if kind == ErrorKind::StorageFull {
        return Some("no space left on the device");
    }
    None
}

/// Writes what is wrong in a faulty line, and the word that is at fault.
fn write_flaw<E: Write>(line: FaultyLine, script: &[u8], errors: &mut E) -> io::Result<()> {
    let flaw = line.flaw;
    match line.word(script) {
        None => writeln!(errors, "tftp-play: {flaw}"),
        Some(word) => {
            let shown = &word[..word.len().min(MOST_SHOWN)];
            writeln!(errors, "tftp-play: {flaw}: {}", shown.escape_ascii())
        }
    }
}

impl fmt::Display for PlayFault {
    ghost use Rattle.std.specs.Prelude.{Some};
    ghost use Rattle.tftp_play.specs.Play.{fault_text};

    ghost output = { λ fault. Some (fault_text fault) };

    fn fmt<W: fmt::Write>(&self, f: &mut fmt::Formatter<W>) -> fmt::Result {
        let text = match self {
            PlayFault::Line(FaultyLine { number, .. }) => return write!(f, "line {number}: fault"),
            PlayFault::Unreadable(_) => "script: unreadable",
            PlayFault::Unwritable => "output: unwritable",
            PlayFault::Closed => "output: closed",
            PlayFault::Undrawn(_) => "svg: unwritable",
            PlayFault::Memory => "out of memory",
        };
        f.write_str(text)
    }
}

impl From<ScriptFault> for PlayFault {
    ghost from_gives = { λ script_fault fault. fault ≡ play_fault_of script_fault };

    fn from(fault: ScriptFault) -> PlayFault {
        match fault {
            ScriptFault::Line(line) => PlayFault::Line(line),
            ScriptFault::Memory => PlayFault::Memory,
        }
    }
}

/// The fault for this error of writing.
impl From<io::Error> for PlayFault {
    ghost from_gives = { λ error fault.
        (error_kind error ≡ error_kinds.OutOfMemory → fault ≡ Memory)
        × (error_kind error ≡ error_kinds.BrokenPipe → fault ≡ Closed)
        × (error_kind error ≢ error_kinds.OutOfMemory → error_kind error ≢ error_kinds.BrokenPipe
        → fault ≡ Unwritable) };

    fn from(error: io::Error) -> PlayFault {
        if is_of(&error, ErrorKind::OutOfMemory) {
            PlayFault::Memory
        } else if is_of(&error, ErrorKind::BrokenPipe) {
            PlayFault::Closed
        } else {
            PlayFault::Unwritable
        }
    }
}

fn is_of(error: &io::Error, kind: ErrorKind) -> bool
    ensures { IsTrue result ↔ (error_kind error.now ≡ kind) }
{
    error.kind() == kind
}
