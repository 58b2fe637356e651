//! What standard error writes to.

ghost use Rattle.std.specs.Prelude.{◌≡◌, ◌↔◌, IsTrue};
ghost use Rattle.tftp_daemon.specs.declared.error_output.ErrorOutput.TheVariants.{Journal};

use std::os::unix::fs::MetadataExt;
use std::rt::Runtime;
use std::{env, fs};

/// What standard error writes to.
#[derive(Clone, Copy)]
pub enum ErrorOutput {
    /// The journal of systemd, which takes a priority off a line.
    Journal,
    /// A terminal, a file, a pipe or another device.
    Other,
}

impl ErrorOutput {
    /// It is the journal if `JOURNAL_STREAM` has its device and its inode (systemd.exec(5)). That
    /// the variable is set says nothing: a terminal that a service started inherits it.
    pub(crate) fn of<R: Runtime + AllocGlobal>(rt: &R) -> ErrorOutput {
        let Ok(stream) = env::var(rt, "JOURNAL_STREAM") else {
            return ErrorOutput::Other;
        };
        let Ok(errors) = fs::metadata(rt, "/proc/self/fd/2") else {
            return ErrorOutput::Other;
        };
        if names(stream.as_str(), errors.dev(), errors.ino()) {
            ErrorOutput::Journal
        } else {
            ErrorOutput::Other
        }
    }

    /// Whether a line begins with its priority.
    pub(crate) fn has_priority(self) -> bool
        ensures { IsTrue result ↔ (self ≡ Journal) }
    {
        match self {
            ErrorOutput::Journal => true,
            ErrorOutput::Other => false,
        }
    }
}

/// Whether a word is `DEVICE:INODE` of these two.
fn names(word: &str, device: u64, inode: u64) -> bool {
    match word.split_once(':') {
        Some((first, second)) => is_number(first, device) && is_number(second, inode),
        None => false,
    }
}

/// Whether a word is this number.
fn is_number(word: &str, number: u64) -> bool {
    match word.parse::<u64>() {
        Ok(found) => found == number,
        Err(_) => false,
    }
}
