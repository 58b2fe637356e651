//! The next line of a reader. `memchr` finds its line feed among the bytes that are buffered.

ghost use Rattle.std.specs.Prelude.{◌≡◌, ◌≢◌, ◌≤◌, ◌+◌, ◌++◌, ◌⊎◌, IfErr, IfOk, IfSome, IsErr};
ghost use Rattle.std.specs.Prelude.{Ok, OnOk, false, vec_len};
ghost use Rattle.std.specs.Io.BufRead.{DropsThrough, take_through};
ghost use Rattle.std.specs.Io.KnownBytes.{IsAtEnd};
ghost use Rattle.std.specs.IoError.{error_kind};
ghost use Rattle.tftp_show.specs.Lines.{IsLinePart, ReadsLine};
ghost use Rattle.tftp_show.specs.declared.show.fault.ShowFault.TheVariants.{Long, Memory};
ghost use Rattle.tftp_show.specs.declared.show.fault.ShowFault.TheVariants.{Unreadable};

use crate::show::fault::ShowFault;
use memchr::memchr;
use std::io::{self, BufRead, ErrorKind};

/// The most bytes after which a line is read on: more than any line has that is shown.
const MOST: usize = 132_000;

/// Appends the next line with its line feed, and returns its length, which is 0 at the end. A line
/// that is longer than that of any datagram, with the other fields of a capture, is not read on.
pub(crate) fn read_line<R: BufRead>(input: &mut R, line: &mut Vec<u8>) -> Result<usize, ShowFault>
    ensures ok { IfOk result (λ n. vec_len line.new ≡ vec_len line.old + n) }
    ensures bytes { OnOk result (IfSome (R.remaining input.old) (λ left.
        line.new.items ≡ line.old.items ++ take_through 10 left)) }
    ensures rest { OnOk result (DropsThrough (R.remaining input.old) (R.remaining input.new) 10) }
    ensures end { IfOk result (λ n. n ≡ 0 → IsAtEnd (R.remaining input.old)) }
    ensures fault { IfErr result (λ fault.
        (fault ≡ Memory) ⊎ (fault ≡ Unreadable) ⊎ (fault ≡ Long)) }
{
    let start = line.len();
    for _ in 0..u64::MAX {
        if append_buffered(input, line)? {
            return Ok(line.len() - start);
        }
    }
    Err(ShowFault::Unreadable)
}

/// Appends what is buffered of the line, and returns whether the line ends there; a line that is too
/// long already is refused.
fn append_buffered<R: BufRead>(input: &mut R, line: &mut Vec<u8>) -> Result<bool, ShowFault>
    ensures grows { vec_len line.old ≤ vec_len line.new }
    ensures reads { IfOk result (λ ends.
        ReadsLine ends (R.remaining input.old) (R.remaining input.new)
        line.old.items line.new.items) }
    ensures fault { IfErr result (λ fault.
        (fault ≡ Memory) ⊎ (fault ≡ Unreadable) ⊎ (fault ≡ Long)) }
{
    if line.len() > MOST {
        return Err(ShowFault::Long);
    }
    let buffered = match input.fill_buf() {
        Ok(buffered) => buffered,
        Err(error) => return unless_interrupted(&error),
    };
    let (count, ends) = line_part(buffered);
    line.extend_from_slice(&buffered[..count])?;
    input.consume(count);
    Ok(ends)
}

/// The fault for this error of reading, or `false` if the read is to be tried again.
fn unless_interrupted(error: &io::Error) -> Result<bool, ShowFault>
    ensures again { error_kind error.now ≡ ErrorKind.Interrupted → result ≡ Ok false }
    ensures only { error_kind error.now ≢ ErrorKind.Interrupted → IsErr result }
    ensures goes_on { IfOk result (λ ends. ends ≡ false) }
    ensures fault { IfErr result (λ fault.
        (fault ≡ Memory) ⊎ (fault ≡ Unreadable) ⊎ (fault ≡ Long)) }
{
    if error.kind() == ErrorKind::Interrupted {
        Ok(false)
    } else {
        Err(ShowFault::of_reading(error))
    }
}

/// How many of the buffered bytes belong to the line, and whether it ends there: with its line
/// feed, or since no bytes are left.
fn line_part(buffered: &[u8]) -> (usize, bool)
    ensures { IsLinePart buffered.now result.0 result.1 }
{
    match memchr(b'\n', buffered) {
        Some(at) => (at + 1, true),
        None => (buffered.len(), buffered.is_empty()),
    }
}
