//! The length of a file in netascii, by one pass over it.

ghost use Rattle.std.specs.Prelude.{◌≤◌, IfOk, IfErr};
ghost use Rattle.tftp_disk.specs.Measuring.{CountsChunk, CountsPass, IsNotGiven, StaysOpen, calls_on};

use crate::disk_file::DiskFile;
use std::io::{self, Read};
use tftp_file::{MAX_WIRE, wire_length_within};
use tftp_wire::Mode;

/// How many bytes are read at once.
const CHUNK: usize = 8_192;

/// The longest text on the wire of so many bytes.
const MOST_IN_CHUNK: u64 = 2 * CHUNK as u64;

/// How long a text is, as one pass over its file counted.
#[derive(Clone, Copy)]
pub struct TextLength {
    /// The number of its bytes.
    pub bytes: u64,
    /// Its length in netascii, in bytes.
    pub wire_bytes: u64,
}

/// The length of an open file and of its text in netascii. The file is read from where it stands to
/// its end, at most until the text is longer than `MAX_WIRE`: then it is `None`.
pub fn count_netascii<F: Read + Drop>(file: &mut DiskFile<F>) -> io::Result<Option<TextLength>>
    ensures counts { IfOk result (CountsPass (calls_on file.old) (calls_on file.new)) }
    ensures refused { IfErr result (IsNotGiven (calls_on file.new)) }
    ensures stays { StaysOpen file.old file.new }
{
    let mut chunk = [0; CHUNK];
    let mut total = TextLength {
        bytes: 0,
        wire_bytes: 0,
    };
    while total.wire_bytes <= MAX_WIRE {
        let count = count_next(file, &mut chunk)?;
        if count.wire_bytes == 0 {
            return Ok(Some(total));
        }
        total.bytes += count.bytes;
        total.wire_bytes += count.wire_bytes;
    }
    Ok(None)
}

/// Reads the next bytes, and counts them and their text in netascii: none at the end.
fn count_next<F: Read + Drop>(
    file: &mut DiskFile<F>,
    chunk: &mut [u8; CHUNK],
) -> io::Result<TextLength>
    ensures within { IfOk result (λ count. count.wire_bytes ≤ MOST_IN_CHUNK) }
    ensures few { IfOk result (λ count. count.bytes ≤ count.wire_bytes) }
    ensures counts { IfOk result (λ count. CountsChunk (calls_on file.old) (calls_on file.new)
        count) }
    ensures refused { IfErr result (IsNotGiven (calls_on file.new)) }
    ensures stays { StaysOpen file.old file.new }
{
    match file.read(&mut chunk[..]) {
        Ok(count) => Ok(TextLength {
            bytes: count as u64,
            wire_bytes: wire_length_within(&chunk[..count], Mode::Netascii, MOST_IN_CHUNK),
        }),
        Err(error) => Err(error),
    }
}
