//! The bytes of a capture, from a reader.

ghost use Rattle.std.specs.Prelude.{◌≡◌, ◌≤◌, ◌<◌, IfOk, OnOk, length, vec_len};
ghost use Rattle.tftp_capture.specs.Record.{StaysWithin};

use crate::capture::MAX_RECORD;
use crate::fault::CaptureFault;
use crate::number::first;
use std::io::{BufRead, BufReader, Read};

/// Fills a buffer, from the reader's own if that has enough. It fails if the input ends before.
pub(crate) fn fill<R: Read>(
    input: &mut BufReader<R>,
    buffer: &mut [u8],
) -> Result<(), CaptureFault> {
    let ready = input.buffer();
    if ready.len() >= buffer.len() {
        buffer.copy_from_slice(first(ready, buffer.len()));
        input.consume(buffer.len());
        return Ok(());
    }
    match input.read_exact(buffer) {
        Ok(()) => Ok(()),
        Err(error) => Err(CaptureFault::of(&error)),
    }
}

/// Fills the buffer of a header, and returns whether there is one: `false` at the input's end.
pub(crate) fn begins<R: Read>(
    input: &mut BufReader<R>,
    header: &mut [u8],
) -> Result<bool, CaptureFault>
    requires { 0 < length header.old }
{
    let (first, rest) = header.split_at_mut(1);
    match fill(input, first) {
        Ok(()) => {}
        Err(CaptureFault::Cut) => return Ok(false),
        Err(fault) => return Err(fault),
    }
    match fill(input, rest) {
        Ok(()) => Ok(true),
        Err(fault) => Err(fault),
    }
}

/// Replaces the bytes by the next `count` of the input.
pub(crate) fn take_bytes<R: Read>(
    input: &mut BufReader<R>,
    count: usize,
    bytes: &mut Vec<u8>,
) -> Result<(), CaptureFault>
    ensures ok { OnOk result (vec_len bytes.new ≡ count) }
    ensures bound { count ≤ MAX_RECORD → StaysWithin (vec_len bytes.old) (vec_len bytes.new) }
{
    match bytes.resize(count, 0) {
        Ok(()) => fill(input, bytes.as_mut_slice()),
        Err(_) => Err(CaptureFault::Memory),
    }
}

/// Passes over bytes of the input.
pub(crate) fn skip<R: Read>(input: &mut BufReader<R>, count: u64) -> Result<(), CaptureFault> {
    let mut left = count;
    let mut part = [0; 256];
    while left > 0 {
        let most = left.min(256) as usize;
        match fill(input, &mut part[..most]) {
            Ok(()) => {}
            Err(fault) => return Err(fault),
        }
        left -= most as u64;
    }
    Ok(())
}
