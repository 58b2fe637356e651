//! The wire text of a file's bytes that were read and not yet taken.

ghost use Rattle.std.specs.Prelude.{ℕ, ◌≡◌, ◌≤◌, List, ◌∷◌, [], length, drop, IfOk, OnOk, OnErr};
ghost use Rattle.tftp_disk.specs.DiskTrace.DiskEvent.{Given};
ghost use Rattle.tftp_disk.specs.ReadBuffer.{Refills, ReadsSome};
ghost use Rattle.tftp_file.specs.Netascii.{netascii_text};
ghost use Rattle.tftp_wire.specs.declared.mode.Mode.TheVariants.{Octet, Netascii};

use crate::disk_file::DiskFile;
use std::alloc::{AllocError, Global};
use std::io::{self, ErrorKind, Read};
use std::marker::Model;
use tftp_file::NetEncoder;
use tftp_wire::Mode;

/// Wire text of bytes that were read of a file. Its model is the text that was not yet taken.
///
/// In octet the file is read into it. In netascii a read is encoded at once.
#[derive(Drop)]
pub(crate) struct ReadBuffer {
    text: Vec<u8>,
    at: usize,
    end: usize,
    /// The bytes of one read in netascii.
    bytes: Vec<u8>,
}

impl Model for ReadBuffer {
    ghost use Rattle.std.specs.Prelude.{ℕ, List, drop, take, vec_len, ◌≤◌, ◌-◌};

    ghost Value = { List ℕ };

    ghost view = { λ a. take (a.end - a.at) (drop a.at a.text.items) };

    ghost invariant = { λ a. (a.at ≤ a.end) × (a.end ≤ vec_len a.text) };
}

impl ReadBuffer {
    /// An empty buffer for reads of so many bytes.
    pub(crate) fn new(alloc: Global, mode: Mode, capacity: usize) -> Result<ReadBuffer, AllocError>
        ensures { IfOk result (λ buffer. buffer ≡ []) }
    {
        let (text, bytes) = match mode {
            Mode::Octet => (zeros(alloc, capacity)?, Vec::new(alloc)),
            Mode::Netascii => (
                Vec::with_capacity(alloc, capacity.saturating_mul(2))?,
                zeros(alloc, capacity)?,
            ),
        };
        Ok(ReadBuffer {
            text,
            at: 0,
            end: 0,
            bytes,
        })
    }

    /// How many bytes one read in octet requests.
    pub(crate) fn capacity(&self) -> usize {
        self.text.len()
    }

    /// The length of the text that is left, in bytes.
    pub(crate) fn len(&self) -> usize
        ensures { result ≡ length self.now }
    {
        self.end - self.at
    }

    /// The text that is left.
    pub(crate) fn as_slice(&self) -> &[u8]
        ensures { result.now ≡ self.now }
    {
        &self.text[self.at..self.end]
    }

    /// Takes the first bytes.
    pub(crate) fn take(&mut self, count: usize)
        requires { count ≤ length self.old }
        ensures { self.new ≡ drop count self.old }
    {
        self.at += count;
    }

    /// Reads once if nothing is left. It also fails when out of memory, and then what was read is
    /// lost.
    pub(crate) fn refill<F: Read>(&mut self, file: &mut DiskFile<F>, mode: Mode) -> io::Result<()>
        ensures ok { OnOk result (Refills mode file.old.trace.events file.new.trace.events
            self.old self.new) }
        ensures err { OnErr result (ReadsSome file.old.trace.events file.new.trace.events) }
    {
        if self.at < self.end {
            return Ok(());
        }
        match mode {
            Mode::Octet => match file.read(self.text.as_mut_slice()) {
                Ok(count) => {
                    self.at = 0;
                    self.end = count;
                    Ok(())
                }
                Err(error) => Err(error),
            },
            Mode::Netascii => {
                self.at = 0;
                self.end = 0;
                match read_lines(file, &mut self.bytes, &mut self.text) {
                    Ok(()) => {
                        self.end = self.text.len();
                        Ok(())
                    }
                    Err(error) => Err(error),
                }
            }
        }
    }
}

/// So many zeros.
fn zeros(alloc: Global, count: usize) -> Result<Vec<u8>, AllocError> {
    let mut zeros = Vec::with_capacity(alloc, count)?;
    zeros.resize(count, 0)?;
    Ok(zeros)
}

/// Reads once, and makes `text` the netascii of what was read.
fn read_lines<F: Read>(
    file: &mut DiskFile<F>,
    bytes: &mut Vec<u8>,
    text: &mut Vec<u8>,
) -> io::Result<()>
    ensures ok { OnOk result ((read : List ℕ) × (text.new.items ≡ netascii_text read)
        × (file.new.trace.events ≡ Given read ∷ file.old.trace.events)) }
    ensures err { OnErr result (ReadsSome file.old.trace.events file.new.trace.events) }
{
    text.clear();
    match file.read(bytes.as_mut_slice()) {
        Ok(count) => match NetEncoder::new().push(&bytes[..count], text) {
            Ok(()) => Ok(()),
            Err(_) => Err(io::Error::from(ErrorKind::OutOfMemory)),
        },
        Err(error) => Err(error),
    }
}
