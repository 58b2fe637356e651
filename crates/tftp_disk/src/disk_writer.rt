//! A file that is written block by block, after the blocks are acknowledged.

ghost use Rattle.std.specs.Prelude.{◌≡◌, ◌≢◌, ◌<◌, ◌≤◌, ◌-◌, ◌++◌, ◌∷◌, [], IfOk, OnOk, OnErr};
ghost use Rattle.std.specs.Prelude.{length, take, drop, vec_len, vec_capacity, IsTrue, ◌↔◌, ◌⊎◌};
ghost use Rattle.tftp_disk.specs.DiskTrace.{written};
ghost use Rattle.tftp_disk.specs.DiskTrace.DiskEvent.{Examined, Synced, Mode_set};
ghost use Rattle.tftp_disk.specs.DiskWriter.{calls_of, handed, IsRefused, IsShort, NoSyncs};

use crate::disk_file::DiskFile;
use crate::found::Found;
use std::alloc::{AllocError, Global};
use std::fs::OpenFile;
use std::io::{self, ErrorKind, Write};
use tftp_wire::MAX_BLOCK;

/// The bytes in the buffer from which on it is due: so few that the write ends before the peer has
/// sent its next block.
const FLUSH_AT: usize = 8_192;

/// The capacity of the write buffer, in bytes: before it is due there is space for any block.
const WRITE_BUFFER: usize = FLUSH_AT + MAX_BLOCK as usize;

/// How often a write is tried that a signal interrupts.
const MOST_TRIES: u32 = 1_000;

/// A file that is written block by block. It buffers what is appended until [`DiskWriter::flush`],
/// at most 8 KiB and a block.
#[derive(Drop)]
pub struct DiskWriter<F> {
    file: DiskFile<F>,
    buffer: Vec<u8>,
}

/// A buffer for a [`DiskWriter`].
pub fn write_buffer(alloc: Global) -> Result<Vec<u8>, AllocError>
    ensures empty { IfOk result (λ buffer. buffer.items ≡ []) }
    ensures room { IfOk result (λ buffer. WRITE_BUFFER ≤ vec_capacity buffer) }
{
    Vec::with_capacity(alloc, WRITE_BUFFER)
}

impl<F: Write> DiskWriter<F> {
    /// A writer over a buffer, whose bytes are lost.
    pub fn new(file: DiskFile<F>, mut buffer: Vec<u8>) -> DiskWriter<F>
        ensures file { result.file ≡ file }
        ensures empty { result.buffer.items ≡ [] }
        ensures room { vec_capacity buffer ≤ vec_capacity result.buffer }
    {
        buffer.clear();
        DiskWriter { file, buffer }
    }

    /// Appends a block to the buffer, after writing what is in the buffer if there is no space.
    pub fn append(&mut self, bytes: &[u8]) -> io::Result<()>
        ensures ok { OnOk result (handed self.new ≡ handed self.old ++ bytes.now) }
        ensures err { OnErr result (handed self.new ≡ handed self.old) }
        ensures refused { OnErr result (IsRefused (calls_of self.new)
            ⊎ IsShort (length bytes.now) self.old) }
        ensures same { NoSyncs (calls_of self.old) (calls_of self.new) }
        ensures room { vec_capacity self.old.buffer ≤ vec_capacity self.new.buffer }
    {
        if self.buffer.len().saturating_add(bytes.len()) > WRITE_BUFFER {
            self.flush()?;
        }
        match self.buffer.extend_from_slice(bytes) {
            Ok(()) => Ok(()),
            Err(_) => Err(io::Error::from(ErrorKind::OutOfMemory)),
        }
    }

    /// Writes the buffer to the file. After a failure the bytes that were not written stay in it.
    pub fn flush(&mut self) -> io::Result<()>
        ensures handed { handed self.new ≡ handed self.old }
        ensures empty { OnOk result (self.new.buffer.items ≡ []) }
        ensures refused { OnErr result (IsRefused (calls_of self.new)) }
        ensures same { NoSyncs (calls_of self.old) (calls_of self.new) }
        ensures room { vec_capacity self.old.buffer ≤ vec_capacity self.new.buffer }
    {
        while !self.buffer.is_empty() {
            self.write_some()?;
        }
        Ok(())
    }

    /// Writes some bytes of the buffer to the file.
    fn write_some(&mut self) -> io::Result<()>
        requires { 0 < vec_len self.old.buffer }
        ensures handed { handed self.new ≡ handed self.old }
        ensures fewer { OnOk result (vec_len self.new.buffer < vec_len self.old.buffer) }
        ensures refused { OnErr result (IsRefused (calls_of self.new)) }
        ensures same { NoSyncs (calls_of self.old) (calls_of self.new) }
        ensures room { vec_capacity self.old.buffer ≤ vec_capacity self.new.buffer }
    {
        match write_again(&mut self.file, self.buffer.as_slice()) {
            Ok(0) => Err(io::Error::from(ErrorKind::WriteZero)),
            Ok(count) => {
                remove_front(&mut self.buffer, count);
                Ok(())
            }
            Err(error) => Err(error),
        }
    }

    /// Whether the buffer is to be written.
    pub fn is_due(&self) -> bool
        ensures { IsTrue result ↔ FLUSH_AT ≤ vec_len self.now.buffer }
    {
        self.buffer.len() >= FLUSH_AT
    }

    /// The file.
    pub fn file(&self) -> &DiskFile<F>
        ensures { result.now ≡ self.now.file }
    {
        &self.file
    }
}

impl<F: OpenFile> DiskWriter<F> {
    /// Looks at the file.
    pub fn examine(&mut self) -> io::Result<Found>
        ensures calls { calls_of self.new ≡ Examined result ∷ calls_of self.old }
        ensures buffer { self.new.buffer ≡ self.old.buffer }
    {
        self.file.examine()
    }

    /// Syncs the bytes that are written, and what is needed to read them.
    pub fn sync_data(&mut self) -> io::Result<()>
        ensures calls { calls_of self.new ≡ Synced result ∷ calls_of self.old }
        ensures buffer { self.new.buffer ≡ self.old.buffer }
    {
        self.file.sync_data()
    }

    /// Syncs the file as it is written.
    pub fn sync_all(&mut self) -> io::Result<()>
        ensures calls { calls_of self.new ≡ Synced result ∷ calls_of self.old }
        ensures buffer { self.new.buffer ≡ self.old.buffer }
    {
        self.file.sync_all()
    }

    /// Sets the permissions of the file.
    pub fn set_mode(&mut self, mode: u32) -> io::Result<()>
        ensures calls { calls_of self.new ≡ Mode_set mode result ∷ calls_of self.old }
        ensures buffer { self.new.buffer ≡ self.old.buffer }
    {
        self.file.set_mode(mode)
    }
}

/// Writes some of the bytes, again while a signal interrupts the call.
fn write_again<F: Write>(file: &mut DiskFile<F>, bytes: &[u8]) -> io::Result<usize>
    ensures bound { IfOk result (λ count. count ≤ length bytes.now) }
    ensures ok { IfOk result (λ count. written file.new.trace.events
        ≡ written file.old.trace.events ++ take count bytes.now) }
    ensures err { OnErr result (written file.new.trace.events
        ≡ written file.old.trace.events) }
    ensures none { IfOk result (λ count. count ≡ 0 → IsRefused file.new.trace.events) }
    ensures refused { OnErr result (IsRefused file.new.trace.events) }
    ensures same { NoSyncs file.old.trace.events file.new.trace.events }
{
    for _try in 1..MOST_TRIES {
        match file.write(bytes) {
            Ok(count) => return Ok(count),
            Err(error) => {
                if error.kind() != ErrorKind::Interrupted {
                    return Err(error);
                }
            }
        }
    }
    file.write(bytes)
}

/// Removes the first bytes.
fn remove_front(buffer: &mut Vec<u8>, count: usize)
    requires { count ≤ vec_len buffer.old }
    ensures items { buffer.new.items ≡ drop count buffer.old.items }
    ensures len { vec_len buffer.new ≡ vec_len buffer.old - count }
    ensures room { vec_capacity buffer.old ≤ vec_capacity buffer.new }
{
    let len = buffer.len();
    buffer.as_mut_slice().copy_within(count..len, 0);
    buffer.truncate(len - count);
}
