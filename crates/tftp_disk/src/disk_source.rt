//! The source of a file: the wire text of what its reads return, in order.

ghost use Rattle.std.specs.Prelude.{◌≡◌, ◌≤◌, ◌<◌, ◌+◌, ◌++◌, [], Ok, Err, IfOk, OnErr, ◌∷◌};
ghost use Rattle.std.specs.Prelude.{length, take, drop, replicate, vec_len, vec_capacity};
ghost use Rattle.tftp_disk.specs.DiskTrace.DiskEvent.{Given};
ghost use Rattle.tftp_disk.specs.Given.{GaveBytes, IsAtEnd};
ghost use Rattle.tftp_disk.specs.ReadBuffer.{ReadsSome};
ghost use Rattle.tftp_disk.specs.DiskSource.{Passes, AppendsRead, IsUnread};
ghost use Rattle.tftp_disk.specs.DiskSource.{source_calls, source_error};

use crate::ahead_buffer::AheadBuffer;
use crate::disk_file::DiskFile;
use crate::read_buffer::ReadBuffer;
use std::alloc::{AllocError, Global};
use std::io::{self, ErrorKind, Read};
use tftp_file::{FileFault, Source};
use tftp_wire::Mode;

/// A source of the wire text of a file's bytes, which are read once, in order.
///
/// It has a buffer. In octet a fill that requests at least its capacity bypasses it, and the file
/// is read into the buffer of the fill. Between fills it can read ahead as many bytes as the last
/// one requested. If a read fails, for any reason, the fill returns `Read`, as does each after it.
#[derive(Drop)]
pub struct DiskSource<F> {
    file: DiskFile<F>,
    buffer: ReadBuffer,
    ahead: AheadBuffer,
    mode: Mode,
    /// The number of bytes that the last fill requested.
    size: usize,
    /// The error of the read that failed.
    error: Option<io::Error>,
}

impl<F: Drop> DiskSource<F> {
    /// A source of what is next read of the file, with a buffer for reads of so many bytes, at
    /// least one. Reads nothing.
    pub fn new(
        alloc: Global,
        file: DiskFile<F>,
        mode: Mode,
        capacity: usize,
    ) -> Result<DiskSource<F>, AllocError>
        ensures unread { IfOk result (IsUnread mode) }
        ensures calls { IfOk result (λ source. source_calls source ≡ file.trace.events) }
    {
        Ok(DiskSource {
            file,
            buffer: ReadBuffer::new(alloc, mode, capacity.max(1))?,
            ahead: AheadBuffer::new(alloc),
            mode,
            size: 0,
            error: None,
        })
    }

    /// The error of the read that failed, if one did.
    pub fn error(&self) -> Option<io::Error>
        ensures { result ≡ source_error self.now }
    {
        self.error
    }
}

impl<F: Read> Source for DiskSource<F> {
    ghost use Rattle.std.specs.Prelude.{None, IsSome, ⊤};
    ghost use Rattle.tftp_disk.specs.DiskSource.{GivesPiece, source_error};
    ghost use Rattle.tftp_disk.specs.DiskSourceLaws.{gives_nothing};

    ghost meaning = { record {
      left = λ _. None;
      may_fail = λ _ _. ⊤;
      fails = λ source _. IsSome (source_error source);
      gives = GivesPiece;
      opens = λ _ _ _ _ _. ⊤;
    } };

    /// Always true: it constrains nothing.
    ghost is_same = { λ _ _. ⊤ };

    ghost stays = { λ _. tt };

    ghost joins = { λ _ _ _ _ _. tt };

    ghost unmoved = { gives_nothing };

    fn fill(&mut self, want: usize, out: &mut Vec<u8>) -> Result<usize, FileFault> {
        if self.error.is_some() {
            return Err(FileFault::Read);
        }
        self.size = want;
        if want <= self.ahead.len() {
            return match self.ahead.move_to(want, out) {
                Ok(()) => Ok(want),
                Err(_) => Err(FileFault::Memory),
            };
        }
        match fill_after(
            &mut self.ahead,
            &mut self.file,
            &mut self.buffer,
            self.mode,
            want,
            out,
        ) {
            Ok(count) => Ok(count),
            Err(Failure::Memory) => Err(FileFault::Memory),
            Err(Failure::Read(error)) => {
                self.error = Some(error);
                Err(FileFault::Read)
            }
        }
    }

    fn read_ahead(&mut self) {
        if self.error.is_some() || self.size == 0 || self.ahead.len() > 0 {
            return;
        }
        self.error = self
            .ahead
            .read(&mut self.file, &mut self.buffer, self.mode, self.size);
    }
}

impl<F: Read> DiskSource<F> {
    ghost use Rattle.std.specs.Prelude.{None, IsSome, OnOk, true, false};
    ghost use Rattle.tftp_disk.specs.DiskSource.{GivesPiece, HasEnded};
    ghost use Rattle.tftp_file.specs.Source.{Fills, added_to};

    /// A fill that is to be the last: it fails, as each after it, if there is more text than it
    /// requests.
    pub fn fill_last(&mut self, want: usize, out: &mut Vec<u8>) -> Result<usize, FileFault>
        ensures fills { Fills None None want out.old.items out.new.items result }
        ensures fails { IsSome (source_error self.old) → result ≡ Err FileFault.Read }
        ensures gives { GivesPiece self.old (added_to out.old.items out.new.items) self.new }
        ensures capacity { vec_capacity out.old ≤ vec_capacity out.new }
        ensures ends { OnOk result (HasEnded self.new) }
    {
        let start = out.len();
        match self.fill(want, out) {
            Ok(count) => {
                if self.ends() {
                    return Ok(count);
                }
                out.truncate(start);
                Err(FileFault::Read)
            }
            Err(fault) => Err(fault),
        }
    }

    /// Whether the text that was given is all of it: nothing is left, and a read returns nothing. If
    /// there is more, or the read fails, the source fails from now on.
    fn ends(&mut self) -> bool
        ensures gives { GivesPiece self.old [] self.new }
        ensures ends { result ≡ true → HasEnded self.new }
        ensures failed { result ≡ false → IsSome (source_error self.new) }
    {
        if self.error.is_some() {
            return false;
        }
        if self.ahead.len() > 0 {
            self.error = Some(io::Error::from(ErrorKind::InvalidData));
            return false;
        }
        match self.buffer.refill(&mut self.file, self.mode) {
            Ok(()) => {
                if self.buffer.len() == 0 {
                    return true;
                }
                self.error = Some(io::Error::from(ErrorKind::InvalidData));
                false
            }
            Err(failure) => {
                self.error = Some(failure);
                false
            }
        }
    }
}

/// Why a fill failed.
#[derive(Drop)]
pub(crate) enum Failure {
    /// There is no memory for what it requests.
    Memory,
    /// A read failed.
    Read(io::Error),
}

/// Moves all that was read ahead, if anything was, and then what follows it.
fn fill_after<F: Read>(
    ahead: &mut AheadBuffer,
    file: &mut DiskFile<F>,
    buffer: &mut ReadBuffer,
    mode: Mode,
    want: usize,
    out: &mut Vec<u8>,
) -> Result<usize, Failure>
    requires { length ahead.old ≤ want }
    ensures ok { IfOk result (Passes mode (ahead.old ++ buffer.old) (ahead.new ++ buffer.new)
        file.old.trace.events file.new.trace.events out.old.items out.new.items) }
    ensures bound { IfOk result (λ n. n ≤ want) }
    ensures end { IfOk result (λ n. n < want → IsAtEnd file.new.trace.events) }
    ensures capacity { vec_capacity out.old ≤ vec_capacity out.new }
    ensures err { OnErr result (out.new.items ≡ out.old.items) }
    ensures failed { OnErr result (ReadsSome file.old.trace.events file.new.trace.events) }
    ensures memory { result ≡ Err Failure.Memory → (file.new ≡ file.old)
        × (buffer.new ≡ buffer.old) × (ahead.new ≡ ahead.old) }
{
    let start = out.len();
    let held = ahead.len();
    let Ok(()) = out.extend_from_slice(ahead.as_slice()) else {
        return Err(Failure::Memory);
    };
    match fill_from(file, buffer, mode, want - held, out) {
        Ok(count) => {
            ahead.clear();
            Ok(held + count)
        }
        Err(failure) => {
            out.truncate(start);
            Err(failure)
        }
    }
}

/// Moves so many bytes of wire text that follow what was read ahead, or as many as are left.
pub(crate) fn fill_from<F: Read>(
    file: &mut DiskFile<F>,
    buffer: &mut ReadBuffer,
    mode: Mode,
    want: usize,
    out: &mut Vec<u8>,
) -> Result<usize, Failure>
    ensures ok { IfOk result (Passes mode buffer.old buffer.new
        file.old.trace.events file.new.trace.events out.old.items out.new.items) }
    ensures bound { IfOk result (λ n. n ≤ want) }
    ensures end { IfOk result (λ n. n < want → IsAtEnd file.new.trace.events) }
    ensures capacity { vec_capacity out.old ≤ vec_capacity out.new }
    ensures err { OnErr result (out.new.items ≡ out.old.items) }
    ensures failed { OnErr result (ReadsSome file.old.trace.events file.new.trace.events) }
    ensures memory { result ≡ Err Failure.Memory → (file.new ≡ file.old)
        × (buffer.new ≡ buffer.old) }
{
    let start = out.len();
    let Ok(()) = out.reserve(want) else {
        return Err(Failure::Memory);
    };
    let mut count = 0;
    while count < want {
        match give_some(file, buffer, mode, want - count, out) {
            Ok(0) => return Ok(count),
            Ok(more) => count += more,
            Err(error) => {
                out.truncate(start);
                return Err(Failure::Read(error));
            }
        }
    }
    Ok(count)
}

/// Moves some bytes of wire text, and returns how many: 0 at the end. The capacity of `out` is
/// enough. In octet at least as many bytes as the buffer has space for bypass it. Else the bytes are
/// from the buffer, which is filled if it is empty.
fn give_some<F: Read>(
    file: &mut DiskFile<F>,
    buffer: &mut ReadBuffer,
    mode: Mode,
    room: usize,
    out: &mut Vec<u8>,
) -> io::Result<usize>
    requires some { 0 < room }
    requires room { vec_len out.old + room ≤ vec_capacity out.old }
    ensures ok { IfOk result (Passes mode buffer.old buffer.new
        file.old.trace.events file.new.trace.events out.old.items out.new.items) }
    ensures bound { IfOk result (λ n. n ≤ room) }
    ensures end { IfOk result (λ n. n ≡ 0 → IsAtEnd file.new.trace.events) }
    ensures capacity { vec_capacity out.old ≤ vec_capacity out.new }
    ensures err { OnErr result (out.new.items ≡ out.old.items) }
    ensures failed { OnErr result (ReadsSome file.old.trace.events file.new.trace.events) }
{
    if mode == Mode::Octet && buffer.len() == 0 && room >= buffer.capacity() {
        return read_into(file, room, out);
    }
    match buffer.refill(file, mode) {
        Ok(()) => {
            let count = room.min(buffer.len());
            append_reserved(&buffer.as_slice()[..count], out);
            buffer.take(count);
            Ok(count)
        }
        Err(error) => Err(error),
    }
}

/// Reads once, at most so many bytes, to the end of `out`. Its capacity is enough.
fn read_into<F: Read>(file: &mut DiskFile<F>, room: usize, out: &mut Vec<u8>) -> io::Result<usize>
    requires { vec_len out.old + room ≤ vec_capacity out.old }
    ensures ok { IfOk result (AppendsRead file.old.trace.events file.new.trace.events
        out.old.items out.new.items) }
    ensures bound { IfOk result (λ n. n ≤ room) }
    ensures capacity { vec_capacity out.old ≤ vec_capacity out.new }
    ensures err { OnErr result (out.new.items ≡ out.old.items) }
    ensures failed { OnErr result (ReadsSome file.old.trace.events file.new.trace.events) }
{
    let start = out.len();
    append_zeros(room, out);
    match read_at(file, out.as_mut_slice(), start) {
        Ok(count) => {
            out.truncate(start + count);
            Ok(count)
        }
        Err(error) => {
            out.truncate(start);
            Err(error)
        }
    }
}

/// Reads once into the buffer, from this place on.
fn read_at<F: Read>(file: &mut DiskFile<F>, buffer: &mut [u8], at: usize) -> io::Result<usize>
    requires { at ≤ length buffer.old }
    ensures front { take at buffer.new ≡ take at buffer.old }
    ensures bound { IfOk result (λ n. at + n ≤ length buffer.new) }
    ensures noted { IfOk result (λ n. file.new.trace.events
        ≡ Given (take n (drop at buffer.new)) ∷ file.old.trace.events) }
    ensures failed { OnErr result (ReadsSome file.old.trace.events file.new.trace.events) }
{
    match file.read(&mut buffer[at..]) {
        Ok(count) => Ok(count),
        Err(error) => Err(error),
    }
}

/// Appends bytes for which there is capacity.
fn append_reserved(bytes: &[u8], out: &mut Vec<u8>)
    requires { vec_len out.old + length bytes.now ≤ vec_capacity out.old }
    ensures items { out.new.items ≡ out.old.items ++ bytes.now }
    ensures capacity { vec_capacity out.old ≤ vec_capacity out.new }
{
    let _ = out.extend_from_slice(bytes);
}

/// Appends so many zeros, for which there is capacity.
fn append_zeros(count: usize, out: &mut Vec<u8>)
    requires { vec_len out.old + count ≤ vec_capacity out.old }
    ensures items { out.new.items ≡ out.old.items ++ replicate count 0 }
    ensures capacity { vec_capacity out.old ≤ vec_capacity out.new }
{
    let _ = out.resize(out.len() + count, 0);
}
