//! The wire text that was read ahead of the fills of a source.

ghost use Rattle.std.specs.Prelude.{◌≡◌, ◌≤◌, ◌++◌, [], None, length, drop, take, vec_capacity};
ghost use Rattle.std.specs.Prelude.{IsSome, OnOk, OnErr};
ghost use Rattle.tftp_disk.specs.DiskSource.{HoldsAhead};
ghost use Rattle.tftp_disk.specs.ReadBuffer.{ReadsSome};

use crate::disk_file::DiskFile;
use crate::disk_source::{Failure, fill_from};
use crate::read_buffer::ReadBuffer;
use std::alloc::{AllocError, Global};
use std::io::{self, Read};
use std::marker::Model;
use std::mem;
use tftp_wire::{HEADER, Mode};

/// Text that was read ahead. Its model is the text that no fill has moved yet.
///
/// If a fill requests exactly this text, and its buffer holds the header of a datagram, the two
/// buffers are exchanged, and no byte of the block is copied.
#[derive(Drop)]
pub(crate) struct AheadBuffer {
    /// Space for the header of a datagram, followed by the text.
    text: Vec<u8>,
    /// The offset of what no fill has moved yet.
    at: usize,
}

impl Model for AheadBuffer {
    ghost use Rattle.std.specs.Prelude.{ℕ, List, drop, vec_len, ◌≤◌};

    ghost Value = { List ℕ };

    ghost view = { λ a. drop a.at a.text.items };

    ghost invariant = { λ a. a.at ≤ vec_len a.text };
}

impl AheadBuffer {
    /// Nothing is read ahead. Allocates no memory.
    pub(crate) fn new(alloc: Global) -> AheadBuffer
        ensures { result ≡ [] }
    {
        AheadBuffer {
            text: Vec::new(alloc),
            at: 0,
        }
    }

    /// The length of the text, in bytes.
    pub(crate) fn len(&self) -> usize
        ensures { result ≡ length self.now }
    {
        self.text.len() - self.at
    }

    /// The text.
    pub(crate) fn as_slice(&self) -> &[u8]
        ensures { result.now ≡ self.now }
    {
        &self.text[self.at..]
    }

    /// Forgets the text.
    pub(crate) fn clear(&mut self)
        ensures { self.new ≡ [] }
    {
        self.text.clear();
        self.at = 0;
    }

    /// Moves the first bytes to the end of `out`.
    pub(crate) fn move_to(&mut self, want: usize, out: &mut Vec<u8>) -> Result<(), AllocError>
        requires { want ≤ length self.old }
        ensures given { OnOk result (out.new.items ≡ out.old.items ++ take want self.old) }
        ensures rest { OnOk result (self.new ≡ drop want self.old) }
        ensures err { OnErr result (out.new.items ≡ out.old.items) }
        ensures same { OnErr result (self.new ≡ self.old) }
        ensures capacity { vec_capacity out.old ≤ vec_capacity out.new }
    {
        if self.at == HEADER && out.len() == HEADER && out.capacity() <= self.text.capacity() {
            if self.text.len() - self.at == want {
                // Unlike `[..HEADER]`, `slice_mut` says that the text behind the header stays.
                self.text.slice_mut(..HEADER).copy_from_slice(out);
                mem::swap(&mut self.text, out);
                return Ok(());
            }
        }
        out.extend_from_slice(&self.text[self.at..self.at + want])?;
        self.at += want;
        Ok(())
    }

    /// Reads so many bytes of text ahead, after space for the header of a datagram, and returns the
    /// error of a read that failed. Out of memory nothing is read.
    pub(crate) fn read<F: Read>(
        &mut self,
        file: &mut DiskFile<F>,
        buffer: &mut ReadBuffer,
        mode: Mode,
        size: usize,
    ) -> Option<io::Error>
        ensures ok { result ≡ None → HoldsAhead mode buffer.old self.new buffer.new
            file.old.trace.events file.new.trace.events }
        ensures failed { IsSome result → ReadsSome file.old.trace.events
            file.new.trace.events }
    {
        self.text.clear();
        self.at = 0;
        if self.text.resize(HEADER, 0).is_err() {
            return None;
        }
        self.at = HEADER;
        match fill_from(file, buffer, mode, size, &mut self.text) {
            Ok(_) => None,
            Err(Failure::Memory) => None,
            Err(Failure::Read(error)) => Some(error),
        }
    }
}
