//! The frames of a capture, one after the other.

ghost use Rattle.std.specs.Prelude.{vec_len};
ghost use Rattle.tftp_capture.specs.Record.{StaysWithin};

use crate::block::{Blocks, Found, SECTION};
use crate::classic::Classic;
use crate::fault::CaptureFault;
use crate::input::fill;
use crate::link::Link;
use std::alloc::Global;
use std::io::{BufReader, Read};

/// The longest record that is read, in bytes: what `tcpdump` captures of a frame at most.
pub const MAX_RECORD: usize = 262_144;

/// Link and time of a frame.
#[derive(Clone, Copy)]
pub(crate) struct Stamp {
    pub(crate) link: Link,
    pub(crate) micros: u64,
}

/// What a capture says of a frame.
#[derive(Clone, Copy)]
pub struct Record {
    /// Its number, counted from 1.
    pub number: u64,
    /// How it begins.
    pub link: Link,
    /// When it was captured, in microseconds since 1970; 0 if the capture does not say.
    pub micros: u64,
}

#[derive(Drop)]
enum Format {
    /// No byte was read.
    Unread,
    Classic(Classic),
    Blocks(Blocks),
}

/// A capture that is read frame by frame.
#[derive(Drop)]
pub struct Capture<R> {
    alloc: Global,
    input: BufReader<R>,
    format: Format,
    frames: u64,
}

/// Whether an input that begins with these four bytes is a capture.
pub fn is_capture(head: [u8; 4]) -> bool {
    Classic::magic(head).is_some() || u32::from_be_bytes(head) == SECTION
}

impl<R: Read> Capture<R> {
    /// A capture of which no byte was read.
    pub fn new(alloc: Global, input: BufReader<R>) -> Capture<R> {
        Capture {
            alloc,
            input,
            format: Format::Unread,
            frames: 0,
        }
    }

    /// Reads the next frame into `bytes`: `None` at the end.
    ///
    /// After a fault the capture is not read on. `bytes` is never longer than [`MAX_RECORD`], nor
    /// than the capture says that the frame is.
    pub fn next_frame(&mut self, bytes: &mut Vec<u8>) -> Result<Option<Record>, CaptureFault>
        ensures { StaysWithin (vec_len bytes.old) (vec_len bytes.new) }
    {
        for _ in 0..u64::MAX {
            match self.next_found(bytes) {
                Ok(Found::Packet(stamp)) => return Ok(Some(self.record_of(stamp))),
                Ok(Found::Other) => {}
                Ok(Found::End) => return Ok(None),
                Err(fault) => return Err(fault),
            }
        }
        Ok(None)
    }

    /// The reader.
    pub fn get_ref(&self) -> &BufReader<R> {
        &self.input
    }

    fn next_found(&mut self, bytes: &mut Vec<u8>) -> Result<Found, CaptureFault>
        ensures { StaysWithin (vec_len bytes.old) (vec_len bytes.new) }
    {
        match &mut self.format {
            Format::Unread => self.read_head(),
            Format::Classic(classic) => classic.next(&mut self.input, bytes),
            Format::Blocks(blocks) => blocks.next(&mut self.input, bytes),
        }
    }

    /// Reads the header of the capture.
    fn read_head(&mut self) -> Result<Found, CaptureFault> {
        let mut head = [0; 4];
        match fill(&mut self.input, &mut head) {
            Ok(()) => {}
            Err(fault) => return Err(fault),
        }
        if u32::from_be_bytes(head) == SECTION {
            match Blocks::read(self.alloc, &mut self.input) {
                Ok(blocks) => self.format = Format::Blocks(blocks),
                Err(fault) => return Err(fault),
            }
        } else {
            match Classic::read(head, &mut self.input) {
                Ok(classic) => self.format = Format::Classic(classic),
                Err(fault) => return Err(fault),
            }
        }
        Ok(Found::Other)
    }

    fn record_of(&mut self, stamp: Stamp) -> Record {
        self.frames = self.frames.saturating_add(1);
        Record {
            number: self.frames,
            link: stamp.link,
            micros: stamp.micros,
        }
    }
}
