//! A reader and a writer that can fail, for the runs of the programs.

use std::alloc::Global;
use std::io::{self, ErrorKind, Read, Write};

/// Returns its bytes, and then ends or fails.
#[derive(Drop)]
pub(crate) struct Input {
    pub(crate) bytes: &'static [u8],
    pub(crate) breaks: bool,
}

impl Read for Input {
    fn read(&mut self, buf: &mut [u8]) -> io::Result<usize> {
        if self.breaks && self.bytes.is_empty() {
            return Err(io::Error::from(ErrorKind::TimedOut));
        }
        self.bytes.read(buf)
    }
}

/// What a writer does.
#[derive(Clone, Copy)]
pub(crate) enum Takes {
    /// It accepts everything.
    All,
    /// It accepts nothing: the disk is full.
    Full,
    /// It accepts nothing: it is a pipe that nobody reads any more.
    Closed,
}

/// A writer, and what it has accepted.
#[derive(Drop)]
pub(crate) struct Output {
    pub(crate) takes: Takes,
    pub(crate) bytes: Vec<u8>,
}

impl Output {
    pub(crate) fn new(alloc: Global, takes: Takes) -> Output {
        Output {
            takes,
            bytes: Vec::new(alloc),
        }
    }
}

impl Write for Output {
    fn write(&mut self, bytes: &[u8]) -> io::Result<usize> {
        match self.takes {
            Takes::All => self.bytes.write(bytes),
            Takes::Full => Err(io::Error::from(ErrorKind::StorageFull)),
            Takes::Closed => Err(io::Error::from(ErrorKind::BrokenPipe)),
        }
    }

    fn flush(&mut self) -> io::Result<()> {
        Ok(())
    }
}
