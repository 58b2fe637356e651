//! The blocks of pcapng: sections, interfaces and packets. Other blocks are passed over.

ghost use Rattle.std.specs.Prelude.{◌≡◌, ◌+◌, ◌≤◌, IfErr, IfSome, OnOk, vec_len};
ghost use Rattle.tftp_capture.specs.declared.fault.CaptureFault.TheVariants as capture_faults;
ghost use Rattle.tftp_capture.specs.declared.block.TheConstants.{CLOSING};
ghost use Rattle.tftp_capture.specs.Record.{StaysWithin};

use crate::capture::{MAX_RECORD, Stamp};
use crate::fault::CaptureFault;
use crate::input::{begins, fill, skip, take_bytes};
use crate::order::Order;
use crate::section::Section;
use std::alloc::Global;
use std::io::{BufReader, Read};

/// The type of a section's block, which reads the same in both byte orders.
pub(crate) const SECTION: u32 = 0x0a0d_0d0a;

/// The bytes after a block's body: the block's length again.
const CLOSING: u64 = 4;

const INTERFACE: u32 = 1;

const SIMPLE: u32 = 3;

const ENHANCED: u32 = 6;

/// What a block was.
#[derive(Clone, Copy)]
pub(crate) enum Found {
    /// A packet, whose frame is in the buffer.
    Packet(Stamp),
    /// Something else.
    Other,
    /// None: the capture is at its end.
    End,
}

/// The blocks of a capture.
#[derive(Drop)]
pub(crate) struct Blocks {
    alloc: Global,
    section: Section,
    /// What is left of the last block, its length at the end of it too.
    left: u64,
}

impl Blocks {
    /// Reads the header of the first section after its type.
    pub(crate) fn read<R: Read>(
        alloc: Global,
        input: &mut BufReader<R>,
    ) -> Result<Blocks, CaptureFault> {
        let mut size = [0; 4];
        match fill(input, &mut size) {
            Ok(()) => Blocks::begin(alloc, u32::from_be_bytes(size), input),
            Err(fault) => Err(fault),
        }
    }

    /// Reads the byte order of a section, whose block has this length if its highest byte is first.
    fn begin<R: Read>(
        alloc: Global,
        size: u32,
        input: &mut BufReader<R>,
    ) -> Result<Blocks, CaptureFault> {
        let mut magic = [0; 4];
        match fill(input, &mut magic) {
            Ok(()) => {}
            Err(fault) => return Err(fault),
        }
        let (order, length) = match u32::from_be_bytes(magic) {
            0x1a2b_3c4d => (Order::Big, size),
            0x4d3c_2b1a => (Order::Little, size.swap_bytes()),
            _ => return Err(CaptureFault::Format),
        };
        // type, length and byte order are read
        match left_of(length, 12) {
            Some(left) => Ok(Blocks {
                alloc,
                section: Section::new(alloc, order),
                left,
            }),
            None => Err(CaptureFault::Block),
        }
    }

    /// Reads the next block.
    pub(crate) fn next<R: Read>(
        &mut self,
        input: &mut BufReader<R>,
        bytes: &mut Vec<u8>,
    ) -> Result<Found, CaptureFault>
        ensures { StaysWithin (vec_len bytes.old) (vec_len bytes.new) }
    {
        match skip(input, self.left) {
            Ok(()) => self.left = 0,
            Err(fault) => return Err(fault),
        }
        let mut header = [0; 8];
        match begins(input, &mut header) {
            Ok(true) => self.read_block(input, header, bytes),
            Ok(false) => Ok(Found::End),
            Err(fault) => Err(fault),
        }
    }

    fn read_block<R: Read>(
        &mut self,
        input: &mut BufReader<R>,
        header: [u8; 8],
        bytes: &mut Vec<u8>,
    ) -> Result<Found, CaptureFault>
        ensures { StaysWithin (vec_len bytes.old) (vec_len bytes.new) }
    {
        let order = self.section.order;
        let kind = order.number(&header, 0);
        if kind == SECTION {
            return self.read_section(input, Order::Big.number(&header, 4));
        }
        self.left = match left_of(order.number(&header, 4), 8) {
            Some(left) => left,
            None => return Err(CaptureFault::Block),
        };
        match kind {
            INTERFACE => self.read_interface(input, bytes),
            SIMPLE => self.read_simple(input, bytes),
            ENHANCED => self.read_enhanced(input, bytes),
            _ => Ok(Found::Other),
        }
    }

    /// Begins another section, with interfaces of its own.
    fn read_section<R: Read>(
        &mut self,
        input: &mut BufReader<R>,
        size: u32,
    ) -> Result<Found, CaptureFault> {
        match Blocks::begin(self.alloc, size, input) {
            Ok(blocks) => *self = blocks,
            Err(fault) => return Err(fault),
        }
        Ok(Found::Other)
    }

    /// Takes so many bytes of the block's body.
    fn take_part<R: Read>(
        &mut self,
        input: &mut BufReader<R>,
        count: u64,
        bytes: &mut Vec<u8>,
    ) -> Result<(), CaptureFault>
        ensures { StaysWithin (vec_len bytes.old) (vec_len bytes.new) }
    {
        if count > MAX_RECORD as u64 {
            return Err(CaptureFault::TooLong);
        }
        match self.pass(count) {
            Ok(()) => {}
            Err(fault) => return Err(fault),
        }
        take_bytes(input, count as usize, bytes)
    }

    fn read_interface<R: Read>(
        &mut self,
        input: &mut BufReader<R>,
        bytes: &mut Vec<u8>,
    ) -> Result<Found, CaptureFault>
        ensures { StaysWithin (vec_len bytes.old) (vec_len bytes.new) }
    {
        let count = self.left.saturating_sub(CLOSING);
        match self.take_part(input, count, bytes) {
            Ok(()) => {}
            Err(fault) => return Err(fault),
        }
        match self.section.add_interface(bytes.as_slice()) {
            Ok(()) => Ok(Found::Other),
            Err(fault) => Err(fault),
        }
    }

    fn read_simple<R: Read>(
        &mut self,
        input: &mut BufReader<R>,
        bytes: &mut Vec<u8>,
    ) -> Result<Found, CaptureFault>
        ensures { StaysWithin (vec_len bytes.old) (vec_len bytes.new) }
    {
        let mut header = [0; 4];
        match self.take_header(input, &mut header) {
            Ok(()) => {}
            Err(fault) => return Err(fault),
        }
        let length = self.section.order.number(&header, 0);
        let count = self.section.captured(length);
        match self.take_part(input, u64::from(count), bytes) {
            Ok(()) => Ok(Found::Packet(self.section.stamp(0, 0))),
            Err(fault) => Err(fault),
        }
    }

    fn read_enhanced<R: Read>(
        &mut self,
        input: &mut BufReader<R>,
        bytes: &mut Vec<u8>,
    ) -> Result<Found, CaptureFault>
        ensures { StaysWithin (vec_len bytes.old) (vec_len bytes.new) }
    {
        let mut header = [0; 20];
        match self.take_header(input, &mut header) {
            Ok(()) => {}
            Err(fault) => return Err(fault),
        }
        let order = self.section.order;
        let (high, low) = (order.number(&header, 4), order.number(&header, 8));
        let ticks = u64::from(high) * 0x1_0000_0000 + u64::from(low);
        let stamp = self.section.stamp(order.number(&header, 0), ticks);
        let count = order.number(&header, 12);
        match self.take_part(input, u64::from(count), bytes) {
            Ok(()) => Ok(Found::Packet(stamp)),
            Err(fault) => Err(fault),
        }
    }

    /// Fills a buffer with the next bytes of the block's body.
    fn take_header<R: Read>(
        &mut self,
        input: &mut BufReader<R>,
        header: &mut [u8],
    ) -> Result<(), CaptureFault> {
        match self.pass(header.len() as u64) {
            Ok(()) => fill(input, header),
            Err(fault) => Err(fault),
        }
    }

    /// Counts bytes of the block's body as read.
    fn pass(&mut self, count: u64) -> Result<(), CaptureFault>
        ensures ok { OnOk result (CLOSING ≤ self.new.left) }
        ensures counted { OnOk result (self.new.left + count ≡ self.old.left) }
        ensures err { IfErr result (λ fault. fault ≡ capture_faults.Block) }
    {
        match self.left.checked_sub(count) {
            Some(left) if left >= CLOSING => self.left = left,
            _ => return Err(CaptureFault::Block),
        }
        Ok(())
    }
}

/// What is left of a block of this length after its first bytes: at least the length again.
fn left_of(length: u32, read: u32) -> Option<u64>
    ensures { IfSome result (λ left. (CLOSING ≤ left) × (left + read ≡ length)) }
{
    if length % 4 != 0 {
        return None;
    }
    let left = u64::from(length.checked_sub(read)?);
    if left < CLOSING { None } else { Some(left) }
}
